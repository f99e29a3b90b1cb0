ghost use Rattle.std.specs.Prelude.{◌≡◌};
ghost use Rattle.avm_ops.specs.Table.{row_of};

macro_rules! only {
    ($n:expr) => {
        Count {
            least: $n,
            counted: false,
        }
    };
}

macro_rules! and_counted {
    ($n:expr) => {
        Count {
            least: $n,
            counted: true,
        }
    };
}

macro_rules! entry {
    ($format:expr, $action:expr, $cost:expr, $pops:expr, $pushes:expr) => {
        Some(Row {
            format: $format,
            action: $action,
            cost: $cost,
            pops: $pops,
            pushes: $pushes,
        })
    };
}

mod high;
mod low;

use crate::rows::Row;
use high::HIGH;
use low::LOW;

/// The row of an opcode, or `None` where it isn't in the table (AVM specification, "Opcodes").
pub fn row(op: u8) -> Option<Row>
    ensures { result ≡ row_of op }
{
    if op < 128 {
        LOW[usize::from(op)]
    } else {
        HIGH[usize::from(op) - 128]
    }
}
