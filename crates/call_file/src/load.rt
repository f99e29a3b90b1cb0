ghost use Rattle.std.specs.Prelude.{map, Option};
ghost use Rattle.serde_json.specs.Data.{Data};
ghost use Rattle.serde_json.specs.View.{view};
ghost use Rattle.avm_state.specs.LedgerState.{LedgerState};
ghost use Rattle.call_file.specs.Faults.{Puts, Reads};
ghost use Rattle.call_file.specs.Loads.{load, load_within};

use crate::fault::FormFault;
use crate::forms::Form;
use crate::values::items;
use avm_state::Ledger;
use serde_json::Value;
use std::alloc::Global;

/// How an item of a list goes into a ledger.
pub(crate) trait Part: Drop {
    /// The ledger with it, or none where it may not go there.
    ghost puts: { Self → LedgerState → Data → Option LedgerState };

    /// Puts it into the ledger, which is not used again where this fails.
    fn put(&self, alloc: Global, item: &Value, ledger: &mut Ledger) -> Result<(), FormFault>
        ensures { Puts (puts self.now ledger.old (view item.now)) ledger.new result };
}

/// The ledger with all the items.
fn load_all<P: Part>(
    alloc: Global,
    part: &P,
    items: &[Value],
    mut ledger: Ledger,
) -> Result<Ledger, FormFault>
    ensures { Reads (load (P.puts part.now) ledger (map view items.now)) result }
{
    for item in items {
        part.put(alloc, item, &mut ledger)?;
    }
    Ok(ledger)
}

/// A list of at most so many items, all of which go into the ledger.
#[derive(Drop)]
pub(crate) struct Load<P> {
    pub(crate) part: P,
    pub(crate) most: usize,
    pub(crate) ledger: Ledger,
}

impl<P: Part> Form<Ledger> for Load<P> {
    ghost reads = { λ form. load_within form.most (P.puts form.part) form.ledger };

    fn read(self, alloc: Global, value: &Value) -> Result<Ledger, FormFault> {
        let Load { part, most, ledger } = self;
        match items(value, most) {
            Some(items) => load_all(alloc, &part, items, ledger),
            None => Err(FormFault::Bad),
        }
    }
}
