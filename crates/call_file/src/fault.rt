ghost use Rattle.call_file.specs.Faults.{Faults};
ghost use Rattle.call_file.specs.declared.fault.CallFault.TheVariants.{Missing, Bad};

use puya_base::{Memory, Name};
use std::alloc::{AllocError, AllocFailed, Global};

/// Why a call file is not read.
#[derive(Debug, Drop)]
pub enum CallFault {
    /// The text is no JSON object.
    Json,
    /// The field of that name is not there.
    Missing(Name),
    /// The value of the field of that name is not of its form.
    Bad(Name),
    /// Memory ran out.
    Memory,
}

/// Why a value is not read.
#[derive(Clone, Copy, Debug, PartialEq, Eq)]
pub(crate) enum FormFault {
    /// It is not of the form.
    Bad,
    /// Memory ran out.
    Memory,
}

impl From<Memory> for FormFault {
    ghost use Rattle.std.specs.Prelude.{◌≡◌};
    ghost use Rattle.call_file.specs.declared.fault.FormFault.{FormFault};

    ghost from_gives = { λ _ e. e ≡ FormFault.Memory };

    fn from(_e: Memory) -> FormFault {
        FormFault::Memory
    }
}

impl From<AllocError> for FormFault {
    ghost use Rattle.std.specs.Prelude.{◌≡◌};
    ghost use Rattle.call_file.specs.declared.fault.FormFault.{FormFault};

    ghost from_gives = { λ _ e. e ≡ FormFault.Memory };

    fn from(_e: AllocError) -> FormFault {
        FormFault::Memory
    }
}

impl<T: Drop> From<AllocFailed<T>> for FormFault {
    ghost use Rattle.std.specs.Prelude.{◌≡◌};
    ghost use Rattle.call_file.specs.declared.fault.FormFault.{FormFault};

    ghost from_gives = { λ _ e. e ≡ FormFault.Memory };

    fn from(_e: AllocFailed<T>) -> FormFault {
        FormFault::Memory
    }
}

/// The field of that name is not there.
pub(crate) fn missing(alloc: Global, name: &str) -> CallFault
    ensures { Faults (Missing name.now) result }
{
    match Name::new(alloc, name) {
        Ok(name) => CallFault::Missing(name),
        Err(_) => CallFault::Memory,
    }
}

/// The field of that name is bad.
pub(crate) fn bad(alloc: Global, name: &str) -> CallFault
    ensures { Faults (Bad name.now) result }
{
    match Name::new(alloc, name) {
        Ok(name) => CallFault::Bad(name),
        Err(_) => CallFault::Memory,
    }
}
