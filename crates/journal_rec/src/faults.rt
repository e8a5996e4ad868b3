//! Why a body doesn't read.
ghost use Rattle.std.specs.Prelude.{◌≡◌};
ghost use Rattle.journal_rec.specs.declared.faults.RecordFault.TheVariants.{NoMemory as WantOfMemory};

use sql_base::NoMemory;

/// Why no record was read.
#[derive(Clone, Copy, Debug, PartialEq, Eq)]
pub enum RecordFault {
    /// The bytes are the body of no record.
    Bad,
    /// Memory was refused.
    NoMemory,
}

impl From<NoMemory> for RecordFault {
    ghost from_gives = { λ _ e. e ≡ WantOfMemory };

    fn from(_refused: NoMemory) -> RecordFault {
        RecordFault::NoMemory
    }
}
