//! Where records are kept.
ghost use Rattle.std.specs.Prelude.{◌≡◌, ◌⊎◌, ◌≤◌, ◌++◌, [], ◌∷◌, ℕ, List, length, OnOk, OnErr, IsErrOf, Err};
ghost use Rattle.pg_io.specs.Causes.{Rose};
ghost use Rattle.journal.specs.Records.{IsRecord, front, Passes};

use sql_base::NoMemory;

/// Why a record wasn't kept.
#[derive(Clone, Copy, Debug, PartialEq, Eq)]
pub enum KeepFault {
    /// The disk failed. The keeper is to be opened again.
    Failed,
    /// The record would pass the limit of 1,073,741,824 bytes; its gate would have stood at `len`.
    Full { len: u64 },
}

/// A list of records to which one more is added at a time.
///
/// A record has 1 to 134,217,728 bytes, which nobody looks at here. Room for it is made beforehand, so that an
/// append takes no memory.
pub trait Keeper {
    // Whether it tells its records: the clauses on them are of keepers that do.
    ghost tells: { Type 0 };

    // what it means, but for its spare room
    ghost Meaning: { Type 0 };

    ghost meaning: { Self → Meaning };

    // the records, in order
    ghost records: { Self → List (List ℕ) };

    // whether a record may be appended
    ghost stands: { Self → Type 0 };

    // for how many bytes of a record there is spare room
    ghost room: { Self → ℕ };

    // how often it has failed
    ghost faults: { Self → ℕ };

    // what an append of a record may have done besides, whatever it answered
    ghost appends: { Meaning → Meaning → List ℕ → Type 0 };

    /// Makes spare room for one record of up to `n` bytes, and changes nothing else.
    fn reserve(&mut self, n: u32) -> Result<(), NoMemory>
        ensures room { OnOk result (n ≤ room self.new) }
        ensures same { meaning self.new ≡ meaning self.old }
        ensures records { records self.new ≡ records self.old }
        ensures stands { stands self.old → stands self.new }
        ensures faults { faults self.new ≡ faults self.old };

    /// Adds a record at the end. After an error the list is as before; after `Failed` nothing more can be appended.
    fn append(&mut self, body: &[u8]) -> Result<(), KeepFault>
        requires body { IsRecord body.now }
        requires room { length body.now ≤ room self.old }
        requires stands { stands self.old }

        ensures kept { tells → OnOk result (records self.new ≡ records self.old ++ body.now ∷ []) }
        ensures undone { tells → OnErr result (records self.new ≡ records self.old) }
        ensures appends { appends (meaning self.old) (meaning self.new) body.now }
        ensures stands { ¬ IsErrOf result KeepFault.Failed → stands self.new }
        ensures fallen { IsErrOf result KeepFault.Failed → ¬ stands self.new }

        // `Failed` comes only where it failed, and `Full` exactly where the record passes the limit.
        ensures failed { IsErrOf result KeepFault.Failed → Rose (faults self.old) (faults self.new) }
        ensures passed { IsErrOf result KeepFault.Failed ⊎ (faults self.new ≡ faults self.old) }
        ensures full { tells → Passes (length (front (records self.old))) body.now → result ≡ Err (KeepFault.Full (length (front (records self.old)))) }
        ensures only_full { (len : ℕ) → result ≡ Err (KeepFault.Full len) → (tells → (len ≡ length (front (records self.old))) × Passes len body.now) × (meaning self.new ≡ meaning self.old) }
        ensures later { faults self.old ≤ faults self.new };
}
