//! A small value for the lock: a number that stays, and a list of entries.
ghost use Rattle.std.specs.Prelude.{◌≡◌, ◌≤◌, [], ◌∷◌, ◌++◌, length, take};
ghost use Rattle.latch_tests.specs.Own.{entries};

use counted::Counted;

/// What an actor added.
#[derive(Clone, Copy, PartialEq, Eq, Debug)]
pub struct Entry {
    /// The place of the seat that added it.
    pub actor: Option<u64>,
    pub amount: u64,
}

/// A number that stays, and the entries so far.
#[derive(Drop)]
pub struct Desk {
    pub base: u64,
    pub history: Vec<Entry>,
}

impl Counted for Desk {
    type Base = u64;

    type Item = Entry;

    ghost base = { λ d. d.base };

    ghost list = { λ d. d.history.items };

    ghost actor = { λ e. e.actor };

    fn entries(&self) -> u64 {
        self.history.len() as u64
    }
}

impl Desk {
    /// Adds an entry, and says how many it added: none where there is no memory.
    pub fn add(&mut self, actor: u64, amount: u64) -> usize
        ensures base { self.new.base ≡ self.old.base }
        ensures one { result ≤ 1 }
        ensures list { self.new.history.items ≡ self.old.history.items ++ entries actor (take result (amount ∷ [])) }
    {
        if self.history.reserve(1).is_err() {
            return 0;
        }
        self.history.push_reserved(Entry {
            actor: Some(actor),
            amount,
        });
        1
    }
}
