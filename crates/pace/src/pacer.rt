//! A kept function that sizes batches.
ghost use Rattle.std.specs.Prelude.{◌≡◌, ℕ};
ghost use Rattle.pace.specs.Asked.{GivesSizes, IsBatchSize, IsWellFormed, MayBeAsked};
ghost use Rattle.pace.specs.declared.progress.Progress.{Progress};

use crate::progress::Progress;
use std::marker::Model;

/// A function from a progress to the number of rows that the next batch fills.
pub trait Pacing {
    // it may be asked of this progress
    ghost may: { Self → Progress → Type 0 };

    // it may answer this number
    ghost gives: { Self → Progress → ℕ → Type 0 };

    /// Its answer.
    fn size(&self, progress: Progress) -> u32
        requires { may self.now progress }
        ensures { gives self.now progress result };
}

/// Keeps a function that says how many rows the next batch fills. Contracts see it as that function.
///
/// It may be asked of every well-formed progress, and answers 1 to 10,000.
#[derive(Drop)]
pub struct Pacer<F: Pacing> {
    kept: F,
}

impl<F: Pacing> Model for Pacer<F> {
    ghost use Rattle.pace.specs.Asked.{GivesSizes, MayBeAsked};

    ghost Value = { F };

    ghost coded = { F.code };

    ghost view = { λ it. it.kept };

    ghost invariant = { λ it. MayBeAsked F.may it.kept × GivesSizes F.gives it.kept };
}

impl<F: Pacing> Pacer<F> {
    /// Keeps a function that may be asked of every well-formed progress, and answers 1 to 10,000.
    pub fn new(f: F) -> Pacer<F>
        requires asked { MayBeAsked F.may f }
        requires sizes { GivesSizes F.gives f }
        ensures { result ≡ f }
    {
        Pacer { kept: f }
    }

    /// What the kept function answers to this progress, which is well formed: the number of rows that the next batch fills, 1 to 10,000.
    pub fn ask(&self, progress: Progress) -> u32
        requires { IsWellFormed progress }
        ensures answer { F.gives self.now progress result }
        ensures size { IsBatchSize result }
    {
        self.kept.size(progress)
    }
}
