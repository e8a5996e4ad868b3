//! A kept function that may end the filling.
ghost use Rattle.std.specs.Prelude.{◌≡◌};
ghost use Rattle.pace.specs.Asked.{IsWellFormed, MayBeAsked};
ghost use Rattle.pace.specs.declared.progress.Progress.{Progress};
ghost use Rattle.pace.specs.declared.progress.Turn.{Turn};

use crate::progress::{Progress, Turn};
use std::marker::Model;

/// A function from a progress to whether there is a next batch.
pub trait Braking {
    // it may be asked of this progress
    ghost may: { Self → Progress → Type 0 };

    // it may answer this turn
    ghost gives: { Self → Progress → Turn → Type 0 };

    /// Its answer.
    fn turn(&self, progress: Progress) -> Turn
        requires { may self.now progress }
        ensures { gives self.now progress result };
}

/// Keeps a function that says whether there is a next batch. Contracts see it as that function.
///
/// It may be asked of every well-formed progress.
#[derive(Drop)]
pub struct Brake<B: Braking> {
    kept: B,
}

impl<B: Braking> Model for Brake<B> {
    ghost use Rattle.pace.specs.Asked.{MayBeAsked};

    ghost Value = { B };

    ghost coded = { B.code };

    ghost view = { λ it. it.kept };

    ghost invariant = { λ it. MayBeAsked B.may it.kept };
}

impl<B: Braking> Brake<B> {
    /// Keeps a function that may be asked of every well-formed progress.
    pub fn new(b: B) -> Brake<B>
        requires { MayBeAsked B.may b }
        ensures { result ≡ b }
    {
        Brake { kept: b }
    }

    /// What the kept function answers to this progress, which is well formed.
    pub fn ask(&self, progress: Progress) -> Turn
        requires { IsWellFormed progress }
        ensures { B.gives self.now progress result }
    {
        self.kept.turn(progress)
    }
}
