//! Functions that are kept, and a caller that shares one.
ghost use Rattle.std.specs.Prelude.{◌≡◌, ◌+◌, ◌%◌, ◌≤◌};
ghost use Rattle.pace.specs.Asked.{IsWellFormed};

use pace::{Braking, Pacer, Pacing, Progress, Turn};
use std::sync::Wait;
use std::thread::{Threads, join};

/// A batch has the size that was asked for.
#[derive(Drop)]
pub struct AsAsked;

impl Pacing for AsAsked {
    ghost use Rattle.std.specs.Prelude.{◌≡◌};

    ghost may = { λ _ _. Unit {0} };

    ghost gives = { λ _ p n. n ≡ p.batch };

    fn size(&self, progress: Progress) -> u32 {
        progress.batch
    }
}

/// A batch has one row more for each row that is done, and begins again with one at each 10,000.
#[derive(Drop)]
pub struct Rising;

impl Pacing for Rising {
    ghost use Rattle.std.specs.Prelude.{◌≡◌, ◌+◌, ◌%◌};

    ghost may = { λ _ _. Unit {0} };

    ghost gives = { λ _ p n. n ≡ p.done % 10000 + 1 };

    fn size(&self, progress: Progress) -> u32 {
        progress.done % 10_000 + 1
    }
}

/// The filling stops once as many rows are done as was asked for.
#[derive(Drop)]
pub struct AtPause;

impl Braking for AtPause {
    ghost use Rattle.std.specs.Prelude.{◌≡◌, nat_le, if◌then◌else◌};
    ghost use Rattle.pace.specs.declared.progress.Turn.TheVariants.{Go, Stop};

    ghost may = { λ _ _. Unit {0} };

    ghost gives = { λ _ p t. t ≡ (if nat_le p.pause p.done then Stop else Go) };

    fn turn(&self, progress: Progress) -> Turn {
        if progress.pause <= u64::from(progress.done) {
            Turn::Stop
        } else {
            Turn::Go
        }
    }
}

/// What two threads are answered, which share one pacer.
pub fn ask_by_two<R: Threads + Wait + Sync>(
    rt: &R,
    pacer: &Pacer<Rising>,
    first: Progress,
    second: Progress,
) -> (u32, u32)
    requires first { IsWellFormed first }
    requires second { IsWellFormed second }
    ensures first { result.0 ≡ first.done % 10000 + 1 }
    ensures second { result.1 ≡ second.done % 10000 + 1 }
{
    join(
        rt,
        move || -> u32
            requires { IsWellFormed first }
            ensures { result ≡ first.done % 10000 + 1 }
        { pacer.ask(first) },
        move || -> u32
            requires { IsWellFormed second }
            ensures { result ≡ second.done % 10000 + 1 }
        { pacer.ask(second) },
    )
}
