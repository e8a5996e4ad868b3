//! A caller in which one seat surely waits.
ghost use Rattle.std.specs.Prelude.{◌≡◌, [], ◌∷◌, length, IfOk, IfErr};
ghost use Rattle.latch.specs.Seats.{HasEntered, IsSeatOf, given, places, seen};
ghost use Rattle.latch_tests.specs.Own.{IsWhole, base_of};
ghost use Rattle.latch_tests.specs.Seated.{HasAdded, IsOne};

use crate::callers::{Both, Told, add_all, open_both};
use crate::desk::Desk;
use latch::{Latch, Seat};
use std::alloc::Global;
use std::sync::Wait;
use std::sync::atomic::AtomicU64;
use std::thread::{Threads, join};
use std::time::Duration;

/// What the waiting seat was told, and the desk at the end.
#[derive(Drop)]
pub struct Waited {
    pub desk: Desk,
    pub told: Told,
}

// Sleeps for about half a second, since nobody wakes those who park on this word.
fn rest<R: Wait>(rt: &R) {
    let word = AtomicU64::new(0);
    for _ in 0..5 {
        word.park_timeout(rt, 0, Duration::from_millis(100));
    }
}

// Leaves after a rest, with the desk as it was given.
fn leave_late<R: Wait>(rt: &R, latch: &Latch<Desk>, mut seat: Seat<Desk>, desk: Desk) -> Seat<Desk>
    requires own { IsSeatOf base_of latch.now seat }
    requires one { places seat ≡ 0 ∷ [] }
    requires entered { HasEntered seat }
    requires given { given seat ≡ desk.history.items }
    requires base { desk.base ≡ latch.now.first.base }
    ensures { IsOne latch.now 0 result }
{
    rest(rt);
    latch.leave(&mut seat, desk);
    seat
}

/// One seat has its turn and rests. A second thread is started meanwhile, which wants to add its amounts, and so waits until the first seat leaves. At the end the desk has the amounts in their order and no others of the second seat.
///
/// An Err gives the desk back, and is want of memory.
pub fn add_while_held<R: Threads + Wait + Sync>(
    rt: &R,
    alloc: Global,
    desk: Desk,
    amounts: &[u64],
) -> Result<Waited, Desk>
    requires { desk.history.items ≡ [] }
    ensures base { IfOk result (λ r. r.desk.base ≡ desk.base) }
    ensures added { IfOk result (λ r. IsWhole 1 amounts.now r.told r.desk.history.items) }
    ensures err { IfErr result (λ d. d ≡ desk) }
{
    let Both {
        latch,
        first: mut kept,
        second: other,
    } = open_both(alloc, desk)?;
    let desk = latch.enter(rt, &mut kept);
    let shared = &latch;
    let (mut kept, two) = join(
        rt,
        move || -> Seat<Desk>
            requires { IsSeatOf base_of shared.now kept × (places kept ≡ 0 ∷ []) × HasEntered kept
                × (given kept ≡ desk.history.items) × (desk.base ≡ shared.now.first.base) }
            ensures { IsOne shared.entry.now 0 result }
        { leave_late(rt, shared, kept, desk) },
        move || -> (Seat<Desk>, Told)
            requires { IsOne shared.now 1 other × (length (seen other) ≡ 0) }
            ensures { HasAdded shared.entry.now 1 amounts.entry.now other result.0 result.1 }
        { add_all(rt, shared, other, 1, amounts, 0) },
    );
    let (other, told) = two;
    latch.join(&mut kept, other);
    let desk = latch.close(kept);
    Ok(Waited { desk, told })
}
