//! Callers of the lock.
ghost use Rattle.std.specs.Prelude.{◌≡◌, ◌<◌, ℕ, [], ◌∷◌, length, IfOk, IfErr};
ghost use Rattle.latch.specs.Lists.{Begins};
ghost use Rattle.latch.specs.Seats.{IsNew, seen};
ghost use Rattle.latch_tests.specs.Own.{IsWhole, actor_of, base_of};
ghost use Rattle.latch_tests.specs.Seated.{HasAdded, IsOne};

use crate::desk::Desk;
use counted::Counted;
use latch::{Latch, Opened, Seat};
use std::alloc::Global;
use std::sync::Wait;
use std::thread::{Threads, join};

/// What a seat was told.
#[derive(Clone, Copy, Debug)]
pub struct Told {
    /// How many of its amounts it added.
    pub added: usize,
    /// How many entries of the history it has seen.
    pub seen: u64,
}

/// What two seats were told, and the desk at the end.
#[derive(Drop)]
pub struct Run {
    pub desk: Desk,
    pub first: Told,
    pub second: Told,
}

// A latch and its two seats.
pub(crate) struct Both {
    pub(crate) latch: Latch<Desk>,
    pub(crate) first: Seat<Desk>,
    pub(crate) second: Seat<Desk>,
}

// Adds an amount in one turn.
fn add_one<R: Wait>(
    rt: &R,
    latch: &Latch<Desk>,
    seat: &mut Seat<Desk>,
    place: u64,
    amount: u64,
) -> Told
    requires { IsOne latch.now place seat.old }
    ensures { HasAdded latch.now place (amount ∷ []) seat.old seat.new result }
{
    let mut desk = latch.enter(rt, seat);
    let added = desk.add(place, amount);
    let seen = desk.entries();
    latch.leave(seat, desk);
    Told { added, seen }
}

// Adds amounts, each in a turn of its own, until there is no memory for one.
fn add_each<R: Wait>(
    rt: &R,
    latch: &Latch<Desk>,
    seat: &mut Seat<Desk>,
    place: u64,
    amounts: &[u64],
    so_far: u64,
) -> Told
    requires one { IsOne latch.now place seat.old }
    requires seen { length (seen seat.old) ≡ so_far }
    ensures { HasAdded latch.now place amounts.now seat.old seat.new result }
{
    let Some((amount, rest)) = amounts.split_first() else {
        return Told {
            added: 0,
            seen: so_far,
        };
    };
    let one = add_one(rt, latch, seat, place, *amount);
    if one.added == 0 {
        return one;
    }
    let more = add_each(rt, latch, seat, place, rest, one.seen);
    Told {
        added: 1 + more.added,
        seen: more.seen,
    }
}

// The same with a seat that goes with the thread.
pub(crate) fn add_all<R: Wait>(
    rt: &R,
    latch: &Latch<Desk>,
    mut seat: Seat<Desk>,
    place: u64,
    amounts: &[u64],
    so_far: u64,
) -> (Seat<Desk>, Told)
    requires one { IsOne latch.now place seat }
    requires seen { length (seen seat) ≡ so_far }
    ensures { HasAdded latch.now place amounts.now seat result.0 result.1 }
{
    let told = add_each(rt, latch, &mut seat, place, amounts, so_far);
    (seat, told)
}

pub(crate) fn open_both(alloc: Global, desk: Desk) -> Result<Both, Desk>
    ensures latch { IfOk result (λ b. (b.latch.first ≡ desk) × (b.latch.seats ≡ 2)) }
    ensures first { IfOk result (λ b. IsNew base_of b.latch 0 desk.history.items b.first) }
    ensures second { IfOk result (λ b. IsNew base_of b.latch 1 desk.history.items b.second) }
    ensures err { IfErr result (λ d. d ≡ desk) }
{
    let Opened { latch, mut seats } = Latch::new(alloc, desk, 2)?;
    let second = seats.pop();
    let first = seats.pop();
    match (first, second) {
        (Some(first), Some(second)) => Ok(Both {
            latch,
            first,
            second,
        }),
        _ => unreachable!(),
    }
}

/// Two threads add their amounts to one desk, each amount in a turn of its own. At the end the desk has the amounts of each in their order and no others of it, and the list that each has seen is a beginning of the one history.
///
/// An Err gives the desk back, and is want of memory.
pub fn add_by_two<R: Threads + Wait + Sync>(
    rt: &R,
    alloc: Global,
    desk: Desk,
    first: &[u64],
    second: &[u64],
) -> Result<Run, Desk>
    requires { desk.history.items ≡ [] }
    ensures base { IfOk result (λ r. r.desk.base ≡ desk.base) }
    ensures first { IfOk result (λ r. IsWhole 0 first.now r.first r.desk.history.items) }
    ensures second { IfOk result (λ r. IsWhole 1 second.now r.second r.desk.history.items) }
    ensures err { IfErr result (λ d. d ≡ desk) }
{
    let Both {
        latch,
        first: kept,
        second: other,
    } = open_both(alloc, desk)?;
    let shared = &latch;
    let (one, two) = join(
        rt,
        move || -> (Seat<Desk>, Told)
            requires { IsOne shared.now 0 kept × (length (seen kept) ≡ 0) }
            ensures { HasAdded shared.entry.now 0 first.entry.now kept result.0 result.1 }
        { add_all(rt, shared, kept, 0, first, 0) },
        move || -> (Seat<Desk>, Told)
            requires { IsOne shared.now 1 other × (length (seen other) ≡ 0) }
            ensures { HasAdded shared.entry.now 1 second.entry.now other result.0 result.1 }
        { add_all(rt, shared, other, 1, second, 0) },
    );
    let (mut kept, first) = one;
    let (other, second) = two;
    latch.join(&mut kept, other);
    let desk = latch.close(kept);
    Ok(Run {
        desk,
        first,
        second,
    })
}

/// Opens a latch with many seats, none of which enters, and closes it. The desk has the base that it had, and no entry of a seat more.
///
/// An Err gives the desk back, and is want of memory.
pub fn reopen(alloc: Global, desk: Desk, seats: u32) -> Result<Desk, Desk>
    requires { 0 < seats }
    ensures base { IfOk result (λ d. d.base ≡ desk.base) }
    ensures list { IfOk result (λ d. (place : ℕ) → place < seats → Begins actor_of (place ∷ []) d.history.items desk.history.items) }
    ensures err { IfErr result (λ d. d ≡ desk) }
{
    let Opened { latch, seats } = Latch::new(alloc, desk, seats)?;
    Ok(latch.close_all(seats))
}
