//! The single moves of which the calls of a latch are made.
ghost use Rattle.std.specs.Prelude.{◌≡◌, ◌+◌, ◌<◌, ◌≤◌, ◌^◌, [], ◌∷◌, length, None, Some, vec_len, vec_capacity};
ghost use Rattle.latch.specs.Lists.{Adds, BeginsAll, upward};
ghost use Rattle.latch.specs.Views.{counting, fresh, idle, merged, settled};
ghost use Rattle.latch.specs.declared.view.Stage.TheVariants.{Turn};
ghost use Rattle.latch.specs.Seats.{IsFree, IsSameToken, AreDealt};

use crate::lock::Latch;
use crate::plays::{Count, Deal, Merge, Pass, Recall, Tally};
use crate::view::Seat;
use counted::Counted;

pub(crate) const TICKET: usize = 0;

pub(crate) const SERVING: usize = 1;

pub(crate) const COUNT: usize = 2;

impl<T: Counted> Latch<T> {
    // Shows that a latch has a seat at least. It does nothing.
    pub(crate) fn has_seats(&self)
        ensures { 0 < self.now.seats }
    {
        let _table = &self.table;
    }

    // Cuts the seat that has all places into one for each place.
    pub(crate) fn deal(&self, mut seat: Seat<T>, mut all: Vec<Seat<T>>, seats: u32) -> Vec<Seat<T>>
        requires whole { (seat.table_id ≡ self.now.table) × (seat.me ≡ (fresh (T.list self.now.first) (T.base self.now.first) (upward 0 seats), [])) }
        requires seats { (0 < seats) × (seats ≡ self.now.seats) }
        requires room { (vec_len all ≡ 0) × (all.items ≡ []) × (seats ≤ vec_capacity all) }
        ensures { AreDealt T.base self.now (T.list self.now.first) result.items }
    {
        for _ in 0..seats - 1 {
            let other = self.table.shared.split_seat::<Deal>(&mut seat);
            all.push_reserved(other);
        }
        all.push_reserved(seat);
        all
    }

    // The kept seat takes the other one in.
    pub(crate) fn take_in(&self, kept: &mut Seat<T>, seat: Seat<T>)
        requires own { (kept.old.table_id ≡ self.now.table) × (seat.table_id ≡ self.now.table) }
        requires free { IsFree kept.old × IsFree seat }
        ensures same { IsSameToken kept.old kept.new }
        ensures merged { kept.new.me ≡ (merged kept.old.me.0 seat.me.0, []) }
    {
        self.table.shared.join_seat::<Merge>(kept, seat);
    }

    // A seat that has taken another in is told how its list goes on from theirs.
    pub(crate) fn recall(&self, seat: &mut Seat<T>)
        requires own { seat.old.table_id ≡ self.now.table }
        requires free { IsFree seat.old }
        ensures same { IsSameToken seat.old seat.new }
        ensures parts { BeginsAll T.actor seat.old.me.0.seen seat.old.me.0.parts }
        ensures settled { seat.new.me ≡ (settled seat.old.me.0, []) }
    {
        self.table.shared.load::<Recall>(seat, TICKET);
    }

    // Moves the value out of the slot that the seat holds.
    pub(crate) fn take_out(&self, seat: &mut Seat<T>) -> T
        requires own { seat.old.table_id ≡ self.now.table }
        requires held { (x : T) × (seat.old.me.1 ≡ (0, Some x) ∷ []) }
        ensures same { IsSameToken seat.old seat.new }
        ensures taken { (seat.old.me.1 ≡ (0, Some result) ∷ []) × (seat.new.me ≡ (seat.old.me.0, (0, None) ∷ [])) }
    {
        match self.table.shared.exchange(seat, 0, None) {
            Some(value) => value,
            None => unreachable!(),
        }
    }

    // Moves a value into the slot that the seat holds.
    pub(crate) fn put_in(&self, seat: &mut Seat<T>, value: T)
        requires own { seat.old.table_id ≡ self.now.table }
        requires held { seat.old.me.1 ≡ (0, None) ∷ [] }
        ensures same { IsSameToken seat.old seat.new }
        ensures put { seat.new.me ≡ (seat.old.me.0, (0, Some value) ∷ []) }
    {
        match self.table.shared.exchange(seat, 0, Some(value)) {
            None => {}
            Some(_) => unreachable!(),
        }
    }

    // How many entries the counted history has.
    pub(crate) fn tally(&self, seat: &mut Seat<T>) -> u64
        requires own { seat.old.table_id ≡ self.now.table }
        requires turn { seat.old.me.0.stage ≡ Turn }
        ensures same { IsSameToken seat.old seat.new × (seat.new.me ≡ seat.old.me) }
        ensures count { result ≡ length seat.old.me.0.kept }
    {
        self.table.shared.load::<Tally>(seat, COUNT)
    }

    // Counts the entries that the value in the slot has more than the counted history.
    pub(crate) fn count(&self, seat: &mut Seat<T>, more: u64)
        requires own { seat.old.table_id ≡ self.now.table }
        requires turn { seat.old.me.0.stage ≡ Turn }
        requires held { (x : T) × (seat.old.me.1 ≡ (0, Some x) ∷ []) × Adds T.actor seat.old.me.0.places (T.list x) seat.old.me.0.kept × (length seat.old.me.0.kept + more ≡ length (T.list x)) × (length (T.list x) < 2 ^ 64) }
        ensures same { IsSameToken seat.old seat.new }
        ensures counted { (x : T) × (seat.old.me.1 ≡ (0, Some x) ∷ []) × (seat.new.me ≡ (counting seat.old.me.0 (T.list x), (0, Some x) ∷ [])) }
    {
        self.table.shared.fetch_add::<Count>(seat, COUNT, more);
    }

    // The slot goes home, and the next number is served.
    pub(crate) fn pass(&self, seat: &mut Seat<T>)
        requires own { seat.old.table_id ≡ self.now.table }
        requires turn { seat.old.me.0.stage ≡ Turn }
        requires held { (x : T) × (seat.old.me.1 ≡ (0, Some x) ∷ []) × (seat.old.me.0.kept ≡ T.list x) × (seat.old.me.0.base ≡ Some (T.base x)) }
        ensures same { IsSameToken seat.old seat.new }
        ensures passed { seat.new.me ≡ (idle seat.old.me.0, []) }
    {
        self.table.shared.fetch_add::<Pass>(seat, SERVING, 1);
        self.table.shared.wake_all(SERVING);
    }
}

// The one value of a list.
pub(crate) fn only_one<T>(mut slots: Vec<Option<T>>) -> T
    requires { (x : T) × (slots.items ≡ Some x ∷ []) }
    ensures { slots.items ≡ Some result ∷ [] }
{
    let value = slots.pop();
    slots.destroy_empty();
    match value {
        Some(Some(value)) => value,
        _ => unreachable!(),
    }
}
