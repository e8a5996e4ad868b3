//! The lock and its calls.
ghost use Rattle.std.specs.Prelude.{◌≡◌, ◌<◌, ◌++◌, length, IfOk, IfErr};
ghost use Rattle.latch.specs.Lists.{Adds, Begins, longer, total};
ghost use Rattle.latch.specs.Seats.{AreDealt, AreFree, BeginsEach, HasEntered, IsFree, IsSameSeat, IsSeatOf, given, places, seen, width};

use crate::moves::{SERVING, TICKET, only_one};
use crate::plays::{Draw, Look};
use crate::view::{Seat, Start, Turns, View};
use atomic_table::{Refused, Table};
use counted::Counted;
use std::alloc::Global;
use std::marker::Model;
use std::snapshot::Snapshot;
use std::sync::Wait;

/// A value that threads take in turn.
///
/// Contracts see it as which latch it is (`table`), the number of its seats (`seats`), and the value that it began with (`first`).
pub struct Latch<T: Counted> {
    pub(crate) table: Table<Option<T>, View<T::Base, T::Item>, Start<T>, Turns<T>, Global>,
}

impl<T: Counted> Model for Latch<T> {
    ghost use Rattle.std.specs.Prelude.{◌≡◌, ◌<◌};
    ghost use Rattle.latch.specs.Origin.{Origin};

    ghost Value = { Origin T };

    ghost view = { λ l. record { table = l.table.shared.table_id; seats = l.table.shared.key.seats; first = l.table.shared.key.value.value } };

    ghost invariant = { λ l. (l.table.shared.table_id.words ≡ 3) × (l.table.shared.table_id.slots ≡ 1) × (0 < l.table.shared.key.seats) };
}

/// What `Latch::new` gives.
pub struct Opened<T: Counted> {
    pub latch: Latch<T>,
    /// The seats, in the order of their places, from 0.
    pub seats: Vec<Seat<T>>,
}

impl<T: Counted> Latch<T> {
    /// A latch over a value, and as many seats. Each seat stands for the place that it has in the list, from 0, has seen the value's list, and hasn't entered.
    ///
    /// An Err gives the value back, and is want of memory.
    pub fn new(alloc: Global, value: T, seats: u32) -> Result<Opened<T>, T>
        requires { 0 < seats }
        ensures latch { IfOk result (λ r. (r.latch.first ≡ value) × (r.latch.seats ≡ seats)) }
        ensures seats { IfOk result (λ r. AreDealt T.base r.latch (T.list value) r.seats.items) }
        ensures err { IfErr result (λ v. v ≡ value) }
    {
        let Ok(all) = Vec::with_capacity(alloc, seats as usize) else {
            return Err(value);
        };
        let mut slots = Vec::new(alloc);
        if slots.reserve(1).is_err() {
            slots.destroy_empty();
            return Err(value);
        }
        let about = Start {
            value: Snapshot::of(&value),
            seats,
        };
        let entries = value.entries();
        slots.push_reserved(Some(value));
        match Table::new(alloc, &[0, 0, entries], slots, &about) {
            Ok((table, seat)) => {
                let latch = Latch { table };
                let seats = latch.deal(seat, all, seats);
                Ok(Opened { latch, seats })
            }
            Err(Refused { slots }) => Err(only_one(slots)),
        }
    }

    /// Waits for the seat's turn, asleep, and gives the value. It has the base of the value that the latch began with. Its list begins with what the seat has seen, and no entry past that carries a place of the seat.
    ///
    /// The seat must be one of this latch, and not have entered.
    pub fn enter<R: Wait>(&self, rt: &R, seat: &mut Seat<T>) -> T
        requires own { IsSeatOf T.base self.now seat.old }
        requires free { IsFree seat.old }
        ensures own { IsSeatOf T.base self.now seat.new }
        ensures same { IsSameSeat seat.old seat.new × (seen seat.new ≡ seen seat.old) }
        ensures entered { HasEntered seat.new }
        ensures given { given seat.new ≡ T.list result }
        ensures base { T.base result ≡ T.base self.now.first }
        ensures begins { Begins T.actor (places seat.old) (T.list result) (seen seat.old) }
    {
        let number = self.table.shared.fetch_add::<Draw>(seat, TICKET, 1);
        for _ in rt.forever() {
            let serving = self.table.shared.load::<Look>(seat, SERVING);
            if serving == number {
                return self.take_out(seat);
            }
            // It sleeps while the low half of the word is this.
            let low = (serving & 0xffff_ffff) as u32;
            self.table.shared.park(rt, SERVING, low);
        }
        unreachable!()
    }

    /// Puts a value back and passes the turn on. The seat then has seen the value's list.
    ///
    /// The seat must have entered. The value must have the base of the value that the latch began with, and its list must begin with the list that `enter` gave; each entry past that carries a place of the seat, or none.
    pub fn leave(&self, seat: &mut Seat<T>, value: T)
        requires own { IsSeatOf T.base self.now seat.old }
        requires entered { HasEntered seat.old }
        requires base { T.base value ≡ T.base self.now.first }
        requires adds { Adds T.actor (places seat.old) (T.list value) (given seat.old) }
        ensures own { IsSeatOf T.base self.now seat.new }
        ensures same { IsSameSeat seat.old seat.new }
        ensures free { IsFree seat.new }
        ensures seen { seen seat.new ≡ T.list value }
    {
        let entries = value.entries();
        let counted = self.tally(seat);
        self.put_in(seat, value);
        self.count(seat, entries - counted);
        self.pass(seat);
    }

    /// Makes one seat of two. The kept one then stands for the places of both, and has seen the longer of their two lists. It begins with the shorter, and no entry past that carries a place of the seat that had the shorter.
    ///
    /// Both must be seats of this latch, and neither may have entered.
    pub fn join(&self, kept: &mut Seat<T>, seat: Seat<T>)
        requires own { IsSeatOf T.base self.now kept.old × IsSeatOf T.base self.now seat }
        requires free { IsFree kept.old × IsFree seat }
        ensures own { IsSeatOf T.base self.now kept.new }
        ensures free { IsFree kept.new }
        ensures places { places kept.new ≡ places kept.old ++ places seat }
        ensures seen { seen kept.new ≡ longer (seen kept.old) (seen seat) }
        ensures kept_begins { Begins T.actor (places kept.old) (seen kept.new) (seen kept.old) }
        ensures seat_begins { Begins T.actor (places seat) (seen kept.new) (seen seat) }
    {
        self.take_in(kept, seat);
        self.recall(kept);
    }

    /// Gives the value back. It has the base of the value that the latch began with. Its list begins with what the seat has seen, and no entry past that carries a place of the seat.
    ///
    /// The seat must be one of this latch, stand for all places, and not have entered.
    pub fn close(self, seat: Seat<T>) -> T
        requires own { IsSeatOf T.base self seat }
        requires free { IsFree seat }
        requires whole { width seat ≡ self.seats }
        ensures base { T.base result ≡ T.base self.first }
        ensures begins { Begins T.actor (places seat) (T.list result) (seen seat) }
    {
        let Latch { table } = self;
        let mut closed = table.close_with(seat);
        let value = closed.take(0);
        closed.free();
        match value {
            Some(value) => value,
            None => unreachable!(),
        }
    }

    /// Gives the value back, for all seats at once. It has the base of the value that the latch began with. For each of the seats its list begins with what the seat has seen, and no entry past that carries a place of the seat.
    ///
    /// They must be seats of this latch that stand for all places between them, and none may have entered.
    pub fn close_all(self, mut seats: Vec<Seat<T>>) -> T
        requires free { AreFree T.base self seats.items }
        requires whole { total width seats.items ≡ self.seats }
        ensures base { T.base result ≡ T.base self.first }
        ensures begins { BeginsEach T.actor seats.items (T.list result) }
    {
        self.has_seats();
        let Some(mut kept) = seats.pop() else {
            unreachable!()
        };
        while let Some(seat) = seats.pop() {
            self.join(&mut kept, seat);
        }
        self.close(kept)
    }
}
