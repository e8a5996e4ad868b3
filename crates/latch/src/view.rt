//! What a seat knows, and the rule of the table.
ghost use Rattle.std.specs.Prelude.{[], Some};
ghost use Rattle.latch.specs.Lists.{upward};
ghost use Rattle.latch.specs.Rule.{InTurn};
ghost use Rattle.latch.specs.Views.{fresh};

use atomic_table::TableRule;
use counted::Counted;
use std::collections::LinkedList;
use std::marker::PhantomData;
use std::snapshot::Snapshot;

/// How far a seat is.
pub enum Stage {
    /// It has no number.
    Idle,
    /// It has drawn a number, and doesn't know that it is served.
    Waiting,
    /// Its number is served, and it has the slot.
    Turn,
    /// Another seat has taken it in.
    Ended,
}

/// What a seat knows. It exists in proofs alone: no value of it is made.
pub struct View<B, I> {
    pub stage: Stage,
    /// The number that it drew. It has no end, while the words are modulo 2^64.
    pub number: u64,
    /// The list that it has seen.
    pub seen: LinkedList<I>,
    /// The counted history, while it has its turn.
    pub kept: LinkedList<I>,
    /// The base; none where it has ended.
    pub base: Option<B>,
    /// The places that it stands for.
    pub places: LinkedList<u64>,
    /// After a join what each of the two had seen, with its places, until the seat is told how its list goes on from theirs.
    pub parts: LinkedList<(LinkedList<I>, LinkedList<u64>)>,
}

// What the rule is told once: the value that a latch began with, and the number of its seats.
#[derive(Drop)]
pub(crate) struct Start<T> {
    pub(crate) value: Snapshot<T>,
    pub(crate) seats: u32,
}

// The rule, as the table takes it.
pub(crate) struct Turns<T> {
    of: PhantomData<T>,
}

impl<T: Counted> TableRule<Option<T>, View<T::Base, T::Item>, Start<T>> for Turns<T> {
    ghost holds = { λ about. InTurn T.list T.base T.actor about.seats };

    ghost first = { λ about. fresh (T.list about.value.value) (T.base about.value.value) (upward 0 about.seats) };
}

/// With a seat one thread takes turns. It is a token of no bytes, which stands for one or more places, and has seen a list: contracts say both by `places` and `seen`. Each call needs a seat of its own latch (`IsSeatOf`).
///
/// A seat that is dropped keeps its places, so its latch can't be closed any more. One that is dropped after it has entered keeps the value too, and all others wait for ever.
pub type Seat<T> = atomic_table::Seat<Option<T>, View<<T as Counted>::Base, <T as Counted>::Item>>;
