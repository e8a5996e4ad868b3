//! What each step tells the seat that makes it. These types are for the proofs alone.
ghost use Rattle.latch.specs.Told.{drew, looked, tallied, counted, passed, recalled};
ghost use Rattle.latch.specs.Views.{cut, one_place, merged, ended};

use crate::view::View;
use atomic_table::{Join, Play, Split};
use counted::Counted;

// A seat has drawn a number.
pub(crate) struct Draw;

impl<T: Counted> Play<Option<T>, View<T::Base, T::Item>> for Draw {
    ghost then = { drew };
}

// A seat knows whether its number is served, and has the slot if it is.
pub(crate) struct Look;

impl<T: Counted> Play<Option<T>, View<T::Base, T::Item>> for Look {
    ghost then = { looked T.list T.base T.actor };
}

// A seat in its turn has read the count.
pub(crate) struct Tally;

impl<T: Counted> Play<Option<T>, View<T::Base, T::Item>> for Tally {
    ghost then = { tallied };
}

// A seat in its turn has counted the entries of the value in its slot.
pub(crate) struct Count;

impl<T: Counted> Play<Option<T>, View<T::Base, T::Item>> for Count {
    ghost then = { counted T.list };
}

// A seat has passed its turn on, and the slot is at home.
pub(crate) struct Pass;

impl<T: Counted> Play<Option<T>, View<T::Base, T::Item>> for Pass {
    ghost then = { passed };
}

// A joined seat knows how its list goes on from what its parts had seen.
pub(crate) struct Recall;

impl<T: Counted> Play<Option<T>, View<T::Base, T::Item>> for Recall {
    ghost then = { recalled T.actor };
}

// A seat gives its first place to a new seat.
pub(crate) struct Deal;

impl<B, I> Split<View<B, I>> for Deal {
    ghost left = { cut };

    ghost right = { one_place };
}

// A seat takes another in.
pub(crate) struct Merge;

impl<B, I> Join<View<B, I>> for Merge {
    ghost both = { merged };

    ghost spent = { ended };
}
