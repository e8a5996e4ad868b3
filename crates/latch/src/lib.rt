//! A lock that threads take in turn, which knows what each of them has seen.
//!
//! A value lies in one slot. It stands for a base, which stays, and for a list of entries, which only grows (`counted::Counted`). A thread has a *seat*, a token of no bytes. It enters, is given the value, may add entries at the end of the list, and leaves. The contracts say what a thread can rely on: the value that it is given begins with what its seat has seen, and nothing past that was added in its name.
//!
//! # The rule
//!
//! The lock has three words: the *ticket*, which the next seat draws, the number that is *served*, and the *count* of the entries. Between any two steps this holds (`specs/Rule.antt`, `InTurn`):
//!
//! - **The turn.** As many seats have a number as were drawn and aren't past, and no two have the same. A seat that knows its turn has the number that is served.
//! - **The slot's home.** The value is in the slot, or the slot is out with the seat that knows its turn. At home the value stands for the counted history and for the one base.
//! - **The counted history.** It has `count` entries. Only the seat that knows its turn makes it longer, and it keeps a copy of it until it leaves.
//! - **Seen lists.** What each seat has seen is a beginning of the counted history, and no entry past it carries one of the seat's places.
//! - **Places.** The numbers from 0 to one below the number of seats are given out, each once. Each seat that hasn't ended has one at least, and one that has ended has none.
//! - **The base.** Each seat that hasn't ended knows the same base.
//!
//! # The steps
//!
//! Each step keeps the rule. Two seats are made of one (split) or one of two (join). A seat draws a number, and looks whether it is served: where it is, it has the slot from that step on. It moves the value out of the slot and another one in, counts the new entries, and passes the turn on, by which the slot goes home. Two further steps read a word and change none: before it counts, a seat reads the count, and after a join the kept seat is told that its list goes on from both.
//!
//! A seat that waits sleeps until the number that is served changes. Only `Latch::new` takes memory. Nothing is claimed of who is served, or when.
#![tactic(auto)]

mod lock;
mod moves;
mod plays;
mod view;

pub use lock::{Latch, Opened};
pub use view::{Seat, Stage, View};
