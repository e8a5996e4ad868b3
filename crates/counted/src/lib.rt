//! What a lock with a counted history asks of the value that lies in it.
//!
//! The value stands for a base, which no holder of the lock may change, and for a list of items, to which each holder may add at the end. An item carries the number of the actor that added it, or none. The crate has this one trait, so that a value can be written without the lock, and the lock without the value.
#![tactic(auto)]

ghost use Rattle.std.specs.Prelude.{◌≡◌, ℕ, List, Option, length};

/// A value that stands for a base and a list of items, of which each carries an actor or none.
///
/// `Base` and `Item` are the types that contracts compare, so they are best plain data: numbers, enums, structs of these, `Option` and `LinkedList`. A `Vec` or a `String` in them would bring its place in memory into each comparison. No value of either type has to be made.
pub trait Counted {
    /// What the value is founded on.
    type Base;

    /// One entry of the list.
    type Item;

    // The base that a value stands for.
    ghost base: { Self → Self.Base };

    // The list that a value stands for, the oldest item first.
    ghost list: { Self → List Self.Item };

    // The actor that an item carries, if it carries one.
    ghost actor: { Self.Item → Option ℕ };

    /// The number of items in the list.
    fn entries(&self) -> u64
        ensures { result ≡ length (list self.now) };
}
