//! Why a call ends before its end.
use sql_base::NoMemory;

/// Why something has no value: for a cause of its own, or for want of memory.
#[derive(Debug, Drop)]
pub enum Stop<E> {
    /// This cause.
    Because(E),
    /// Memory was refused.
    NoMemory,
}

impl<E> From<NoMemory> for Stop<E> {
    ghost use Rattle.std.specs.Prelude.{◌≡◌};
    ghost use Rattle.row_rules.specs.declared.stops.Stop.TheVariants as stop;

    ghost from_gives = { λ _ e. e ≡ stop.NoMemory };

    fn from(_refused: NoMemory) -> Stop<E> {
        Stop::NoMemory
    }
}
