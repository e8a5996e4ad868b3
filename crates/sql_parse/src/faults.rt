//! Why a text doesn't read.
use sql_base::NoMemory;
use thiserror::Error;

/// Why a text doesn't read.
#[derive(Clone, Copy, Debug, PartialEq, Eq, Error)]
pub enum ParseFault {
    /// The first token that fits no reading begins at this byte, from 0: code 42601.
    #[error("syntax error at byte {at}")]
    Syntax {
        /// The byte.
        at: u32,
    },
    /// That token is a number, and a smaller one would fit: code 22003.
    #[error("the number at byte {at} is out of range")]
    Wide {
        /// The byte.
        at: u32,
    },
    /// The text reads, but its tree is deeper than 64: code 54000.
    #[error("an expression is too deep")]
    Deep,
    /// Memory was refused.
    #[error("out of memory")]
    NoMemory,
}

impl From<NoMemory> for ParseFault {
    ghost use Rattle.std.specs.Prelude.{◌≡◌};
    ghost use Rattle.sql_parse.specs.declared.faults.ParseFault.TheVariants as fault;

    ghost from_gives = { λ _ e. e ≡ fault.NoMemory };

    fn from(_refused: NoMemory) -> ParseFault {
        ParseFault::NoMemory
    }
}
