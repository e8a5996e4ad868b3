//! Why an expression has no value or no type.
use crate::copies::Copying;
use crate::memory::NoMemory;
use crate::texts::Name;
use std::alloc::Global;
use thiserror::Error;

/// Why an expression has no value.
#[derive(Clone, Copy, Debug, PartialEq, Eq, Error)]
pub enum EvalFault {
    /// The divisor of `/` or `%` is 0: code 22012.
    #[error("division by zero")]
    DivZero,
    /// A number is no bigint: code 22003.
    #[error("a number is out of range")]
    Range,
    /// A text doesn't read as the type of a cast: code 22P02.
    #[error("a text does not read as the type")]
    BadText,
    /// A text of `||` is longer than 4,096 bytes: code 54000.
    #[error("a text is too long")]
    TooLong,
    /// Memory was refused.
    #[error("out of memory")]
    NoMemory,
}

/// What is wrong with a row of a shape.
#[derive(Clone, Copy, Debug, PartialEq, Eq)]
pub enum RowFault {
    /// NULL in the NOT NULL column at this place, from 0.
    Null(u32),
    /// The check at this place, from 0, is false.
    Check(u64),
    /// The check at this place, from 0, has no value.
    Eval(u64, EvalFault),
}

/// Why a script doesn't read.
#[derive(Clone, Copy, Debug, PartialEq, Eq, Error)]
pub enum ScriptFault {
    /// The first line, from 1, that breaks the rules of scripts.
    #[error("line {0} of the script does not read")]
    Line(u32),
    /// Memory was refused.
    #[error("out of memory")]
    NoMemory,
}

/// Why an expression has no type.
#[derive(Debug, Drop, Error)]
pub enum TypeFault {
    /// No column of the shape has this name: code 42703.
    #[error("the shape has no such column")]
    NoColumn(Name),
    /// A part has another type than its form asks: code 42804.
    #[error("a part has another type than its form asks")]
    Mismatch,
    /// Memory was refused.
    #[error("out of memory")]
    NoMemory,
}

impl Copying for TypeFault {
    fn copy(&self, alloc: Global) -> Result<TypeFault, NoMemory> {
        match self {
            TypeFault::NoColumn(name) => Ok(TypeFault::NoColumn(name.copy(alloc)?)),
            TypeFault::Mismatch => Ok(TypeFault::Mismatch),
            TypeFault::NoMemory => Ok(TypeFault::NoMemory),
        }
    }
}

impl From<NoMemory> for EvalFault {
    ghost use Rattle.std.specs.Prelude.{◌≡◌};
    ghost use Rattle.sql_base.specs.declared.faults.EvalFault.TheVariants as fault;

    ghost from_gives = { λ _ e. e ≡ fault.NoMemory };

    fn from(_refused: NoMemory) -> EvalFault {
        EvalFault::NoMemory
    }
}

impl From<NoMemory> for ScriptFault {
    ghost use Rattle.std.specs.Prelude.{◌≡◌};
    ghost use Rattle.sql_base.specs.declared.faults.ScriptFault.TheVariants as fault;

    ghost from_gives = { λ _ e. e ≡ fault.NoMemory };

    fn from(_refused: NoMemory) -> ScriptFault {
        ScriptFault::NoMemory
    }
}

impl From<NoMemory> for TypeFault {
    ghost use Rattle.std.specs.Prelude.{◌≡◌};
    ghost use Rattle.sql_base.specs.declared.faults.TypeFault.TheVariants as fault;

    ghost from_gives = { λ _ e. e ≡ fault.NoMemory };

    fn from(_refused: NoMemory) -> TypeFault {
        TypeFault::NoMemory
    }
}
