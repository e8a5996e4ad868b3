//! Values and their types.
use crate::copies::Copying;
use crate::memory::NoMemory;
use crate::texts::SqlText;
use std::alloc::Global;

/// A type of values.
#[derive(Clone, Copy, Debug, PartialEq, Eq)]
pub enum Ty {
    /// Whole numbers of 64 bits, with a sign.
    Bigint,
    /// Texts.
    Text,
    /// Truths.
    Boolean,
}

/// A value.
#[derive(Debug, Drop, PartialEq, Eq)]
pub enum Value {
    /// NULL, which has every type.
    Null,
    /// A bigint.
    Int(i64),
    /// A text.
    Text(SqlText),
    /// A boolean.
    Bool(bool),
}

impl Copying for Value {
    fn copy(&self, alloc: Global) -> Result<Value, NoMemory> {
        match self {
            Value::Null => Ok(Value::Null),
            Value::Int(n) => Ok(Value::Int(*n)),
            Value::Text(text) => Ok(Value::Text(text.copy(alloc)?)),
            Value::Bool(b) => Ok(Value::Bool(*b)),
        }
    }
}
