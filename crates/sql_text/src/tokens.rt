//! Tokens.

use crate::keys::Key;
use sql_base::{Name, SqlText};

/// A sign that isn't the minus.
#[derive(Clone, Copy, Debug, PartialEq, Eq)]
pub enum Sign {
    /// `(`
    Open,
    /// `)`
    Close,
    /// `,`
    Comma,
    /// `;`
    Semicolon,
    /// `*`
    Star,
    /// `/`
    Slash,
    /// `%`
    Percent,
    /// `+`
    Plus,
    /// `||`
    Concat,
    /// `::`
    Cast,
    /// `=`
    Eq,
    /// `<>` and `!=`
    Ne,
    /// `<`
    Lt,
    /// `<=`
    Le,
    /// `>`
    Gt,
    /// `>=`
    Ge,
}

/// A token.
#[derive(Debug, Drop, PartialEq, Eq)]
pub enum Token {
    /// A plain identifier, its capitals made small; no key word, and at most 63 bytes.
    Name(Name),
    /// A quoted identifier, without its quotes.
    Quoted(Name),
    /// Digits: their number, or the largest `u64` where it is above that.
    Int(u64),
    /// A text literal: its value, of at most 4,096 bytes.
    Text(SqlText),
    /// A key word.
    Key(Key),
    /// A sign that isn't the minus.
    Sign(Sign),
    /// A minus, and whether a digit follows it directly.
    Minus(bool),
    /// What begins no token.
    Bad,
    /// The end of the text.
    End,
}

/// A token, and the byte where it begins.
#[derive(Debug, Drop, PartialEq, Eq)]
pub struct Placed {
    /// The place of its first byte, from 0; of `End` the length of the text.
    pub at: usize,
    /// The token.
    pub token: Token,
}
