//! Operators with their levels, and the names of functions and types.

ghost use Rattle.std.specs.Prelude.{◌≡◌};
ghost use Rattle.sql_parse.specs.Grammar as spec;

use sql_base::{BinOp, Func, Ty};
use sql_text::{Key, Sign, Token};

fn infix_key(key: Key) -> Option<BinOp>
    ensures { result ≡ spec.infix_of (Token.Key key) }
{
    match key {
        Key::Or => Some(BinOp::Or),
        Key::And => Some(BinOp::And),
        _ => None,
    }
}

fn infix_sign(sign: Sign) -> Option<BinOp>
    ensures { result ≡ spec.infix_of (Token.Sign sign) }
{
    match sign {
        Sign::Eq => Some(BinOp::Eq),
        Sign::Ne => Some(BinOp::Ne),
        Sign::Lt => Some(BinOp::Lt),
        Sign::Le => Some(BinOp::Le),
        Sign::Gt => Some(BinOp::Gt),
        Sign::Ge => Some(BinOp::Ge),
        Sign::Concat => Some(BinOp::Concat),
        Sign::Plus => Some(BinOp::Add),
        Sign::Star => Some(BinOp::Mul),
        Sign::Slash => Some(BinOp::Div),
        Sign::Percent => Some(BinOp::Rem),
        _ => None,
    }
}

/// The operator that a token stands for between two operands.
pub fn infix_of(token: &Token) -> Option<BinOp>
    ensures { result ≡ spec.infix_of token.now }
{
    match token {
        Token::Key(key) => infix_key(*key),
        Token::Sign(sign) => infix_sign(*sign),
        Token::Minus(_) => Some(BinOp::Sub),
        _ => None,
    }
}

/// The level of an operator's form: the looser, the smaller.
pub fn level(op: BinOp) -> u8
    ensures { result ≡ spec.level op }
{
    match op {
        BinOp::Or => 1,
        BinOp::And => 2,
        BinOp::Eq | BinOp::Ne | BinOp::Lt | BinOp::Le | BinOp::Gt | BinOp::Ge => 5,
        BinOp::Concat => 6,
        BinOp::Add | BinOp::Sub => 7,
        BinOp::Mul | BinOp::Div | BinOp::Rem => 8,
    }
}

/// The loosest level of a left operand: that of a comparison is a level tighter than the comparison.
pub fn left(op: BinOp) -> u8
    ensures { result ≡ spec.left op }
{
    match op {
        BinOp::Eq | BinOp::Ne | BinOp::Lt | BinOp::Le | BinOp::Gt | BinOp::Ge => 6,
        _ => level(op),
    }
}

/// The loosest level of a right operand.
pub fn right(op: BinOp) -> u8
    ensures { result ≡ spec.right op }
{
    level(op) + 1
}

/// The function of this name.
#[tactic(auto, unfolding(crate::specs::Grammar::function_named))]
pub fn function_named(name: &[u8]) -> Option<Func>
    ensures { result ≡ spec.function_named name.now }
{
    if name == b"coalesce".as_slice() {
        Some(Func::Coalesce)
    } else if name == b"nullif".as_slice() {
        Some(Func::Nullif)
    } else if name == b"upper".as_slice() {
        Some(Func::Upper)
    } else if name == b"lower".as_slice() {
        Some(Func::Lower)
    } else if name == b"trim".as_slice() {
        Some(Func::Trim)
    } else if name == b"length".as_slice() {
        Some(Func::Length)
    } else {
        None
    }
}

/// The type of this name.
#[tactic(auto, unfolding(crate::specs::Grammar::type_named))]
pub fn type_named(name: &[u8]) -> Option<Ty>
    ensures { result ≡ spec.type_named name.now }
{
    if name == b"bigint".as_slice() || name == b"int8".as_slice() {
        Some(Ty::Bigint)
    } else if name == b"text".as_slice() {
        Some(Ty::Text)
    } else if name == b"boolean".as_slice() || name == b"bool".as_slice() {
        Some(Ty::Boolean)
    } else {
        None
    }
}
