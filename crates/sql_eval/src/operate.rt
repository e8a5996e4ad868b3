//! What operators do to values.

ghost use Rattle.std.specs.Prelude.{◌≡◌, int_div, int_rem, MatchOption};
ghost use Rattle.sql_base.specs.Outcome.{Gives};
ghost use Rattle.sql_eval.specs.Value as spec;

use sql_base::{BinOp, EvalFault, SqlText, Value};
use std::alloc::Global;
use std::cmp::Ordering;

/// The longest text that a value holds, in bytes.
pub const MAX_TEXT: usize = 4096;

/// Whether the value is NULL.
pub fn is_null(value: &Value) -> bool
    ensures { result ≡ spec.is_null value.now }
{
    matches!(value, Value::Null)
}

/// Whether the value is this truth; NULL is neither.
pub fn is_truth(wanted: bool, value: &Value) -> bool
    ensures { result ≡ spec.is_truth wanted value.now }
{
    match value {
        Value::Bool(b) => *b == wanted,
        _ => false,
    }
}

/// The number with its sign turned, or `Range`; of anything else NULL.
pub fn negated(value: &Value) -> Result<Value, EvalFault>
    ensures { result ≡ spec.negated value.now }
{
    match value {
        Value::Int(n) => match n.checked_neg() {
            Some(n) => Ok(Value::Int(n)),
            None => Err(EvalFault::Range),
        },
        _ => Ok(Value::Null),
    }
}

/// NOT: of anything but a truth NULL.
pub fn inverted(value: &Value) -> Value
    ensures { result ≡ spec.inverted value.now }
{
    match value {
        Value::Bool(b) => Value::Bool(!*b),
        _ => Value::Null,
    }
}

fn joined(ruling: bool, x: &Value, y: &Value) -> Value
    ensures { result ≡ spec.joined ruling x.now y.now }
{
    if is_truth(ruling, x) || is_truth(ruling, y) {
        Value::Bool(ruling)
    } else if is_truth(!ruling, x) && is_truth(!ruling, y) {
        Value::Bool(!ruling)
    } else {
        Value::Null
    }
}

/// A result of arithmetic: `Range` where 64 bits didn't hold it.
pub fn whole(n: Option<i64>) -> Result<Value, EvalFault>
    ensures { MatchOption n (result ≡ Err EvalFault.Range) (λ z. result ≡ Ok (Value.Int z)) }
{
    match n {
        Some(n) => Ok(Value::Int(n)),
        None => Err(EvalFault::Range),
    }
}

fn quotient(m: i64, n: i64) -> Result<Value, EvalFault>
    ensures { result ≡ spec.divided int_div m n }
{
    if n == 0 {
        return Err(EvalFault::DivZero);
    }
    whole(m.checked_div(n))
}

fn remainder(m: i64, n: i64) -> Result<Value, EvalFault>
    ensures { result ≡ spec.divided int_rem m n }
{
    match n {
        0 => Err(EvalFault::DivZero),
        -1 => Ok(Value::Int(0)),
        n => Ok(Value::Int(m % n)),
    }
}

/// The order of two values of one type, or `None` where one is NULL or they are of two types.
pub fn ordering(x: &Value, y: &Value) -> Option<Ordering>
    ensures { result ≡ spec.value_cmp x.now y.now }
{
    match (x, y) {
        (Value::Int(m), Value::Int(n)) => Some(m.cmp(n)),
        (Value::Text(s), Value::Text(t)) => Some(s.as_str().cmp(t.as_str())),
        (Value::Bool(a), Value::Bool(b)) => Some(a.cmp(b)),
        _ => None,
    }
}

/// What a comparison says that is true of less, of equal and of greater as these three say; NULL without an order.
pub fn accepts(less: bool, equal: bool, greater: bool, found: Option<Ordering>) -> Value
    ensures { result ≡ spec.accepts less equal greater found }
{
    match found {
        None => Value::Null,
        Some(Ordering::Less) => Value::Bool(less),
        Some(Ordering::Equal) => Value::Bool(equal),
        Some(Ordering::Greater) => Value::Bool(greater),
    }
}

/// Whether `x = y` is true: neither is NULL, and they are equal.
pub fn alike(x: &Value, y: &Value) -> bool
    ensures { result ≡ spec.alike x.now y.now }
{
    is_truth(true, &accepts(false, true, false, ordering(x, y)))
}

fn concat(alloc: Global, x: &Value, y: &Value) -> Result<Value, EvalFault>
    ensures { Gives EvalFault.NoMemory (spec.concat x.now y.now) result }
{
    match (x, y) {
        (Value::Text(s), Value::Text(t)) => {
            let joined = s.joined(alloc, t)?;
            if joined.len() <= MAX_TEXT {
                Ok(Value::Text(joined))
            } else {
                Err(EvalFault::TooLong)
            }
        }
        _ => Ok(Value::Null),
    }
}

/// Whether the left operand decides alone.
pub fn settles(op: BinOp, x: &Value) -> bool
    ensures { result ≡ spec.settles op x.now }
{
    match op {
        BinOp::And => is_truth(false, x),
        BinOp::Or => is_truth(true, x),
        _ => false,
    }
}

/// What an operator gives of its two operands, where the left one didn't decide alone.
///
/// An error is `DivZero`, `Range`, `TooLong` or want of memory.
pub fn applied(alloc: Global, op: BinOp, x: &Value, y: &Value) -> Result<Value, EvalFault>
    ensures { Gives EvalFault.NoMemory (spec.applied op x.now y.now) result }
{
    match op {
        BinOp::Or => Ok(joined(true, x, y)),
        BinOp::And => Ok(joined(false, x, y)),
        BinOp::Eq => Ok(accepts(false, true, false, ordering(x, y))),
        BinOp::Ne => Ok(accepts(true, false, true, ordering(x, y))),
        BinOp::Lt => Ok(accepts(true, false, false, ordering(x, y))),
        BinOp::Le => Ok(accepts(true, true, false, ordering(x, y))),
        BinOp::Gt => Ok(accepts(false, false, true, ordering(x, y))),
        BinOp::Ge => Ok(accepts(false, true, true, ordering(x, y))),
        BinOp::Concat => concat(alloc, x, y),
        BinOp::Add | BinOp::Sub | BinOp::Mul | BinOp::Div | BinOp::Rem => arithmetic(op, x, y),
    }
}

fn arithmetic(op: BinOp, x: &Value, y: &Value) -> Result<Value, EvalFault>
    ensures { result ≡ spec.arithmetic op x.now y.now }
{
    match (x, y) {
        (Value::Int(m), Value::Int(n)) => computed(op, *m, *n),
        _ => Ok(Value::Null),
    }
}

fn computed(op: BinOp, m: i64, n: i64) -> Result<Value, EvalFault>
    ensures { result ≡ spec.computed op m n }
{
    match op {
        BinOp::Add => whole(m.checked_add(n)),
        BinOp::Sub => whole(m.checked_sub(n)),
        BinOp::Mul => whole(m.checked_mul(n)),
        BinOp::Div => quotient(m, n),
        BinOp::Rem => remainder(m, n),
        _ => Ok(Value::Null),
    }
}
