//! Texts as other values, and other values as texts.

ghost use Rattle.std.specs.Prelude.{◌≡◌, ◌^◌, ◌-◌, min, map, codes, false, IfOk, if◌then◌else◌};
ghost use Rattle.std.specs.Char.{to_ascii_lowercase, to_ascii_uppercase};
ghost use Rattle.std.specs.Fmt.{signed_decimal};
ghost use Rattle.std.specs.Option.{option_map};
ghost use Rattle.sql_base.specs.Outcome.{Gives};
ghost use Rattle.sql_eval.specs.Cast as spec;
ghost use Rattle.sql_base.specs.Text.{has_zero};

use crate::operate::{alike, whole};
use sql_base::{Copying, EvalFault, Func, NoMemory, SqlText, Ty, Value};
use std::alloc::Global;

fn trim_front(text: &str) -> &str
    ensures { result.now ≡ spec.trim_front text.now }
{
    let mut left = text;
    while let Some(rest) = left.strip_prefix(' ') {
        left = rest;
    }
    left
}

fn trim_back(text: &str) -> &str
    ensures { result.now ≡ spec.trim_back text.now }
{
    let mut left = text;
    while let Some(rest) = left.strip_suffix(' ') {
        left = rest;
    }
    left
}

/// The text without the spaces at both ends.
pub fn trimmed(text: &str) -> &str
    ensures { result.now ≡ spec.trimmed text.now }
{
    trim_back(trim_front(text))
}

/// The number that the digits are, or the largest `u64` where it is above that.
fn read_digits(digits: &[u8]) -> Option<u64>
    ensures { result ≡ option_map (λ n. min n (2 ^ 64 - 1)) (spec.read_digits 0 digits.now) }
{
    let mut n: u64 = 0;
    for b in digits {
        if !b.is_ascii_digit() {
            return None;
        }
        n = n.saturating_mul(10).saturating_add((*b - b'0') as u64);
    }
    Some(n)
}

fn read_number(negative: bool, digits: &[u8]) -> Result<Value, EvalFault>
    ensures { result ≡ spec.read_number negative digits.now }
{
    if digits.is_empty() {
        return Err(EvalFault::BadText);
    }
    match read_digits(digits) {
        None => Err(EvalFault::BadText),
        Some(n) => if negative {
            whole(0i64.checked_sub_unsigned(n))
        } else {
            whole(0i64.checked_add_unsigned(n))
        },
    }
}

fn read_bigint(text: &[u8]) -> Result<Value, EvalFault>
    ensures { result ≡ spec.read_bigint text.now }
{
    match text {
        [b'-', digits @ ..] => read_number(true, digits),
        [b'+', digits @ ..] => read_number(false, digits),
        digits => read_number(false, digits),
    }
}

fn read_boolean(text: &str) -> Result<Value, EvalFault>
    ensures { result ≡ spec.read_boolean (map to_ascii_lowercase text.now) }
{
    if text.eq_ignore_ascii_case("t") || text.eq_ignore_ascii_case("true") {
        Ok(Value::Bool(true))
    } else if text.eq_ignore_ascii_case("f") || text.eq_ignore_ascii_case("false") {
        Ok(Value::Bool(false))
    } else {
        Err(EvalFault::BadText)
    }
}

fn decimal(alloc: Global, n: i64) -> Result<SqlText, NoMemory>
    ensures { IfOk result (λ t. t ≡ signed_decimal n) }
{
    Ok(SqlText::from_string(n.to_string(alloc)?))
}

fn truth(alloc: Global, b: bool) -> Result<SqlText, NoMemory>
    ensures { IfOk result (λ t. t ≡ (if b then codes "true" else codes "false")) }
{
    let text = if b { "true" } else { "false" };
    Ok(SqlText::from_string(String::from_str(alloc, text)?))
}

/// The value as one of another type; NULL stays NULL.
///
/// An error is `BadText` where the text doesn't read as the type, `Range` where its number is no bigint, or want of memory.
pub fn cast(alloc: Global, value: &Value, to: Ty) -> Result<Value, EvalFault>
    ensures { Gives EvalFault.NoMemory (spec.cast value.now to) result }
{
    match (value, to) {
        (Value::Int(n), Ty::Bigint) => Ok(Value::Int(*n)),
        (Value::Int(n), Ty::Text) => Ok(Value::Text(decimal(alloc, *n)?)),
        (Value::Text(t), Ty::Text) => Ok(Value::Text(t.copy(alloc)?)),
        (Value::Text(t), Ty::Bigint) => read_bigint(trimmed(t.as_str()).as_bytes()),
        (Value::Text(t), Ty::Boolean) => read_boolean(trimmed(t.as_str())),
        (Value::Bool(b), Ty::Boolean) => Ok(Value::Bool(*b)),
        (Value::Bool(b), Ty::Text) => Ok(Value::Text(truth(alloc, *b)?)),
        _ => Ok(Value::Null),
    }
}

fn nullif(alloc: Global, a: &Value, b: &Value) -> Result<Value, NoMemory>
    ensures { IfOk result (λ v. v ≡ spec.nullif a.now b.now) }
{
    if alike(a, b) {
        Ok(Value::Null)
    } else {
        a.copy(alloc)
    }
}

fn upper(alloc: Global, text: &str) -> Result<SqlText, NoMemory>
    requires { has_zero text.now ≡ false }
    ensures { IfOk result (λ t. t ≡ map to_ascii_uppercase text.now) }
{
    let mut upper = String::from_str(alloc, text)?;
    upper.make_ascii_uppercase();
    Ok(SqlText::from_string(upper))
}

fn lower(alloc: Global, text: &str) -> Result<SqlText, NoMemory>
    requires { has_zero text.now ≡ false }
    ensures { IfOk result (λ t. t ≡ map to_ascii_lowercase text.now) }
{
    let mut lower = String::from_str(alloc, text)?;
    lower.make_ascii_lowercase();
    Ok(SqlText::from_string(lower))
}

fn trim(alloc: Global, text: &str) -> Result<SqlText, NoMemory>
    requires { has_zero text.now ≡ false }
    ensures { IfOk result (λ t. t ≡ spec.trimmed text.now) }
{
    Ok(SqlText::from_string(String::from_str(alloc, trimmed(text))?))
}

fn text_call(alloc: Global, func: Func, text: &SqlText) -> Result<Value, EvalFault>
    ensures { Gives EvalFault.NoMemory (spec.text_call func text.now) result }
{
    match func {
        Func::Upper => Ok(Value::Text(upper(alloc, text.as_str())?)),
        Func::Lower => Ok(Value::Text(lower(alloc, text.as_str())?)),
        Func::Trim => Ok(Value::Text(trim(alloc, text.as_str())?)),
        Func::Length => whole(i64::try_from(text.as_str().chars().count()).ok()),
        Func::Coalesce | Func::Nullif => Ok(Value::Null),
    }
}

/// What a function whose arguments are all evaluated first gives of these.
///
/// Of arguments of another type or number it is NULL. An error is want of memory.
pub fn called(alloc: Global, func: Func, args: &[Value]) -> Result<Value, EvalFault>
    ensures { Gives EvalFault.NoMemory (spec.called func args.now) result }
{
    match (func, args) {
        (Func::Nullif, [a, b]) => Ok(nullif(alloc, a, b)?),
        (_, [Value::Text(text)]) => text_call(alloc, func, text),
        _ => Ok(Value::Null),
    }
}
