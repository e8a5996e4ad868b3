//! How much values weigh.

ghost use Rattle.std.specs.Prelude.{◌≡◌, ◌^◌, ◌-◌, min};
ghost use Rattle.sql_base.specs.Weight as spec;

use crate::values::Value;

/// What a value weighs: NULL 1, a bigint 9, a text 3 and its bytes, a boolean 2.
pub fn value_weight(value: &Value) -> u64
    ensures { result ≡ spec.value_weight value.now }
{
    match value {
        Value::Null => 1,
        Value::Int(_) => 9,
        Value::Text(text) => 3 + text.len() as u64,
        Value::Bool(_) => 2,
    }
}

/// What a half of a row weighs: the sum of its values, or the largest `u64` where the sum is above that.
pub fn weight(values: &[Value]) -> u64
    ensures { result ≡ min (spec.weight values.now) (2 ^ 64 - 1) }
{
    let mut total: u64 = 0;
    for value in values {
        total = total.saturating_add(value_weight(value));
    }
    total
}
