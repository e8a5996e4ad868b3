//! Whether values are the same.
ghost use Rattle.std.specs.Prelude.{◌≡◌, ◌↔◌, IsTrue};

use sql_base::Value;

/// Whether two values are the same; NULL is the same as NULL.
fn is_same(one: &Value, other: &Value) -> bool
    ensures { IsTrue result ↔ (one.now ≡ other.now) }
{
    match (one, other) {
        (Value::Null, Value::Null) => true,
        (Value::Int(m), Value::Int(n)) => *m == *n,
        (Value::Text(s), Value::Text(t)) => s.as_str() == t.as_str(),
        (Value::Bool(a), Value::Bool(b)) => *a == *b,
        _ => false,
    }
}

/// Whether two rows have the same values.
pub(crate) fn are_same(one: &[Value], other: &[Value]) -> bool
    ensures { IsTrue result ↔ (one.now ≡ other.now) }
{
    if one.len() != other.len() {
        return false;
    }
    for (at, value) in one.iter().enumerate() {
        if !is_same(value, &other[at]) {
            return false;
        }
    }
    true
}
