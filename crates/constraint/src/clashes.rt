//! Rows with the same values in the columns of a unique constraint.
ghost use Rattle.std.specs.Prelude.{◌≡◌};
ghost use Rattle.std.specs.Map.{lookup};
ghost use Rattle.std.specs.Option.{option_copied};
ghost use Rattle.std.specs.Ordering.{int_eq};
ghost use Rattle.sql_eval.specs.Row as row;
ghost use Rattle.constraint.specs.Inner as inner;
ghost use Rattle.constraint.specs.Valid as valid;

use sql_base::{List, Unique, Value};
use sql_eval::operate::alike;

/// A key and its row.
pub type Keyed = (i64, List<Value>);

// Whether two rows have the same values, none of them NULL, in these columns.
fn columns_alike(columns: &[u32], one: &[Value], two: &[Value]) -> bool
    ensures { result
        ≡ row.all_alike (inner.values_at columns.now one.now) (inner.values_at columns.now two.now) }
{
    for at in columns {
        match (one.get(*at as usize), two.get(*at as usize)) {
            (Some(x), Some(y)) => {
                if !alike(x, y) {
                    return false;
                }
            }
            _ => return false,
        }
    }
    true
}

/// Whether two rows have the same values, none of them NULL, in the columns of a unique constraint:
/// PostgreSQL manual, 5.4.3.
pub fn are_alike(unique: &Unique, one: &[Value], two: &[Value]) -> bool
    ensures { result
        ≡ row.all_alike (row.values_of unique.now one.now) (row.values_of unique.now two.now) }
{
    columns_alike(unique.columns.as_slice(), one, two)
}

/// The least key, where this one counts or doesn't beside the least of others.
pub fn with_least(key: i64, counts: bool, least: Option<i64>) -> Option<i64>
    ensures { result ≡ valid.with_least key counts least }
{
    match least {
        Some(other) if counts && key < other => Some(key),
        None if counts => Some(key),
        _ => least,
    }
}

// The values of the first row of this key.
fn values_under(rows: &[Keyed], key: i64) -> Option<&[Value]>
    ensures { option_copied result ≡ lookup (int_eq key) rows.now }
{
    for row in rows {
        if key == row.0 {
            return Some(row.1.as_slice());
        }
    }
    None
}

// The least other key whose row has these values in the columns of the unique constraint.
fn least_alike(unique: &Unique, rows: &[Keyed], key: i64, values: &[Value]) -> Option<i64>
    ensures { result ≡ inner.least_alike unique.now values.now rows.now key }
{
    let mut least = None;
    let mut at = rows.len();
    while at > 0 {
        at -= 1;
        let other = &rows[at];
        let counts = other.0 != key && are_alike(unique, values, other.1.as_slice());
        least = with_least(other.0, counts, least);
    }
    least
}

/// The least other key whose row has the values of this key's row in the columns of a unique
/// constraint, none of them NULL; or none, also where no row has the key.
pub fn clash(unique: &Unique, rows: &[Keyed], key: i64) -> Option<i64>
    ensures { result ≡ row.clash unique.now rows.now key }
{
    match values_under(rows, key) {
        Some(values) => least_alike(unique, rows, key, values),
        None => None,
    }
}
