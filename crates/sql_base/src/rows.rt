//! Rows that fit a shape.

ghost use Rattle.std.specs.Prelude.{◌≡◌};
ghost use Rattle.sql_base.specs.Fit as spec;

use crate::shapes::{Column, Shape};
use crate::values::{Ty, Value};

/// Whether the value is NULL or of this type, where `None` is the type of NULL.
pub fn has_type(ty: Option<Ty>, value: &Value) -> bool
    ensures { result ≡ spec.has_type ty value.now }
{
    match (ty, value) {
        (_, Value::Null) => true,
        (Some(Ty::Bigint), Value::Int(_)) => true,
        (Some(Ty::Text), Value::Text(_)) => true,
        (Some(Ty::Boolean), Value::Bool(_)) => true,
        _ => false,
    }
}

/// As many values as columns, each NULL or of its column's type.
#[tactic(auto, using(crate::proofs::Fitting::different_lengths))]
fn fits_columns(columns: &[Column], row: &[Value]) -> bool
    ensures { result ≡ spec.fits_columns columns.now row.now }
{
    if columns.len() != row.len() {
        return false;
    }
    for (at, column) in columns.iter().enumerate() {
        if !has_type(Some(column.ty), &row[at]) {
            return false;
        }
    }
    true
}

/// Whether the row fits: as many values as columns, each NULL or of its column's type, and an integer in the key's place.
pub fn row_fits(shape: &Shape, row: &[Value]) -> bool
    ensures { result ≡ spec.row_fits shape.now row.now }
{
    fits_columns(shape.columns.as_slice(), row)
        && match row.get(shape.key as usize) {
            Some(Value::Int(_)) => true,
            _ => false,
        }
}
