//! The values of a record.
ghost use Rattle.std.specs.Prelude.{◌≡◌, length, map, IfOk};
ghost use Rattle.std.specs.List.{find};
ghost use Rattle.std.specs.Option.{option_copied};
ghost use Rattle.std.specs.Str.{bytes_eq};
ghost use Rattle.csv.specs.Records.{fields_of};
ghost use Rattle.csv_load.specs.Load as spec;
ghost use Rattle.csv_load.specs.Steps as steps;

use crate::records::field_of;
use csv::ByteRecord;
use sql_base::{Column, Expr, List, Name, NoMemory, Shape, SqlText, Ty, Value};
use sqlite_items::Boxed;
use std::alloc::Global;

// The column of this name.
fn column_named<'a>(shape: &'a Shape, name: &Name) -> Option<&'a Column>
    ensures { option_copied result ≡ find (λ column. bytes_eq column.name name.now) shape.now.columns }
{
    let columns = shape.columns.as_slice();
    columns
        .iter()
        .find(|c| c.name.as_slice() == name.as_slice())
}

fn column_type(shape: &Shape, name: &Name) -> Ty
    ensures { result ≡ spec.column_type shape.now name.now }
{
    match column_named(shape, name) {
        Some(column) => column.ty,
        None => Ty::Text,
    }
}

// The type as which the fields of the column of this name are read.
fn type_in(shape: Option<&Shape>, name: &Name) -> Ty
    ensures { result ≡ spec.type_in (option_copied shape.entry) name.now }
{
    match shape {
        Some(shape) => column_type(shape, name),
        None => Ty::Text,
    }
}

// A text as a value of this type.
fn value_of(alloc: Global, to: Ty, text: SqlText) -> Result<Expr, NoMemory>
    ensures { IfOk result (λ value. value ≡ spec.value_of to text) }
{
    if text.as_str() == "\\N" {
        return Ok(Expr::Lit(Value::Null));
    }
    let literal = Expr::Lit(Value::Text(text));
    match to {
        Ty::Text => Ok(literal),
        Ty::Bigint | Ty::Boolean => Ok(Expr::Cast(Boxed::new(alloc, literal)?, to)),
    }
}

// A field as a value of this type, or `None` where it is no text.
fn text_value(alloc: Global, to: Ty, field: &[u8]) -> Result<Option<Expr>, NoMemory>
    ensures { IfOk result (λ value. value ≡ steps.text_value to field.now) }
{
    match SqlText::read(alloc, field)? {
        Some(text) => Ok(Some(value_of(alloc, to, text)?)),
        None => Ok(None),
    }
}

/// The values of a record's fields, one for each name, or `None` where a field is no text. An error is want of memory.
pub fn text_values(
    alloc: Global,
    shape: Option<&Shape>,
    names: &[Name],
    row: &ByteRecord,
) -> Result<Option<List<Expr>>, NoMemory>
    requires { length (fields_of row.now) ≡ length names.now }
    ensures { IfOk result (λ values. values ≡ steps.text_values (option_copied shape.entry) names.now (fields_of row.now)) }
{
    let mut values = List::new(alloc);
    for at in 0..names.len() {
        let to = type_in(shape, &names[at]);
        match text_value(alloc, to, field_of(row, at))? {
            Some(value) => values.push(value)?,
            None => return Ok(None),
        }
    }
    Ok(Some(values))
}
