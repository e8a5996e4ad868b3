//! Loading a text to its first fault or to its end.
ghost use Rattle.std.specs.Prelude.{◌≡◌, ◌≤◌, [], ◌∷◌, length, map, IfOk};
ghost use Rattle.std.specs.Option.{option_copied};
ghost use Rattle.csv.specs.Records.{fields_of};
ghost use Rattle.sql_base.specs.Outcome.{Gives};
ghost use Rattle.csv_load.specs.Load as spec;
ghost use Rattle.csv_load.specs.Steps as steps;

use crate::records::{field_of, fits, records};
use crate::values::text_values;
use csv::ByteRecord;
use sql_base::{Copying, Expr, List, Name, NoMemory, ScriptFault, Shape, Stmt};
use sql_text::name_in;
use std::alloc::Global;

/// What a record is.
#[derive(Drop)]
pub enum Loaded {
    /// A statement that inserts its row.
    Statement(Stmt),
    /// It has more than 4,096 bytes, its fields and a separator between each two of them.
    TooLong,
}

// The names of a header, or `None` where a field is no identifier.
fn names_of(alloc: Global, header: &ByteRecord) -> Result<Option<List<Name>>, NoMemory>
    ensures { IfOk result (λ names. names ≡ steps.names_of (fields_of header.now)) }
{
    let mut names = List::new(alloc);
    for at in 0..header.len() {
        match name_in(alloc, field_of(header, at))? {
            Some(name) => names.push(name)?,
            None => return Ok(None),
        }
    }
    Ok(Some(names))
}

// The statement that inserts these values as one row.
fn insert(
    alloc: Global,
    table: &Name,
    names: &List<Name>,
    values: List<Expr>,
) -> Result<Stmt, NoMemory>
    ensures { IfOk result (λ statement. statement ≡ Stmt.Insert table.now names.now (values ∷ [])) }
{
    let table = table.copy(alloc)?;
    let names = names.copy(alloc)?;
    let mut rows = List::new(alloc);
    rows.push(values)?;
    Ok(Stmt::Insert(table, names, rows))
}

// What the record of this number is.
fn line_at(
    alloc: Global,
    table: &Name,
    shape: Option<&Shape>,
    names: &List<Name>,
    number: u32,
    row: &ByteRecord,
) -> Result<Loaded, ScriptFault>
    ensures { Gives ScriptFault.NoMemory (steps.line_at table.now (option_copied shape.entry) names.now number (fields_of row.now)) result }
{
    if row.len() != names.len() {
        return Err(ScriptFault::Line(number));
    }
    let Some(values) = text_values(alloc, shape, names.as_slice(), row)? else {
        return Err(ScriptFault::Line(number));
    };
    if !fits(row) {
        return Ok(Loaded::TooLong);
    }
    Ok(Loaded::Statement(insert(alloc, table, names, values)?))
}

// What the records behind the header are.
fn lines(
    alloc: Global,
    table: &Name,
    shape: Option<&Shape>,
    names: &List<Name>,
    rows: &[ByteRecord],
) -> Result<List<Loaded>, ScriptFault>
    requires { length rows.now ≤ 16777216 }
    ensures few { IfOk result (λ lines. length lines ≤ length rows.now) }
    ensures reading { Gives ScriptFault.NoMemory (steps.lines_from table.now (option_copied shape.entry) names.now 2 [] (map fields_of rows.now)) result }
{
    let mut lines = List::new(alloc);
    let mut number = 1;
    for row in rows {
        number += 1;
        lines.push(line_at(alloc, table, shape, names, number, row)?)?;
    }
    Ok(lines)
}

/// What a text of comma-separated values loads into a table: one element for each record behind the header, in order.
///
/// Commas part the fields of a record, and a field may stand between double quotes, as CSV has it. A byte order mark at
/// the front is dropped, and empty lines are no records. The first record is the header: it names the columns, each by an
/// identifier, plain or between double quotes. Every other record has as many fields, each UTF-8 without the byte 0.
///
/// A field `\N` is NULL, also where it was quoted. Where the shape's column of this name is a bigint or a boolean, the
/// field is the cast of a text literal; where it is a text, or there is no shape or no such column, it is that literal.
/// A record is too long where its fields, and a separator between each two of them, come to more than 4,096 bytes.
///
/// `Line` comes exactly where a record breaks these rules, with the number of the first such record; the header has the
/// number 1, which is the answer also where there is none. The version only says which shape is meant. All of this is our
/// own; `\N` is that of PostgreSQL's COPY.
pub fn load(
    alloc: Global,
    text: &[u8],
    table: &Name,
    _version: &Name,
    shape: Option<&Shape>,
) -> Result<List<Loaded>, ScriptFault>
    requires { length text.now ≤ 16777216 }
    ensures few { IfOk result (λ lines. length lines ≤ length text.now) }
    ensures reading { Gives ScriptFault.NoMemory (spec.load_of table.now (option_copied shape.entry) text.now) result }
{
    let rows = records(alloc, text)?;
    let [header, rows @ ..] = rows.as_slice() else {
        return Err(ScriptFault::Line(1));
    };
    match names_of(alloc, header)? {
        Some(names) => lines(alloc, table, shape, &names, rows),
        None => Err(ScriptFault::Line(1)),
    }
}
