//! The records of a text, and their fields.
ghost use Rattle.std.specs.Prelude.{◌≡◌, ◌<◌, ◌≤◌, [], length, map, IfOk, slice_index_or};
ghost use Rattle.csv.specs.Reading.{AreRecords, default_config, strip_bom};
ghost use Rattle.csv.specs.Records.{fields_of};
ghost use Rattle.csv.specs.declared.parser.State.TheVariants as State;
ghost use Rattle.csv_load.specs.Load as spec;

use csv::{ByteRecord, ReaderBuilder};
use sql_base::NoMemory;
use std::alloc::Global;

/// The most bytes of a record, with a separator between each two fields.
const MAX_BYTES: usize = 4_096;

fn read_all(alloc: Global, text: &[u8]) -> Result<Vec<ByteRecord>, NoMemory>
    ensures { IfOk result (λ rows. AreRecords default_config State.StartRecord (strip_bom text.now) (map fields_of rows.items)) }
{
    let reader = ReaderBuilder::new()
        .has_headers(false)
        .flexible(true)
        .from_reader(alloc, text);
    let mut rows = Vec::new(alloc);
    for row in reader.into_byte_records() {
        match row {
            Ok(row) => rows.push(row)?,
            Err(_) => return Err(NoMemory),
        }
    }
    Ok(rows)
}

/// Every record of a text. An error is want of memory.
pub fn records(alloc: Global, text: &[u8]) -> Result<Vec<ByteRecord>, NoMemory>
    ensures all { IfOk result (λ rows. map fields_of rows.items ≡ spec.records_of text.now) }
    ensures few { IfOk result (λ rows. length rows.items ≤ length text.now) }
{
    let rows = read_all(alloc, text)?;
    Ok(rows)
}

/// The field at this place, from 0.
pub fn field_of(row: &ByteRecord, at: usize) -> &[u8]
    requires { at < length (fields_of row.now) }
    ensures { result.now ≡ slice_index_or (fields_of row.now) at [] }
{
    match row.get(at) {
        Some(field) => field,
        None => unreachable!(),
    }
}

/// Whether a record has so few bytes that it is a statement.
pub fn fits(row: &ByteRecord) -> bool
    ensures { result ≡ spec.fits (fields_of row.now) }
{
    // The last field has no separator behind it.
    let mut room = MAX_BYTES + 1;
    for at in 0..row.len() {
        let count = field_of(row, at).len();
        if count >= room {
            return false;
        }
        room -= count + 1;
    }
    true
}
