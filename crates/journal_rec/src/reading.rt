//! Bodies read as records.
ghost use Rattle.std.specs.Prelude.{◌≡◌, ◌⊎◌, Ok, Err, IfOk, IsErrOf};
ghost use Rattle.std.specs.Int.{w16, w32};
ghost use Rattle.journal_rec.specs.Body.{IsBody};
ghost use Rattle.journal_rec.specs.Reading.{Reads, times, counted_at, text_at, truth_at, value_at, rest_at, row_at, start_in, rows_in, step_in, record_in};

use crate::faults::RecordFault;
use crate::fields::{byte_of, front_of, i64_of, u16_of, u32_of};
use crate::order::ascend;
use crate::records::{Record, RecordedRow};
use sql_base::{List, NoMemory, SqlBytes, SqlText, Value};
use std::alloc::Global;

#[tactic(auto, unfolding(crate::specs::Reading::text_at, crate::specs::Reading::bytes_at))]
fn text_of(alloc: Global, bytes: &[u8]) -> Result<(Value, &[u8]), RecordFault>
    ensures { Reads (λ x. (x.0, x.1.now)) result (text_at bytes.now) }
{
    let (len, rest) = u16_of(bytes)?;
    let (text, rest) = front_of(rest, len as usize)?;
    match SqlText::read(alloc, text)? {
        Some(text) => Ok((Value::Text(text), rest)),
        None => Err(RecordFault::Bad),
    }
}

#[tactic(auto, unfolding(crate::specs::Reading::truth_at))]
fn truth_of(bytes: &[u8]) -> Result<(Value, &[u8]), RecordFault>
    ensures { Reads (λ x. (x.0, x.1.now)) result (truth_at bytes.now) }
{
    let (byte, rest) = byte_of(bytes)?;
    match byte {
        0 => Ok((Value::Bool(false), rest)),
        1 => Ok((Value::Bool(true), rest)),
        _ => Err(RecordFault::Bad),
    }
}

// A value, and what stands behind it.
#[tactic(auto, unfolding(crate::specs::Reading::value_at))]
fn value_of(alloc: Global, bytes: &[u8]) -> Result<(Value, &[u8]), RecordFault>
    ensures { Reads (λ x. (x.0, x.1.now)) result (value_at bytes.now) }
{
    let (kind, rest) = byte_of(bytes)?;
    match kind {
        0 => Ok((Value::Null, rest)),
        1 => {
            let (number, rest) = i64_of(rest)?;
            Ok((Value::Int(number), rest))
        }
        2 => text_of(alloc, rest),
        3 => truth_of(rest),
        _ => Err(RecordFault::Bad),
    }
}

fn values_of(alloc: Global, count: u16, bytes: &[u8]) -> Result<(List<Value>, &[u8]), RecordFault>
    ensures { Reads (λ x. (x.0, x.1.now)) result (times value_at count bytes.now) }
{
    let mut values = List::new(alloc);
    let mut rest = bytes;
    for _ in 0..count {
        let (value, after) = value_of(alloc, rest)?;
        values.push(value)?;
        rest = after;
    }
    Ok((values, rest))
}

// What is left of a row but its key, and what stands behind it.
#[tactic(auto, unfolding(crate::specs::Reading::rest_at, crate::specs::Reading::counted_at))]
fn rest_of(alloc: Global, bytes: &[u8]) -> Result<(Option<List<Value>>, &[u8]), RecordFault>
    ensures { Reads (λ x. (x.0, x.1.now)) result (rest_at bytes.now) }
{
    let (flag, rest) = byte_of(bytes)?;
    match flag {
        0 => Ok((None, rest)),
        1 => {
            let (count, rest) = u16_of(rest)?;
            let (values, rest) = values_of(alloc, count, rest)?;
            Ok((Some(values), rest))
        }
        _ => Err(RecordFault::Bad),
    }
}

#[tactic(auto, unfolding(crate::specs::Reading::row_at))]
fn row_of(alloc: Global, bytes: &[u8]) -> Result<(RecordedRow, &[u8]), RecordFault>
    ensures { Reads (λ x. (x.0, x.1.now)) result (row_at bytes.now) }
{
    let (key, rest) = i64_of(bytes)?;
    let (values, rest) = rest_of(alloc, rest)?;
    Ok((RecordedRow { key, values }, rest))
}

fn list_of(
    alloc: Global,
    count: u32,
    bytes: &[u8],
) -> Result<(List<RecordedRow>, &[u8]), RecordFault>
    ensures { Reads (λ x. (x.0, x.1.now)) result (times row_at count bytes.now) }
{
    let mut rows = List::new(alloc);
    let mut rest = bytes;
    for _ in 0..count {
        let (row, after) = row_of(alloc, rest)?;
        rows.push(row)?;
        rest = after;
    }
    Ok((rows, rest))
}

fn copy_of(alloc: Global, bytes: &[u8]) -> Result<SqlBytes, NoMemory>
    ensures { IfOk result (λ copy. copy ≡ bytes.now) }
{
    let bytes = Vec::from_slice(alloc, bytes)?;
    Ok(SqlBytes::from_vec(bytes))
}

#[tactic(auto, unfolding(crate::specs::Reading::start_in, crate::specs::Reading::bytes_at))]
fn start_of(alloc: Global, bytes: &[u8]) -> Result<Record, RecordFault>
    ensures { Reads (λ r. r) result (start_in bytes.now) }
{
    let (len, rest) = u32_of(bytes)?;
    let (text, rest) = front_of(rest, len as usize)?;
    if !rest.is_empty() {
        return Err(RecordFault::Bad);
    }
    Ok(Record::Start(copy_of(alloc, text)?))
}

#[tactic(auto, unfolding(crate::specs::Reading::rows_in, crate::specs::Reading::counted_at))]
fn rows_of(alloc: Global, bytes: &[u8]) -> Result<Record, RecordFault>
    ensures { Reads (λ r. r) result (rows_in bytes.now) }
{
    let (table, rest) = u32_of(bytes)?;
    let (count, rest) = u32_of(rest)?;
    let (rows, rest) = list_of(alloc, count, rest)?;
    if !rest.is_empty() || rows.len() == 0 || !ascend(rows.as_slice()) {
        return Err(RecordFault::Bad);
    }
    Ok(Record::Rows { table, rows })
}

#[tactic(auto, unfolding(crate::specs::Reading::step_in))]
fn step_of(bytes: &[u8]) -> Result<Record, RecordFault>
    ensures { Reads (λ r. r) result (step_in bytes.now) }
{
    let (kind, rest) = byte_of(bytes)?;
    if !rest.is_empty() || kind < 1 || kind > 5 {
        return Err(RecordFault::Bad);
    }
    Ok(Record::Step(kind))
}

#[tactic(auto, unfolding(crate::specs::Reading::record_in))]
fn record_of(alloc: Global, body: &[u8]) -> Result<Record, RecordFault>
    ensures { Reads (λ r. r) result (record_in body.now) }
{
    let (kind, rest) = byte_of(body)?;
    match kind {
        1 => start_of(alloc, rest),
        2 => rows_of(alloc, rest),
        3 => step_of(rest),
        _ => Err(RecordFault::Bad),
    }
}

/// The record of which these bytes are the body. `Bad` comes exactly where they are the body of none, and `NoMemory`
/// is want of memory.
pub fn read_record(alloc: Global, body: &[u8]) -> Result<Record, RecordFault>
    ensures found { IfOk result (λ r. IsBody body.now r) }
    ensures only { (r : Record) → IsBody body.now r → (result ≡ Ok r) ⊎ (result ≡ Err RecordFault.NoMemory) }
    ensures bad { IsErrOf result RecordFault.Bad → (r : Record) → ¬ IsBody body.now r }
    // The same, as a function of the bytes.
    ensures exact { Reads (λ r. r) result (record_in body.now) }
{
    record_of(alloc, body)
}
