//! The fields of a body.
ghost use Rattle.std.specs.Int.{w16, w32};
ghost use Rattle.journal_rec.specs.Reading.{Reads, byte_at, front_at, number_at, int_at, bytes_at};

use crate::faults::RecordFault;

// A byte, and what stands behind it.
pub fn byte_of(bytes: &[u8]) -> Result<(u8, &[u8]), RecordFault>
    ensures { Reads (λ x. (x.0, x.1.now)) result (byte_at bytes.now) }
{
    match bytes {
        [byte, rest @ ..] => Ok((*byte, rest)),
        [] => Err(RecordFault::Bad),
    }
}

// So many bytes, and what stands behind them.
pub fn front_of(bytes: &[u8], len: usize) -> Result<(&[u8], &[u8]), RecordFault>
    ensures { Reads (λ x. (x.0.now, x.1.now)) result (front_at len bytes.now) }
{
    if bytes.len() < len {
        return Err(RecordFault::Bad);
    }
    Ok(bytes.split_at(len))
}

// A number of two bytes, and what stands behind it.
pub fn u16_of(bytes: &[u8]) -> Result<(u16, &[u8]), RecordFault>
    ensures { Reads (λ x. (x.0, x.1.now)) result (number_at w16 bytes.now) }
{
    if bytes.len() < 2 {
        return Err(RecordFault::Bad);
    }
    let (front, rest) = bytes.split_at(2);
    let number = u16::from_be_bytes([front[0], front[1]]);
    Ok((number, rest))
}

// A number of four bytes, and what stands behind it.
pub fn u32_of(bytes: &[u8]) -> Result<(u32, &[u8]), RecordFault>
    ensures { Reads (λ x. (x.0, x.1.now)) result (number_at w32 bytes.now) }
{
    if bytes.len() < 4 {
        return Err(RecordFault::Bad);
    }
    let (front, rest) = bytes.split_at(4);
    let number = u32::from_be_bytes([front[0], front[1], front[2], front[3]]);
    Ok((number, rest))
}

// A number of eight bytes with a sign, and what stands behind it.
#[tactic(auto, unfolding(crate::specs::Reading::int_at))]
pub fn i64_of(bytes: &[u8]) -> Result<(i64, &[u8]), RecordFault>
    ensures { Reads (λ x. (x.0, x.1.now)) result (int_at bytes.now) }
{
    if bytes.len() < 8 {
        return Err(RecordFault::Bad);
    }
    let (front, rest) = bytes.split_at(8);
    let number = i64::from_be_bytes([
        front[0], front[1], front[2], front[3], front[4], front[5], front[6], front[7],
    ]);
    Ok((number, rest))
}
