// Stops at each device call of an append, the layout on the vectors of the format, and a keeper in memory.
ghost use Rattle.std.specs.Prelude.{◌≡◌, [], IfOk};
ghost use Rattle.pg_io.specs.Replay.{seen_of};

use crate::{Attached, Journal, JournalFault, KeepFault, Keeper, MemKeeper, Phase};
use pg_io::{Call, Disk, FuseDisk, MemDisk};
use std::alloc::{AllocError, Global};
use std::test::Fail;

// How many device calls attaching to a journal of one record and reading it take.
const CALLS_BEFORE: u64 = 9;

// A disk that holds these bytes and fails where it is told to.
fn disk_of(alloc: Global, bytes: &[u8], failing: &[u64]) -> Result<MemDisk, AllocError> {
    MemDisk::new(
        alloc,
        Vec::from_slice(alloc, bytes)?,
        Vec::from_slice(alloc, failing)?,
    )
}

// A disk with nothing on it.
fn empty_disk(alloc: Global) -> Result<MemDisk, AllocError>
    ensures { IfOk result (λ disk. seen_of disk ≡ []) }
{
    Ok(MemDisk::new(alloc, Vec::new(alloc), Vec::new(alloc))?)
}

// Puts bytes into a file, over what is there and past its end.
fn put(file: &mut Vec<u8>, at: u64, bytes: &[u8]) -> Result<(), AllocError> {
    let mut place = at as usize;
    for byte in bytes {
        match file.get_mut(place) {
            Some(old) => *old = *byte,
            None => file.push(*byte)?,
        }
        place = place.saturating_add(1);
    }
    Ok(())
}

// What a crash may leave: what was sure at the last sync, with each range that was written since filled with this
// byte, or as it was.
fn image(
    alloc: Global,
    first: &[u8],
    calls: &[Call],
    filler: Option<u8>,
) -> Result<Vec<u8>, AllocError> {
    let mut seen = Vec::from_slice(alloc, first)?;
    let mut left = Vec::from_slice(alloc, first)?;
    for call in calls {
        match call {
            Call::Wrote { at, bytes } => {
                put(&mut seen, *at, bytes)?;
                if let Some(byte) = filler {
                    put(&mut left, *at, &vec![in alloc; byte; bytes.len()]?)?;
                }
            }
            Call::Cut { .. } => {}
            Call::Synced => left = Vec::from_slice(alloc, &seen)?,
        }
    }
    Ok(left)
}

// The records of a journal, each with a bar behind it, and the fault that ended them.
fn records_of<D: Disk>(
    alloc: Global,
    journal: &mut Journal<D>,
) -> Result<(Vec<u8>, Option<JournalFault>), AllocError> {
    let mut text = Vec::new(alloc);
    for _ in 0..9 {
        if journal.phase() != Phase::Reading {
            break;
        }
        match journal.next() {
            Ok(Some((_, record))) => {
                text.extend_from_slice(record.as_slice())?;
                text.push(b'|')?;
            }
            Ok(None) => return Ok((text, None)),
            Err(fault) => return Ok((text, Some(fault))),
        }
    }
    Ok((text, None))
}

// The records of a file.
fn reopened(alloc: Global, bytes: &[u8]) -> Result<(Vec<u8>, Option<JournalFault>), AllocError> {
    match Journal::attach(alloc, disk_of(alloc, bytes, &[])?) {
        Attached::Ready(mut journal) => records_of(alloc, &mut journal),
        _ => Ok((Vec::from_slice(alloc, b"no journal")?, None)),
    }
}

// A journal of one record, and the device calls of one more append, of which some fail.
fn append_over<D: Disk + Drop>(alloc: Global, disk: D) -> Result<(Option<KeepFault>, D), Fail> {
    let Attached::Ready(mut journal) = Journal::attach(alloc, disk) else {
        return Err(Fail::new("no journal"));
    };
    let _ = records_of(alloc, &mut journal)?;
    journal.reserve(3)?;
    if journal.phase() != Phase::Standing {
        return Err(Fail::new("the records weren't read"));
    }
    let fault = journal.append(b"two").err();
    Ok((fault, journal.into_disk()))
}

// A file with a journal of one record.
fn one_record(alloc: Global) -> Result<Vec<u8>, Fail> {
    let Ok(mut journal) = Journal::create(alloc, empty_disk(alloc)?) else {
        return Err(Fail::new("no journal"));
    };
    journal.reserve(3)?;
    journal.append(b"one")?;
    Ok(Vec::from_slice(alloc, journal.into_disk().bytes())?)
}

// Whether what a crash may leave after so many device calls of an append has the records from before it: with the new
// one after the fourth, without it up to the second.
fn is_fine(alloc: Global, calls: u64, first: &[u8], disk: &MemDisk) -> Result<bool, Fail> {
    for filler in [None, Some(0xff), Some(1)] {
        let (records, fault) = reopened(alloc, &image(alloc, first, disk.calls(), filler)?)?;
        let has_it = records.as_slice() == b"one|two|".as_slice();
        if fault.is_some() || !has_it && records.as_slice() != b"one|".as_slice() {
            return Ok(false);
        }
        if calls == 4 && !has_it || calls < 3 && has_it {
            return Ok(false);
        }
    }
    Ok(true)
}

#[test]
fn a_stop_in_an_append_leaves_the_records_before_or_with_it(rt: HostRuntime) -> Result<(), Fail> {
    let alloc = rt.alloc();
    let first = one_record(alloc)?;
    for calls in 0..5 {
        let fuse = FuseDisk::new(disk_of(alloc, &first, &[])?, CALLS_BEFORE + calls);
        let (fault, fuse) = append_over(alloc, fuse)?;
        assert!(rt;
            fault
                == if calls < 4 {
                    Some(KeepFault::Failed)
                } else {
                    None
                }
        );
        assert!(rt;
            is_fine(alloc, calls, &first, &fuse.into_inner())?,
            "after {calls} calls"
        );
    }
    for calls in 0..4 {
        let disk = disk_of(alloc, &first, &[CALLS_BEFORE + calls])?;
        let (fault, disk) = append_over(alloc, disk)?;
        assert!(rt; fault == Some(KeepFault::Failed));
        let (records, fault) = reopened(alloc, disk.bytes())?;
        assert!(rt; fault.is_none());
        assert!(rt; records.as_slice() == b"one|".as_slice() || calls == 3);
    }
    Ok(())
}

#[test]
fn the_layout_is_that_of_the_format(rt: HostRuntime) -> Result<(), Fail> {
    let alloc = rt.alloc();
    let Ok(empty) = Journal::create(alloc, empty_disk(alloc)?) else {
        return Err(Fail::new("no journal"));
    };
    assert_eq!(rt; empty.into_disk().bytes(), b"ROLLJNL1\0".as_slice());
    assert_eq!(rt;
        one_record(alloc)?.as_slice(),
        b"ROLLJNL1\x01\0\0\0\x03one\0".as_slice()
    );
    Ok(())
}

#[test]
fn a_record_is_taken_or_bad(rt: HostRuntime) -> Result<(), Fail> {
    let alloc = rt.alloc();
    let bad = Some(JournalFault::BadRecord { at: 8 });
    let rows: [(&[u8], &[u8], Option<JournalFault>); 9] = [
        (b"ROLLJNL1\x01\0\0\0\x01\x63\0", b"c|", None),
        (b"ROLLJNL1\x02\0\0\0\x01\x63\0", b"", None),
        (b"ROLLJNL1", b"", bad),
        (b"ROLLJNL1\x01\0\0\0", b"", bad),
        (b"ROLLJNL1\x01\0\0\0\0\0", b"", bad),
        (b"ROLLJNL1\x01\x08\0\0\x01\x63\0", b"", bad),
        (b"ROLLJNL1\x01\0\0\0\x02\x63", b"", bad),
        (b"ROLLJ", b"no journal", None),
        (b"", b"no journal", None),
    ];
    for (file, wanted, fault) in rows {
        let (records, found) = reopened(alloc, file)?;
        assert_eq!(rt; records.as_slice(), wanted);
        assert!(rt; found == fault);
    }
    Ok(())
}

// Two records into any keeper.
fn keep_two<K: Keeper>(keeper: &mut K) -> Result<(), Fail>
    requires { K.stands keeper.old }
{
    keeper.reserve(3)?;
    keeper.append(b"one")?;
    keeper.reserve(3)?;
    keeper.append(b"two")?;
    Ok(())
}

#[test]
fn a_keeper_keeps(rt: HostRuntime) -> Result<(), Fail> {
    let alloc = rt.alloc();
    let mut memory = MemKeeper::new(alloc);
    keep_two(&mut memory)?;
    assert_eq!(rt; memory.records().len(), 2);
    let Ok(mut journal) = Journal::create(alloc, empty_disk(alloc)?) else {
        return Err(Fail::new("no journal"));
    };
    keep_two(&mut journal)?;
    let (records, _) = reopened(alloc, journal.into_disk().bytes())?;
    assert_eq!(rt; records.as_slice(), b"one|two|".as_slice());
    Ok(())
}
