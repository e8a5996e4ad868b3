// A read or a write that fails in mid-stream, and each call once where nothing fails.
ghost use Rattle.std.specs.Prelude.{◌≡◌, ◌≤◌, IfOk};

use crate::{
    Failed, InputFault, MemSink, MemSource, Sink, Source, StdSink, StdSource, read_whole,
    write_whole,
};
use std::alloc::Global;
use std::io;
use std::io::{Cursor, Read, Write};
use std::test::Fail;

// What the contract of a generic call says of a source in memory.
fn read_from_memory(
    alloc: Global,
    bytes: Vec<u8>,
    failing: Vec<u64>,
    limit: usize,
) -> Result<Vec<u8>, InputFault>
    ensures { IfOk result (λ text. text.items ≡ bytes.items) }
{
    let mut source = MemSource::new(bytes, failing);
    Ok(read_whole(alloc, &mut source, limit)?)
}

#[test]
fn reads_to_the_end_or_tells_why_not(rt: HostRuntime) -> Result<(), Fail> {
    let alloc = rt.alloc();
    let rows: [(u64, usize, Option<InputFault>); 5] = [
        (0, 9, Some(InputFault::Failed)),
        (1, 9, Some(InputFault::Failed)),
        (2, 9, None),
        (2, 3, None),
        (2, 2, Some(InputFault::TooLong)),
    ];
    for (failing, limit, wanted) in rows {
        let bytes = Vec::from_slice(alloc, b"abc")?;
        let failing = Vec::from_slice(alloc, &[failing])?;
        match read_from_memory(alloc, bytes, failing, limit) {
            Ok(text) => {
                assert_eq!(rt; text.as_slice(), b"abc".as_slice());
                assert!(rt; wanted.is_none());
            }
            Err(fault) => assert!(rt; wanted == Some(fault)),
        }
    }
    Ok(())
}

#[test]
fn writes_whole_pieces_and_tells_a_failed_one(rt: HostRuntime) -> Result<(), Fail> {
    let alloc = rt.alloc();
    let mut sink = MemSink::new(alloc, Vec::from_slice(alloc, &[0, 2])?);
    sink.reserve(16)?;
    assert!(rt; write_whole(&mut sink, b"first") == Err(Failed));
    assert_eq!(rt; sink.bytes(), b"".as_slice());
    assert!(rt; write_whole(&mut sink, b"second") == Ok(()));
    assert!(rt; write_whole(&mut sink, b"third") == Err(Failed));
    assert!(rt; write_whole(&mut sink, b"fourth") == Ok(()));
    assert_eq!(rt; sink.bytes(), b"secondfourth".as_slice());
    Ok(())
}

#[test]
fn passes_on_what_std_reads_and_writes(rt: HostRuntime) -> Result<(), Fail> {
    let mut source = StdSource::new(Cursor::new(b"abc".as_slice()));
    let mut buf = [0; 2];
    assert!(rt; source.read(&mut buf) == Ok(2));
    assert_eq!(rt; &buf, b"ab");
    assert!(rt; source.read(&mut buf) == Ok(1));
    assert!(rt; source.read(&mut buf) == Ok(0));
    let mut room = [0; 5];
    let mut sink = StdSink::new(Cursor::new(room.as_mut_slice()));
    assert!(rt; write_whole(&mut sink, b"abc") == Ok(()));
    assert!(rt; sink.write(b"defg") == Ok(2));
    assert!(rt; sink.write(b"fg") == Err(Failed));
    Ok(())
}

// Moves one byte a call, and fails at its second call.
#[derive(Drop)]
struct FailsOnce {
    calls: u64,
}

impl FailsOnce {
    fn move_one(&mut self, room: usize) -> io::Result<usize>
        ensures { IfOk result (λ n. n ≤ room) }
    {
        self.calls = self.calls.saturating_add(1);
        if self.calls == 2 {
            return Err(io::ErrorKind::Other.into());
        }
        Ok(room.min(1))
    }
}

impl Read for FailsOnce {
    fn read(&mut self, buf: &mut [u8]) -> io::Result<usize> {
        self.move_one(buf.len())
    }
}

impl Write for FailsOnce {
    fn write(&mut self, bytes: &[u8]) -> io::Result<usize> {
        self.move_one(bytes.len())
    }

    fn flush(&mut self) -> io::Result<()> {
        Ok(())
    }
}

#[test]
fn tells_an_error_of_std_in_mid_stream(rt: HostRuntime) -> Result<(), Fail> {
    let mut source = StdSource::new(FailsOnce { calls: 0 });
    let mut buf = [0; 2];
    assert!(rt; source.read(&mut buf) == Ok(1));
    assert!(rt; source.read(&mut buf) == Err(Failed));
    assert!(rt; source.read(&mut buf) == Ok(1));
    let mut sink = StdSink::new(FailsOnce { calls: 0 });
    assert!(rt; sink.write(b"ab") == Ok(1));
    assert!(rt; sink.write(b"ab") == Err(Failed));
    assert!(rt; sink.write(b"ab") == Ok(1));
    Ok(())
}
