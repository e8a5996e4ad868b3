// What a disk in memory leaves where a call fails, what a fuse lets pass, and one file of the system.
use crate::{Call, Disk, Failed, FileDisk, FuseDisk, MemDisk};
use std::fs;
use std::test::Fail;

#[test]
fn a_failing_write_leaves_a_front_and_a_failing_cut_is_done(rt: HostRuntime) -> Result<(), Fail> {
    let alloc = rt.alloc();
    let failing = Vec::from_slice(alloc, &[1, 3, 4])?;
    let mut disk = MemDisk::new(alloc, Vec::from_slice(alloc, b"abc")?, failing)?;
    assert!(rt; disk.write_at(3, b"defg") == Ok(()));
    assert!(rt; disk.write_at(3, b"DEFG") == Err(Failed));
    assert_eq!(rt; disk.bytes(), b"abcDEfg".as_slice());
    assert!(rt; disk.sync() == Ok(()));
    assert!(rt; disk.sync() == Err(Failed));
    assert!(rt; disk.cut(4) == Err(Failed));
    assert_eq!(rt; disk.bytes(), b"abcD".as_slice());
    let mut buf = [0; 2];
    assert!(rt; disk.len() == Ok(4));
    assert!(rt; disk.read_at(2, &mut buf) == Ok(()));
    assert_eq!(rt; &buf, b"cD");
    assert!(rt;
        matches!(
            disk.calls(),
            [
                Call::Wrote { at: 3, .. },
                Call::Wrote { .. },
                Call::Synced,
                Call::Cut { len: 4 }
            ]
        )
    );
    Ok(())
}

#[test]
fn a_fuse_lets_some_calls_pass(rt: HostRuntime) -> Result<(), Fail> {
    let alloc = rt.alloc();
    let inner = MemDisk::new(alloc, Vec::new(alloc), Vec::new(alloc))?;
    let mut disk = FuseDisk::new(inner, 3);
    let mut buf = [0; 1];
    assert!(rt; disk.write_at(0, b"ab") == Ok(()));
    assert!(rt; disk.cut(1) == Ok(()));
    assert!(rt; disk.read_at(0, &mut buf) == Ok(()));
    assert!(rt; disk.sync() == Err(Failed));
    assert!(rt; disk.len() == Err(Failed));
    assert_eq!(rt; disk.into_inner().bytes(), b"a".as_slice());
    Ok(())
}

#[test]
fn a_file_is_made_and_keeps_what_is_written(rt: HostRuntime) -> Result<(), Fail> {
    let alloc = rt.alloc();
    let path = format!(in alloc; "pg_io_test_{}.tmp", std::process::id(rt.process()))?;
    let mut disk = FileDisk::new(rt, path.clone()?);
    let mut buf = [0; 3];
    assert!(rt; disk.len() == Ok(0));
    assert!(rt; disk.write_at(0, b"abcdef") == Ok(()));
    assert!(rt; disk.write_at(2, b"CD") == Ok(()));
    assert!(rt; disk.cut(5) == Ok(()));
    assert!(rt; disk.sync() == Ok(()));
    assert!(rt; disk.read_at(2, &mut buf) == Ok(()));
    assert_eq!(rt; &buf, b"CDe");
    assert!(rt; disk.read_at(3, &mut buf) == Err(Failed));
    let mut again = FileDisk::new(rt, path.clone()?);
    assert!(rt; again.len() == Ok(5));
    let mut nowhere = FileDisk::new(rt, String::from_str(alloc, "no/such/folder")?);
    assert!(rt; nowhere.len() == Err(Failed));
    fs::remove_file(&rt, path.as_str())?;
    Ok(())
}
