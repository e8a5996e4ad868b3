// Bodies that were worked out by hand, read and written again, and bytes that are no body.
use super::*;
use sql_base::{SqlText, Value};
use std::alloc::Global;
use std::test::Fail;

// what an INSERT of 4 and 'd' leaves in table 1
const INSERTED: [u8; 33] = [
    2, 0, 0, 0, 1, 0, 0, 0, 1, 0, 0, 0, 0, 0, 0, 0, 4, 1, 0, 2, 1, 0, 0, 0, 0, 0, 0, 0, 4, 2, 0, 1,
    0x64,
];

// what a DELETE of key -1 leaves in table 2
const REMOVED: [u8; 18] = [
    2, 0, 0, 0, 2, 0, 0, 0, 1, 255, 255, 255, 255, 255, 255, 255, 255, 0,
];

// NULL, true and false, and then a row that was removed
const TWO_ROWS: [u8; 34] = [
    2, 0, 0, 1, 0, 0, 0, 0, 2, 255, 255, 255, 255, 255, 255, 255, 254, 1, 0, 3, 0, 3, 1, 3, 0, 0,
    0, 0, 0, 0, 0, 0, 3, 0,
];

fn same_again(alloc: Global, body: &[u8]) -> Result<bool, RecordFault> {
    let change = read_record(alloc, body)?;
    let again = write_record(alloc, &change)?;
    Ok(again.as_slice() == body)
}

#[test]
fn bodies_are_read_and_written_again(rt: HostRuntime) {
    let alloc = rt.alloc();
    let bodies: [&[u8]; 7] = [
        &INSERTED,
        &REMOVED,
        &TWO_ROWS,
        &[3, 2],
        &[3, 5],
        &[1, 0, 0, 0, 2, 0x7b, 0x7d],
        &[1, 0, 0, 0, 0],
    ];
    for body in bodies {
        assert!(rt; same_again(alloc, body) == Ok(true));
    }
}

#[test]
fn fields_are_read(rt: HostRuntime) -> Result<(), Fail> {
    let alloc = rt.alloc();
    let Ok(Record::Rows { table: 1, rows }) = read_record(alloc, &INSERTED) else {
        return Err("no rows of table 1".into());
    };
    let row = rows.get(0).ok_or("no row")?;
    assert_eq!(rt; rows.len(), 1);
    assert_eq!(rt; row.key, 4);
    let Some(values) = &row.values else {
        return Err("no values".into());
    };
    assert_eq!(rt; values.len(), 2);
    assert!(rt; matches!(values.get(0), Some(Value::Int(4))));
    let Some(Value::Text(text)) = values.get(1) else {
        return Err("no text".into());
    };
    assert_eq!(rt; text.as_str(), "d");
    let Ok(Record::Rows { table: 2, rows }) = read_record(alloc, &REMOVED) else {
        return Err("no rows of table 2".into());
    };
    let row = rows.get(0).ok_or("no row")?;
    assert_eq!(rt; row.key, -1);
    assert!(rt; row.values.is_none());
    assert!(rt; matches!(read_record(alloc, &[3, 2]), Ok(Record::Step(2))));
    Ok(())
}

#[test]
fn other_bytes_are_no_body(rt: HostRuntime) {
    let alloc = rt.alloc();
    let others: [&[u8]; 20] = [
        &[],
        &[0x63],
        &[0, 0, 0, 0, 0],
        // a length past the end, and a byte more than the length
        &[1, 0, 0, 0, 3, 0x7b, 0x7d],
        &[1, 0, 0, 0, 1, 0x7b, 0x7d],
        &[1, 0, 0, 0],
        // no row, and a row that is missing
        &[2, 0, 0, 0, 1, 0, 0, 0, 0],
        &[2, 0, 0, 0, 1, 0, 0, 0, 1],
        // an equal key, and a lesser one
        &[
            2, 0, 0, 0, 1, 0, 0, 0, 2, 0, 0, 0, 0, 0, 0, 0, 4, 0, 0, 0, 0, 0, 0, 0, 0, 4, 0,
        ],
        &[
            2, 0, 0, 0, 1, 0, 0, 0, 2, 0, 0, 0, 0, 0, 0, 0, 0, 0, 255, 255, 255, 255, 255, 255,
            255, 255, 0,
        ],
        // neither removed nor stored
        &[2, 0, 0, 0, 1, 0, 0, 0, 1, 0, 0, 0, 0, 0, 0, 0, 4, 2],
        // a value of a fifth kind, a truth that is none, a number that is cut off
        &[
            2, 0, 0, 0, 1, 0, 0, 0, 1, 0, 0, 0, 0, 0, 0, 0, 4, 1, 0, 1, 4,
        ],
        &[
            2, 0, 0, 0, 1, 0, 0, 0, 1, 0, 0, 0, 0, 0, 0, 0, 4, 1, 0, 1, 3, 2,
        ],
        &[
            2, 0, 0, 0, 1, 0, 0, 0, 1, 0, 0, 0, 0, 0, 0, 0, 4, 1, 0, 1, 1, 0, 0,
        ],
        // texts that are none: no UTF-8, a byte 0
        &[
            2, 0, 0, 0, 1, 0, 0, 0, 1, 0, 0, 0, 0, 0, 0, 0, 4, 1, 0, 1, 2, 0, 1, 255,
        ],
        &[
            2, 0, 0, 0, 1, 0, 0, 0, 1, 0, 0, 0, 0, 0, 0, 0, 4, 1, 0, 1, 2, 0, 1, 0,
        ],
        &[3, 0],
        &[3, 6],
        &[3, 2, 0],
        &[3],
    ];
    for other in others {
        assert!(rt; matches!(read_record(alloc, other), Err(RecordFault::Bad)));
    }
}
