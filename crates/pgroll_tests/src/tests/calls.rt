// What the top call writes, and which status it answers.
use crate::{between, over_memory};
use pg_io::{MemSink, MemSource};
use sql_base::NoMemory;
use std::alloc::Global;
use std::test::Fail;

/// Memory for the output of each call here.
const ROOM: usize = 1_000;

/// What a call came to.
#[derive(Drop)]
pub struct Told {
    pub status: u8,
    pub output: Vec<u8>,
}

fn strings(alloc: Global, words: &[&str]) -> Result<Vec<String>, NoMemory> {
    let mut strings = Vec::new(alloc);
    for word in words {
        strings.push(String::from_str(alloc, *word)?)?;
    }
    Ok(strings)
}

/// A call of these words over this input, with the numbers of the reads and of the writes that are to fail.
pub fn call(
    alloc: Global,
    words: &[&str],
    input: &[u8],
    reads: &[u64],
    writes: &[u64],
) -> Result<Told, NoMemory> {
    let words = strings(alloc, words)?;
    let reads = Vec::from_slice(alloc, reads)?;
    let mut source = MemSource::new(Vec::from_slice(alloc, input)?, reads);
    let mut sink = MemSink::new(alloc, Vec::from_slice(alloc, writes)?);
    sink.reserve(ROOM)?;
    let status = between(alloc, &words, &mut source, &mut sink);
    Ok(Told {
        status,
        output: Vec::from_slice(alloc, sink.bytes())?,
    })
}

/// Inputs, and what `exec` writes for each.
const EXEC: [(&str, &str); 10] = [
    (
        "INSERT INTO users (id, name) VALUES (1, 'a');\nSELECT * FROM users;\n",
        "1 main INSERT 0 1\n2 main SELECT 1\n  1|a\n",
    ),
    ("", ""),
    // A present key.
    (
        "INSERT INTO users (id, name) VALUES (1, 'a')\nINSERT INTO users (id, name) VALUES (2, 'b')\nINSERT INTO users (id, name) VALUES (3, 'c')\nINSERT INTO users (id, name) VALUES (1, 'z')\nSELECT * FROM users\n",
        "1 main INSERT 0 1\n2 main INSERT 0 1\n3 main INSERT 0 1\n4 main ERROR 23505 users_pkey 1\n5 main SELECT 3\n  1|a\n  2|b\n  3|c\n",
    ),
    // Keys that come in descending order.
    (
        "insert into users(id,name)values(10,'x y')\nINSERT INTO users (id, name) VALUES (9, '')\nINSERT INTO users (id, name) VALUES (-999999999999999999, 'least')\nSELECT * FROM users\n",
        "1 main INSERT 0 1\n2 main INSERT 0 1\n3 main INSERT 0 1\n4 main SELECT 3\n  -999999999999999999|least\n  9|\n  10|x y\n",
    ),
    // Lines that read as no statement.
    (
        " \\complete\nSELEC\n;\n",
        "1 main ERROR 42601 - -\n2 main ERROR 42601 - -\n3 main ERROR 42601 - -\n",
    ),
    // Rows that are asked for, changed and taken away by a condition.
    (
        "INSERT INTO users (name, id) VALUES ('a', 1), ('b', 2), ('c', 3)\nUPDATE users SET name = name || name WHERE id > 1\nDELETE FROM users WHERE name = 'bb'\nSELECT name, id + 1 FROM users WHERE id <> 2\n",
        "1 main INSERT 0 3\n2 main UPDATE 2\n3 main DELETE 1\n4 main SELECT 2\n  a|2\n  cc|4\n",
    ),
    // A number that is too wide where one fits, and where none does.
    (
        "SELECT 9223372036854775808 FROM users\nSELECT id 9223372036854775808 FROM users\n",
        "1 main ERROR 22003 - -\n2 main ERROR 42601 - -\n",
    ),
    // Lines that are passed by.
    (
        "\n   \r\n-- SELECT * FROM users\n--\nSELECT * FROM users\n\n",
        "1 main SELECT 0\n",
    ),
    // Carriage returns, and a last line without a newline.
    (
        "SELECT * FROM users\r\n\r\nSELECT * FROM users;",
        "1 main SELECT 0\n2 main SELECT 0\n",
    ),
    ("SELECT * FROM users\r", "1 main SELECT 0\n"),
];

#[test]
fn lines_are_answered(rt: HostRuntime) -> Result<(), Fail> {
    for (input, wanted) in EXEC {
        let told = call(rt.alloc(), &["exec"], input.as_bytes(), &[], &[])?;
        assert_eq!(rt; told.status, 0, "{input}");
        assert_eq!(rt; told.output.as_slice(), wanted.as_bytes(), "{input}");
    }
    Ok(())
}

const USAGE: &str = "usage: pgroll_cli JOURNAL COMMAND [ARGS] [--batch N] [--pause-at N]\n";

const READ: &str = "0 control ERROR read\n";

/// Words, the read and the write that are to fail (of these calls none has as many as 99), the status and the output.
const ENDS: [(&[&str], u64, u64, u8, &str); 10] = [
    (&["exec", "extra"], 0, 99, 2, USAGE),
    (&["init"], 99, 99, 2, USAGE),
    (&[], 99, 99, 2, USAGE),
    (&["exec"], 0, 99, 3, READ),
    (&["exec"], 1, 99, 3, READ),
    (
        &["exec"],
        2,
        99,
        0,
        "1 main SELECT 0\n2 main SELECT 0\n3 main SELECT 0\n",
    ),
    (&["exec"], 99, 0, 4, ""),
    (&["exec"], 99, 2, 4, "1 main SELECT 0\n2 main SELECT 0\n"),
    (&["exec"], 0, 0, 4, ""),
    (&["exec", "extra"], 99, 0, 4, ""),
];

#[test]
fn ends_are_told(rt: HostRuntime) -> Result<(), Fail> {
    let input = "SELECT * FROM users\nSELECT * FROM users\nSELECT * FROM users\n";
    for (words, read, write, status, wanted) in ENDS {
        let told = call(rt.alloc(), words, input.as_bytes(), &[read], &[write])?;
        assert_eq!(rt; told.status, status, "read {read} write {write}");
        assert_eq!(rt;
            told.output.as_slice(),
            wanted.as_bytes(),
            "read {read} write {write}"
        );
    }
    Ok(())
}

/// This text, and then one byte as often as makes so many bytes.
fn filled(alloc: Global, text: &str, byte: u8, length: usize) -> Result<Vec<u8>, NoMemory> {
    let mut bytes = Vec::from_slice(alloc, text.as_bytes())?;
    bytes.extend_from_slice(&vec![in alloc; byte; length.saturating_sub(text.len())]?)?;
    Ok(bytes)
}

/// The byte that fills an input, its length, the status and the output.
const LONG: [(u8, usize, u8, &str); 4] = [
    (b' ', 4_096, 0, "1 main SELECT 0\n"),
    (b' ', 4_097, 0, "1 main ERROR 54000 statement -\n"),
    (b'\n', 65_536, 0, "1 main SELECT 0\n"),
    (b'\n', 65_537, 8, "0 control ERROR input\n"),
];

#[test]
fn long_inputs_and_lines_are_told(rt: HostRuntime) -> Result<(), Fail> {
    let mut words = Vec::new(rt.alloc());
    words.push(String::from_str(rt.alloc(), "exec")?)?;
    for (byte, length, status, wanted) in LONG {
        let input = filled(rt.alloc(), "SELECT * FROM users", byte, length)?;
        let told = over_memory(rt.alloc(), &words, input)?;
        assert_eq!(rt; told.0, status, "{length}");
        assert_eq!(rt; told.1.as_slice(), wanted.as_bytes(), "{length}");
    }
    Ok(())
}

/// How often a condition is turned round, and what its line comes to.
const DEEP: [(usize, &str); 2] = [
    (63, "1 main SELECT 0\n"),
    (64, "1 main ERROR 54000 depth -\n"),
];

#[test]
fn deep_expressions_are_told(rt: HostRuntime) -> Result<(), Fail> {
    for (often, wanted) in DEEP {
        let mut input = Vec::from_slice(rt.alloc(), b"SELECT * FROM users WHERE ")?;
        for _ in 0..often {
            input.extend_from_slice(b"NOT ")?;
        }
        input.extend_from_slice(b"true")?;
        let told = call(rt.alloc(), &["exec"], &input, &[], &[])?;
        assert_eq!(rt; told.output.as_slice(), wanted.as_bytes(), "{often}");
    }
    Ok(())
}
