//! Statements as texts, and where texts have their first fault.

use super::{MOST, told};
use sql_base::{Expr, Items, List, Name, Stmt};
use sql_parse::{ParseFault, parse_stmt};
use sql_text::print_expr;
use std::alloc::Global;
use std::test::Fail;

// Each text, and what it says.
const READ: &str = "INSERT INTO users (id, name) VALUES (1, 'a'); => insert users (id name) (1, 'a')
insert into t (a) values (1+2), (NULL), (-3) => insert t (a) ((1 + 2)) (NULL) (-3)
INSERT INTO \"select\"(\"from\",B)VALUES(a,(b)) => insert select (from b) (a, b)
INSERT INTO t (a) VALUES (coalesce(a, b)) => insert t (a) (coalesce(a, b))
UPDATE users SET name = 'b' WHERE id = 1; => update users name := 'b' where (id = 1)
UPDATE t SET a = b = c, d = upper(e) => update t a := (b = c), d := upper(e)
UPDATE t SET a = 1 WHERE NOT b IS NULL => update t a := 1 where (NOT (b IS NULL))
DELETE FROM t => delete t
delete from T; => delete t
DELETE FROM t WHERE a < b OR c => delete t where ((a < b) OR c)
SELECT * FROM t => select * of t
SELECT*FROM t; => select * of t
SELECT a, b + 1 FROM t WHERE a => select a, (b + 1) of t where a
SELECT (a), (b) FROM t => select a, b of t
SELECT 1FROM t => select 1 of t
SELECT 1 FROM t WHERE - -5 = --5 => select 1 of t where ((- -5) = (- -5))
SELECT a -- b FROM t => select (a - (- b)) of t
SELECT a::text FROM t => select CAST(a AS text) of t
SELECT CAST(a AS int8), nullif(a, b) FROM t => select CAST(a AS bigint), nullif(a, b) of t
SELECT CASE WHEN a THEN b END FROM t => select CASE WHEN a THEN b ELSE NULL END of t
SELECT upper, \"upper\" FROM length => select upper, upper of length
SELECT upper FROM t WHERE lower => select upper of t where lower
SELECT \"select\" FROM \"from\" WHERE \"where\" => select \"select\" of from where \"where\"
SET search_path TO public_01_a; => path public_01_a
set SEARCH_PATH to a, \"b\" , C => path a b c
SET \"search_path\" TO v => path v
";

// Each text with its first fault and the byte where that stands.
const REFUSED: &str = " => syntax 0
; => syntax 0
a => syntax 0
 -- => syntax 1
CREATE TABLE t => syntax 0
SELECT => syntax 6
SELECT FROM t => syntax 7
SELECT * => syntax 8
SELECT *, a FROM t => syntax 8
SELECT a, * FROM t => syntax 10
SELECT a, FROM t => syntax 10
SELECT a b FROM t => syntax 9
SELECT (a, b) FROM t => syntax 9
SELECT a) FROM t => syntax 8
SELECT (a FROM t => syntax 10
SELECT select FROM t => syntax 7
SELECT a FROM select => syntax 14
SELECT a FROM 't' => syntax 14
SELECT a FROM t, u => syntax 15
SELECT a FROM t WHERE => syntax 21
SELECT a FROM t WHERE b, c => syntax 23
SELECT a FROM t WHERE b WHERE c => syntax 24
SELECT a FROM t WHERE b < c < d => syntax 28
SELECT a FROM t;; => syntax 16
SELECT a FROM t; x => syntax 17
SELECT a IS FROM t => syntax 12
SELECT a::int FROM t => syntax 10
SELECT foo(a) FROM t => syntax 10
SELECT a AS b FROM t => syntax 9
INSERT t => syntax 7
INSERT INTO t VALUES (1) => syntax 14
INSERT INTO t () VALUES (1) => syntax 15
INSERT INTO t (a, ) VALUES (1) => syntax 18
INSERT INTO t (a + b) VALUES (1) => syntax 17
INSERT INTO t (a) SELECT => syntax 18
INSERT INTO t (a) VALUES => syntax 24
INSERT INTO t (a) VALUES 1 => syntax 25
INSERT INTO t (a) VALUES () => syntax 26
INSERT INTO t (a) VALUES (1 => syntax 27
INSERT INTO t (a) VALUES (1,) => syntax 28
INSERT INTO t (a) VALUES (1)) => syntax 28
INSERT INTO t (a) VALUES (1), => syntax 29
INSERT INTO t (a) VALUES (1) (2) => syntax 29
INSERT INTO t (a) VALUES (1) WHERE b => syntax 29
UPDATE t a = 1 => syntax 9
UPDATE t SET => syntax 12
UPDATE t SET a => syntax 14
UPDATE t SET a < 1 => syntax 15
UPDATE t SET a = => syntax 16
UPDATE t SET a = 1, => syntax 19
UPDATE t SET a = 1, 2 => syntax 20
UPDATE t SET a = 1 b = 2 => syntax 19
UPDATE t SET a = (1, 2) => syntax 19
UPDATE t SET a = 1 FROM u => syntax 19
UPDATE t SET a = 1 WHERE b, c = 1 => syntax 26
DELETE t => syntax 7
DELETE FROM t a => syntax 14
DELETE FROM t WHERE a; b => syntax 23
SET path TO a => syntax 4
SET search_path = a => syntax 16
SET search_path TO => syntax 18
SET search_path TO a b => syntax 21
SET search_path TO 'a' => syntax 19
SET search_path TO a WHERE b => syntax 21
SET search_path TO 9223372036854775808 => syntax 19
SELECT a FROM 9223372036854775808 => syntax 14
SELECT 9223372036854775808 FROM => wide 7
SELECT a, -9223372036854775809 ) => wide 11
SELECT a FROM t WHERE b = 9223372036854775808 c => wide 26
SELECT a FROM t WHERE b c 9223372036854775808 => syntax 24
INSERT INTO t (a) VALUES (9223372036854775808 => wide 26
UPDATE t SET a = - 9223372036854775808 => wide 19
";

fn read(alloc: Global, text: &[u8]) -> Result<Stmt, ParseFault> {
    if text.len() > MOST {
        return Err(ParseFault::NoMemory);
    }
    parse_stmt(alloc, text)
}

fn add_name(out: &mut String, name: &Name) -> Result<(), Fail> {
    out.push_str(str::from_utf8(name.as_slice())?)?;
    Ok(())
}

fn add_names(out: &mut String, names: &List<Name>) -> Result<(), Fail> {
    let mut gap = "";
    for name in names.as_slice() {
        out.push_str(gap)?;
        add_name(out, name)?;
        gap = " ";
    }
    Ok(())
}

fn add_expr(alloc: Global, out: &mut String, tree: &Expr) -> Result<(), Fail> {
    let text = print_expr(alloc, tree)?;
    out.push_str(str::from_utf8(text.as_slice())?)?;
    Ok(())
}

fn add_exprs(alloc: Global, out: &mut String, trees: &List<Expr>) -> Result<(), Fail> {
    let mut gap = "";
    for tree in trees.as_slice() {
        out.push_str(gap)?;
        add_expr(alloc, out, tree)?;
        gap = ", ";
    }
    Ok(())
}

fn add_rows(alloc: Global, out: &mut String, rows: &List<List<Expr>>) -> Result<(), Fail> {
    for row in rows.as_slice() {
        out.push_str(" (")?;
        add_exprs(alloc, out, row)?;
        out.push_str(")")?;
    }
    Ok(())
}

fn add_sets(alloc: Global, out: &mut String, sets: &List<(Name, Expr)>) -> Result<(), Fail> {
    let mut gap = " ";
    for (name, tree) in sets.as_slice() {
        out.push_str(gap)?;
        add_name(out, name)?;
        out.push_str(" := ")?;
        add_expr(alloc, out, tree)?;
        gap = ", ";
    }
    Ok(())
}

fn add_filter(alloc: Global, out: &mut String, filter: &Option<Expr>) -> Result<(), Fail> {
    if let Some(tree) = filter {
        out.push_str(" where ")?;
        add_expr(alloc, out, tree)?;
    }
    Ok(())
}

fn add_items(alloc: Global, out: &mut String, items: &Items) -> Result<(), Fail> {
    match items {
        Items::All => {
            out.push_str("*")?;
            Ok(())
        }
        Items::Listed(list) => add_exprs(alloc, out, list),
    }
}

fn add_stmt(alloc: Global, out: &mut String, stmt: &Stmt) -> Result<(), Fail> {
    match stmt {
        Stmt::Insert(table, columns, rows) => {
            out.push_str("insert ")?;
            add_name(out, table)?;
            out.push_str(" (")?;
            add_names(out, columns)?;
            out.push_str(")")?;
            add_rows(alloc, out, rows)
        }
        Stmt::Update(table, sets, filter) => {
            out.push_str("update ")?;
            add_name(out, table)?;
            add_sets(alloc, out, sets)?;
            add_filter(alloc, out, filter)
        }
        Stmt::Delete(table, filter) => {
            out.push_str("delete ")?;
            add_name(out, table)?;
            add_filter(alloc, out, filter)
        }
        Stmt::Query(table, items, filter) => {
            out.push_str("select ")?;
            add_items(alloc, out, items)?;
            out.push_str(" of ")?;
            add_name(out, table)?;
            add_filter(alloc, out, filter)
        }
        Stmt::SetPath(names) => {
            out.push_str("path ")?;
            add_names(out, names)
        }
    }
}

// What the text says, or its fault.
fn answer(alloc: Global, text: &[u8]) -> Result<String, Fail> {
    match read(alloc, text) {
        Ok(stmt) => {
            let mut out = String::new(alloc);
            add_stmt(alloc, &mut out, &stmt)?;
            Ok(out)
        }
        Err(fault) => told(alloc, fault),
    }
}

// The lines whose text has another answer than the one behind the arrow, each with that answer.
fn mistold(alloc: Global, lines: &str) -> Result<String, Fail> {
    let mut out = String::new(alloc);
    for line in lines.split('\n') {
        let Some((text, wanted)) = line.split_once(" => ") else {
            out.push_str(line)?;
            continue;
        };
        let found = answer(alloc, text.as_bytes())?;
        if found.as_str() != wanted {
            out.push_str(format!(in alloc; "{line} but {found};")?.as_str())?;
        }
    }
    Ok(out)
}

#[test]
fn statements_read_so(rt: HostRuntime) -> Result<(), Fail> {
    assert_eq!(rt; mistold(rt.alloc(), READ)?.as_str(), "");
    Ok(())
}

#[test]
fn statements_have_their_first_fault_here(rt: HostRuntime) -> Result<(), Fail> {
    assert_eq!(rt; mistold(rt.alloc(), REFUSED)?.as_str(), "");
    Ok(())
}

// The front, so many times the middle, and the back.
fn repeated(
    alloc: Global,
    front: &[u8],
    count: usize,
    middle: &[u8],
    back: &[u8],
) -> Result<Vec<u8>, Fail> {
    let mut text = Vec::new(alloc);
    text.extend_from_slice(front)?;
    for _ in 0..count {
        text.extend_from_slice(middle)?;
    }
    text.extend_from_slice(back)?;
    Ok(text)
}

#[test]
fn statements_have_limits(rt: HostRuntime) -> Result<(), Fail> {
    let alloc = rt.alloc();
    let text = repeated(alloc, b"SELECT a, ", 64, b"NOT ", b"b FROM t")?;
    assert_eq!(rt; answer(alloc, text.as_slice())?.as_str(), "deep");
    let text = repeated(alloc, b"SELECT a, ", 64, b"NOT ", b"b FROM t,")?;
    assert_eq!(rt; answer(alloc, text.as_slice())?.as_str(), "syntax 274");
    let text = repeated(
        alloc,
        b"DELETE FROM t WHERE ",
        63,
        b"- ",
        b"9223372036854775808",
    )?;
    assert_eq!(rt; answer(alloc, text.as_slice())?.as_str(), "wide 146");
    let text = repeated(alloc, b"INSERT INTO t (a) VALUES ('", 4096, b"a", b"')")?;
    assert!(rt;
        answer(alloc, text.as_slice())?
            .as_str()
            .starts_with("insert t (a) ('aaa")
    );
    let text = repeated(alloc, b"INSERT INTO t (a) VALUES ('", 4097, b"a", b"')")?;
    assert_eq!(rt; answer(alloc, text.as_slice())?.as_str(), "syntax 26");
    Ok(())
}
