use csv_load::{Loaded, load};
use sql_base::{Column, List, Name, NoMemory, ScriptFault, Shape, Stmt, Ty, Value};
use sql_text::print_expr;
use std::alloc::Global;
use std::test::Fail;

// The longest text that is loaded.
const MOST: usize = 16_777_216;

// Each text, and what it loads into a table with the columns `id`, `name` and `ok`: of each record the names of the
// columns and the values.
const TEXTS: [(&str, &str); 23] = [
    (
        "id,name,ok\n1,ann,t\n",
        "id,name,ok: CAST('1' AS bigint) 'ann' CAST('t' AS boolean)\n",
    ),
    (
        "id,name\r\n1,ann\r\n2,\"b,o\"\"b\"",
        "id,name: CAST('1' AS bigint) 'ann'\nid,name: CAST('2' AS bigint) 'b,o\"b'\n",
    ),
    (
        "NAME,\"Id\"\nit's,x",
        "name,id: 'it''s' CAST('x' AS bigint)\n",
    ),
    (
        "\"\"\"id\"\"\",\"\"\"where\"\"\",age\n1,2,3",
        "id,where,age: CAST('1' AS bigint) '2' '3'\n",
    ),
    (
        "id,name,ok\n\\N,\"\\N\",\\N\n",
        "id,name,ok: NULL NULL NULL\n",
    ),
    (
        "id,name\n\\n,\" \\N\"\n",
        "id,name: CAST('\\n' AS bigint) ' \\N'\n",
    ),
    ("id,name\n,\"\"\n", "id,name: CAST('' AS bigint) ''\n"),
    ("name\n\"a\nb\"\n", "name: 'a\nb'\n"),
    ("\u{feff}name\nann\n", "name: 'ann'\n"),
    (
        "\n\nname\n\nann\n\r\n\nbob\n\n",
        "name: 'ann'\nname: 'bob'\n",
    ),
    ("name\n", ""),
    ("name", ""),
    ("", "line 1"),
    ("\u{feff}\n\n", "line 1"),
    ("1a\nann\n", "line 1"),
    ("where\nann\n", "line 1"),
    ("\"\"\"Id\"\"\"\n1\n", "line 1"),
    ("id, name\n1,ann\n", "line 1"),
    ("id,\n1,\n", "line 1"),
    ("id,name\n1,ann\n2\n3\n", "line 3"),
    ("id,name\n\n\n1,ann\n\n2,bob,t\n", "line 3"),
    ("name\na\u{0}b\n", "line 2"),
    ("id,1a\n1\n", "line 1"),
];

fn column(alloc: Global, name: &str, ty: Ty) -> Result<Column, NoMemory> {
    Ok(Column {
        name: Name::from_slice(alloc, name.as_bytes())?,
        ty,
        nullable: true,
        default: Value::Null,
    })
}

fn shape(alloc: Global) -> Result<Shape, NoMemory> {
    let mut columns = List::new(alloc);
    columns.push(column(alloc, "id", Ty::Bigint)?)?;
    columns.push(column(alloc, "name", Ty::Text)?)?;
    columns.push(column(alloc, "ok", Ty::Boolean)?)?;
    Ok(Shape {
        columns,
        key: 0,
        checks: List::new(alloc),
        uniques: List::new(alloc),
    })
}

fn show_names(out: &mut String, names: &[Name]) -> Result<(), Fail> {
    let mut before = "";
    for name in names {
        out.push_str(before)?;
        out.push_str(str::from_utf8(name.as_slice())?)?;
        before = ",";
    }
    out.push_str(":")?;
    Ok(())
}

fn show_one(alloc: Global, out: &mut String, loaded: &Loaded) -> Result<(), Fail> {
    match loaded {
        Loaded::Statement(Stmt::Insert(_, names, rows)) => {
            show_names(out, names.as_slice())?;
            for values in rows.as_slice() {
                for value in values.as_slice() {
                    out.push_str(" ")?;
                    out.push_str(str::from_utf8(print_expr(alloc, value)?.as_slice())?)?;
                }
            }
        }
        Loaded::Statement(_) => out.push_str("no row")?,
        Loaded::TooLong => out.push_str("too long")?,
    }
    out.push_str("\n")?;
    Ok(())
}

// What a text loads, in words.
fn shown(alloc: Global, text: &[u8], shape: Option<&Shape>) -> Result<String, Fail> {
    let name = Name::from_slice(alloc, b"users")?;
    if text.len() > MOST {
        return Err(Fail::from("a text is too long"));
    }
    match load(alloc, text, &name, &name, shape) {
        Ok(lines) => {
            let mut out = String::new(alloc);
            for line in lines.as_slice() {
                show_one(alloc, &mut out, line)?;
            }
            Ok(out)
        }
        Err(ScriptFault::Line(number)) => Ok(format!(in alloc; "line {number}")?),
        Err(ScriptFault::NoMemory) => Ok(String::from_str(alloc, "no memory")?),
    }
}

#[test]
fn texts_load(rt: HostRuntime) -> Result<(), Fail> {
    let shape = shape(rt.alloc())?;
    for (text, loaded) in TEXTS {
        assert_eq!(rt;
            shown(rt.alloc(), text.as_bytes(), Some(&shape))?.as_str(),
            loaded,
            "{text:?}"
        );
    }
    Ok(())
}

#[test]
fn bytes_that_are_no_text_are_a_fault(rt: HostRuntime) -> Result<(), Fail> {
    let text = b"name\nann\n\xff\n";
    assert_eq!(rt; shown(rt.alloc(), text, None)?.as_str(), "line 3");
    Ok(())
}

#[test]
fn every_field_is_a_text_without_a_shape(rt: HostRuntime) -> Result<(), Fail> {
    let text = b"id,ok\n1,\\N\n";
    assert_eq!(rt;
        shown(rt.alloc(), text, None)?.as_str(),
        "id,ok: '1' NULL\n"
    );
    Ok(())
}

// Each length of two fields, and whether their record is too long.
const LENGTHS: [(usize, usize, bool); 5] = [
    (4_095, 0, false),
    (4_096, 0, true),
    (2_048, 2_047, false),
    (2_048, 2_048, true),
    (0, 10_000, true),
];

fn push_many(out: &mut String, text: &str, count: usize) -> Result<(), Fail> {
    for _ in 0..count {
        out.push_str(text)?;
    }
    Ok(())
}

#[test]
fn a_record_has_at_most_4_096_bytes(rt: HostRuntime) -> Result<(), Fail> {
    for (first, second, long) in LENGTHS {
        let mut text = String::from_str(rt.alloc(), "a,b\n\"")?;
        push_many(&mut text, "x", first)?;
        text.push_str("\",")?;
        push_many(&mut text, "y", second)?;
        let loaded = shown(rt.alloc(), text.as_str().as_bytes(), None)?;
        assert_eq!(rt; loaded.as_str() == "too long\n", long, "{first} {second}");
    }
    Ok(())
}
