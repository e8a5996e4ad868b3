//! The life of stored rows, against what the rules say of two migrations.
mod phases;

use crate::{left_row, restore, returned_row, trimmed, trimmed_view};
use mig_lens::{Cell, Lens, Side, layout};
use sql_base::{Column, Copying, EvalFault, Expr, List, Name, NoMemory, Shape, SqlText, Ty, Value};
use std::alloc::Global;
use std::test::Fail;
use trigger_pair::{Pair, begun, fill, fire, is_marked, new_view, old_view};

fn column(alloc: Global, word: &str, ty: Ty) -> Result<Column, NoMemory> {
    Ok(Column {
        name: Name::from_slice(alloc, word.as_bytes())?,
        ty,
        nullable: true,
        default: Value::Null,
    })
}

/// A shape with these bigint columns, but for `name`, which is a text; the first one is the key.
fn shape(alloc: Global, words: &str) -> Result<Shape, NoMemory> {
    let mut columns = List::new(alloc);
    for word in words.split(' ') {
        let ty = if word == "name" { Ty::Text } else { Ty::Bigint };
        columns.push(column(alloc, word, ty)?)?;
    }
    Ok(Shape {
        columns,
        key: 0,
        checks: List::new(alloc),
        uniques: List::new(alloc),
    })
}

/// A number is a carried place. `#` and a number is that number made, `=` and a name that column, and `!` and a number is
/// that constant.
fn cell(alloc: Global, word: &str) -> Result<Cell, Fail> {
    if let Some(name) = word.strip_prefix('=') {
        return Ok(Cell::Make(Expr::Col(Name::from_slice(alloc, name.as_bytes())?)));
    }
    if let Some(number) = word.strip_prefix('#') {
        return Ok(Cell::Make(Expr::Lit(value(alloc, number)?)));
    }
    if let Some(number) = word.strip_prefix('!') {
        return Ok(Cell::Still(value(alloc, number)?));
    }
    Ok(Cell::Carry(word.parse::<u32>().ok().ok_or("a place")?))
}

fn cells(alloc: Global, words: &str) -> Result<List<Cell>, Fail> {
    let mut cells = List::new(alloc);
    for word in words.split(' ') {
        cells.push(cell(alloc, word)?)?;
    }
    Ok(cells)
}

fn pair(alloc: Global, old: &str, new: &str, new_cols: &str, old_cols: &str) -> Result<Pair, Fail> {
    let old = shape(alloc, old)?;
    let new = shape(alloc, new)?;
    let lens = Lens {
        new_cols: cells(alloc, new_cols)?,
        old_cols: cells(alloc, old_cols)?,
    };
    let layout = layout(alloc, &old, &new, &lens)?;
    Ok(Pair {
        old,
        new,
        lens,
        layout,
    })
}

fn value(alloc: Global, word: &str) -> Result<Value, Fail> {
    match word {
        "NULL" => Ok(Value::Null),
        "true" => Ok(Value::Bool(true)),
        "false" => Ok(Value::Bool(false)),
        _ => match word.parse::<i64>().ok() {
            Some(n) => Ok(Value::Int(n)),
            None => Ok(Value::Text(SqlText::read(alloc, word.as_bytes())?.ok_or("a text")?)),
        },
    }
}

fn row(alloc: Global, words: &str) -> Result<List<Value>, Fail> {
    let mut values = List::new(alloc);
    for word in words.split(' ') {
        values.push(value(alloc, word)?)?;
    }
    Ok(values)
}

/// The values with blanks between them.
fn shown(alloc: Global, values: &[Value]) -> Result<String, Fail> {
    let mut all = String::new(alloc);
    for (at, value) in values.iter().enumerate() {
        if at > 0 {
            all.push(' ')?;
        }
        match value {
            Value::Null => all.push_str("NULL")?,
            Value::Int(n) => all.push_str(format!(in alloc; "{n}")?.as_str())?,
            Value::Text(text) => all.push_str(text.as_str())?,
            Value::Bool(b) => all.push_str(format!(in alloc; "{b}")?.as_str())?,
        }
    }
    Ok(all)
}

/// What the views select of a stored row, by a word.
fn seen(alloc: Global, pair: &Pair, word: &str, stored: &[Value]) -> Result<List<Value>, NoMemory> {
    match word {
        "old view" => old_view(alloc, pair, stored),
        "trimmed view" => trimmed_view(alloc, &pair.lens, stored),
        _ => new_view(alloc, pair, stored),
    }
}

/// What is stored of a row that is written through a side, over nothing, or that is filled.
fn stored(
    alloc: Global,
    pair: &Pair,
    word: &str,
    half: &[Value],
) -> Result<List<Value>, EvalFault> {
    match word {
        "filled" => fill(alloc, pair, half),
        "written old" => fire(alloc, pair, Side::Old, half, None),
        _ => fire(alloc, pair, Side::New, half, None),
    }
}

/// The row after a step, by a word.
fn stepped(alloc: Global, pair: &Pair, word: &str, row: &[Value]) -> Result<List<Value>, NoMemory> {
    let (old, new, lens) = (&pair.old, &pair.new, &pair.lens);
    match word {
        "START" => restore(alloc, 0, old, new, lens, row),
        "C2" => restore(alloc, 2, old, new, lens, row),
        "C3" => restore(alloc, 3, old, new, lens, row),
        "B2" => restore(alloc, 5, old, new, lens, row),
        "begun" => begun(alloc, pair, row),
        "trimmed" => trimmed(alloc, lens, row),
        _ => left_row(alloc, lens, row, None),
    }
}

/// What a word makes of a row of this pair.
fn after(alloc: Global, pair: &Pair, word: &str, row: &[Value]) -> Result<List<Value>, Fail> {
    if word.ends_with("view") {
        return Ok(seen(alloc, pair, word, row)?);
    }
    match word {
        "filled" | "written old" | "written new" => Ok(stored(alloc, pair, word, row)?),
        _ => Ok(stepped(alloc, pair, word, row)?),
    }
}

fn shown_after(alloc: Global, pair: &Pair, word: &str, values: &str) -> Result<String, Fail> {
    let row = row(alloc, values)?;
    let made = after(alloc, pair, word, row.as_slice())?;
    shown(alloc, made.as_slice())
}

/// A column `age` is added, which `up` makes 0.
const ADDED: &[(&str, &str, &str)] = &[
    ("begun", "1 a", "1 a NULL true"),
    ("START", "1 a", "1 a NULL true"),
    ("old view", "1 a NULL true", "1 a"),
    ("new view", "1 a NULL true", "1 a NULL"),
    ("filled", "1 a NULL true", "1 a 0 false"),
    ("written old", "2 b", "2 b 0 false"),
    ("written new", "3 c 40", "3 c 40 false"),
    ("written late", "4 d 7", "4 d 7 false"),
    ("C2", "1 a 0 false", "1 a 0"),
    ("C3", "1 a 0", "1 a 0"),
    ("B2", "1 a 0 false", "1 a"),
];

/// The column in the middle is made anew from itself, both ways.
const ALTERED: &[(&str, &str, &str)] = &[
    ("START", "1 5 6", "1 5 6 NULL true"),
    ("new view", "1 5 6 NULL true", "1 NULL 6"),
    ("filled", "1 5 6 NULL true", "1 5 6 5 false"),
    ("written new", "1 7 6", "1 7 6 7 false"),
    ("written late", "2 8 9", "2 NULL 9 8 false"),
    ("trimmed", "2 NULL 9 8 false", "2 9 8"),
    ("trimmed view", "2 9 8", "2 8 9"),
    ("C2", "1 5 6 7 false", "1 6 7"),
    ("C3", "1 6 7", "1 7 6"),
    ("B2", "1 5 6 7 false", "1 5 6"),
];

fn added(alloc: Global) -> Result<Pair, Fail> {
    pair(alloc, "id name", "id name age", "0 1 #0", "0 1")
}

#[test]
fn an_added_column_is_stored_beside_the_old_ones(rt: HostRuntime) -> Result<(), Fail> {
    let alloc = rt.alloc();
    let added = added(alloc)?;
    for (word, values, wanted) in ADDED {
        let made = shown_after(alloc, &added, word, values)?;
        assert!(rt; made.as_str() == *wanted, "{word}: {made}");
    }
    Ok(())
}

#[test]
fn a_column_that_is_made_anew_leaves_in_order(rt: HostRuntime) -> Result<(), Fail> {
    let alloc = rt.alloc();
    let altered = pair(alloc, "id a b", "id x b", "0 =a 2", "0 =x 2")?;
    for (word, values, wanted) in ALTERED {
        let made = shown_after(alloc, &altered, word, values)?;
        assert!(rt; made.as_str() == *wanted, "{word}: {made}");
    }
    Ok(())
}

/// The row after a write over a stored one, with `!` in front where that was marked.
fn shown_over(
    alloc: Global,
    pair: &Pair,
    side: Side,
    half: &str,
    stored: &str,
) -> Result<String, Fail> {
    let half = row(alloc, half)?;
    let stored = row(alloc, stored)?;
    let made = fire(alloc, pair, side, half.as_slice(), Some(stored.as_slice()))?;
    let words = shown(alloc, made.as_slice())?;
    let mark = if is_marked(pair, stored.as_slice()) {
        "!"
    } else {
        ""
    };
    Ok(format!(in alloc; "{mark}{words}")?)
}

#[test]
fn a_write_goes_over_a_marked_row(rt: HostRuntime) -> Result<(), Fail> {
    let alloc = rt.alloc();
    let added = added(alloc)?.copy(alloc)?;
    let old = shown_over(alloc, &added, Side::Old, "1 b", "1 a NULL true")?;
    assert!(rt; old.as_str() == "!1 b 0 false", "{old}");
    let new = shown_over(alloc, &added, Side::New, "1 c 40", "1 a 0 false")?;
    assert!(rt; new.as_str() == "1 c 40 false", "{new}");
    Ok(())
}

#[test]
fn a_column_without_up_keeps_its_value(rt: HostRuntime) -> Result<(), Fail> {
    let alloc = rt.alloc();
    let still = pair(alloc, "id name", "id name age", "0 1 !5", "0 1")?;
    let kept = shown_over(alloc, &still, Side::Old, "1 b", "1 a 9")?;
    assert!(rt; kept.as_str() == "1 b 9", "{kept}");
    Ok(())
}

/// What is written, what was stored, and what is stored then, after the new version of the first table is gone.
const RETURNED: &[(&str, Option<&str>, &str)] = &[
    ("4 d", None, "4 d NULL false"),
    ("1 b", Some("1 a NULL true"), "1 b NULL true"),
    ("2 c", Some("2 b 40 false"), "2 c 40 false"),
];

#[test]
fn a_row_that_is_written_late_keeps_its_shadows(rt: HostRuntime) -> Result<(), Fail> {
    let alloc = rt.alloc();
    let added = added(alloc)?;
    for (values, before, wanted) in RETURNED {
        let values = row(alloc, values)?;
        let made = match before {
            None => returned_row(alloc, &added.lens, values.as_slice(), None)?,
            Some(words) => {
                let stored = row(alloc, words)?;
                returned_row(
                    alloc,
                    &added.lens,
                    values.as_slice(),
                    Some(stored.as_slice()),
                )?
            }
        };
        let found = shown(alloc, made.as_slice())?;
        assert!(rt; found.as_str() == *wanted, "{found}");
    }
    Ok(())
}
