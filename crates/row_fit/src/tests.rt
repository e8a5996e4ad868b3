//! Rows of a table whose text is lost, while a number is added that `up` leaves NULL.
ghost use Rattle.std.specs.Prelude.{◌≡◌, [], ◌∷◌, IfOk, false, codes};
ghost use Rattle.trigger_pair.specs.Laws.{IsPair};

use crate::{fits_laid, fits_pair, fits_trimmed};
use mig_lens::{Cell, Lens, layout};
use sql_base::{Column, Expr, List, Name, NoMemory, Shape, SqlText, Ty, Value};
use std::alloc::Global;
use std::test::Fail;
use trigger_pair::Pair;

fn two<T: Drop>(alloc: Global, one: T, other: T) -> Result<List<T>, NoMemory>
    ensures { IfOk result (λ both. both ≡ one ∷ other ∷ []) }
{
    let mut both = List::new(alloc);
    both.push(one)?;
    both.push(other)?;
    Ok(both)
}

fn column(alloc: Global, name: &[u8], ty: Ty) -> Result<Column, NoMemory>
    ensures { IfOk result
        (λ column. column ≡ record { name = name.now; ty = ty; nullable = false; default = Value.Null }) }
{
    Ok(Column {
        name: Name::from_slice(alloc, name)?,
        ty,
        nullable: false,
        default: Value::Null,
    })
}

/// The key, and then this column.
fn shape(alloc: Global, name: &[u8], ty: Ty) -> Result<Shape, NoMemory>
    ensures { IfOk result (λ shape. shape ≡ record {
      columns = record { name = codes "id"; ty = Ty.Bigint; nullable = false; default = Value.Null }
          ∷ record { name = name.now; ty = ty; nullable = false; default = Value.Null } ∷ [];
      key = 0;
      checks = [];
      uniques = [];
    }) }
{
    let key = column(alloc, b"id", Ty::Bigint)?;
    let other = column(alloc, name, ty)?;
    Ok(Shape {
        columns: two(alloc, key, other)?,
        key: 0,
        checks: List::new(alloc),
        uniques: List::new(alloc),
    })
}

fn lens(alloc: Global) -> Result<Lens, NoMemory>
    ensures { IfOk result (λ lens. lens ≡ record {
      new_cols = Cell.Carry 0 ∷ Cell.Make (Expr.Lit Value.Null) ∷ [];
      old_cols = Cell.Carry 0 ∷ Cell.Still Value.Null ∷ [];
    }) }
{
    let new_cols = two(alloc, Cell::Carry(0), Cell::Make(Expr::Lit(Value::Null)))?;
    let old_cols = two(alloc, Cell::Carry(0), Cell::Still(Value::Null))?;
    Ok(Lens { new_cols, old_cols })
}

fn pair(alloc: Global) -> Result<Pair, NoMemory>
    ensures { IfOk result IsPair }
{
    let old = shape(alloc, b"name", Ty::Text)?;
    let new = shape(alloc, b"size", Ty::Bigint)?;
    let lens = lens(alloc)?;
    let layout = layout(alloc, &old, &new, &lens)?;
    Ok(Pair {
        old,
        new,
        lens,
        layout,
    })
}

fn value(alloc: Global, word: &str) -> Result<Value, Fail> {
    match word {
        "NULL" => Ok(Value::Null),
        "true" => Ok(Value::Bool(true)),
        "false" => Ok(Value::Bool(false)),
        _ => match word.parse::<i64>().ok() {
            Some(n) => Ok(Value::Int(n)),
            None => Ok(Value::Text(SqlText::read(alloc, word.as_bytes())?.ok_or("a text")?)),
        },
    }
}

fn row(alloc: Global, words: &str) -> Result<List<Value>, Fail> {
    let mut values = List::new(alloc);
    for word in words.split(' ') {
        values.push(value(alloc, word)?)?;
    }
    Ok(values)
}

/// Values, and whether they are a row while both versions stand, one of the layout, and one of what C2 leaves of it.
const ROWS: &[(&str, bool, bool, bool)] = &[
    // still to be filled, and filled
    ("1 a NULL true", true, true, false),
    ("1 a 5 false", true, true, false),
    ("1 NULL NULL false", true, true, false),
    // marked beside a value that START doesn't leave, and a mark that is NULL
    ("1 a 5 true", false, true, false),
    ("1 a 5 NULL", false, true, false),
    // a value too few, one too many, and values of other types
    ("1 a 5", false, false, false),
    ("1 a 5 false 6", false, false, false),
    ("1 2 5 false", false, false, false),
    ("1 a b false", false, false, false),
    // what C2 leaves, and then the same three
    ("1 5", false, false, true),
    ("1 NULL", false, false, true),
    ("1", false, false, false),
    ("1 5 false", false, false, false),
    ("1 a", false, false, false),
];

#[test]
fn rows_fit_where_each_value_has_its_place(rt: HostRuntime) -> Result<(), Fail> {
    let alloc = rt.alloc();
    let pair = pair(alloc)?;
    for (words, paired, laid, trimmed) in ROWS {
        let row = row(alloc, words)?;
        let values = row.as_slice();
        assert!(rt; fits_pair(alloc, &pair, values)? == *paired, "{words}");
        assert!(rt; fits_laid(&pair, values) == *laid, "{words}");
        assert!(rt; fits_trimmed(&pair, values) == *trimmed, "{words}");
    }
    Ok(())
}
