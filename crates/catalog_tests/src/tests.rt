//! What a path finds and where a view finds its columns, at each stage of one migration.
use catalog::{Catalog, Known, Stage, View};
use mig_lens::{Cell, Fate, Lens, Side};
use sql_base::{Check, Column, Expr, List, Name, Schema, Shape, Ty, Unique, Value};
use std::alloc::Global;
use std::test::Fail;

fn name(alloc: Global, word: &str) -> Result<Name, Fail> {
    Ok(Name::from_slice(alloc, word.as_bytes())?)
}

fn column(alloc: Global, word: &str) -> Result<Column, Fail> {
    Ok(Column {
        name: name(alloc, word)?,
        ty: Ty::Bigint,
        nullable: word != "id",
        default: Value::Null,
    })
}

fn check(alloc: Global, word: &str) -> Result<Check, Fail> {
    Ok(Check {
        name: name(alloc, word)?,
        expr: Expr::Lit(Value::Bool(true)),
    })
}

/// On the second column.
fn unique(alloc: Global, word: &str) -> Result<Unique, Fail> {
    let mut columns = List::new(alloc);
    columns.push(1)?;
    Ok(Unique {
        name: name(alloc, word)?,
        columns,
    })
}

/// A shape with these bigint columns, the first of which is the key. A word with `?` in front is a check's name, and one
/// with `=` that of a unique constraint.
fn shape(alloc: Global, words: &str) -> Result<Shape, Fail> {
    let mut shape = Shape {
        columns: List::new(alloc),
        key: 0,
        checks: List::new(alloc),
        uniques: List::new(alloc),
    };
    for word in words.split(' ') {
        match (word.strip_prefix('?'), word.strip_prefix('=')) {
            (Some(word), _) => shape.checks.push(check(alloc, word)?)?,
            (None, Some(word)) => shape.uniques.push(unique(alloc, word)?)?,
            (None, None) => shape.columns.push(column(alloc, word)?)?,
        }
    }
    Ok(shape)
}

fn schema(alloc: Global, tables: &[(&str, u32, &str)]) -> Result<Schema, Fail> {
    let mut all = List::new(alloc);
    for (table, number, columns) in tables {
        all.push((name(alloc, table)?, *number, shape(alloc, columns)?))?;
    }
    Ok(Schema { tables: all })
}

/// A number is a carried place, `#` a made value, and `!` a constant.
fn cell(word: &str) -> Cell {
    match word.parse::<u32>().ok() {
        Some(at) => Cell::Carry(at),
        None => {
            if word == "#" {
                Cell::Make(Expr::Lit(Value::Int(0)))
            } else {
                Cell::Still(Value::Null)
            }
        }
    }
}

fn cells(alloc: Global, words: &str) -> Result<List<Cell>, Fail> {
    let mut cells = List::new(alloc);
    for word in words.split(' ') {
        cells.push(cell(word))?;
    }
    Ok(cells)
}

/// The tables before the migration. It makes users into people, drops logs, creates tags, and adds constraints to items.
fn before(alloc: Global) -> Result<Schema, Fail> {
    schema(
        alloc,
        &[
            ("users", 1, "id name nick =names"),
            ("logs", 2, "id line ?short"),
            ("items", 4, "id size ?sized"),
        ],
    )
}

fn after(alloc: Global) -> Result<Schema, Fail> {
    schema(
        alloc,
        &[
            ("people", 1, "id age title rank =names ?aged"),
            ("tags", 3, "id tag ?tagged"),
            ("items", 4, "id size ?sized ?small =alone"),
        ],
    )
}

fn kept(alloc: Global, new_cols: &str, old_cols: &str) -> Result<Fate, Fail> {
    Ok(Fate::Kept(Lens {
        new_cols: cells(alloc, new_cols)?,
        old_cols: cells(alloc, old_cols)?,
    }))
}

/// The column title carries name, age is made, rank is a constant, and nick is lost. Items are as they were.
fn fates(alloc: Global) -> Result<List<(u32, Fate)>, Fail> {
    let mut fates = List::new(alloc);
    fates.push((1, kept(alloc, "0 # 1 !", "0 2 !")?))?;
    fates.push((2, Fate::Dropped))?;
    fates.push((3, Fate::Created))?;
    fates.push((4, kept(alloc, "0 1", "0 1")?))?;
    Ok(fates)
}

/// What is known at a stage, by a word.
fn known(alloc: Global, word: &str) -> Result<Known, Fail> {
    let (version, current) = match word {
        "C1 done" | "C2 done" | "completed" => ("02_people", after(alloc)?),
        _ => ("01_users", before(alloc)?),
    };
    let stage = match word {
        "both" => Stage::Both {
            name: name(alloc, "02_people")?,
            schema: after(alloc)?,
            fates: fates(alloc)?,
        },
        "C1 done" => Stage::AfterFirst {
            lost: before(alloc)?,
            fates: fates(alloc)?,
        },
        "C2 done" => Stage::AfterSecond {
            lost: before(alloc)?,
            fates: fates(alloc)?,
        },
        "B1 done" => Stage::RolledBack {
            lost: after(alloc)?,
            fates: fates(alloc)?,
        },
        _ => Stage::Calm,
    };
    Ok(Known {
        name: name(alloc, version)?,
        schema: current,
        stage,
    })
}

fn side_word(side: Side) -> &'static str {
    match side {
        Side::Old => "old",
        Side::New => "new",
    }
}

/// The table's name, and each column with its place.
fn view_words(alloc: Global, view: Option<&View>) -> Result<String, Fail> {
    let mut all = String::new(alloc);
    let Some(view) = view else {
        all.push_str("none")?;
        return Ok(all);
    };
    all.push_str(str::from_utf8(view.name.as_slice()).ok().ok_or("a name")?)?;
    for (column, place) in view.columns.as_slice() {
        let word = str::from_utf8(column.as_slice()).ok().ok_or("a name")?;
        all.push_str(format!(in alloc; " {word} {place}")?.as_str())?;
    }
    Ok(all)
}

fn found_words(alloc: Global, found: Option<(Side, u32)>) -> Result<String, Fail> {
    match found {
        Some((side, table)) => Ok(format!(in alloc; "{} {table}", side_word(side))?),
        None => Ok(format!(in alloc; "none")?),
    }
}

fn catalog_at(alloc: Global, word: &str) -> Result<Option<Catalog>, Fail> {
    let known = known(alloc, word)?;
    if known.is_narrow() {
        Ok(Some(Catalog::new(alloc, known)?))
    } else {
        Ok(None)
    }
}

fn view_at(alloc: Global, word: &str, side: Side, table: u32) -> Result<String, Fail> {
    let catalog = catalog_at(alloc, word)?.ok_or("narrow tables")?;
    view_words(alloc, catalog.view(side, table))
}

fn path(alloc: Global, versions: &str) -> Result<List<Name>, Fail> {
    let mut path = List::new(alloc);
    for version in versions.split(' ') {
        path.push(name(alloc, version)?)?;
    }
    Ok(path)
}

fn found_at(alloc: Global, word: &str, versions: &str, table: &str) -> Result<String, Fail> {
    let path = path(alloc, versions)?;
    let table = name(alloc, table)?;
    let catalog = catalog_at(alloc, word)?.ok_or("narrow tables")?;
    found_words(alloc, catalog.resolve(path.as_slice(), &table))
}

/// At a stage, a side and a table's number: the view. The stored row of table 1 is id name nick, then the shadow places of
/// age and rank, and the mark; after C2 it is id name, and the shadow places.
const VIEWS: &[(&str, Side, u32, &str)] = &[
    ("calm", Side::Old, 1, "users id 0 name 1 nick 2"),
    ("calm", Side::Old, 2, "logs id 0 line 1"),
    ("calm", Side::Old, 3, "none"),
    ("calm", Side::New, 1, "none"),
    ("both", Side::Old, 1, "users id 0 name 1 nick 2"),
    ("both", Side::New, 1, "people id 0 age 3 title 1 rank 4"),
    ("both", Side::Old, 2, "logs id 0 line 1"),
    ("both", Side::New, 2, "none"),
    ("both", Side::Old, 3, "none"),
    ("both", Side::New, 3, "tags id 0 tag 1"),
    ("C1 done", Side::Old, 1, "people id 0 age 3 title 1 rank 4"),
    ("C1 done", Side::Old, 2, "none"),
    ("C1 done", Side::Old, 3, "tags id 0 tag 1"),
    ("C1 done", Side::New, 1, "none"),
    ("C2 done", Side::Old, 1, "people id 0 age 2 title 1 rank 3"),
    ("C2 done", Side::Old, 3, "tags id 0 tag 1"),
    (
        "completed",
        Side::Old,
        1,
        "people id 0 age 1 title 2 rank 3",
    ),
    ("B1 done", Side::Old, 1, "users id 0 name 1 nick 2"),
    ("B1 done", Side::Old, 2, "logs id 0 line 1"),
    ("B1 done", Side::Old, 3, "none"),
];

/// At a stage, a path and a table's name: its side and its number.
const FOUND: &[(&str, &str, &str, &str)] = &[
    ("calm", "public_01_users", "users", "old 1"),
    ("calm", "public_02_people public_01_users", "users", "old 1"),
    ("calm", "public_02_people", "people", "none"),
    ("calm", "01_users", "users", "none"),
    ("both", "public_01_users", "users", "old 1"),
    ("both", "public_02_people", "people", "new 1"),
    ("both", "public_02_people", "users", "none"),
    ("both", "public_02_people public_01_users", "logs", "old 2"),
    ("both", "public_01_users public_02_people", "tags", "new 3"),
    (
        "C1 done",
        "public_01_users public_02_people",
        "people",
        "old 1",
    ),
    ("C1 done", "public_02_people", "logs", "none"),
    (
        "B1 done",
        "public_02_people public_01_users",
        "users",
        "old 1",
    ),
    ("B1 done", "public_02_people", "tags", "none"),
];

/// At a stage, a table's number and a constraint's name: whether it is valid.
const VALID: &[(&str, u32, &str, Option<bool>)] = &[
    ("calm", 4, "small", None),
    ("both", 4, "small", Some(false)),
    ("C1 done", 4, "small", Some(true)),
    ("completed", 4, "small", Some(true)),
    ("B1 done", 4, "small", None),
    ("both", 4, "alone", Some(false)),
    ("both", 4, "sized", Some(true)),
    ("both", 4, "items_pkey", Some(true)),
    ("both", 4, "pkey", None),
    ("both", 4, "large", None),
    ("both", 5, "small", None),
    ("both", 1, "aged", Some(true)),
    ("both", 1, "names", Some(true)),
    ("both", 1, "users_pkey", Some(true)),
    ("both", 1, "people_pkey", Some(true)),
    ("C1 done", 1, "users_pkey", None),
    ("both", 2, "short", Some(true)),
    ("C1 done", 2, "short", None),
    ("both", 3, "tagged", Some(true)),
];

#[test]
fn a_constraint_is_valid_once_all_rows_are_known_to_meet_it(rt: HostRuntime) -> Result<(), Fail> {
    let alloc = rt.alloc();
    for (word, table, constraint, wanted) in VALID {
        let catalog = catalog_at(alloc, word)?.ok_or("narrow tables")?;
        let found = catalog.valid(*table, &name(alloc, constraint)?);
        assert!(rt; found == *wanted, "{word} {table} {constraint}");
    }
    Ok(())
}

#[test]
fn a_view_finds_its_columns_at_each_stage(rt: HostRuntime) -> Result<(), Fail> {
    let alloc = rt.alloc();
    for (word, side, table, wanted) in VIEWS {
        let made = view_at(alloc, word, *side, *table)?;
        assert!(rt; made.as_str() == *wanted, "{word} {table}: {made}");
    }
    Ok(())
}

#[test]
fn a_path_finds_a_table_in_its_first_version(rt: HostRuntime) -> Result<(), Fail> {
    let alloc = rt.alloc();
    for (word, versions, table, wanted) in FOUND {
        let made = found_at(alloc, word, versions, table)?;
        assert!(rt;
            made.as_str() == *wanted,
            "{word} {versions} {table}: {made}"
        );
    }
    Ok(())
}
