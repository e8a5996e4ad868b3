mod made;
mod shown;

use made::{migration, name, one, text, users};
use mig_lens::{
    Fate, Kind, Layout, Lens, Member, Migration, Op, Place, Plan, PlanFault, Refusal, Ways,
    backward, forward, layout,
};
use mig_plan::plan;
use sql_base::{Code, Copying, Expr, List, Name, Shape, Value};
use std::alloc::Global;
use std::test::Fail;

/// Migrations of `users (id, name)`, and what comes of each: the new columns and constraints, the cells of the new and
/// of the old columns; or the first refusal.
const PLANS: &[(&str, &str)] = &[
    ("users age bigint null up=0", "id! name! age ; 0 1 up / 0 1"),
    ("users n bigint up=1_but_b", "id! name! n! ; 0 1 up / 0 1"),
    (
        "users age bigint default=0 check=age_pos:age>0",
        "id! name! age! age_pos ; 0 1 =0 / 0 1",
    ),
    (
        "users code text null unique up=x_but_a",
        "id! name! code users_code_key (2) ; 0 1 up / 0 1",
    ),
    (
        "users a bigint null; users b bigint null up=id",
        "id! name! a b ; 0 1 =NULL up / 0 1",
    ),
    ("people age bigint up=name", "P7 people"),
    ("people name bigint", "P7 people"),
    ("users name bigint pk", "P9 name"),
    ("users a bigint null; users a bigint null", "P9 a"),
    (
        "users age bigint null check=users_pkey:age>0",
        "P9 users_pkey",
    ),
    (
        "users code text null unique check=users_code_key:NULL",
        "P9 users_code_key",
    ),
    ("users age bigint pk", "P10 users"),
    ("users age bigint default='x'", "P15 operations[0].default"),
    ("users age bigint", "P12 users age"),
    ("users age bigint default=NULL", "P12 users age"),
    ("users age bigint null up=name", "P14 operations[0].up"),
    ("users age bigint null up=age", "P14 operations[0].up"),
    (
        "users age text null check=age_pos:age>0",
        "P14 operations[0].check",
    ),
    (
        "users c text null check=age_pos:age>0; users age bigint null",
        "id! name! c age age_pos ; 0 1 =NULL =NULL / 0 1",
    ),
    (
        "users c text null check=age_pos:age>0; users age text null",
        "P14 operations[1].check",
    ),
    (
        "users age bigint null up=name; people age bigint",
        "P7 people",
    ),
];

/// Migrations of `users (id, name)` with the other operations.
const OPERATIONS: &[(&str, &str)] = &[
    // tables
    ("drop people", "P7 people"),
    ("drop users; users age bigint null", "P7 users"),
    ("rename users people; users age bigint null", "P7 users"),
    ("rename users users", "P9 users"),
    ("create users id bigint pk", "P9 users"),
    ("drop users; create users id bigint pk", "P9 users"),
    ("rename users people; create users id bigint pk", "P9 users"),
    ("create t id bigint pk | id text", "P9 id"),
    ("create t id bigint pk check=t_pkey:1", "P9 t_pkey"),
    ("create t id bigint pk check=k:1 | b text check=k:1", "P9 k"),
    ("create t id bigint", "P10 t"),
    ("create t id text pk", "P10 t"),
    ("create t id bigint pk default=1", "P10 t"),
    ("create t id bigint pk | b bigint pk", "P10 t"),
    (
        "create t id bigint pk | b bigint default='x'",
        "P15 operations[0].default",
    ),
    (
        "create t id bigint pk | b bigint check=k:age>0",
        "P14 operations[0].check",
    ),
    ("create t id bigint pk; rename t u", "P7 t"),
    // drop_column
    ("drop people name", "P7 people"),
    ("drop users age", "P8 users age"),
    ("drop users id", "P10 users"),
    ("users age bigint null; drop users age", "P11 users age"),
    ("drop users name down=1", "P14 operations[0].down"),
    ("drop users name down=name", "P14 operations[0].down"),
    ("drop users name", "id! ; 0 / 0 =NULL"),
    ("drop users name down='x'", "id! ; 0 / 0 up"),
    // rename_column
    ("rename users age years", "P8 users age"),
    ("rename users name name", "P9 name"),
    ("rename users name id", "P9 id"),
    ("rename users name b; rename users b c", "P11 users b"),
    ("rename users name b; rename users b name", "P9 name"),
    ("rename users id key", "key! name! ; 0 1 / 0 1"),
    // alter_column
    ("alter users age null", "P8 users age"),
    ("alter users name unique=users_pkey", "P9 users_pkey"),
    ("alter users name unique=u check=u:1", "P9 u"),
    ("alter users id null", "P10 users"),
    (
        "alter users name default='a'; alter users name default='b'",
        "P11 users name",
    ),
    ("alter users name bigint down='x'", "P12 users name"),
    ("alter users name bigint up=1", "P13 users name"),
    ("alter users name null", "P13 users name"),
    ("alter users name null up=name", "P13 users name"),
    ("alter users name default=1", "P15 operations[0].default"),
    (
        "alter users name bigint default='x' up=1 down='x'",
        "P15 operations[0].default",
    ),
    (
        "alter users name bigint up=name down='x'",
        "P14 operations[0].up",
    ),
    (
        "alter users name bigint up=1 down=name",
        "P14 operations[0].down",
    ),
    (
        "alter users name bigint up=1 down=id",
        "P14 operations[0].down",
    ),
    (
        "alter users name bigint up=1 down='x'",
        "id! name! ; 0 up / 0 up",
    ),
    ("alter users name null down='x'", "id! name ; 0 up / 0 up"),
    ("alter users name up=name", "id! name! ; 0 up / 0 up"),
    ("alter users name text not_null", "id! name! ; 0 1 / 0 1"),
    ("alter users name unique=u", "id! name! u (1) ; 0 1 / 0 1"),
    // create_constraint
    ("constrain users u age", "P8 users age"),
    ("constrain users u name up=id:1", "P8 users id"),
    ("constrain users users_pkey name", "P9 users_pkey"),
    ("constrain users u id,name up=id:1", "P10 users"),
    (
        "rename users name b; constrain users u b up=b:'x'",
        "P11 users b",
    ),
    ("constrain users u name up=name:1", "P14 operations[0].up"),
    (
        "constrain users c name expr=name",
        "P14 operations[0].check",
    ),
    (
        "constrain users u name,id",
        "id! name! u (1) (0) ; 0 1 / 0 1",
    ),
    (
        "constrain users u name up=name:'x'",
        "id! name! u (1) ; 0 up / 0 up",
    ),
    (
        "constrain users u name; drop users name",
        "id! ; 0 / 0 =NULL",
    ),
    // drop_constraint
    ("free users u", "P8 users u"),
    ("free users users_pkey", "P10 users"),
    ("free users users_pkey up=name:1", "P8 users name"),
    (
        "constrain users u name; free users u up=id:1",
        "P8 users id",
    ),
    (
        "constrain users u id,name; free users u up=1",
        "P14 operations[1].up",
    ),
    (
        "constrain users u id,name; free users u down=1",
        "P14 operations[1].down",
    ),
    (
        "constrain users u name; free users u up='x'",
        "id! name! ; 0 up / 0 up",
    ),
    (
        "constrain users u name; free users u",
        "id! name! ; 0 1 / 0 1",
    ),
    // a later fault comes before an expression that doesn't type
    ("drop users name down=1; drop people", "P7 people"),
    (
        "users age bigint null up=name; drop users",
        "P14 operations[0].up",
    ),
];

#[test]
fn operations_are_as_the_rules_say(rt: HostRuntime) -> Result<(), Fail> {
    let alloc = rt.alloc();
    for (words, wanted) in OPERATIONS {
        let answer = answered(alloc, words)?;
        assert!(rt; answer.as_str() == *wanted, "{words}: {answer}");
    }
    Ok(())
}

fn planned_users(alloc: Global, m: &Migration) -> Result<Plan, PlanFault> {
    plan(alloc, &users(alloc)?, 2, m)
}

fn told(alloc: Global, plan: &Plan) -> Result<String, Fail> {
    let table = plan.schema.tables.get(0).ok_or("a table")?;
    let shape = shown::shape(alloc, &table.2)?;
    match plan.fates.get(0) {
        Some((1, Fate::Kept(lens))) => {
            let lens = shown::lens(alloc, lens)?;
            Ok(format!(in alloc; "{shape};{lens}")?)
        }
        _ => Ok(shape),
    }
}

fn planned(alloc: Global, plan: &Plan) -> Result<String, Fail> {
    told(alloc, &plan.copy(alloc)?)
}

fn refused(alloc: Global, fault: &PlanFault) -> Result<String, Fail> {
    shown::fault(alloc, &fault.copy(alloc)?)
}

fn answer(alloc: Global, m: &Migration) -> Result<String, Fail> {
    match planned_users(alloc, m) {
        Ok(plan) => planned(alloc, &plan),
        Err(fault) => refused(alloc, &fault),
    }
}

fn copied_answer(alloc: Global, m: &Migration) -> Result<String, Fail> {
    answer(alloc, &m.copy(alloc)?)
}

fn answered(alloc: Global, words: &str) -> Result<String, Fail> {
    copied_answer(alloc, &migration(alloc, words)?)
}

#[test]
fn plans_are_as_the_rules_say(rt: HostRuntime) -> Result<(), Fail> {
    let alloc = rt.alloc();
    for (words, wanted) in PLANS {
        let answer = answered(alloc, words)?;
        assert!(rt; answer.as_str() == *wanted, "{words}: {answer}");
    }
    Ok(())
}

fn columns(alloc: Global, count: u32) -> Result<String, Fail> {
    let mut words = String::from_str(alloc, "users c bigint null")?;
    for n in 1..count {
        words.push_str(format!(in alloc; "; users c{n} bigint null")?.as_str())?;
    }
    Ok(words)
}

#[test]
fn a_table_has_at_most_32_columns(rt: HostRuntime) -> Result<(), Fail> {
    let alloc = rt.alloc();
    let most = answered(alloc, columns(alloc, 30)?.as_str())?;
    assert!(rt; most.starts_with("id! name! c c1 c2 "), "{most}");
    let more = answered(alloc, columns(alloc, 31)?.as_str())?;
    assert!(rt; more.as_str() == "P20 columns", "{more}");
    Ok(())
}

// A migration that drops `users` or nothing, and then creates so many tables.
fn creating(alloc: Global, first: &str, count: u32) -> Result<String, Fail> {
    let mut words = String::from_str(alloc, first)?;
    for n in 0..count {
        words.push_str(format!(in alloc; "; create t{n} id bigint pk")?.as_str())?;
    }
    Ok(words)
}

#[test]
fn a_version_has_at_most_64_tables(rt: HostRuntime) -> Result<(), Fail> {
    let alloc = rt.alloc();
    let most = answered(alloc, creating(alloc, "rename users people", 63)?.as_str())?;
    assert!(rt; !most.starts_with("P"), "{most}");
    let more = answered(alloc, creating(alloc, "rename users people", 64)?.as_str())?;
    assert!(rt; more.as_str() == "P20 tables", "{more}");
    let in_place = answered(alloc, creating(alloc, "drop users", 64)?.as_str())?;
    assert!(rt; !in_place.starts_with("P"), "{in_place}");
    Ok(())
}

/// Migrations of `users`, the name of the row with key 1, the last value of its new half before (`-` where it has none),
/// and its new half.
const HALVES: &[(&str, &str, &str, &str)] = &[
    ("users age bigint null up=0", "a", "-", "|1|a|0"),
    ("users age bigint null up=0", "a", "7", "|1|a|0"),
    ("users n bigint up=1_but_b", "a", "-", "|1|a|1"),
    ("users n bigint up=1_but_b", "b", "-", "|1|b|NULL"),
    ("users age bigint default=0", "d", "-", "|1|d|0"),
    ("users age bigint default=0", "d", "7", "|1|d|7"),
    ("users n bigint null up=number", "12", "-", "|1|12|12"),
    ("users n bigint null up=number", "ann", "-", "BadText"),
    ("users n bigint null up=id/0", "a", "7", "DivZero"),
    (
        "users m bigint null up=id+max; users n bigint null up=id/0",
        "a",
        "-",
        "Range",
    ),
];

fn row(alloc: Global, word: &str, last: &str) -> Result<List<Value>, Fail> {
    let mut row = one(alloc, Value::Int(1))?;
    row.push(text(alloc, word)?)?;
    if let Ok(n) = last.parse::<i64>() {
        row.push(Value::Int(n))?;
    }
    Ok(row)
}

/// The only table of a plan over `users`: its old shape, its new shape and its lens.
#[derive(Drop)]
struct Only {
    old: Shape,
    new: Shape,
    lens: Lens,
}

fn kept(alloc: Global, old: &Shape, new: &Shape, lens: &Lens) -> Result<Only, Fail> {
    let old = old.copy(alloc)?;
    let new = new.copy(alloc)?;
    let lens = lens.copy(alloc)?;
    Ok(Only { old, new, lens })
}

fn only_kept(alloc: Global, plan: &Plan) -> Result<Only, Fail> {
    let old = users(alloc)?;
    let old = old.tables.get(0).ok_or("a table")?;
    let new = plan.schema.tables.get(0).ok_or("a table")?;
    match plan.fates.get(0) {
        Some((_, Fate::Kept(lens))) => kept(alloc, &old.2, &new.2, lens),
        _ => Err("no lens".into()),
    }
}

fn only_table(alloc: Global, words: &str) -> Result<Only, Fail> {
    let m = migration(alloc, words)?;
    let plan = planned_users(alloc, &m)?;
    only_kept(alloc, &plan)
}

/// The new half that was made, if the old half that is made from it is the old half again.
fn and_back(alloc: Global, only: &Only, half: &[Value], made: &[Value]) -> Result<String, Fail> {
    let back = backward(alloc, &only.lens, &only.new, made, None)?;
    if back.as_slice() != half {
        return Ok(String::from_str(alloc, "another old half")?);
    }
    shown::half(alloc, made)
}

/// What `forward` makes, there and back.
fn there_and_back(
    alloc: Global,
    only: &Only,
    half: &[Value],
    before: Option<&[Value]>,
) -> Result<String, Fail> {
    match forward(alloc, &only.lens, &only.old, half, before) {
        Ok(made) => and_back(alloc, only, half, made.as_slice()),
        Err(fault) => Ok(format!(in alloc; "{fault:?}")?),
    }
}

/// The lens with its sides exchanged.
fn turned(alloc: Global, lens: &Lens) -> Result<Lens, Fail> {
    let new_cols = lens.old_cols.copy(alloc)?;
    let old_cols = lens.new_cols.copy(alloc)?;
    Ok(Lens { new_cols, old_cols })
}

/// What `backward` makes by the same lens with its sides exchanged.
fn mirrored(
    alloc: Global,
    only: &Only,
    half: &[Value],
    before: Option<&[Value]>,
) -> Result<String, Fail> {
    let turned = turned(alloc, &only.lens)?;
    match backward(alloc, &turned, &only.old, half, before) {
        Ok(made) => shown::half(alloc, made.as_slice()),
        Err(fault) => Ok(format!(in alloc; "{fault:?}")?),
    }
}

/// The new half of the row, twice: by `forward`, and by `backward` of the mirrored lens.
fn halves(
    alloc: Global,
    only: &Only,
    half: &[Value],
    before: Option<&[Value]>,
) -> Result<(String, String), Fail> {
    let there = there_and_back(alloc, only, half, before)?;
    let mirror = mirrored(alloc, only, half, before)?;
    Ok((there, mirror))
}

/// With the new half before, if there is one.
fn halves_since(
    alloc: Global,
    only: &Only,
    half: &[Value],
    last: &str,
) -> Result<(String, String), Fail> {
    if last == "-" {
        return halves(alloc, only, half, None);
    }
    let before = row(alloc, "z", last)?;
    halves(alloc, only, half, Some(before.as_slice()))
}

fn halves_of(alloc: Global, only: &Only, word: &str, last: &str) -> Result<(String, String), Fail> {
    let half = row(alloc, word, "-")?;
    halves_since(alloc, only, half.as_slice(), last)
}

fn halves_after(
    alloc: Global,
    words: &str,
    word: &str,
    last: &str,
) -> Result<(String, String), Fail> {
    let only = only_table(alloc, words)?;
    halves_of(alloc, &only, word, last)
}

#[test]
fn halves_are_made_both_ways(rt: HostRuntime) -> Result<(), Fail> {
    let alloc = rt.alloc();
    for (words, word, last, wanted) in HALVES {
        let (there, mirror) = halves_after(alloc, words, word, last)?;
        assert!(rt; there.as_str() == *wanted, "{words}, {word}: {there}");
        assert!(rt; mirror.as_str() == *wanted, "{words}, {word}: {mirror}");
    }
    Ok(())
}

/// Migrations of `users`, and the places of a stored row while they are active.
const LAYOUTS: &[(&str, &str)] = &[
    (
        "users age bigint null up=0",
        "id:bigint name:text _pgroll_new_age:bigint _pgroll_needs_backfill:boolean mark",
    ),
    (
        "users age bigint default=0",
        "id:bigint name:text _pgroll_new_age:bigint no mark",
    ),
];

fn told_layout(alloc: Global, found: &Layout) -> Result<String, Fail> {
    shown::layout(alloc, &found.copy(alloc)?)
}

fn laid_out(alloc: Global, only: &Only) -> Result<String, Fail> {
    let found = layout(alloc, &only.old, &only.new, &only.lens)?;
    told_layout(alloc, &found)
}

fn laid(alloc: Global, words: &str) -> Result<String, Fail> {
    laid_out(alloc, &only_table(alloc, words)?)
}

#[test]
fn stored_rows_have_shadows_and_a_mark(rt: HostRuntime) -> Result<(), Fail> {
    let alloc = rt.alloc();
    for (words, wanted) in LAYOUTS {
        let found = laid(alloc, words)?;
        assert!(rt; found.as_str() == *wanted, "{words}: {found}");
    }
    Ok(())
}

fn zero() -> Expr {
    Expr::Lit(Value::Int(0))
}

fn created(alloc: Global) -> Result<Op, Fail> {
    Ok(Op::CreateTable {
        name: name(alloc, "users")?,
        columns: List::new(alloc),
    })
}

fn dropped(alloc: Global) -> Result<Op, Fail> {
    Ok(Op::DropTable {
        name: name(alloc, "users")?,
    })
}

fn renamed(alloc: Global) -> Result<Op, Fail> {
    let from = name(alloc, "users")?;
    let to = name(alloc, "a")?;
    Ok(Op::RenameTable { from, to })
}

fn column_dropped(alloc: Global) -> Result<Op, Fail> {
    let table = name(alloc, "users")?;
    let column = name(alloc, "age")?;
    Ok(Op::DropColumn {
        table,
        column,
        down: Some(zero()),
    })
}

fn column_renamed(alloc: Global) -> Result<Op, Fail> {
    let table = name(alloc, "users")?;
    let from = name(alloc, "age")?;
    let to = name(alloc, "a")?;
    Ok(Op::RenameColumn { table, from, to })
}

/// With `constraint_operations`: an operation of each kind but `add_column`.
fn operations(alloc: Global) -> Result<List<Op>, Fail> {
    let mut all = one(alloc, created(alloc)?)?;
    all.push(dropped(alloc)?)?;
    all.push(renamed(alloc)?)?;
    all.push(column_dropped(alloc)?)?;
    all.push(column_renamed(alloc)?)?;
    Ok(all)
}

fn altered(alloc: Global) -> Result<Op, Fail> {
    let table = name(alloc, "users")?;
    let column = name(alloc, "age")?;
    let unique = name(alloc, "ages")?;
    Ok(Op::AlterColumn {
        table,
        column,
        ty: None,
        nullable: Some(true),
        default: Some(Value::Null),
        unique: Some(unique),
        check: None,
        up: Some(zero()),
        down: None,
    })
}

fn zeros(alloc: Global) -> Result<List<(Name, Expr)>, Fail> {
    Ok(one(alloc, (name(alloc, "age")?, zero()))?)
}

fn constrained(alloc: Global) -> Result<Op, Fail> {
    let table = name(alloc, "users")?;
    let unique = name(alloc, "ages")?;
    let columns = one(alloc, name(alloc, "age")?)?;
    let up = zeros(alloc)?;
    Ok(Op::CreateConstraint {
        table,
        name: unique,
        columns,
        check: None,
        up,
        down: List::new(alloc),
    })
}

fn freed(alloc: Global) -> Result<Op, Fail> {
    Ok(Op::DropConstraint {
        table: name(alloc, "users")?,
        name: name(alloc, "ages")?,
        up: Some(Ways::One(zero())),
        down: Some(Ways::Each(List::new(alloc))),
    })
}

fn constraint_operations(alloc: Global) -> Result<List<Op>, Fail> {
    let mut all = one(alloc, altered(alloc)?)?;
    all.push(constrained(alloc)?)?;
    all.push(freed(alloc)?)?;
    Ok(all)
}

#[test]
fn operations_are_copied(rt: HostRuntime) -> Result<(), Fail> {
    let alloc = rt.alloc();
    assert!(rt; operations(alloc)?.copy(alloc)?.len() == 5);
    assert!(rt; constraint_operations(alloc)?.copy(alloc)?.len() == 3);
    Ok(())
}

/// A refusal of each kind that holds something.
fn refusals(alloc: Global) -> Result<List<Refusal>, Fail> {
    let at = Place {
        operation: 0,
        member: Member::Check,
    };
    let mut all = one(alloc, Refusal::AlreadyActive(name(alloc, "02")?))?;
    all.push(Refusal::Unfinished(Kind::Complete))?;
    all.push(Refusal::NotFilled(name(alloc, "users")?, 1))?;
    all.push(Refusal::ColumnTwice(name(alloc, "users")?, name(alloc, "age")?))?;
    all.push(Refusal::BadExpr(at))?;
    all.push(Refusal::BackfillRefused(name(alloc, "users")?, 2, Code::C23502))?;
    all.push(Refusal::BadScript(3))?;
    Ok(all)
}

#[test]
fn refusals_are_copied(rt: HostRuntime) -> Result<(), Fail> {
    let alloc = rt.alloc();
    for refusal in refusals(alloc)?.as_slice() {
        assert!(rt; refusal.copy(alloc)? == *refusal, "{refusal:?}");
    }
    Ok(())
}
