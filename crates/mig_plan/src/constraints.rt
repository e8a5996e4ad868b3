//! `create_constraint` and `drop_constraint`.

ghost use Rattle.std.specs.Prelude.{◌≡◌, [], ◌∷◌, ◌++◌, Some, not, filter, map, IfOk};
ghost use Rattle.std.specs.Str.{bytes_eq};
ghost use Rattle.std.specs.List.{filter_map};
ghost use Rattle.std.specs.Option.{option_copied};
ghost use Rattle.sql_base.specs.Outcome.{Gives};
ghost use Rattle.mig_plan.specs.Constraints as spec;
ghost use Rattle.mig_plan.specs.Draft.{is_check_named, is_unique_named};
ghost use Rattle.mig_plan.specs.Columns as columns;
ghost use Rattle.mig_plan.specs.Columns.{place_named};
ghost use Rattle.mig_plan.specs.Versions.{first, key_name};

use crate::altering::place_named;
use crate::drafts::{
    DraftCheck, DraftColumn, DraftTable, column_meant, has_either_constraint, is_check_named,
    is_unique_named, linked,
};
use crate::standing::{key_fault, no_column, twice_fault};
use crate::tables::key_name;
use mig_lens::{Member, Place, PlanFault, Ways};
use sql_base::{
    Check, Column, Copying, Expr, List, Name, NoMemory, Schema, Unique, names_column, try_map,
};
use std::alloc::Global;

type Pair = (Name, Expr);

// ---- up and down of several columns

fn expr_for<'a>(pairs: &'a [Pair], name: &Name) -> Option<&'a Expr>
    ensures { option_copied result ≡ spec.expr_for pairs.now name.now }
{
    match pairs
        .iter()
        .find(|pair| pair.0.as_slice() == name.as_slice())
    {
        Some(pair) => Some(&pair.1),
        None => None,
    }
}

fn is_among(columns: &[Name], name: &Name) -> bool
    ensures { result ≡ spec.is_among columns.now name.now }
{
    columns
        .iter()
        .any(|column| column.as_slice() == name.as_slice())
}

fn stray_fault(
    alloc: Global,
    title: &Name,
    columns: &[Name],
    name: &Name,
) -> Result<Option<PlanFault>, NoMemory>
    ensures { IfOk result (λ fault. fault ≡ spec.stray_fault title.now columns.now name.now) }
{
    if is_among(columns, name) {
        return Ok(None);
    }
    Ok(Some(no_column(alloc, title, name)?))
}

fn first_stray(
    alloc: Global,
    title: &Name,
    columns: &[Name],
    pairs: &[Pair],
) -> Result<Option<PlanFault>, NoMemory>
    ensures { IfOk result (λ fault. fault ≡ spec.first_of (spec.stray_fault title.now columns.now) pairs.now) }
{
    for pair in pairs {
        if let Some(fault) = stray_fault(alloc, title, columns, &pair.0)? {
            return Ok(Some(fault));
        }
    }
    Ok(None)
}

fn first_key(
    alloc: Global,
    title: &Name,
    table: &DraftTable,
    pairs: &[Pair],
) -> Result<Option<PlanFault>, NoMemory>
    ensures { IfOk result (λ fault. fault ≡ spec.first_of (columns.key_fault title.now table.now) pairs.now) }
{
    for pair in pairs {
        if let Some(fault) = key_fault(alloc, title, table, &pair.0)? {
            return Ok(Some(fault));
        }
    }
    Ok(None)
}

fn twice_named(
    alloc: Global,
    title: &Name,
    table: &DraftTable,
    name: &Name,
) -> Result<Option<PlanFault>, NoMemory>
    ensures { IfOk result (λ fault. fault ≡ spec.twice_named title.now table.now name.now) }
{
    match column_meant(table, name) {
        Some(column) => twice_fault(alloc, title, name, column),
        None => Ok(None),
    }
}

fn first_twice(
    alloc: Global,
    title: &Name,
    table: &DraftTable,
    pairs: &[Pair],
) -> Result<Option<PlanFault>, NoMemory>
    ensures { IfOk result (λ fault. fault ≡ spec.first_of (spec.twice_named title.now table.now) pairs.now) }
{
    for pair in pairs {
        if let Some(fault) = twice_named(alloc, title, table, &pair.0)? {
            return Ok(Some(fault));
        }
    }
    Ok(None)
}

/// P10 of all columns with `up` or `down`, and then P11 of all.
fn way_fault(
    alloc: Global,
    title: &Name,
    table: &DraftTable,
    ups: &[Pair],
    downs: &[Pair],
) -> Result<Option<PlanFault>, NoMemory>
    ensures { IfOk result (λ fault. fault ≡ first (spec.way_faults title.now table.now ups.now downs.now)) }
{
    if let Some(fault) = first_key(alloc, title, table, ups)? {
        return Ok(Some(fault));
    }
    if let Some(fault) = first_key(alloc, title, table, downs)? {
        return Ok(Some(fault));
    }
    if let Some(fault) = first_twice(alloc, title, table, ups)? {
        return Ok(Some(fault));
    }
    first_twice(alloc, title, table, downs)
}

fn copied(alloc: Global, expr: Option<&Expr>) -> Result<Option<Expr>, NoMemory>
    ensures { IfOk result (λ copy. copy ≡ option_copied expr.entry) }
{
    match expr {
        Some(expr) => Ok(Some(expr.copy(alloc)?)),
        None => Ok(None),
    }
}

fn made_by(
    alloc: Global,
    up: Option<&Expr>,
    down: Option<&Expr>,
    at: u64,
    now: &Column,
    column: &DraftColumn,
) -> Result<DraftColumn, NoMemory>
    ensures { IfOk result (λ made. made ≡ spec.made_by (option_copied up.entry) (option_copied down.entry) at now.now column.now) }
{
    let up = copied(alloc, up)?;
    let down = copied(alloc, down)?;
    if up.is_none() && down.is_none() {
        return column.copy(alloc);
    }
    Ok(DraftColumn {
        before: column.before.copy(alloc)?,
        after: linked(alloc, &column.before, now, &up, &down, at)?,
    })
}

fn with_ways(
    alloc: Global,
    ups: &[Pair],
    downs: &[Pair],
    at: u64,
    column: &DraftColumn,
) -> Result<DraftColumn, NoMemory>
    ensures { IfOk result (λ with. with ≡ spec.with_ways ups.now downs.now at column.now) }
{
    match &column.after.column {
        Some(now) => {
            let up = expr_for(ups, &now.name);
            let down = expr_for(downs, &now.name);
            made_by(alloc, up, down, at, now, column)
        }
        None => column.copy(alloc),
    }
}

fn columns_made(
    alloc: Global,
    ups: &[Pair],
    downs: &[Pair],
    at: u64,
    columns: &[DraftColumn],
) -> Result<List<DraftColumn>, NoMemory>
    ensures { IfOk result (λ made. made ≡ map (spec.with_ways ups.now downs.now at) columns.now) }
{
    try_map(
        alloc,
        columns,
        |column| with_ways(alloc, ups, downs, at, column),
    )
}

// ---- create_constraint

fn absent_fault(
    alloc: Global,
    title: &Name,
    table: &DraftTable,
    name: &Name,
) -> Result<Option<PlanFault>, NoMemory>
    ensures { IfOk result (λ fault. fault ≡ spec.absent_fault title.now table.now name.now) }
{
    if column_meant(table, name).is_some() {
        return Ok(None);
    }
    Ok(Some(no_column(alloc, title, name)?))
}

fn first_absent(
    alloc: Global,
    title: &Name,
    table: &DraftTable,
    columns: &[Name],
) -> Result<Option<PlanFault>, NoMemory>
    ensures { IfOk result (λ fault. fault ≡ first (map (spec.absent_fault title.now table.now) columns.now)) }
{
    for name in columns {
        if let Some(fault) = absent_fault(alloc, title, table, name)? {
            return Ok(Some(fault));
        }
    }
    Ok(None)
}

fn create_fault(
    alloc: Global,
    old: &Schema,
    title: &Name,
    table: &DraftTable,
    name: &Name,
    columns: &[Name],
    ups: &[Pair],
    downs: &[Pair],
) -> Result<Option<PlanFault>, NoMemory>
    ensures { IfOk result (λ fault. fault ≡ first (spec.create_faults old.now title.now table.now name.now columns.now ups.now downs.now)) }
{
    if let Some(fault) = first_absent(alloc, title, table, columns)? {
        return Ok(Some(fault));
    }
    if let Some(fault) = first_stray(alloc, title, columns, ups)? {
        return Ok(Some(fault));
    }
    if let Some(fault) = first_stray(alloc, title, columns, downs)? {
        return Ok(Some(fault));
    }
    if has_either_constraint(alloc, old, title, name, table)? {
        return Ok(Some(PlanFault::Exists(name.copy(alloc)?)));
    }
    way_fault(alloc, title, table, ups, downs)
}

fn with_check(
    alloc: Global,
    at: u64,
    name: &Name,
    expr: &Expr,
    checks: &List<DraftCheck>,
) -> Result<List<DraftCheck>, NoMemory>
    ensures { IfOk result (λ with. with ≡ checks.now ++ record { check = record { name = name.now; expr = expr.now }; made = Some at } ∷ []) }
{
    let mut with = checks.copy(alloc)?;
    with.push(DraftCheck {
        check: Check {
            name: name.copy(alloc)?,
            expr: expr.copy(alloc)?,
        },
        made: Some(at),
    })?;
    Ok(with)
}

fn with_unique(
    alloc: Global,
    table: &DraftTable,
    name: &Name,
    columns: &[Name],
) -> Result<List<Unique>, NoMemory>
    ensures { IfOk result (λ with. with ≡ table.now.uniques ++ record { name = name.now; columns = map (place_named table.now.columns) columns.now } ∷ []) }
{
    let all = table.columns.as_slice();
    let places = try_map(alloc, columns, |column| place_named(all, column))?;
    let mut with = table.uniques.copy(alloc)?;
    with.push(Unique {
        name: name.copy(alloc)?,
        columns: places,
    })?;
    Ok(with)
}

fn checks_with(
    alloc: Global,
    at: u64,
    name: &Name,
    check: &Option<Expr>,
    table: &DraftTable,
) -> Result<List<DraftCheck>, NoMemory>
    ensures { IfOk result (λ with. with ≡ (spec.with_constraint at name.now [] check.now table.now).checks) }
{
    match check {
        Some(expr) => with_check(alloc, at, name, expr, &table.checks),
        None => table.checks.copy(alloc),
    }
}

fn uniques_with(
    alloc: Global,
    at: u64,
    name: &Name,
    columns: &[Name],
    check: &Option<Expr>,
    table: &DraftTable,
) -> Result<List<Unique>, NoMemory>
    ensures { IfOk result (λ with. with ≡ (spec.with_constraint at name.now columns.now check.now table.now).uniques) }
{
    match check {
        Some(_) => table.uniques.copy(alloc),
        None => with_unique(alloc, table, name, columns),
    }
}

/// The table with one constraint more, or the first thing that is wrong with it.
pub fn constraint_created(
    alloc: Global,
    old: &Schema,
    at: u64,
    title: &Name,
    name: &Name,
    columns: &[Name],
    check: &Option<Expr>,
    ups: &[Pair],
    downs: &[Pair],
    table: &DraftTable,
) -> Result<DraftTable, PlanFault>
    ensures { Gives PlanFault.NoMemory (spec.constraint_created old.now at title.now name.now columns.now check.now ups.now downs.now table.now) result }
{
    if let Some(fault) = create_fault(alloc, old, title, table, name, columns, ups, downs)? {
        return Err(fault);
    }
    Ok(DraftTable {
        number: table.number,
        stood: table.stood,
        name: table.name.copy(alloc)?,
        columns: columns_made(alloc, ups, downs, at, table.columns.as_slice())?,
        key: table.key,
        checks: checks_with(alloc, at, name, check, table)?,
        uniques: uniques_with(alloc, at, name, columns, check, table)?,
    })
}

// ---- drop_constraint

fn name_at<'a>(columns: &'a [DraftColumn], at: u32) -> Option<&'a Name>
    ensures { option_copied result ≡ spec.name_at columns.now at }
{
    match columns.get(at as usize) {
        Some(column) => match &column.after.column {
            Some(column) => Some(&column.name),
            None => None,
        },
        None => None,
    }
}

fn names_at(alloc: Global, columns: &[DraftColumn], places: &[u32]) -> Result<List<Name>, NoMemory>
    ensures { IfOk result (λ names. names ≡ filter_map (spec.name_at columns.now) places.now) }
{
    let mut names = List::new(alloc);
    for at in places {
        if let Some(name) = name_at(columns, *at) {
            names.push(name.copy(alloc)?)?;
        }
    }
    Ok(names)
}

fn names_in(alloc: Global, expr: &Expr, columns: &[DraftColumn]) -> Result<List<Name>, NoMemory>
    ensures { IfOk result (λ names. names ≡ spec.names_in expr.now columns.now) }
{
    let mut names = List::new(alloc);
    for column in columns {
        if let Some(now) = &column.after.column {
            if names_column(expr, &now.name) {
                names.push(now.name.copy(alloc)?)?;
            }
        }
    }
    Ok(names)
}

fn check_columns(
    alloc: Global,
    table: &DraftTable,
    name: &Name,
) -> Result<Option<List<Name>>, NoMemory>
    ensures { IfOk result (λ columns. columns ≡ spec.check_columns table.now name.now) }
{
    let checks = table.checks.as_slice();
    match checks.iter().find(|check| is_check_named(check, name)) {
        Some(check) => {
            let names = names_in(alloc, &check.check.expr, table.columns.as_slice())?;
            Ok(Some(names))
        }
        None => Ok(None),
    }
}

fn names_over(
    alloc: Global,
    columns: &[DraftColumn],
    unique: &Unique,
) -> Result<List<Name>, NoMemory>
    ensures { IfOk result (λ names. names ≡ spec.names_over columns.now unique.now) }
{
    names_at(alloc, columns, unique.columns.as_slice())
}

fn unique_columns(
    alloc: Global,
    table: &DraftTable,
    name: &Name,
) -> Result<Option<List<Name>>, NoMemory>
    ensures { IfOk result (λ columns. columns ≡ spec.unique_columns table.now name.now) }
{
    let uniques = table.uniques.as_slice();
    match uniques.iter().find(|unique| is_unique_named(unique, name)) {
        Some(unique) => {
            let names = names_over(alloc, table.columns.as_slice(), unique)?;
            Ok(Some(names))
        }
        None => Ok(None),
    }
}

fn key_columns(alloc: Global, table: &DraftTable) -> Result<List<Name>, NoMemory>
    ensures { IfOk result (λ columns. columns ≡ spec.key_columns table.now) }
{
    let mut names = List::new(alloc);
    if let Some(name) = name_at(table.columns.as_slice(), table.key) {
        names.push(name.copy(alloc)?)?;
    }
    Ok(names)
}

fn is_key(alloc: Global, title: &Name, name: &Name) -> Result<bool, NoMemory>
    ensures { IfOk result (λ is. is ≡ bytes_eq (key_name title.now) name.now) }
{
    Ok(key_name(alloc, title)?.as_slice() == name.as_slice())
}

/// The columns of the constraint of this name.
fn constraint_columns(
    alloc: Global,
    title: &Name,
    table: &DraftTable,
    name: &Name,
) -> Result<Option<List<Name>>, NoMemory>
    ensures { IfOk result (λ columns. columns ≡ spec.constraint_columns title.now table.now name.now) }
{
    if is_key(alloc, title, name)? {
        return Ok(Some(key_columns(alloc, table)?));
    }
    match check_columns(alloc, table, name)? {
        Some(columns) => Ok(Some(columns)),
        None => unique_columns(alloc, table, name),
    }
}

fn one_pair(alloc: Global, column: &Name, expr: &Expr) -> Result<List<Pair>, NoMemory>
    ensures { IfOk result (λ pairs. pairs ≡ (column.now, expr.now) ∷ []) }
{
    let mut pairs = List::new(alloc);
    pairs.push((column.copy(alloc)?, expr.copy(alloc)?))?;
    Ok(pairs)
}

/// The expressions by their columns: one is meant for the constraint's one column.
fn pairs_for(alloc: Global, columns: &[Name], ways: &Option<Ways>) -> Result<List<Pair>, NoMemory>
    ensures { IfOk result (λ pairs. pairs ≡ spec.pairs_for columns.now ways.now) }
{
    match ways {
        None => Ok(List::new(alloc)),
        Some(Ways::Each(pairs)) => pairs.copy(alloc),
        Some(Ways::One(expr)) => match columns {
            [column] => one_pair(alloc, column, expr),
            _ => Ok(List::new(alloc)),
        },
    }
}

/// Whether there is one expression, and the constraint hasn't exactly one column.
fn is_loose(columns: &[Name], ways: &Option<Ways>) -> bool
    ensures { result ≡ spec.is_loose columns.now ways.now }
{
    match ways {
        Some(Ways::One(_)) => columns.len() != 1,
        Some(Ways::Each(_)) | None => false,
    }
}

fn loose_fault(at: u64, member: Member, columns: &[Name], ways: &Option<Ways>) -> Option<PlanFault>
    ensures { result ≡ spec.loose_fault at member columns.now ways.now }
{
    if is_loose(columns, ways) {
        return Some(PlanFault::BadExpr(Place {
            operation: at,
            member,
        }));
    }
    None
}

/// What is wrong with dropping the constraint of these columns, but for P14.
fn drop_fault(
    alloc: Global,
    title: &Name,
    table: &DraftTable,
    name: &Name,
    columns: &[Name],
    ups: &[Pair],
    downs: &[Pair],
) -> Result<Option<PlanFault>, NoMemory>
    ensures { IfOk result (λ fault. fault ≡ first (spec.drop_faults title.now table.now name.now columns.now ups.now downs.now)) }
{
    if let Some(fault) = first_stray(alloc, title, columns, ups)? {
        return Ok(Some(fault));
    }
    if let Some(fault) = first_stray(alloc, title, columns, downs)? {
        return Ok(Some(fault));
    }
    if is_key(alloc, title, name)? {
        return Ok(Some(PlanFault::KeyColumn(title.copy(alloc)?)));
    }
    way_fault(alloc, title, table, ups, downs)
}

fn loose_faults(
    at: u64,
    columns: &[Name],
    up: &Option<Ways>,
    down: &Option<Ways>,
) -> Option<PlanFault>
    ensures { result ≡ spec.loose_faults at columns.now up.now down.now }
{
    match loose_fault(at, Member::Up, columns, up) {
        Some(fault) => Some(fault),
        None => loose_fault(at, Member::Down, columns, down),
    }
}

fn checks_without(
    alloc: Global,
    name: &Name,
    checks: &[DraftCheck],
) -> Result<List<DraftCheck>, NoMemory>
    ensures { IfOk result (λ left. left ≡ filter (λ check. not (is_check_named name.now check)) checks.now) }
{
    let mut left = List::new(alloc);
    for check in checks {
        if !is_check_named(check, name) {
            left.push(check.copy(alloc)?)?;
        }
    }
    Ok(left)
}

fn uniques_without(alloc: Global, name: &Name, uniques: &[Unique]) -> Result<List<Unique>, NoMemory>
    ensures { IfOk result (λ left. left ≡ filter (λ unique. not (is_unique_named name.now unique)) uniques.now) }
{
    let mut left = List::new(alloc);
    for unique in uniques {
        if !is_unique_named(unique, name) {
            left.push(unique.copy(alloc)?)?;
        }
    }
    Ok(left)
}

/// The table without the constraint, and with its columns made by these pairs.
fn without_constraint(
    alloc: Global,
    at: u64,
    name: &Name,
    ups: &[Pair],
    downs: &[Pair],
    table: &DraftTable,
) -> Result<DraftTable, NoMemory>
    ensures { IfOk result (λ left. left ≡ spec.with_made ups.now downs.now at (spec.without_constraint name.now table.now)) }
{
    Ok(DraftTable {
        number: table.number,
        stood: table.stood,
        name: table.name.copy(alloc)?,
        columns: columns_made(alloc, ups, downs, at, table.columns.as_slice())?,
        key: table.key,
        checks: checks_without(alloc, name, table.checks.as_slice())?,
        uniques: uniques_without(alloc, name, table.uniques.as_slice())?,
    })
}

/// The table without the constraint, or the first thing that is wrong with that.
pub fn constraint_dropped(
    alloc: Global,
    at: u64,
    title: &Name,
    name: &Name,
    up: &Option<Ways>,
    down: &Option<Ways>,
    table: &DraftTable,
) -> Result<DraftTable, PlanFault>
    ensures { Gives PlanFault.NoMemory (spec.constraint_dropped at title.now name.now up.now down.now table.now) result }
{
    let Some(columns) = constraint_columns(alloc, title, table, name)? else {
        return Err(no_column(alloc, title, name)?);
    };
    let columns = columns.as_slice();
    let ups = pairs_for(alloc, columns, up)?;
    let downs = pairs_for(alloc, columns, down)?;
    let (ups, downs) = (ups.as_slice(), downs.as_slice());
    if let Some(fault) = drop_fault(alloc, title, table, name, columns, ups, downs)? {
        return Err(fault);
    }
    if let Some(fault) = loose_faults(at, columns, up, down) {
        return Err(fault);
    }
    Ok(without_constraint(alloc, at, name, ups, downs, table)?)
}
