//! Members that hold objects and arrays.

ghost use Rattle.std.specs.Prelude.{◌≡◌, [], map, true, false, codes, Option, List, option_map, unwrap_or, Some, MatchOption};
ghost use Rattle.std.specs.List.{list_any};
ghost use Rattle.serde_json.specs.Data.{array};
ghost use Rattle.serde_json.specs.Find.{as_str};
ghost use Rattle.serde_json.specs.View.{view, items_view, members_view};
ghost use Rattle.sql_base.specs.declared.exprs.Expr.{Expr};
ghost use Rattle.mig_json.specs.Demand.{Reads, inside};
ghost use Rattle.mig_json.specs.Kind.{demands, member_path, element_path, needs, is_list, is_filled};
ghost use Rattle.mig_json.specs.Kind as kind;
ghost use Rattle.mig_json.specs.Reading.{has_list};
ghost use Rattle.mig_json.specs.Table as table;

use crate::faults as faults;
use crate::faults::{JsonFault, bad, inside};
use crate::members::{Object, is_of};
use crate::names::is_part_name;
use crate::values::{expression_in, may_flag, may_literal, read_expression, read_name, read_type};
use mig_lens::{ColumnDef, Member, Ways};
use serde_json::{Map, Value};
use sql_base::{Check, Expr, List, Name, Ty};
use std::alloc::Global;

// ---- checks

fn check_members(alloc: Global, at: u64, path: &str, check: &Value) -> Result<Check, JsonFault>
    ensures { kind.MembersMake table.check table.check_of at path.now (view check.now) result }
{
    let name = read_name(alloc, at, path, "name", check.get("name"))?;
    let expr = read_expression(
        alloc,
        at,
        Member::Check,
        path,
        "constraint",
        check.get("constraint"),
    )?;
    Ok(Check { name, expr })
}

fn read_check(alloc: Global, at: u64, path: &str, check: &Value) -> Result<Check, JsonFault>
    ensures { kind.ObjectMakes table.check table.check_of at path.now (view check.now) result }
{
    if !is_of(Object::Check, check) {
        return Err(inside(alloc, at, path));
    }
    check_members(alloc, at, path, check)
}

/// A check, where one is written.
pub(crate) fn may_check(
    alloc: Global,
    at: u64,
    path: &str,
    key: &str,
    value: Option<&Value>,
) -> Result<Option<Check>, JsonFault>
    ensures { let d = option_map (λ v. view v.now) value.entry in
        kind.MayMake (kind.object table.check) table.check_of at (member_path path.now key.now) d result }
{
    let Some(check) = value else {
        return Ok(None);
    };
    let inner = faults::member_path(alloc, path, key)?;
    let check = read_check(alloc, at, inner.as_str(), check)?;
    Ok(Some(check))
}

/// The name of a unique constraint, where one is written.
pub(crate) fn may_named(
    alloc: Global,
    at: u64,
    value: Option<&Value>,
) -> Result<Option<Name>, JsonFault>
    ensures { let d = option_map (λ v. view v.now) value.entry in
        kind.MayMake (kind.object table.named) (λ xs. xs.0) at (codes ".unique") d result }
{
    let Some(named) = value else {
        return Ok(None);
    };
    if !is_of(Object::Named, named) {
        return Err(inside(alloc, at, ".unique"));
    }
    let name = read_name(alloc, at, ".unique", "name", named.get("name"))?;
    Ok(Some(name))
}

// ---- columns

fn column_with(
    name: Name,
    ty: Ty,
    nullable: Option<bool>,
    pk: Option<bool>,
    unique: Option<bool>,
    default: Option<sql_base::Value>,
    check: Option<Check>,
) -> ColumnDef
    ensures { result ≡ table.column_with name ty nullable pk unique default check }
{
    ColumnDef {
        name,
        ty,
        nullable: nullable.unwrap_or(false),
        pk: pk.unwrap_or(false),
        unique: unique.unwrap_or(false),
        default: default.unwrap_or(sql_base::Value::Null),
        check,
    }
}

fn column_members(
    alloc: Global,
    at: u64,
    path: &str,
    column: &Value,
) -> Result<ColumnDef, JsonFault>
    ensures { kind.MembersMake table.column table.column_of at path.now (view column.now) result }
{
    let name = read_name(alloc, at, path, "name", column.get("name"))?;
    let ty = read_type(alloc, at, path, "type", column.get("type"))?;
    let nullable = may_flag(alloc, at, path, "nullable", column.get("nullable"))?;
    let pk = may_flag(alloc, at, path, "pk", column.get("pk"))?;
    let unique = may_flag(alloc, at, path, "unique", column.get("unique"))?;
    let default = may_literal(
        alloc,
        at,
        Member::Default,
        path,
        "default",
        column.get("default"),
    )?;
    let check = may_check(alloc, at, path, "check", column.get("check"))?;
    Ok(column_with(name, ty, nullable, pk, unique, default, check))
}

fn read_column(alloc: Global, at: u64, path: &str, column: &Value) -> Result<ColumnDef, JsonFault>
    ensures { kind.ObjectMakes table.column table.column_of at path.now (view column.now) result }
{
    if !is_of(Object::Column, column) {
        return Err(inside(alloc, at, path));
    }
    column_members(alloc, at, path, column)
}

/// A column, which must be there.
pub(crate) fn must_column(
    alloc: Global,
    at: u64,
    value: Option<&Value>,
) -> Result<ColumnDef, JsonFault>
    ensures { let d = option_map (λ v. view v.now) value.entry in
        kind.MustMake (kind.object table.column) table.column_of at (codes ".column") d result }
{
    let Some(column) = value else {
        return Err(inside(alloc, at, ".column"));
    };
    read_column(alloc, at, ".column", column)
}

/// The column at the place `j` of an array.
fn column_at(
    alloc: Global,
    at: u64,
    path: &str,
    j: usize,
    column: &Value,
) -> Result<ColumnDef, JsonFault>
    ensures { kind.ObjectMakes table.column table.column_of at (element_path path.now j) (view column.now) result }
{
    let inner = faults::element_path(alloc, path, j)?;
    read_column(alloc, at, inner.as_str(), column)
}

fn read_columns(
    alloc: Global,
    at: u64,
    path: &str,
    items: &[Value],
) -> Result<List<ColumnDef>, JsonFault>
    ensures { let each = kind.element_demands (kind.object table.column) at path.now in
        Reads (kind.item_demands each [] (items_view items.now))
        (λ xs. kind.AreItems (λ before. table.IsColumn) [] (items_view items.now) xs) result }
{
    let mut columns = List::new(alloc);
    for (j, item) in items.iter().enumerate() {
        columns.push(column_at(alloc, at, path, j, item)?)?;
    }
    Ok(columns)
}

/// The elements of an array.
pub(crate) fn elements(value: Option<&Value>) -> Option<&[Value]>
    ensures { let d = option_map (λ v. view v.now) value.entry in
        MatchOption result (has_list d ≡ false) (λ items. d ≡ Some (array (items_view items.now))) }
{
    Some(value.and_then(Value::as_array)?.as_slice())
}

/// The elements of an array that isn't empty.
fn filled(value: Option<&Value>) -> Option<&[Value]>
    ensures { let d = option_map (λ v. view v.now) value.entry in
        MatchOption result (needs is_list d ≡ false)
        (λ items. (d ≡ Some (array (items_view items.now))) × (is_filled (items_view items.now) ≡ true)) }
{
    let items = elements(value)?;
    if items.is_empty() { None } else { Some(items) }
}

/// Columns, of which there must be one at least.
pub(crate) fn must_columns(
    alloc: Global,
    at: u64,
    value: Option<&Value>,
) -> Result<List<ColumnDef>, JsonFault>
    ensures { let d = option_map (λ v. view v.now) value.entry in
        kind.MustMake (kind.many (kind.object table.column)) (map table.column_of) at (codes ".columns") d result }
{
    let Some(items) = filled(value) else {
        return Err(inside(alloc, at, ".columns"));
    };
    read_columns(alloc, at, ".columns", items)
}

// ---- names

fn is_text(value: &Value, text: &str) -> bool
    ensures { result ≡ kind.is_word text.now (view value.now) }
{
    match value.as_str() {
        Some(other) => other == text,
        None => false,
    }
}

/// Whether one of the values is this text.
fn stands_in(before: &[Value], text: &str) -> bool
    ensures { result ≡ list_any (λ v. kind.is_word text.now (view v)) before.now }
{
    before.iter().any(|other| is_text(other, text))
}

/// Whether none of the values before is the text that this one is.
fn is_new(before: &[Value], item: &Value, text: &str) -> bool
    requires { as_str (view item.now) ≡ Some text.now }
    ensures { result ≡ kind.is_new (map view before.now) (view item.now) }
{
    !stands_in(before, text)
}

/// The name that an element is, where none before is it.
fn new_name(
    alloc: Global,
    at: u64,
    path: &str,
    before: &[Value],
    item: &Value,
) -> Result<Name, JsonFault>
    ensures { Reads (kind.name_demands at path.now (map view before.now) (view item.now))
        (kind.IsNewName (map view before.now) (view item.now)) result }
{
    let Some(text) = item.as_str() else {
        return Err(faults::element_fault(alloc, at, path, before.len()));
    };
    if !is_part_name(text) {
        return Err(faults::element_fault(alloc, at, path, before.len()));
    }
    if !is_new(before, item, text) {
        return Err(faults::element_fault(alloc, at, path, before.len()));
    }
    Ok(Name::from_slice(alloc, text.as_bytes())?)
}

fn read_names(alloc: Global, at: u64, path: &str, items: &[Value]) -> Result<List<Name>, JsonFault>
    ensures { Reads (kind.item_demands (kind.name_demands at path.now) [] (items_view items.now))
        (λ xs. kind.AreItems kind.IsNewName [] (items_view items.now) xs) result }
{
    let mut names = List::new(alloc);
    for (j, item) in items.iter().enumerate() {
        names.push(new_name(alloc, at, path, &items[..j], item)?)?;
    }
    Ok(names)
}

/// Different names, of which there must be one at least.
pub(crate) fn must_names(
    alloc: Global,
    at: u64,
    value: Option<&Value>,
) -> Result<List<Name>, JsonFault>
    ensures { let d = option_map (λ v. view v.now) value.entry in
        kind.MustRead kind.names at (codes ".columns") d result }
{
    let Some(items) = filled(value) else {
        return Err(inside(alloc, at, ".columns"));
    };
    read_names(alloc, at, ".columns", items)
}

// ---- pairs of a column's name and an expression

fn read_pair(
    alloc: Global,
    at: u64,
    member: Member,
    path: &str,
    key: &str,
    value: &Value,
) -> Result<(Name, Expr), JsonFault>
    ensures { Reads (kind.pair_demands member at path.now key.now (view value.now))
        (λ x. kind.IsPair key.now (view value.now) x) result }
{
    if !is_part_name(key) {
        return Err(inside(alloc, at, path));
    }
    let Some(text) = value.as_str() else {
        return Err(inside(alloc, at, path));
    };
    let Some(tree) = expression_in(alloc, text.as_bytes())? else {
        return Err(bad(at, member));
    };
    Ok((Name::from_slice(alloc, key.as_bytes())?, tree))
}

/// The pairs that an object's members are, in byte order of their names.
fn read_pairs(
    alloc: Global,
    at: u64,
    member: Member,
    path: &str,
    map: &Map<String, Value>,
) -> Result<List<(Name, Expr)>, JsonFault>
    ensures { Reads (kind.pairs_demands member at path.now (members_view map.now.entries))
        (λ xs. kind.ArePairs (members_view map.now.entries) xs) result }
{
    let mut pairs = List::new(alloc);
    for (key, value) in map.iter() {
        pairs.push(read_pair(alloc, at, member, path, key.as_str(), value)?)?;
    }
    Ok(pairs)
}

fn read_each(
    alloc: Global,
    at: u64,
    member: Member,
    path: &str,
    value: &Value,
) -> Result<List<(Name, Expr)>, JsonFault>
    ensures { Reads (kind.each_demands member at path.now (view value.now))
        (λ xs. kind.AreEach (view value.now) xs) result }
{
    match value.as_object() {
        Some(map) => read_pairs(alloc, at, member, path, map),
        None => Err(inside(alloc, at, path)),
    }
}

/// Pairs, where they are written.
pub(crate) fn may_each(
    alloc: Global,
    at: u64,
    member: Member,
    path: &str,
    value: Option<&Value>,
) -> Result<Option<List<(Name, Expr)>>, JsonFault>
    ensures { let d = option_map (λ v. view v.now) value.entry in
        kind.MayRead (kind.each member) at path.now d result }
{
    let Some(value) = value else {
        return Ok(None);
    };
    let pairs = read_each(alloc, at, member, path, value)?;
    Ok(Some(pairs))
}

fn read_ways(
    alloc: Global,
    at: u64,
    member: Member,
    path: &str,
    value: &Value,
) -> Result<Ways, JsonFault>
    ensures { Reads (demands (kind.ways member) at path.now (view value.now))
        (λ x. kind.IsWays (view value.now) x) result }
{
    let Some(text) = value.as_str() else {
        let pairs = read_each(alloc, at, member, path, value)?;
        return Ok(Ways::Each(pairs));
    };
    match expression_in(alloc, text.as_bytes())? {
        Some(tree) => Ok(Ways::One(tree)),
        None => Err(bad(at, member)),
    }
}

/// An expression or pairs, where they are written.
pub(crate) fn may_ways(
    alloc: Global,
    at: u64,
    member: Member,
    path: &str,
    value: Option<&Value>,
) -> Result<Option<Ways>, JsonFault>
    ensures { let d = option_map (λ v. view v.now) value.entry in
        kind.MayRead (kind.ways member) at path.now d result }
{
    let Some(value) = value else {
        return Ok(None);
    };
    let ways = read_ways(alloc, at, member, path, value)?;
    Ok(Some(ways))
}
