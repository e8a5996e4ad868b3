//! Members that are put to an object of JSON.

ghost use Rattle.std.specs.Prelude.{◌≡◌, [], codes, fold, map, option_map, IfOk, OnOk};
ghost use Rattle.serde_json.specs.Data.{no_members, put};
ghost use Rattle.serde_json.specs.Data as json;
ghost use Rattle.serde_json.specs.View.{view, members_view};
ghost use Rattle.sql_base.specs.declared.exprs.Expr.TheVariants.{Lit};
ghost use Rattle.sql_text.specs.Printing as print;
ghost use Rattle.mig_json.specs.Table as table;
ghost use Rattle.mig_json.specs.Writing as spec;
ghost use Rattle.mig_json.specs.Writing.{members_with, put_if};

use mig_lens::{ColumnDef, Ways};
use serde_json::{Map, Value};
use sql_base::{Check, Copying, Expr, Name, NoMemory, Ty};
use sql_text::print_expr;
use std::alloc::Global;

// ---- one value

/// A member more.
pub(crate) fn put(
    alloc: Global,
    members: &mut Map<String, Value>,
    key: &str,
    value: Value,
) -> Result<(), NoMemory>
    ensures { OnOk result (members_view members.new.entries ≡ put key.now (view value) (members_view members.old.entries)) }
{
    let key = String::from_str(alloc, key)?;
    members.insert(key, value)?;
    Ok(())
}

fn text_value(alloc: Global, text: &[u8]) -> Result<Value, NoMemory>
    ensures { IfOk result (λ v. view v ≡ spec.text_data text.now) }
{
    Ok(Value::from(String::from_utf8_lossy(alloc, text)?))
}

fn expression_value(alloc: Global, tree: &Expr) -> Result<Value, NoMemory>
    ensures { IfOk result (λ v. view v ≡ spec.expression_data tree.now) }
{
    let text = print_expr(alloc, tree)?;
    text_value(alloc, text.as_slice())
}

fn literal_value(alloc: Global, literal: &sql_base::Value) -> Result<Value, NoMemory>
    ensures { IfOk result (λ v. view v ≡ spec.expression_data (Lit literal.now)) }
{
    let literal = literal.copy(alloc)?;
    expression_value(alloc, &Expr::Lit(literal))
}

/// A name.
pub(crate) fn put_name(
    alloc: Global,
    members: &mut Map<String, Value>,
    key: &str,
    name: &Name,
) -> Result<(), NoMemory>
    ensures { OnOk result (members_view members.new.entries ≡ put key.now (spec.text_data name.now) (members_view members.old.entries)) }
{
    let value = text_value(alloc, name.as_slice())?;
    put(alloc, members, key, value)
}

/// A word.
pub(crate) fn put_word(
    alloc: Global,
    members: &mut Map<String, Value>,
    key: &str,
    word: &str,
) -> Result<(), NoMemory>
    ensures { OnOk result (members_view members.new.entries ≡ put key.now (json.string word.now) (members_view members.old.entries)) }
{
    let value = Value::from(String::from_str(alloc, word)?);
    put(alloc, members, key, value)
}

fn type_name(ty: Ty) -> &'static str
    ensures { result.now ≡ print.type_name ty }
{
    match ty {
        Ty::Bigint => "bigint",
        Ty::Text => "text",
        Ty::Boolean => "boolean",
    }
}

/// A type, by its first name.
fn put_type(
    alloc: Global,
    members: &mut Map<String, Value>,
    key: &str,
    ty: Ty,
) -> Result<(), NoMemory>
    ensures { OnOk result (members_view members.new.entries ≡ put key.now (json.string (print.type_name ty)) (members_view members.old.entries)) }
{
    put_word(alloc, members, key, type_name(ty))
}

/// A type, where there is one.
pub(crate) fn may_put_type(
    alloc: Global,
    members: &mut Map<String, Value>,
    key: &str,
    ty: Option<Ty>,
) -> Result<(), NoMemory>
    ensures { OnOk result (members_view members.new.entries ≡ put_if key.now (option_map (λ ty. json.string (print.type_name ty)) ty) (members_view members.old.entries)) }
{
    match ty {
        Some(ty) => put_type(alloc, members, key, ty),
        None => Ok(()),
    }
}

/// `true` or `false`, where it is there.
pub(crate) fn may_put_flag(
    alloc: Global,
    members: &mut Map<String, Value>,
    key: &str,
    flag: Option<bool>,
) -> Result<(), NoMemory>
    ensures { OnOk result (members_view members.new.entries ≡ put_if key.now (option_map (λ b. json.boolean b) flag) (members_view members.old.entries)) }
{
    match flag {
        Some(flag) => put(alloc, members, key, Value::from(flag)),
        None => Ok(()),
    }
}

/// An expression.
pub(crate) fn put_expression(
    alloc: Global,
    members: &mut Map<String, Value>,
    key: &str,
    tree: &Expr,
) -> Result<(), NoMemory>
    ensures { OnOk result (members_view members.new.entries ≡ put key.now (spec.expression_data tree.now) (members_view members.old.entries)) }
{
    let value = expression_value(alloc, tree)?;
    put(alloc, members, key, value)
}

/// An expression, where there is one.
pub(crate) fn may_put_expression(
    alloc: Global,
    members: &mut Map<String, Value>,
    key: &str,
    tree: &Option<Expr>,
) -> Result<(), NoMemory>
    ensures { OnOk result (members_view members.new.entries ≡ put_if key.now (option_map (λ a. spec.expression_data a) tree.now) (members_view members.old.entries)) }
{
    match tree {
        Some(tree) => put_expression(alloc, members, key, tree),
        None => Ok(()),
    }
}

/// A literal, where there is one.
pub(crate) fn may_put_literal(
    alloc: Global,
    members: &mut Map<String, Value>,
    key: &str,
    literal: Option<&sql_base::Value>,
) -> Result<(), NoMemory>
    ensures { OnOk result (members_view members.new.entries ≡ put_if key.now
        (option_map (λ v. spec.expression_data (Lit v)) (option_map (λ v. v.now) literal.entry)) (members_view members.old.entries)) }
{
    let Some(literal) = literal else {
        return Ok(());
    };
    let value = literal_value(alloc, literal)?;
    put(alloc, members, key, value)
}

// ---- arrays and pairs

fn name_values(alloc: Global, names: &[Name]) -> Result<Vec<Value>, NoMemory>
    ensures { IfOk result (λ vs. map view vs.items ≡ map spec.text_data names.now) }
{
    let mut values = Vec::new(alloc);
    for name in names {
        values.push(text_value(alloc, name.as_slice())?)?;
    }
    Ok(values)
}

/// An array of names.
pub(crate) fn put_names(
    alloc: Global,
    members: &mut Map<String, Value>,
    key: &str,
    names: &[Name],
) -> Result<(), NoMemory>
    ensures { OnOk result (members_view members.new.entries ≡ put key.now (spec.array_of spec.text_data names.now) (members_view members.old.entries)) }
{
    let values = name_values(alloc, names)?;
    put(alloc, members, key, Value::from(values))
}

/// The pair as a member more.
fn put_pair(
    alloc: Global,
    members: &mut Map<String, Value>,
    name: &Name,
    tree: &Expr,
) -> Result<(), NoMemory>
    ensures { OnOk result (members_view members.new.entries ≡ spec.with_pair (members_view members.old.entries) (name.now, tree.now)) }
{
    let key = String::from_utf8_lossy(alloc, name.as_slice())?;
    put_expression(alloc, members, key.as_str(), tree)
}

fn pair_members(alloc: Global, pairs: &[(Name, Expr)]) -> Result<Map<String, Value>, NoMemory>
    ensures { IfOk result (λ it. members_view it.entries ≡ fold spec.with_pair no_members pairs.now) }
{
    let mut members = Map::new(alloc);
    for (name, tree) in pairs {
        put_pair(alloc, &mut members, name, tree)?;
    }
    Ok(members)
}

fn put_pairs(
    alloc: Global,
    members: &mut Map<String, Value>,
    key: &str,
    pairs: &[(Name, Expr)],
) -> Result<(), NoMemory>
    ensures { OnOk result (members_view members.new.entries ≡ put key.now (spec.pairs_data pairs.now) (members_view members.old.entries)) }
{
    let inner = pair_members(alloc, pairs)?;
    put(alloc, members, key, Value::from(inner))
}

/// The pairs, where there are any.
pub(crate) fn may_put_pairs(
    alloc: Global,
    members: &mut Map<String, Value>,
    key: &str,
    pairs: &[(Name, Expr)],
) -> Result<(), NoMemory>
    ensures { OnOk result (members_view members.new.entries ≡ put_if key.now (option_map (λ xs. spec.pairs_data xs) (spec.unless_empty pairs.now)) (members_view members.old.entries)) }
{
    if pairs.is_empty() {
        Ok(())
    } else {
        put_pairs(alloc, members, key, pairs)
    }
}

/// An expression or pairs, where they are there.
pub(crate) fn may_put_ways(
    alloc: Global,
    members: &mut Map<String, Value>,
    key: &str,
    ways: &Option<Ways>,
) -> Result<(), NoMemory>
    ensures { OnOk result (members_view members.new.entries ≡ put_if key.now (option_map (λ w. spec.ways_data w) ways.now) (members_view members.old.entries)) }
{
    match ways {
        Some(Ways::One(tree)) => put_expression(alloc, members, key, tree),
        Some(Ways::Each(pairs)) => put_pairs(alloc, members, key, pairs.as_slice()),
        None => Ok(()),
    }
}

// ---- objects

fn check_members(alloc: Global, check: &Check) -> Result<Map<String, Value>, NoMemory>
    ensures { IfOk result (λ it. members_view it.entries ≡ members_with table.check (spec.check_values check.now) no_members) }
{
    let mut members = Map::new(alloc);
    put_name(alloc, &mut members, "name", &check.name)?;
    put_expression(alloc, &mut members, "constraint", &check.expr)?;
    Ok(members)
}

/// A check, where there is one.
pub(crate) fn may_put_check(
    alloc: Global,
    members: &mut Map<String, Value>,
    key: &str,
    check: &Option<Check>,
) -> Result<(), NoMemory>
    ensures { OnOk result (members_view members.new.entries ≡ put_if key.now
        (option_map (λ xs. json.object (members_with table.check xs no_members)) (option_map spec.check_values check.now))
        (members_view members.old.entries)) }
{
    let Some(check) = check else {
        return Ok(());
    };
    let inner = check_members(alloc, check)?;
    put(alloc, members, key, Value::from(inner))
}

fn named_members(alloc: Global, name: &Name) -> Result<Map<String, Value>, NoMemory>
    ensures { IfOk result (λ it. members_view it.entries ≡ members_with table.named (name.now, tt) no_members) }
{
    let mut members = Map::new(alloc);
    put_name(alloc, &mut members, "name", name)?;
    Ok(members)
}

/// A name alone in an object, where there is one.
pub(crate) fn may_put_named(
    alloc: Global,
    members: &mut Map<String, Value>,
    key: &str,
    name: &Option<Name>,
) -> Result<(), NoMemory>
    ensures { OnOk result (members_view members.new.entries ≡ put_if key.now
        (option_map (λ xs. json.object (members_with table.named xs no_members)) (option_map (λ it. (it, tt)) name.now))
        (members_view members.old.entries)) }
{
    let Some(name) = name else {
        return Ok(());
    };
    let inner = named_members(alloc, name)?;
    put(alloc, members, key, Value::from(inner))
}

// ---- columns

fn unless_false(flag: bool) -> Option<bool>
    ensures { result ≡ spec.unless_false flag }
{
    if flag { Some(true) } else { None }
}

/// The literal where it isn't NULL.
fn unless_null(literal: &sql_base::Value) -> Option<&sql_base::Value>
    ensures { option_map (λ v. v.now) result ≡ spec.unless_null literal.now }
{
    match literal {
        sql_base::Value::Null => None,
        _ => Some(literal),
    }
}

fn put_flags(
    alloc: Global,
    members: &mut Map<String, Value>,
    column: &ColumnDef,
) -> Result<(), NoMemory>
    ensures { OnOk result (members_view members.new.entries ≡
        spec.put_flag (codes "unique") column.now.unique
        (spec.put_flag (codes "pk") column.now.pk
        (spec.put_flag (codes "nullable") column.now.nullable (members_view members.old.entries)))) }
{
    may_put_flag(alloc, members, "nullable", unless_false(column.nullable))?;
    may_put_flag(alloc, members, "pk", unless_false(column.pk))?;
    may_put_flag(alloc, members, "unique", unless_false(column.unique))
}

/// The members of a column.
fn column_members(alloc: Global, column: &ColumnDef) -> Result<Map<String, Value>, NoMemory>
    ensures { IfOk result (λ it. members_view it.entries ≡ members_with table.column (spec.column_values column.now) no_members) }
{
    let mut members = Map::new(alloc);
    put_name(alloc, &mut members, "name", &column.name)?;
    put_type(alloc, &mut members, "type", column.ty)?;
    put_flags(alloc, &mut members, column)?;
    may_put_literal(alloc, &mut members, "default", unless_null(&column.default))?;
    may_put_check(alloc, &mut members, "check", &column.check)?;
    Ok(members)
}

/// A column.
pub(crate) fn put_column(
    alloc: Global,
    members: &mut Map<String, Value>,
    key: &str,
    column: &ColumnDef,
) -> Result<(), NoMemory>
    ensures { OnOk result (members_view members.new.entries ≡ put key.now
        (json.object (members_with table.column (spec.column_values column.now) no_members))
        (members_view members.old.entries)) }
{
    let inner = column_members(alloc, column)?;
    put(alloc, members, key, Value::from(inner))
}

fn column_values(alloc: Global, columns: &[ColumnDef]) -> Result<Vec<Value>, NoMemory>
    ensures { IfOk result (λ vs. map view vs.items ≡
        map (λ xs. json.object (members_with table.column xs no_members)) (map spec.column_values columns.now)) }
{
    let mut values = Vec::new(alloc);
    for column in columns {
        let members = column_members(alloc, column)?;
        values.push(Value::from(members))?;
    }
    Ok(values)
}

/// An array of columns.
pub(crate) fn put_columns(
    alloc: Global,
    members: &mut Map<String, Value>,
    key: &str,
    columns: &[ColumnDef],
) -> Result<(), NoMemory>
    ensures { OnOk result (members_view members.new.entries ≡ put key.now
        (spec.array_of (λ xs. json.object (members_with table.column xs no_members)) (map spec.column_values columns.now))
        (members_view members.old.entries)) }
{
    let values = column_values(alloc, columns)?;
    put(alloc, members, key, Value::from(values))
}
