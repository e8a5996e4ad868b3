//! Members that hold one value.

ghost use Rattle.std.specs.Prelude.{◌≡◌, [], ◌∷◌, not, is_some, true, false, Some, None, option_map, IfOk, MatchOption};
ghost use Rattle.serde_json.specs.View.{view};
ghost use Rattle.sql_base.specs.declared.exprs.Expr.{Expr};
ghost use Rattle.sql_base.specs.declared.exprs.Expr.TheVariants.{Lit};
ghost use Rattle.sql_base.specs.declared.values.Value as sql;
ghost use Rattle.mig_json.specs.Demand.{Reads, IsExpression, inside, test};
ghost use Rattle.mig_json.specs.Kind.{needed, demands, member_path, Has, Is};
ghost use Rattle.mig_json.specs.Kind as kind;

use crate::faults::{JsonFault, bad, member_fault};
use crate::names::is_part_name;
use mig_lens::{Member, Place};
use serde_json::Value;
use sql_base::{Expr, Name, NoMemory, Ty};
use sql_parse::{ParseFault, one_tree, parse_expr};
use std::alloc::Global;

/// The bytes that the text of an expression may have.
const MAX_EXPRESSION: usize = 65536;

/// The type of this name.
fn type_of(text: &str) -> Option<Ty>
    ensures { result ≡ kind.type_of text.now }
{
    match text {
        "bigint" | "int8" => Some(Ty::Bigint),
        "text" => Some(Ty::Text),
        "boolean" | "bool" => Some(Ty::Boolean),
        _ => None,
    }
}

/// The expression that a text reads as, or `None` where it reads as none. An error is want of memory.
pub(crate) fn expression_in(alloc: Global, text: &[u8]) -> Result<Option<Expr>, NoMemory>
    ensures { IfOk result (λ o. MatchOption o
        ((a : Expr) → IsExpression text.now a → ⊥)
        (λ a. IsExpression text.now a)) }
{
    if text.len() > MAX_EXPRESSION {
        return Ok(None);
    }
    match parse_expr(alloc, text) {
        Ok(tree) => Ok(Some(tree)),
        Err(ParseFault::NoMemory) => Err(NoMemory),
        Err(_) => Ok(None),
    }
}

/// The value that a tree is, where it is a literal.
fn literal_of(tree: Expr) -> Option<sql_base::Value>
    ensures { MatchOption result ((v : sql.Value) → tree ≡ Lit v → ⊥) (λ v. tree ≡ Lit v) }
{
    match tree {
        Expr::Lit(literal) => Some(literal),
        _ => None,
    }
}

/// The value that a text reads as, or `None` where it reads as no literal. An error is want of memory.
fn literal_in(alloc: Global, text: &[u8]) -> Result<Option<sql_base::Value>, NoMemory>
    ensures { IfOk result (λ o. MatchOption o
        ((v : sql.Value) → IsExpression text.now (Lit v) → ⊥)
        (λ v. IsExpression text.now (Lit v))) }
{
    one_tree();
    match expression_in(alloc, text)? {
        Some(tree) => Ok(literal_of(tree)),
        None => Ok(None),
    }
}

/// The name of a table, a column or a constraint, which must be there.
pub(crate) fn read_name(
    alloc: Global,
    at: u64,
    path: &str,
    key: &str,
    value: Option<&Value>,
) -> Result<Name, JsonFault>
    ensures { let d = option_map (λ v. view v.now) value.entry in
        kind.MustRead kind.name at (member_path path.now key.now) d result }
{
    let Some(text) = value.and_then(Value::as_str) else {
        return Err(member_fault(alloc, at, path, key));
    };
    if !is_part_name(text) {
        return Err(member_fault(alloc, at, path, key));
    }
    Ok(Name::from_slice(alloc, text.as_bytes())?)
}

/// A type, which must be there.
pub(crate) fn read_type(
    alloc: Global,
    at: u64,
    path: &str,
    key: &str,
    value: Option<&Value>,
) -> Result<Ty, JsonFault>
    ensures { let d = option_map (λ v. view v.now) value.entry in
        kind.MustRead kind.«type» at (member_path path.now key.now) d result }
{
    let Some(text) = value.and_then(Value::as_str) else {
        return Err(member_fault(alloc, at, path, key));
    };
    match type_of(text) {
        Some(ty) => Ok(ty),
        None => Err(JsonFault::BadType(Place {
            operation: at,
            member: Member::TypeName,
        })),
    }
}

/// A type, where one is written.
pub(crate) fn may_type(
    alloc: Global,
    at: u64,
    path: &str,
    key: &str,
    value: Option<&Value>,
) -> Result<Option<Ty>, JsonFault>
    ensures { let d = option_map (λ v. view v.now) value.entry in
        kind.MayRead kind.«type» at (member_path path.now key.now) d result }
{
    let Some(value) = value else {
        return Ok(None);
    };
    let Some(text) = value.as_str() else {
        return Err(member_fault(alloc, at, path, key));
    };
    match type_of(text) {
        Some(ty) => Ok(Some(ty)),
        None => Err(JsonFault::BadType(Place {
            operation: at,
            member: Member::TypeName,
        })),
    }
}

/// `true` or `false`, where it is written.
pub(crate) fn may_flag(
    alloc: Global,
    at: u64,
    path: &str,
    key: &str,
    value: Option<&Value>,
) -> Result<Option<bool>, JsonFault>
    ensures { let d = option_map (λ v. view v.now) value.entry in
        kind.MayRead kind.flag at (member_path path.now key.now) d result }
{
    let Some(value) = value else {
        return Ok(None);
    };
    match value.as_bool() {
        Some(flag) => Ok(Some(flag)),
        None => Err(member_fault(alloc, at, path, key)),
    }
}

/// This word, which must be there.
pub(crate) fn read_word(
    alloc: Global,
    at: u64,
    path: &str,
    key: &str,
    word: &str,
    value: Option<&Value>,
) -> Result<(), JsonFault>
    ensures { let d = option_map (λ v. view v.now) value.entry in
        let p = member_path path.now key.now in
        Reads (needed (demands (kind.word word.now) at p) (inside at p) d) (λ x. Has (Is (kind.word word.now)) d tt) result }
{
    let Some(text) = value.and_then(Value::as_str) else {
        return Err(member_fault(alloc, at, path, key));
    };
    if text == word {
        Ok(())
    } else {
        Err(member_fault(alloc, at, path, key))
    }
}

/// Nothing: the member may not be there.
pub(crate) fn read_none(
    alloc: Global,
    at: u64,
    path: &str,
    key: &str,
    value: Option<&Value>,
) -> Result<(), JsonFault>
    ensures { let d = option_map (λ v. view v.now) value.entry in
        Reads (test (not (is_some d)) (inside at (member_path path.now key.now)) ∷ []) (λ x. d ≡ None) result }
{
    match value {
        Some(_) => Err(member_fault(alloc, at, path, key)),
        None => Ok(()),
    }
}

/// An expression, which must be there.
pub(crate) fn read_expression(
    alloc: Global,
    at: u64,
    member: Member,
    path: &str,
    key: &str,
    value: Option<&Value>,
) -> Result<Expr, JsonFault>
    ensures { let d = option_map (λ v. view v.now) value.entry in
        kind.MustRead (kind.expression member) at (member_path path.now key.now) d result }
{
    let Some(text) = value.and_then(Value::as_str) else {
        return Err(member_fault(alloc, at, path, key));
    };
    match expression_in(alloc, text.as_bytes())? {
        Some(tree) => Ok(tree),
        None => Err(bad(at, member)),
    }
}

/// An expression, where one is written.
pub(crate) fn may_expression(
    alloc: Global,
    at: u64,
    member: Member,
    path: &str,
    key: &str,
    value: Option<&Value>,
) -> Result<Option<Expr>, JsonFault>
    ensures { let d = option_map (λ v. view v.now) value.entry in
        kind.MayRead (kind.expression member) at (member_path path.now key.now) d result }
{
    let Some(value) = value else {
        return Ok(None);
    };
    let Some(text) = value.as_str() else {
        return Err(member_fault(alloc, at, path, key));
    };
    match expression_in(alloc, text.as_bytes())? {
        Some(tree) => Ok(Some(tree)),
        None => Err(bad(at, member)),
    }
}

/// An expression that is a literal, where one is written.
pub(crate) fn may_literal(
    alloc: Global,
    at: u64,
    member: Member,
    path: &str,
    key: &str,
    value: Option<&Value>,
) -> Result<Option<sql_base::Value>, JsonFault>
    ensures { let d = option_map (λ v. view v.now) value.entry in
        kind.MayRead (kind.literal member) at (member_path path.now key.now) d result }
{
    let Some(value) = value else {
        return Ok(None);
    };
    let Some(text) = value.as_str() else {
        return Err(member_fault(alloc, at, path, key));
    };
    match literal_in(alloc, text.as_bytes())? {
        Some(literal) => Ok(Some(literal)),
        None => Err(bad(at, member)),
    }
}
