//! Which rows a statement can look at, by the form of its WHERE.
ghost use Rattle.std.specs.Prelude.{◌≡◌};
ghost use Rattle.row_rules.specs.Reach as spec;

use sql_base::{BinOp, Expr, Name, Shape, Value};
use sql_eval::evaluation::column_at;

/// What an expression is as a part of a WHERE.
#[derive(Clone, Copy)]
pub enum Part {
    /// The key's column.
    KeyColumn,
    /// An integer literal.
    Literal(i64),
    /// A condition that names this key.
    NamesKey(i64),
    /// Anything else.
    Other,
}

fn literal_part(value: &Value) -> Part
    ensures { result ≡ spec.literal_part value.now }
{
    match value {
        Value::Int(n) => Part::Literal(*n),
        _ => Part::Other,
    }
}

fn is_key_column(shape: &Shape, name: &Name) -> bool
    ensures { result ≡ spec.is_key_column shape.now name.now }
{
    match column_at(shape, name) {
        Some(at) => at == shape.key as usize,
        None => false,
    }
}

fn column_part(shape: &Shape, name: &Name) -> Part
    ensures { result ≡ spec.column_part shape.now name.now }
{
    if is_key_column(shape, name) {
        Part::KeyColumn
    } else {
        Part::Other
    }
}

// `left = right`
fn equal_parts(left: Part, right: Part) -> Part
    ensures { result ≡ spec.equal_parts left right }
{
    match (left, right) {
        (Part::KeyColumn, Part::Literal(n)) | (Part::Literal(n), Part::KeyColumn) => {
            Part::NamesKey(n)
        }
        _ => Part::Other,
    }
}

// An AND, by its left operand.
fn narrowed(left: Part) -> Part
    ensures { result ≡ spec.narrowed left }
{
    match left {
        Part::NamesKey(n) => Part::NamesKey(n),
        _ => Part::Other,
    }
}

#[cycle(part)]
#[tactic(auto, unfolding(crate::specs::Reach::part_of))]
fn part_of(e: &Expr, shape: &Shape) -> Part
    ensures { result ≡ spec.part_of shape.now e.now }
{
    match e {
        Expr::Lit(value) => literal_part(value),
        Expr::Col(name) => column_part(shape, name),
        Expr::Bin(BinOp::Eq, left, right) => {
            equal_parts(part_of(left.get(), shape), part_of(right.get(), shape))
        }
        Expr::Bin(BinOp::And, left, _) => narrowed(part_of(left.get(), shape)),
        _ => Part::Other,
    }
}

/// The one key whose row alone a statement with this WHERE can look at: n where it is `key = n` or `n = key`, with an
/// integer literal, or an AND whose left operand names a key so. Else, and without a WHERE, `None`: any row. That
/// nothing more is to be looked at is `laws_of_reach`; the form is our own.
pub fn key_named(condition: &Option<Expr>, shape: &Shape) -> Option<i64>
    ensures { result ≡ spec.reach shape.now condition.now }
{
    match part_of(condition.as_ref()?, shape) {
        Part::NamesKey(key) => Some(key),
        _ => None,
    }
}
