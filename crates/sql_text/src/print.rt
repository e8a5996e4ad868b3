//! The canonical text of expressions.

ghost use Rattle.std.specs.Prelude.{◌≡◌, ◌++◌, [], map, IfOk, OnOk};
ghost use Rattle.std.specs.List.{concat, flat_map};
ghost use Rattle.sql_text.specs.Printing as spec;

use crate::keys::key_of;
use crate::write::{push, write, write_bytes};
use sql_base::{Arm, BinOp, Expr, Func, NoMemory, SqlBytes, Ty, Value};
use std::alloc::Global;

fn operator_text(op: BinOp) -> &'static str
    ensures { result.now ≡ spec.operator_text op }
{
    match op {
        BinOp::Or => "OR",
        BinOp::And => "AND",
        BinOp::Eq => "=",
        BinOp::Ne => "<>",
        BinOp::Lt => "<",
        BinOp::Le => "<=",
        BinOp::Gt => ">",
        BinOp::Ge => ">=",
        BinOp::Concat => "||",
        BinOp::Add => "+",
        BinOp::Sub => "-",
        BinOp::Mul => "*",
        BinOp::Div => "/",
        BinOp::Rem => "%",
    }
}

fn type_name(ty: Ty) -> &'static str
    ensures { result.now ≡ spec.type_name ty }
{
    match ty {
        Ty::Bigint => "bigint",
        Ty::Text => "text",
        Ty::Boolean => "boolean",
    }
}

fn function_name(func: Func) -> &'static str
    ensures { result.now ≡ spec.function_name func }
{
    match func {
        Func::Coalesce => "coalesce",
        Func::Nullif => "nullif",
        Func::Upper => "upper",
        Func::Lower => "lower",
        Func::Trim => "trim",
        Func::Length => "length",
    }
}

fn write_doubled(out: &mut Vec<u8>, text: &[u8]) -> Result<(), NoMemory>
    ensures { OnOk result (out.new.items ≡ out.old.items ++ flat_map spec.doubled text.now) }
{
    for byte in text {
        if *byte == b'\'' {
            push(out, b'\'')?;
        }
        push(out, *byte)?;
    }
    Ok(())
}

fn write_quoted(out: &mut Vec<u8>, text: &[u8]) -> Result<(), NoMemory>
    ensures { OnOk result (out.new.items ≡ out.old.items ++ spec.literal_text (Value.Text text.now)) }
{
    write(out, "'")?;
    write_doubled(out, text)?;
    write(out, "'")
}

fn write_literal(alloc: Global, out: &mut Vec<u8>, v: &Value) -> Result<(), NoMemory>
    ensures { OnOk result (out.new.items ≡ out.old.items ++ spec.literal_text v.now) }
{
    match v {
        Value::Null => write(out, "NULL"),
        Value::Int(n) => write(out, n.to_string(alloc)?.as_str()),
        Value::Text(text) => write_quoted(out, text.as_str().as_bytes()),
        Value::Bool(true) => write(out, "TRUE"),
        Value::Bool(false) => write(out, "FALSE"),
    }
}

fn write_name(out: &mut Vec<u8>, name: &[u8]) -> Result<(), NoMemory>
    ensures { OnOk result (out.new.items ≡ out.old.items ++ spec.name_text name.now) }
{
    if key_of(name).is_some() {
        write(out, "\"")?;
        write_bytes(out, name)?;
        write(out, "\"")
    } else {
        write_bytes(out, name)
    }
}

#[cycle(print)]
#[tactic(auto, unfolding(crate::specs::Printing::spelled, crate::specs::Printing::spelled_arm))]
fn write_expr(alloc: Global, out: &mut Vec<u8>, e: &Expr) -> Result<(), NoMemory>
    ensures { OnOk result (out.new.items ≡ out.old.items ++ spec.spelled e.now) }
{
    match e {
        Expr::Lit(v) => write_literal(alloc, out, v),
        Expr::Col(name) => write_name(out, name.as_slice()),
        Expr::Not(a) => write_around(alloc, out, "(NOT ", a.get(), ")"),
        Expr::Neg(a) => write_around(alloc, out, "(- ", a.get(), ")"),
        Expr::IsNull(a) => write_around(alloc, out, "(", a.get(), " IS NULL)"),
        Expr::Bin(op, a, b) => {
            write_around(alloc, out, "(", a.get(), " ")?;
            write(out, operator_text(*op))?;
            write_around(alloc, out, " ", b.get(), ")")
        }
        Expr::Cast(a, ty) => {
            write_around(alloc, out, "CAST(", a.get(), " AS ")?;
            write(out, type_name(*ty))?;
            write(out, ")")
        }
        Expr::Case(arms, other) => {
            write(out, "CASE ")?;
            write_arms(alloc, out, arms.as_slice())?;
            write_around(alloc, out, "ELSE ", other.get(), " END")
        }
        Expr::Call(func, args) => {
            write(out, function_name(*func))?;
            write(out, "(")?;
            write_all(alloc, out, args.as_slice())?;
            write(out, ")")
        }
    }
}

#[cycle(print)]
#[tactic(auto, unfolding(crate::specs::Printing::spelled, crate::specs::Printing::spelled_arm))]
fn write_around(
    alloc: Global,
    out: &mut Vec<u8>,
    before: &str,
    e: &Expr,
    behind: &str,
) -> Result<(), NoMemory>
    ensures { OnOk result (out.new.items ≡ out.old.items ++ before.now ++ spec.spelled e.now ++ behind.now) }
{
    write(out, before)?;
    write_expr(alloc, out, e)?;
    write(out, behind)
}

#[cycle(print)]
#[tactic(auto, unfolding(crate::specs::Printing::spelled, crate::specs::Printing::spelled_arm))]
fn write_arms(alloc: Global, out: &mut Vec<u8>, arms: &[Arm]) -> Result<(), NoMemory>
    ensures { OnOk result (out.new.items ≡ out.old.items ++ concat (map spec.spelled_arm arms.now)) }
{
    for arm in arms {
        write_around(alloc, out, "WHEN ", &arm.when, " THEN ")?;
        write_around(alloc, out, "", &arm.gives, " ")?;
    }
    Ok(())
}

#[cycle(print)]
#[tactic(auto, unfolding(crate::specs::Printing::spelled, crate::specs::Printing::spelled_arm))]
fn write_all(alloc: Global, out: &mut Vec<u8>, args: &[Expr]) -> Result<(), NoMemory>
    ensures { OnOk result (out.new.items ≡ out.old.items ++ spec.joined [] (map spec.spelled args.now)) }
{
    let mut separator = b"".as_slice();
    for e in args {
        write_bytes(out, separator)?;
        write_expr(alloc, out, e)?;
        separator = b", ".as_slice();
    }
    Ok(())
}

/// The canonical text of the expression. Every operator with its operands stands in parentheses, with one space
/// around it; key words are capitals; a name is plain, and between double quotes where it is a key word; a cast is
/// `CAST(e AS bigint)`, and a CASE has its ELSE. An error is want of memory.
pub fn print_expr(alloc: Global, e: &Expr) -> Result<SqlBytes, NoMemory>
    ensures { IfOk result (λ text. text ≡ spec.spelled e.now) }
{
    let mut out = Vec::new(alloc);
    write_expr(alloc, &mut out, e)?;
    Ok(SqlBytes::from_vec(out))
}
