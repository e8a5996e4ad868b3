//! Trees from the lines of the tables.
use sql_base::{Arm, BinOp, Expr, Func, Name, NoMemory, SqlText, Ty, Value};
use sqlite_items::{Boxed, Items};
use std::alloc::Global;
use std::test::Fail;

/// A text, with a space for each `_`.
pub fn text(alloc: Global, word: &str) -> Result<Option<Value>, NoMemory> {
    let mut bytes = Vec::new(alloc);
    for byte in word.as_bytes() {
        bytes.push(if *byte == b'_' { b' ' } else { *byte })?;
    }
    Ok(SqlText::read(alloc, bytes.as_slice())?.map(Value::Text))
}

fn long_text(alloc: Global, length: usize) -> Result<Option<Value>, NoMemory> {
    let mut bytes = Vec::new(alloc);
    for _ in 0..length {
        bytes.push(b'x')?;
    }
    Ok(SqlText::read(alloc, bytes.as_slice())?.map(Value::Text))
}

/// The value that a word spells, if it is a literal.
pub fn literal(alloc: Global, word: &str) -> Result<Option<Value>, NoMemory> {
    if let Some(quoted) = word.strip_prefix('\'') {
        return text(alloc, quoted.strip_suffix('\'').unwrap_or(quoted));
    }
    if let Some(length) = word.strip_prefix("x:") {
        return long_text(alloc, length.parse::<usize>().unwrap_or(0));
    }
    match word {
        "NULL" => Ok(Some(Value::Null)),
        "TRUE" => Ok(Some(Value::Bool(true))),
        "FALSE" => Ok(Some(Value::Bool(false))),
        _ => Ok(word.parse::<i64>().ok().map(Value::Int)),
    }
}

fn operator(word: &str) -> Option<BinOp> {
    match word {
        "OR" => Some(BinOp::Or),
        "AND" => Some(BinOp::And),
        "=" => Some(BinOp::Eq),
        "<>" => Some(BinOp::Ne),
        "<" => Some(BinOp::Lt),
        "<=" => Some(BinOp::Le),
        ">" => Some(BinOp::Gt),
        ">=" => Some(BinOp::Ge),
        "||" => Some(BinOp::Concat),
        "+" => Some(BinOp::Add),
        "-" => Some(BinOp::Sub),
        "*" => Some(BinOp::Mul),
        "/" => Some(BinOp::Div),
        "%" => Some(BinOp::Rem),
        _ => None,
    }
}

/// A function, and how many arguments it takes.
fn function(word: &str) -> Option<(Func, usize)> {
    match word {
        "coalesce/2" => Some((Func::Coalesce, 2)),
        "coalesce/3" => Some((Func::Coalesce, 3)),
        "nullif" => Some((Func::Nullif, 2)),
        "upper" => Some((Func::Upper, 1)),
        "lower" => Some((Func::Lower, 1)),
        "trim" => Some((Func::Trim, 1)),
        "length" => Some((Func::Length, 1)),
        _ => None,
    }
}

fn pop(stack: &mut Vec<Expr>) -> Result<Expr, &'static str> {
    stack.pop().ok_or("an operand is missing")
}

fn part(alloc: Global, stack: &mut Vec<Expr>) -> Result<Boxed<Expr>, Fail> {
    Ok(Boxed::new(alloc, pop(stack)?)?)
}

fn arguments(alloc: Global, stack: &mut Vec<Expr>, count: usize) -> Result<Items<Expr>, Fail> {
    let mut args = Vec::new(alloc);
    for _ in 0..count {
        args.push(pop(stack)?)?;
    }
    args.reverse();
    Ok(Items::from_vec(args))
}

fn case(alloc: Global, stack: &mut Vec<Expr>, count: usize) -> Result<Expr, Fail> {
    let other = part(alloc, stack)?;
    let mut arms = Vec::new(alloc);
    for _ in 0..count {
        let gives = pop(stack)?;
        let when = pop(stack)?;
        arms.push(Arm { when, gives })?;
    }
    arms.reverse();
    Ok(Expr::Case(Items::from_vec(arms), other))
}

/// What a word that is no literal makes of the trees before it.
fn made(alloc: Global, stack: &mut Vec<Expr>, word: &str) -> Result<Expr, Fail> {
    if let Some(op) = operator(word) {
        let right = part(alloc, stack)?;
        return Ok(Expr::Bin(op, part(alloc, stack)?, right));
    }
    if let Some((func, count)) = function(word) {
        return Ok(Expr::Call(func, arguments(alloc, stack, count)?));
    }
    match word {
        "NOT" => Ok(Expr::Not(part(alloc, stack)?)),
        "neg" => Ok(Expr::Neg(part(alloc, stack)?)),
        "isnull" => Ok(Expr::IsNull(part(alloc, stack)?)),
        "::bigint" => Ok(Expr::Cast(part(alloc, stack)?, Ty::Bigint)),
        "::text" => Ok(Expr::Cast(part(alloc, stack)?, Ty::Text)),
        "::boolean" => Ok(Expr::Cast(part(alloc, stack)?, Ty::Boolean)),
        "case/1" => case(alloc, stack, 1),
        "case/2" => case(alloc, stack, 2),
        name => Ok(Expr::Col(Name::from_slice(alloc, name.as_bytes())?)),
    }
}

/// The one tree that a line spells.
pub fn tree(alloc: Global, line: &str) -> Result<Expr, Fail> {
    let mut stack = Vec::new(alloc);
    for word in line.split(' ') {
        let e = match literal(alloc, word)? {
            Some(value) => Expr::Lit(value),
            None => made(alloc, &mut stack, word)?,
        };
        stack.push(e)?;
    }
    let e = pop(&mut stack)?;
    if stack.is_empty() {
        Ok(e)
    } else {
        Err("an operator is missing")?
    }
}
