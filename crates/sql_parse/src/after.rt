//! What a token does after an operand.

ghost use Rattle.std.specs.Prelude.{◌≡◌, ◌∷◌, Some, IfOk};
ghost use Rattle.sql_parse.specs.Grammar as grammar;
ghost use Rattle.sql_parse.specs.Machine as spec;

use crate::machine::{Open, Operand, Part, Stack, State};
use crate::table::{infix_of, left, level};
use crate::trees::{binary, call_of, case_of, negation, negative};
use sql_base::{BinOp, Expr, Func, List, NoMemory, Value};
use sql_text::{Key, Sign, Token};
use std::alloc::Global;

/// A literal or a name.
pub fn leaf(tree: Expr) -> Part
    ensures { result ≡ spec.leaf tree }
{
    Part::Whole(tree, 1)
}

/// One more part is open, and an operand must come. An error is want of memory, here and below; `None` says that the
/// token can't be gone through.
pub fn opened(mut stack: Stack, part: Open) -> Result<Option<State>, NoMemory>
    ensures { IfOk result (λ s. s ≡ Some (State.Want (part ∷ stack))) }
{
    stack.push(part)?;
    Ok(Some(State::Want(stack)))
}

/// An open part, its hole filled.
fn filled(alloc: Global, part: Open, tree: Part) -> Result<Part, NoMemory>
    ensures { IfOk result (λ x. x ≡ spec.filled 64 part tree) }
{
    match part {
        Open::Not => negation(alloc, tree),
        Open::Neg => negative(alloc, tree),
        Open::Left(op, left) => binary(alloc, op, left, tree),
        _ => Ok(tree),
    }
}

/// The parts whose hole is tighter than the limit are filled.
fn settled(
    alloc: Global,
    limit: u8,
    mut stack: Stack,
    mut tree: Part,
    mut level: u8,
) -> Result<Operand, NoMemory>
    ensures { IfOk result (λ x. x ≡ spec.settled 64 limit stack tree level) }
{
    while stack.hole() > limit {
        let Some(part) = stack.pop() else { break };
        level = part.level();
        tree = filled(alloc, part, tree)?;
    }
    Ok(Operand { stack, tree, level })
}

fn with_operator(op: BinOp, x: Operand) -> Result<Option<State>, NoMemory>
    ensures { IfOk result (λ s. s ≡ spec.with_operator op x) }
{
    if left(op) <= x.level {
        opened(x.stack, Open::Left(op, x.tree))
    } else {
        Ok(None)
    }
}

fn with_is(x: Operand) -> Option<State>
    ensures { result ≡ spec.with_is x }
{
    if 4 <= x.level {
        Some(State::Is(x.stack, x.tree))
    } else {
        None
    }
}

fn with_type(x: Operand) -> Option<State>
    ensures { result ≡ spec.with_type x }
{
    if 10 <= x.level {
        Some(State::Typed(x.stack, x.tree))
    } else {
        None
    }
}

/// Whether a function takes so many arguments.
fn takes_these(func: Func, count: usize) -> bool
    ensures { result ≡ spec.takes_these func count }
{
    match func {
        Func::Coalesce => 1 <= count,
        Func::Nullif => count == 2,
        _ => count == 1,
    }
}

/// Whether it may take more than so many.
fn takes_more(func: Func, count: usize) -> bool
    ensures { result ≡ spec.takes_more func count }
{
    match func {
        Func::Coalesce => true,
        Func::Nullif => count == 1,
        _ => false,
    }
}

fn call_closed(
    alloc: Global,
    stack: Stack,
    func: Func,
    mut args: List<Part>,
    last: Part,
) -> Result<Option<State>, NoMemory>
    ensures { IfOk result (λ s. s ≡ spec.by_close 64 (Open.Call func args ∷ stack) last) }
{
    args.push(last)?;
    if takes_these(func, args.len()) {
        Ok(Some(State::Have(stack, call_of(alloc, func, args)?, 11)))
    } else {
        Ok(None)
    }
}

fn by_close(alloc: Global, x: Operand) -> Result<Option<State>, NoMemory>
    ensures { IfOk result (λ s. s ≡ spec.by_close 64 x.stack x.tree) }
{
    let Operand {
        mut stack,
        tree,
        ..
    } = x;
    match stack.pop() {
        Some(Open::Paren) => Ok(Some(State::Have(stack, tree, 11))),
        Some(Open::Call(func, args)) => call_closed(alloc, stack, func, args, tree),
        _ => Ok(None),
    }
}

fn one_argument_more(
    stack: Stack,
    func: Func,
    mut args: List<Part>,
    last: Part,
) -> Result<Option<State>, NoMemory>
    ensures { IfOk result (λ s. s ≡ spec.by_comma (Open.Call func args ∷ stack) last) }
{
    args.push(last)?;
    if takes_more(func, args.len()) {
        opened(stack, Open::Call(func, args))
    } else {
        Ok(None)
    }
}

fn by_comma(x: Operand) -> Result<Option<State>, NoMemory>
    ensures { IfOk result (λ s. s ≡ spec.by_comma x.stack x.tree) }
{
    let Operand {
        mut stack,
        tree,
        ..
    } = x;
    match stack.pop() {
        Some(Open::Call(func, args)) => one_argument_more(stack, func, args, tree),
        _ => Ok(None),
    }
}

fn by_as(x: Operand) -> Option<State>
    ensures { result ≡ spec.by_as x.stack x.tree }
{
    let Operand {
        mut stack,
        tree,
        ..
    } = x;
    match stack.pop() {
        Some(Open::CastOf) => Some(State::CastAs(stack, tree)),
        _ => None,
    }
}

fn by_when(x: Operand) -> Result<Option<State>, NoMemory>
    ensures { IfOk result (λ s. s ≡ spec.by_when x.stack x.tree) }
{
    let Operand {
        mut stack,
        tree,
        ..
    } = x;
    match stack.pop() {
        Some(Open::Then(mut arms, when)) => {
            arms.push((when, tree))?;
            opened(stack, Open::When(arms))
        }
        _ => Ok(None),
    }
}

fn by_then(x: Operand) -> Result<Option<State>, NoMemory>
    ensures { IfOk result (λ s. s ≡ spec.by_then x.stack x.tree) }
{
    let Operand {
        mut stack,
        tree,
        ..
    } = x;
    match stack.pop() {
        Some(Open::When(arms)) => opened(stack, Open::Then(arms, tree)),
        _ => Ok(None),
    }
}

fn by_else(x: Operand) -> Result<Option<State>, NoMemory>
    ensures { IfOk result (λ s. s ≡ spec.by_else x.stack x.tree) }
{
    let Operand {
        mut stack,
        tree,
        ..
    } = x;
    match stack.pop() {
        Some(Open::Then(mut arms, when)) => {
            arms.push((when, tree))?;
            opened(stack, Open::Else(arms))
        }
        _ => Ok(None),
    }
}

fn case_closed(
    alloc: Global,
    stack: Stack,
    arms: List<(Part, Part)>,
    other: Part,
) -> Result<Option<State>, NoMemory>
    ensures { IfOk result (λ s. s ≡ Some (State.Have stack (spec.case_of 64 arms other) 11)) }
{
    Ok(Some(State::Have(stack, case_of(alloc, arms, other)?, 11)))
}

fn by_end(alloc: Global, x: Operand) -> Result<Option<State>, NoMemory>
    ensures { IfOk result (λ s. s ≡ spec.by_end 64 x.stack x.tree) }
{
    let Operand {
        mut stack,
        tree,
        ..
    } = x;
    match stack.pop() {
        Some(Open::Then(mut arms, when)) => {
            arms.push((when, tree))?;
            case_closed(alloc, stack, arms, leaf(Expr::Lit(Value::Null)))
        }
        Some(Open::Else(arms)) => case_closed(alloc, stack, arms, tree),
        _ => Ok(None),
    }
}

fn by_last(x: Operand) -> Option<State>
    ensures { result ≡ spec.by_last x.stack x.tree }
{
    let Operand {
        mut stack,
        tree,
        ..
    } = x;
    match stack.pop() {
        None => Some(State::Done(tree)),
        Some(_) => None,
    }
}

// A key word behind the whole operand of the innermost open part.
fn after_key(
    alloc: Global,
    stack: Stack,
    tree: Part,
    level: u8,
    key: Key,
) -> Result<Option<State>, NoMemory>
    ensures { IfOk result (λ s. s ≡ spec.after 64 stack tree level (Token.Key key)) }
{
    match key {
        Key::Is => Ok(with_is(settled(alloc, 4, stack, tree, level)?)),
        Key::As => Ok(by_as(settled(alloc, 0, stack, tree, level)?)),
        Key::When => by_when(settled(alloc, 0, stack, tree, level)?),
        Key::Then => by_then(settled(alloc, 0, stack, tree, level)?),
        Key::Else => by_else(settled(alloc, 0, stack, tree, level)?),
        Key::End => by_end(alloc, settled(alloc, 0, stack, tree, level)?),
        _ => Ok(None),
    }
}

fn after_sign(
    alloc: Global,
    stack: Stack,
    tree: Part,
    level: u8,
    sign: Sign,
) -> Result<Option<State>, NoMemory>
    ensures { IfOk result (λ s. s ≡ spec.after 64 stack tree level (Token.Sign sign)) }
{
    match sign {
        Sign::Cast => Ok(with_type(settled(alloc, 10, stack, tree, level)?)),
        Sign::Close => by_close(alloc, settled(alloc, 0, stack, tree, level)?),
        Sign::Comma => by_comma(settled(alloc, 0, stack, tree, level)?),
        _ => Ok(None),
    }
}

// A token that is no operator.
fn after(
    alloc: Global,
    stack: Stack,
    tree: Part,
    level: u8,
    token: &Token,
) -> Result<Option<State>, NoMemory>
    ensures { IfOk result (λ s. s ≡ spec.after 64 stack tree level token.now) }
{
    match token {
        Token::Key(key) => after_key(alloc, stack, tree, level, *key),
        Token::Sign(sign) => after_sign(alloc, stack, tree, level, *sign),
        Token::End => Ok(by_last(settled(alloc, 0, stack, tree, level)?)),
        _ => Ok(None),
    }
}

/// A token after an operand.
pub fn had(
    alloc: Global,
    stack: Stack,
    tree: Part,
    level_there: u8,
    token: &Token,
) -> Result<Option<State>, NoMemory>
    ensures { IfOk result (λ s. s ≡ spec.had 64 stack tree level_there token.now (grammar.infix_of token.now)) }
{
    match infix_of(token) {
        Some(op) => with_operator(op, settled(alloc, level(op), stack, tree, level_there)?),
        None => after(alloc, stack, tree, level_there, token),
    }
}
