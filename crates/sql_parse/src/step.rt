//! What a token does.

ghost use Rattle.std.specs.Prelude.{◌≡◌, ◌≤◌, ◌^◌, pos, neg_ℤ, Some, IfOk};
ghost use Rattle.sql_parse.specs.Machine as spec;

use crate::after::{had, leaf, opened};
use crate::machine::{Open, Part, Stack, State};
use crate::table::{function_named, type_named};
use crate::trees::{cast, negation, null_test};
use sql_base::{Copying, Expr, Func, List, Name, NoMemory, Ty, Value};
use sql_text::{Key, Sign, Token};
use std::alloc::Global;

/// The greatest bigint is one below this.
const HALF: u64 = 1 << 63;

// A literal or a name as an operand.
fn with_leaf(stack: Stack, tree: Expr) -> Option<State>
    ensures { result ≡ Some (State.Have stack (spec.leaf tree) 11) }
{
    Some(State::Have(stack, leaf(tree), 11))
}

fn with_value(stack: Stack, value: Value) -> Option<State>
    ensures { result ≡ Some (State.Have stack (spec.leaf (Expr.Lit value)) 11) }
{
    with_leaf(stack, Expr::Lit(value))
}

fn named(alloc: Global, stack: Stack, name: &Name) -> Result<Option<State>, NoMemory>
    ensures { IfOk result (λ s. s ≡ spec.wanted stack (Token.Name name.now)) }
{
    let copy = name.copy(alloc)?;
    Ok(match function_named(name.as_slice()) {
        Some(func) => Some(State::Named(stack, func, copy)),
        None => with_leaf(stack, Expr::Col(copy)),
    })
}

fn wanted_key(alloc: Global, stack: Stack, key: Key) -> Result<Option<State>, NoMemory>
    ensures { IfOk result (λ s. s ≡ spec.wanted stack (Token.Key key)) }
{
    match key {
        Key::True => Ok(with_value(stack, Value::Bool(true))),
        Key::False => Ok(with_value(stack, Value::Bool(false))),
        Key::Null => Ok(with_value(stack, Value::Null)),
        Key::Not if stack.hole() <= 3 => opened(stack, Open::Not),
        Key::Cast => Ok(Some(State::Cast(stack))),
        Key::Case => Ok(Some(State::Case(stack))),
        _ => Ok(None),
    }
}

// A token where an operand must come.
fn wanted(alloc: Global, stack: Stack, token: &Token) -> Result<Option<State>, NoMemory>
    ensures { IfOk result (λ s. s ≡ spec.wanted stack token.now) }
{
    match token {
        Token::Int(n) if *n < HALF => Ok(with_value(stack, Value::Int(*n as i64))),
        Token::Text(text) => Ok(with_value(stack, Value::Text(text.copy(alloc)?))),
        Token::Name(name) => named(alloc, stack, name),
        Token::Quoted(name) => Ok(with_leaf(stack, Expr::Col(name.copy(alloc)?))),
        Token::Key(key) => wanted_key(alloc, stack, *key),
        Token::Sign(Sign::Open) => opened(stack, Open::Paren),
        Token::Minus(true) => Ok(Some(State::Minus(stack))),
        Token::Minus(false) => opened(stack, Open::Neg),
        _ => Ok(None),
    }
}

fn negated(n: u64) -> i64
    requires { n ≤ 2 ^ 63 }
    ensures { result ≡ neg_ℤ (pos n) }
{
    if n < HALF { -(n as i64) } else { i64::MIN }
}

fn minus_then(stack: Stack, token: &Token) -> Option<State>
    ensures { result ≡ spec.minus_then stack token.now }
{
    match token {
        Token::Int(n) if *n <= HALF => with_value(stack, Value::Int(negated(*n))),
        _ => None,
    }
}

fn is_then(
    alloc: Global,
    stack: Stack,
    tree: Part,
    token: &Token,
) -> Result<Option<State>, NoMemory>
    ensures { IfOk result (λ s. s ≡ spec.is_then 64 stack tree token.now) }
{
    match token {
        Token::Key(Key::Null) => Ok(Some(State::Have(stack, null_test(alloc, tree)?, 4))),
        Token::Key(Key::Not) => Ok(Some(State::IsNot(stack, tree))),
        _ => Ok(None),
    }
}

fn is_not_then(
    alloc: Global,
    stack: Stack,
    tree: Part,
    token: &Token,
) -> Result<Option<State>, NoMemory>
    ensures { IfOk result (λ s. s ≡ spec.is_not_then 64 stack tree token.now) }
{
    match token {
        Token::Key(Key::Null) => {
            let test = null_test(alloc, tree)?;
            Ok(Some(State::Have(stack, negation(alloc, test)?, 4)))
        }
        _ => Ok(None),
    }
}

fn cast_to(
    alloc: Global,
    stack: Stack,
    tree: Part,
    level: u8,
    to: Option<Ty>,
) -> Result<Option<State>, NoMemory>
    ensures { IfOk result (λ s. s ≡ spec.cast_to 64 stack tree level to) }
{
    match to {
        Some(to) => Ok(Some(State::Have(stack, cast(alloc, tree, to)?, level))),
        None => Ok(None),
    }
}

fn typed_then(
    alloc: Global,
    stack: Stack,
    tree: Part,
    token: &Token,
) -> Result<Option<State>, NoMemory>
    ensures { IfOk result (λ s. s ≡ spec.typed_then 64 stack tree token.now) }
{
    match token {
        Token::Name(name) => cast_to(alloc, stack, tree, 10, type_named(name.as_slice())),
        _ => Ok(None),
    }
}

fn cast_then(stack: Stack, token: &Token) -> Result<Option<State>, NoMemory>
    ensures { IfOk result (λ s. s ≡ spec.cast_then stack token.now) }
{
    match token {
        Token::Sign(Sign::Open) => opened(stack, Open::CastOf),
        _ => Ok(None),
    }
}

fn with_name(stack: Stack, tree: Part, to: Option<Ty>) -> Option<State>
    ensures { result ≡ spec.with_name stack tree to }
{
    match to {
        Some(to) => Some(State::CastTo(stack, tree, to)),
        None => None,
    }
}

fn cast_as_then(stack: Stack, tree: Part, token: &Token) -> Option<State>
    ensures { result ≡ spec.cast_as_then stack tree token.now }
{
    match token {
        Token::Name(name) => with_name(stack, tree, type_named(name.as_slice())),
        _ => None,
    }
}

fn cast_to_then(
    alloc: Global,
    stack: Stack,
    tree: Part,
    to: Ty,
    token: &Token,
) -> Result<Option<State>, NoMemory>
    ensures { IfOk result (λ s. s ≡ spec.cast_to_then 64 stack tree to token.now) }
{
    match token {
        Token::Sign(Sign::Close) => cast_to(alloc, stack, tree, 11, Some(to)),
        _ => Ok(None),
    }
}

fn case_then(alloc: Global, stack: Stack, token: &Token) -> Result<Option<State>, NoMemory>
    ensures { IfOk result (λ s. s ≡ spec.case_then stack token.now) }
{
    match token {
        Token::Key(Key::When) => opened(stack, Open::When(List::new(alloc))),
        _ => Ok(None),
    }
}

// The name of a function: with `(` a call, and else a column.
fn named_then(
    alloc: Global,
    stack: Stack,
    func: Func,
    name: Name,
    token: &Token,
) -> Result<Option<State>, NoMemory>
    ensures { IfOk result (λ s. s ≡ spec.named_then 64 stack func name token.now) }
{
    match token {
        Token::Sign(Sign::Open) => opened(stack, Open::Call(func, List::new(alloc))),
        _ => had(alloc, stack, leaf(Expr::Col(name)), 11, token),
    }
}

/// The state after a token, or `None` where the token can't be gone through. An error is want of memory.
pub fn step(alloc: Global, state: State, token: &Token) -> Result<Option<State>, NoMemory>
    ensures { IfOk result (λ s. s ≡ spec.step 64 state token.now) }
{
    match state {
        State::Want(stack) => wanted(alloc, stack, token),
        State::Minus(stack) => Ok(minus_then(stack, token)),
        State::Have(stack, tree, level) => had(alloc, stack, tree, level, token),
        State::Named(stack, func, name) => named_then(alloc, stack, func, name, token),
        State::Is(stack, tree) => is_then(alloc, stack, tree, token),
        State::IsNot(stack, tree) => is_not_then(alloc, stack, tree, token),
        State::Typed(stack, tree) => typed_then(alloc, stack, tree, token),
        State::Cast(stack) => cast_then(stack, token),
        State::CastAs(stack, tree) => Ok(cast_as_then(stack, tree, token)),
        State::CastTo(stack, tree, to) => cast_to_then(alloc, stack, tree, to, token),
        State::Case(stack) => case_then(alloc, stack, token),
        State::Done(_) => Ok(None),
    }
}
