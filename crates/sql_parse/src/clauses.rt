//! What a token does in a statement.

ghost use Rattle.std.specs.Prelude.{◌≡◌, ◌++◌, ◌∷◌, [], Some, IfOk};
ghost use Rattle.std.specs.Option.{option_map};
ghost use Rattle.sql_parse.specs.Grammar as grammar;
ghost use Rattle.sql_parse.specs.Stages as spec;

use crate::machine::{Part, Stack, State};
use crate::stages::{InsertStage, Main, Place, SelectStage, Stage, UpdateStage};
use crate::step::step;
use sql_base::{Copying, Expr, Items, List, Name, NoMemory, Stmt};
use sql_text::{Key, Sign, Token};
use std::alloc::Global;

/// The name that a token is. An error is want of memory, here and below. A stage that is `None` says that the token can't
/// be gone through, and a tree, a list or a statement that is `None` that a tree was given up.
pub fn name_of(alloc: Global, token: &Token) -> Result<Option<Name>, NoMemory>
    ensures { IfOk result (λ name. name ≡ grammar.name_of token.now) }
{
    match token {
        Token::Name(name) | Token::Quoted(name) => Ok(Some(name.copy(alloc)?)),
        _ => Ok(None),
    }
}

// The tree of a part.
fn whole(part: Part) -> Option<Expr>
    ensures { result ≡ spec.whole part }
{
    match part {
        Part::Whole(tree, _) => Some(tree),
        Part::Deep => None,
    }
}

// One more at the end of a list.
fn with_last<T: Drop>(list: Option<List<T>>, last: Option<T>) -> Result<Option<List<T>>, NoMemory>
    ensures { IfOk result (λ longer. longer ≡ spec.with_last list last) }
{
    match (list, last) {
        (Some(mut list), Some(last)) => {
            list.push(last)?;
            Ok(Some(list))
        }
        _ => Ok(None),
    }
}

// A statement with its filter.
fn completed(main: Main, filter: Option<Option<Expr>>) -> Option<Stmt>
    ensures { result ≡ spec.completed main filter }
{
    match main {
        Main::Update(table, sets) => match (sets, filter) {
            (Some(sets), Some(filter)) => Some(Stmt::Update(table, sets, filter)),
            _ => None,
        },
        Main::Delete(table) => match filter {
            Some(filter) => Some(Stmt::Delete(table, filter)),
            None => None,
        },
        Main::Query(table, items) => match (items, filter) {
            (Some(items), Some(filter)) => Some(Stmt::Query(table, items, filter)),
            _ => None,
        },
    }
}

/// An expression must come.
pub fn expression(alloc: Global, place: Place) -> Option<Stage>
    ensures { result ≡ Some (Stage.In place (State.Want [])) }
{
    Some(Stage::In(place, State::Want(Stack::new(alloc))))
}

/// A token behind a statement.
pub fn ended_then(done: Option<Stmt>, token: &Token) -> Option<Stage>
    ensures { result ≡ spec.ended_then done token.now }
{
    match token {
        Token::Sign(Sign::Semicolon) => Some(Stage::Ended(done)),
        Token::End => Some(Stage::Done(done)),
        _ => None,
    }
}

/// A token behind a statement that may have a filter.
pub fn main_then(alloc: Global, main: Main, token: &Token) -> Option<Stage>
    ensures { result ≡ spec.main_then main token.now }
{
    match token {
        Token::Key(Key::Where) => expression(alloc, Place::Filter(main)),
        _ => ended_then(completed(main, Some(None)), token),
    }
}

// A token behind the values of a tuple so far.
fn values_then(
    alloc: Global,
    table: Name,
    columns: List<Name>,
    rows: Option<List<List<Expr>>>,
    row: Option<List<Expr>>,
    token: &Token,
) -> Result<Option<Stage>, NoMemory>
    ensures { IfOk result (λ s. s ≡ spec.values_then table columns rows row token.now) }
{
    match token {
        Token::Sign(Sign::Comma) => Ok(expression(alloc, Place::Tuple(table, columns, rows, row))),
        Token::Sign(Sign::Close) => {
            let rows = with_last(rows, row)?;
            Ok(Some(Stage::Insert(InsertStage::TupleHad(table, columns, rows))))
        }
        _ => Ok(None),
    }
}

// A token behind the assignments so far.
fn sets_then(
    alloc: Global,
    table: Name,
    sets: Option<List<(Name, Expr)>>,
    token: &Token,
) -> Option<Stage>
    ensures { result ≡ spec.sets_then table sets token.now }
{
    match token {
        Token::Sign(Sign::Comma) => Some(Stage::Update(UpdateStage::Wanted(table, sets))),
        _ => main_then(alloc, Main::Update(table, sets), token),
    }
}

// A token behind the items so far.
fn items_then(alloc: Global, list: Option<List<Expr>>, token: &Token) -> Option<Stage>
    ensures { result ≡ spec.items_then list token.now }
{
    match token {
        Token::Sign(Sign::Comma) => expression(alloc, Place::Item(list)),
        Token::Key(Key::From) => Some(Stage::Select(SelectStage::From(listed(list)))),
        _ => None,
    }
}

fn listed(list: Option<List<Expr>>) -> Option<Items>
    ensures { result ≡ option_map Items.Listed list }
{
    match list {
        Some(list) => Some(Items::Listed(list)),
        None => None,
    }
}

fn assignment(name: Name, tree: Option<Expr>) -> Option<(Name, Expr)>
    ensures { result ≡ option_map (λ a. (name, a)) tree }
{
    match tree {
        Some(tree) => Some((name, tree)),
        None => None,
    }
}

fn filter_of(tree: Option<Expr>) -> Option<Option<Expr>>
    ensures { result ≡ option_map Some tree }
{
    match tree {
        Some(tree) => Some(Some(tree)),
        None => None,
    }
}

// A token behind an expression.
fn behind(
    alloc: Global,
    place: Place,
    tree: Option<Expr>,
    token: &Token,
) -> Result<Option<Stage>, NoMemory>
    ensures { IfOk result (λ s. s ≡ spec.behind place tree token.now) }
{
    match place {
        Place::Tuple(table, columns, rows, row) => {
            values_then(alloc, table, columns, rows, with_last(row, tree)?, token)
        }
        Place::Assigned(table, sets, name) => {
            let sets = with_last(sets, assignment(name, tree))?;
            Ok(sets_then(alloc, table, sets, token))
        }
        Place::Item(list) => Ok(items_then(alloc, with_last(list, tree)?, token)),
        Place::Filter(main) => Ok(ended_then(completed(main, filter_of(tree)), token)),
    }
}

// Whether an expression may end before this token.
fn stops(token: &Token) -> bool
    ensures { result ≡ spec.stops token.now }
{
    match token {
        Token::Sign(sign) => matches!(sign, Sign::Comma | Sign::Close | Sign::Semicolon),
        Token::Key(key) => matches!(key, Key::From | Key::Where),
        Token::End => true,
        _ => false,
    }
}

// Whether an expression may end here.
fn is_whole(state: &State) -> bool
    ensures { result ≡ spec.is_whole state.now }
{
    match state {
        State::Have(stack, _, _) | State::Named(stack, _, _) => stack.is_flat(),
        _ => false,
    }
}

// A token behind an expression that ends before it.
fn left_at(
    alloc: Global,
    place: Place,
    last: Option<State>,
    token: &Token,
) -> Result<Option<Stage>, NoMemory>
    ensures { IfOk result (λ s. s ≡ spec.left_at place token.now last) }
{
    match last {
        Some(State::Done(part)) => behind(alloc, place, whole(part), token),
        _ => Ok(None),
    }
}

/// The stage after a token in an expression.
pub fn in_place(place: Place, next: Option<State>) -> Option<Stage>
    ensures { result ≡ option_map (Stage.In place) next }
{
    match next {
        Some(next) => Some(Stage::In(place, next)),
        None => None,
    }
}

/// A token in an expression, or behind it.
pub fn within(
    alloc: Global,
    place: Place,
    state: State,
    token: &Token,
) -> Result<Option<Stage>, NoMemory>
    ensures { IfOk result (λ s. s ≡ spec.within 64 place state token.now) }
{
    if stops(token) && is_whole(&state) {
        let last = step(alloc, state, &Token::End)?;
        left_at(alloc, place, last, token)
    } else {
        Ok(in_place(place, step(alloc, state, token)?))
    }
}
