//! What a token does outside expressions, statement by statement.

ghost use Rattle.std.specs.Prelude.{◌≡◌, IfOk};
ghost use Rattle.std.specs.Option.{option_map};
ghost use Rattle.sql_parse.specs.Stages as spec;

use crate::clauses::{ended_then, expression, in_place, main_then, name_of, within};
use crate::machine::{Stack, State};
use crate::stages::{InsertStage, Main, PathStage, Place, SelectStage, Stage, UpdateStage};
use crate::step::step;
use sql_base::{Expr, Items, List, Name, NoMemory, Stmt};
use sql_text::{Key, Sign, Token};
use std::alloc::Global;

// ---- INSERT

fn insert_word_then(token: &Token) -> Option<Stage>
    ensures { result ≡ spec.insert_then InsertStage.Word token.now }
{
    match token {
        Token::Key(Key::Into) => Some(Stage::Insert(InsertStage::Into)),
        _ => None,
    }
}

fn into_then(alloc: Global, token: &Token) -> Result<Option<Stage>, NoMemory>
    ensures { IfOk result (λ s. s ≡ spec.insert_then InsertStage.Into token.now) }
{
    match name_of(alloc, token)? {
        Some(table) => Ok(Some(Stage::Insert(InsertStage::Table(table)))),
        None => Ok(None),
    }
}

fn table_then(alloc: Global, table: Name, token: &Token) -> Option<Stage>
    ensures { result ≡ spec.insert_then (InsertStage.Table table) token.now }
{
    match token {
        Token::Sign(Sign::Open) => {
            let columns = List::new(alloc);
            Some(Stage::Insert(InsertStage::ColumnWanted(table, columns)))
        }
        _ => None,
    }
}

fn column_then(
    alloc: Global,
    table: Name,
    mut columns: List<Name>,
    token: &Token,
) -> Result<Option<Stage>, NoMemory>
    ensures { IfOk result (λ s. s ≡ spec.insert_then (InsertStage.ColumnWanted table columns) token.now) }
{
    match name_of(alloc, token)? {
        Some(name) => {
            columns.push(name)?;
            let stage = InsertStage::ColumnHad(table, columns);
            Ok(Some(Stage::Insert(stage)))
        }
        None => Ok(None),
    }
}

fn columns_then(table: Name, columns: List<Name>, token: &Token) -> Option<Stage>
    ensures { result ≡ spec.insert_then (InsertStage.ColumnHad table columns) token.now }
{
    match token {
        Token::Sign(Sign::Comma) => {
            Some(Stage::Insert(InsertStage::ColumnWanted(table, columns)))
        }
        Token::Sign(Sign::Close) => Some(Stage::Insert(InsertStage::Columns(table, columns))),
        _ => None,
    }
}

fn all_columns_then(alloc: Global, table: Name, columns: List<Name>, token: &Token) -> Option<Stage>
    ensures { result ≡ spec.insert_then (InsertStage.Columns table columns) token.now }
{
    match token {
        Token::Key(Key::Values) => {
            let rows = Some(List::new(alloc));
            let stage = InsertStage::TupleWanted(table, columns, rows);
            Some(Stage::Insert(stage))
        }
        _ => None,
    }
}

fn tuple_then(
    alloc: Global,
    table: Name,
    columns: List<Name>,
    rows: Option<List<List<Expr>>>,
    token: &Token,
) -> Option<Stage>
    ensures { result ≡ spec.insert_then (InsertStage.TupleWanted table columns rows) token.now }
{
    match token {
        Token::Sign(Sign::Open) => {
            let row = Some(List::new(alloc));
            expression(alloc, Place::Tuple(table, columns, rows, row))
        }
        _ => None,
    }
}

fn insert_of(table: Name, columns: List<Name>, rows: Option<List<List<Expr>>>) -> Option<Stmt>
    ensures { result ≡ option_map (Stmt.Insert table columns) rows }
{
    match rows {
        Some(rows) => Some(Stmt::Insert(table, columns, rows)),
        None => None,
    }
}

fn tuples_then(
    table: Name,
    columns: List<Name>,
    rows: Option<List<List<Expr>>>,
    token: &Token,
) -> Option<Stage>
    ensures { result ≡ spec.insert_then (InsertStage.TupleHad table columns rows) token.now }
{
    match token {
        Token::Sign(Sign::Comma) => {
            let stage = InsertStage::TupleWanted(table, columns, rows);
            Some(Stage::Insert(stage))
        }
        _ => ended_then(insert_of(table, columns, rows), token),
    }
}

fn insert_then(alloc: Global, stage: InsertStage, token: &Token) -> Result<Option<Stage>, NoMemory>
    ensures { IfOk result (λ s. s ≡ spec.insert_then stage token.now) }
{
    match stage {
        InsertStage::Word => Ok(insert_word_then(token)),
        InsertStage::Into => into_then(alloc, token),
        InsertStage::Table(table) => Ok(table_then(alloc, table, token)),
        InsertStage::ColumnWanted(table, columns) => column_then(alloc, table, columns, token),
        InsertStage::ColumnHad(table, columns) => Ok(columns_then(table, columns, token)),
        InsertStage::Columns(table, columns) => Ok(all_columns_then(alloc, table, columns, token)),
        InsertStage::TupleWanted(table, columns, rows) => {
            Ok(tuple_then(alloc, table, columns, rows, token))
        }
        InsertStage::TupleHad(table, columns, rows) => {
            Ok(tuples_then(table, columns, rows, token))
        }
    }
}

// ---- UPDATE

fn update_word_then(alloc: Global, token: &Token) -> Result<Option<Stage>, NoMemory>
    ensures { IfOk result (λ s. s ≡ spec.update_then UpdateStage.Word token.now) }
{
    match name_of(alloc, token)? {
        Some(table) => Ok(Some(Stage::Update(UpdateStage::Table(table)))),
        None => Ok(None),
    }
}

fn updated_then(alloc: Global, table: Name, token: &Token) -> Option<Stage>
    ensures { result ≡ spec.update_then (UpdateStage.Table table) token.now }
{
    match token {
        Token::Key(Key::Set) => {
            let sets = Some(List::new(alloc));
            Some(Stage::Update(UpdateStage::Wanted(table, sets)))
        }
        _ => None,
    }
}

fn target_then(
    alloc: Global,
    table: Name,
    sets: Option<List<(Name, Expr)>>,
    token: &Token,
) -> Result<Option<Stage>, NoMemory>
    ensures { IfOk result (λ s. s ≡ spec.update_then (UpdateStage.Wanted table sets) token.now) }
{
    match name_of(alloc, token)? {
        Some(name) => Ok(Some(Stage::Update(UpdateStage::Named(table, sets, name)))),
        None => Ok(None),
    }
}

fn equals_then(
    alloc: Global,
    table: Name,
    sets: Option<List<(Name, Expr)>>,
    name: Name,
    token: &Token,
) -> Option<Stage>
    ensures { result ≡ spec.update_then (UpdateStage.Named table sets name) token.now }
{
    match token {
        Token::Sign(Sign::Eq) => expression(alloc, Place::Assigned(table, sets, name)),
        _ => None,
    }
}

fn update_then(alloc: Global, stage: UpdateStage, token: &Token) -> Result<Option<Stage>, NoMemory>
    ensures { IfOk result (λ s. s ≡ spec.update_then stage token.now) }
{
    match stage {
        UpdateStage::Word => update_word_then(alloc, token),
        UpdateStage::Table(table) => Ok(updated_then(alloc, table, token)),
        UpdateStage::Wanted(table, sets) => target_then(alloc, table, sets, token),
        UpdateStage::Named(table, sets, name) => Ok(equals_then(alloc, table, sets, name, token)),
    }
}

// ---- DELETE

fn delete_then(token: &Token) -> Option<Stage>
    ensures { result ≡ spec.delete_then token.now }
{
    match token {
        Token::Key(Key::From) => Some(Stage::DeleteFrom),
        _ => None,
    }
}

fn delete_from_then(alloc: Global, token: &Token) -> Result<Option<Stage>, NoMemory>
    ensures { IfOk result (λ s. s ≡ spec.stage_step 64 Stage.DeleteFrom token.now) }
{
    match name_of(alloc, token)? {
        Some(table) => Ok(Some(Stage::Main(Main::Delete(table)))),
        None => Ok(None),
    }
}

// ---- SELECT

fn select_word_then(alloc: Global, token: &Token) -> Result<Option<Stage>, NoMemory>
    ensures { IfOk result (λ s. s ≡ spec.select_then 64 SelectStage.Word token.now) }
{
    match token {
        Token::Sign(Sign::Star) => Ok(Some(Stage::Select(SelectStage::Starred))),
        _ => {
            let first = step(alloc, State::Want(Stack::new(alloc)), token)?;
            Ok(in_place(Place::Item(Some(List::new(alloc))), first))
        }
    }
}

fn starred_then(token: &Token) -> Option<Stage>
    ensures { result ≡ spec.select_then 64 SelectStage.Starred token.now }
{
    match token {
        Token::Key(Key::From) => Some(Stage::Select(SelectStage::From(Some(Items::All)))),
        _ => None,
    }
}

fn from_then(alloc: Global, items: Option<Items>, token: &Token) -> Result<Option<Stage>, NoMemory>
    ensures { IfOk result (λ s. s ≡ spec.select_then 64 (SelectStage.From items) token.now) }
{
    match name_of(alloc, token)? {
        Some(table) => Ok(Some(Stage::Main(Main::Query(table, items)))),
        None => Ok(None),
    }
}

fn select_then(alloc: Global, stage: SelectStage, token: &Token) -> Result<Option<Stage>, NoMemory>
    ensures { IfOk result (λ s. s ≡ spec.select_then 64 stage token.now) }
{
    match stage {
        SelectStage::Word => select_word_then(alloc, token),
        SelectStage::Starred => Ok(starred_then(token)),
        SelectStage::From(items) => from_then(alloc, items, token),
    }
}

// ---- SET

fn set_word_then(alloc: Global, token: &Token) -> Result<Option<Stage>, NoMemory>
    ensures { IfOk result (λ s. s ≡ spec.set_then PathStage.Word token.now) }
{
    match name_of(alloc, token)? {
        Some(name) if name.as_slice() == b"search_path".as_slice() => {
            Ok(Some(Stage::Set(PathStage::Path)))
        }
        _ => Ok(None),
    }
}

fn path_then(alloc: Global, token: &Token) -> Option<Stage>
    ensures { result ≡ spec.set_then PathStage.Path token.now }
{
    match token {
        Token::Key(Key::To) => Some(Stage::Set(PathStage::Wanted(List::new(alloc)))),
        _ => None,
    }
}

fn version_then(
    alloc: Global,
    mut names: List<Name>,
    token: &Token,
) -> Result<Option<Stage>, NoMemory>
    ensures { IfOk result (λ s. s ≡ spec.set_then (PathStage.Wanted names) token.now) }
{
    match name_of(alloc, token)? {
        Some(name) => {
            names.push(name)?;
            Ok(Some(Stage::Set(PathStage::Had(names))))
        }
        None => Ok(None),
    }
}

fn versions_then(names: List<Name>, token: &Token) -> Option<Stage>
    ensures { result ≡ spec.set_then (PathStage.Had names) token.now }
{
    match token {
        Token::Sign(Sign::Comma) => Some(Stage::Set(PathStage::Wanted(names))),
        _ => ended_then(Some(Stmt::SetPath(names)), token),
    }
}

fn set_then(alloc: Global, stage: PathStage, token: &Token) -> Result<Option<Stage>, NoMemory>
    ensures { IfOk result (λ s. s ≡ spec.set_then stage token.now) }
{
    match stage {
        PathStage::Word => set_word_then(alloc, token),
        PathStage::Path => Ok(path_then(alloc, token)),
        PathStage::Wanted(names) => version_then(alloc, names, token),
        PathStage::Had(names) => Ok(versions_then(names, token)),
    }
}

// ---- all of them

fn begun(token: &Token) -> Option<Stage>
    ensures { result ≡ spec.begun token.now }
{
    match token {
        Token::Key(Key::Insert) => Some(Stage::Insert(InsertStage::Word)),
        Token::Key(Key::Update) => Some(Stage::Update(UpdateStage::Word)),
        Token::Key(Key::Delete) => Some(Stage::Delete),
        Token::Key(Key::Select) => Some(Stage::Select(SelectStage::Word)),
        Token::Key(Key::Set) => Some(Stage::Set(PathStage::Word)),
        _ => None,
    }
}

fn closed_then(done: Option<Stmt>, token: &Token) -> Option<Stage>
    ensures { result ≡ spec.closed_then done token.now }
{
    match token {
        Token::End => Some(Stage::Done(done)),
        _ => None,
    }
}

/// The stage after a token, or `None` where the token can't be gone through. An error is want of memory.
pub fn stage_step(alloc: Global, stage: Stage, token: &Token) -> Result<Option<Stage>, NoMemory>
    ensures { IfOk result (λ s. s ≡ spec.stage_step 64 stage token.now) }
{
    match stage {
        Stage::Begin => Ok(begun(token)),
        Stage::Insert(stage) => insert_then(alloc, stage, token),
        Stage::Update(stage) => update_then(alloc, stage, token),
        Stage::Delete => Ok(delete_then(token)),
        Stage::DeleteFrom => delete_from_then(alloc, token),
        Stage::Select(stage) => select_then(alloc, stage, token),
        Stage::Set(stage) => set_then(alloc, stage, token),
        Stage::Main(main) => Ok(main_then(alloc, main, token)),
        Stage::In(place, state) => within(alloc, place, state, token),
        Stage::Ended(done) => Ok(closed_then(done, token)),
        Stage::Done(_) => Ok(None),
    }
}
