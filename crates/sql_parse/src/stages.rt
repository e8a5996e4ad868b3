//! What is kept of a statement that was read so far.

use crate::machine::State;
use sql_base::{Expr, Items, List, Name, Stmt};

/// A statement that may have a filter, before its WHERE. A list is `None` where a tree in it was given up.
#[derive(Drop)]
pub enum Main {
    /// An UPDATE: its table and its assignments.
    Update(Name, Option<List<(Name, Expr)>>),
    /// A DELETE: its table.
    Delete(Name),
    /// A SELECT: its table and its items.
    Query(Name, Option<Items>),
}

/// Where an expression stands in a statement, with what stands before it.
#[derive(Drop)]
pub enum Place {
    /// In a tuple: the table, its columns, the tuples before and the values before.
    Tuple(Name, List<Name>, Option<List<List<Expr>>>, Option<List<Expr>>),
    /// Behind `=` in an UPDATE: the table, the assignments before and the column.
    Assigned(Name, Option<List<(Name, Expr)>>, Name),
    /// Among the items of a SELECT: those before.
    Item(Option<List<Expr>>),
    /// Behind WHERE.
    Filter(Main),
}

/// How much of an INSERT is there.
#[derive(Drop)]
pub enum InsertStage {
    /// INSERT.
    Word,
    /// INTO.
    Into,
    /// The table.
    Table(Name),
    /// The table, the columns before, and `(` or a comma.
    ColumnWanted(Name, List<Name>),
    /// The table and columns.
    ColumnHad(Name, List<Name>),
    /// The table, all columns and `)`.
    Columns(Name, List<Name>),
    /// The table, all columns, the tuples before, and VALUES or a comma.
    TupleWanted(Name, List<Name>, Option<List<List<Expr>>>),
    /// The table, all columns and tuples.
    TupleHad(Name, List<Name>, Option<List<List<Expr>>>),
}

/// How much of an UPDATE is there.
#[derive(Drop)]
pub enum UpdateStage {
    /// UPDATE.
    Word,
    /// The table.
    Table(Name),
    /// The table, the assignments before, and SET or a comma.
    Wanted(Name, Option<List<(Name, Expr)>>),
    /// The table, the assignments before, and a column.
    Named(Name, Option<List<(Name, Expr)>>, Name),
}

/// How much of a SELECT is there.
#[derive(Drop)]
pub enum SelectStage {
    /// SELECT.
    Word,
    /// `*`.
    Starred,
    /// The items and FROM.
    From(Option<Items>),
}

/// How much of a SET is there.
#[derive(Drop)]
pub enum PathStage {
    /// SET.
    Word,
    /// `search_path`.
    Path,
    /// The names before, and TO or a comma.
    Wanted(List<Name>),
    /// Names.
    Had(List<Name>),
}

/// How much of a statement is there.
#[derive(Drop)]
pub enum Stage {
    /// Nothing.
    Begin,
    /// A part of an INSERT.
    Insert(InsertStage),
    /// A part of an UPDATE.
    Update(UpdateStage),
    /// DELETE.
    Delete,
    /// DELETE FROM.
    DeleteFrom,
    /// A part of a SELECT.
    Select(SelectStage),
    /// A part of a SET.
    Set(PathStage),
    /// A statement that may have a filter.
    Main(Main),
    /// A part of an expression.
    In(Place, State),
    /// A statement and `;`, `None` where a tree in it was given up.
    Ended(Option<Stmt>),
    /// A statement and the end.
    Done(Option<Stmt>),
}
