//! What happens to the machine, and what it answers, as plain data.
ghost use Rattle.std.specs.Prelude.{◌≡◌, IfOk};

use mig_lens::{Migration, Refusal};
use sql_base::{Code, Copying, List, Name, NoMemory, Stmt, Value};
use std::alloc::Global;

/// What a line reads as.
#[derive(Drop)]
pub enum Reading {
    /// This statement.
    Stmt(Stmt),
    /// It isn't read: it has more than 4,096 bytes.
    TooLong,
    /// No statement.
    Syntax,
    /// No statement: the first token that doesn't fit is an integer literal of more than 64 bits.
    Wide,
    /// A statement but for an expression in it that is deeper than the limit.
    Deep,
}

/// What a migration's text reads as.
#[derive(Drop)]
pub enum Asked {
    /// This migration.
    Read(Migration),
    /// None: P14, P15 or P16, or P20 `migration` where the text, or its canonical text, is too long.
    Refused(Refusal),
}

/// What happens to the machine.
#[derive(Drop)]
pub enum Event {
    /// A line was said, with the path of versions that it goes through, by their names with `public_`.
    Said(List<Name>, Reading),
    /// A migration is to be started.
    Start(Asked),
    /// A batch of at most so many rows is to be filled.
    Fill(u32),
    /// The migration is to be completed, or the next step of tidying after that to be done.
    Complete,
    /// The migration is to be rolled back, or the step of tidying after that to be done.
    Rollback,
}

/// What the machine answers.
#[derive(Drop)]
pub enum Reply {
    /// So many rows were written.
    Insert(u32),
    /// So many rows were updated.
    Update(u32),
    /// So many rows were deleted.
    Delete(u32),
    /// These rows, each with the values that were asked for, in order.
    Select(List<List<Value>>),
    /// The path is set.
    Set,
    /// The statement is refused, or memory was wanting for it or for a batch (53200): a code, what the code is about (a
    /// table, a column, a constraint or a limit), and the key of the row where it was found. Nothing changed.
    Error {
        code: Code,
        name: Option<Name>,
        key: Option<i64>,
    },
    /// The migration of this name is started.
    Start(Name),
    /// A batch was filled: the table's new name, the number of rows, and the least and the greatest of their keys.
    Fill {
        table: Name,
        count: u32,
        first: i64,
        last: i64,
    },
    /// No row is left to be filled.
    Filled,
    /// This step of completing is done: 1 for the migration's completion, 2 and 3 for the tidying after it.
    Complete(u8),
    /// This step of rolling back is done: 1 for the return to the old version, 2 for the tidying after it.
    Rollback(u8),
    /// The command is refused. Nothing changed.
    Refused(Refusal),
}

/// An event with its reply. Entries are numbered from 1, and the actor is the place, counted from 0, of its name in
/// a list of names.
#[derive(Drop)]
pub struct Entry {
    pub number: u32,
    pub actor: u32,
    pub event: Event,
    pub reply: Reply,
}

impl Copying for Reading {
    fn copy(&self, alloc: Global) -> Result<Reading, NoMemory> {
        match self {
            Reading::Stmt(stmt) => Ok(Reading::Stmt(stmt.copy(alloc)?)),
            Reading::TooLong => Ok(Reading::TooLong),
            Reading::Syntax => Ok(Reading::Syntax),
            Reading::Wide => Ok(Reading::Wide),
            Reading::Deep => Ok(Reading::Deep),
        }
    }
}

impl Copying for Asked {
    fn copy(&self, alloc: Global) -> Result<Asked, NoMemory> {
        match self {
            Asked::Read(migration) => Ok(Asked::Read(migration.copy(alloc)?)),
            Asked::Refused(refusal) => Ok(Asked::Refused(refusal.copy(alloc)?)),
        }
    }
}

impl Copying for Event {
    fn copy(&self, alloc: Global) -> Result<Event, NoMemory> {
        match self {
            Event::Said(path, reading) => Ok(Event::Said(path.copy(alloc)?, reading.copy(alloc)?)),
            Event::Start(asked) => Ok(Event::Start(asked.copy(alloc)?)),
            Event::Fill(count) => Ok(Event::Fill(*count)),
            Event::Complete => Ok(Event::Complete),
            Event::Rollback => Ok(Event::Rollback),
        }
    }
}

fn error_copy(
    alloc: Global,
    code: Code,
    name: &Option<Name>,
    key: Option<i64>,
) -> Result<Reply, NoMemory>
    ensures { IfOk result (λ copy. copy ≡ Reply.Error code name.now key) }
{
    Ok(Reply::Error {
        code,
        name: name.copy(alloc)?,
        key,
    })
}

impl Copying for Reply {
    fn copy(&self, alloc: Global) -> Result<Reply, NoMemory> {
        match self {
            Reply::Insert(count) => Ok(Reply::Insert(*count)),
            Reply::Update(count) => Ok(Reply::Update(*count)),
            Reply::Delete(count) => Ok(Reply::Delete(*count)),
            Reply::Select(rows) => Ok(Reply::Select(rows.copy(alloc)?)),
            Reply::Set => Ok(Reply::Set),
            Reply::Error { code, name, key } => error_copy(alloc, *code, name, *key),
            Reply::Start(name) => Ok(Reply::Start(name.copy(alloc)?)),
            Reply::Fill {
                table,
                count,
                first,
                last,
            } => Ok(Reply::Fill {
                table: table.copy(alloc)?,
                count: *count,
                first: *first,
                last: *last,
            }),
            Reply::Filled => Ok(Reply::Filled),
            Reply::Complete(step) => Ok(Reply::Complete(*step)),
            Reply::Rollback(step) => Ok(Reply::Rollback(*step)),
            Reply::Refused(refusal) => Ok(Reply::Refused(refusal.copy(alloc)?)),
        }
    }
}
