//! Why a migration's command is refused, and where in its text.
use sql_base::{Code, Copying, Name, NoMemory};
use std::alloc::Global;
use thiserror::Error;

/// Which steps of tidying are left.
#[derive(Clone, Copy, Debug, PartialEq, Eq)]
pub enum Kind {
    /// No steps are left.
    Nothing,
    /// Those of a completed migration.
    Complete,
    /// Those of a migration that was rolled back.
    Rollback,
}

/// A member of an operation that holds an expression or a type.
#[derive(Clone, Copy, Debug, PartialEq, Eq)]
pub enum Member {
    /// `up`
    Up,
    /// `down`
    Down,
    /// `check`
    Check,
    /// `default`
    Default,
    /// `type`
    TypeName,
}

/// A place in a migration.
#[derive(Clone, Copy, Debug, PartialEq, Eq)]
pub struct Place {
    /// The operation, counted from 0.
    pub operation: u64,
    /// Its member.
    pub member: Member,
}

/// Why a command is refused: P1 to P21 in order. The fields are what is printed after the number, in order.
#[derive(Debug, Drop, PartialEq, Eq)]
pub enum Refusal {
    /// P1: a migration is active; the name of its version.
    AlreadyActive(Name),
    /// P2: no migration is active.
    NoActive,
    /// P3: steps of tidying are left, of this kind.
    Unfinished(Kind),
    /// P4: a row's new half is missing; table and key.
    NotFilled(Name, i64),
    /// P5: a row doesn't meet a constraint; constraint and key.
    NotValid(Name, i64),
    /// P6: the current version has the migration's name.
    NameTaken(Name),
    /// P7: no table of the old version that isn't dropped has this name.
    NoSuchTable(Name),
    /// P8: no such column or constraint; table and name.
    NoSuchColumn(Name, Name),
    /// P9: the name is taken, in the old version or in the new one so far.
    Exists(Name),
    /// P10: a rule on the key column is broken; the table.
    KeyColumn(Name),
    /// P11: the column is the subject of an earlier operation; table and column.
    ColumnTwice(Name, Name),
    /// P12: an `up` is needed; table and column.
    UpNeeded(Name, Name),
    /// P13: a `down` is needed; table and column.
    DownNeeded(Name, Name),
    /// P14: an expression doesn't read, type, or stand as a constant.
    BadExpr(Place),
    /// P15: an unknown type's name, or a default of another type.
    BadType(Place),
    /// P16: the text is no migration; the path of what is wrong.
    BadJson(Name),
    /// P17: there is nothing yet to work on.
    NotInit,
    /// P18: there is something already.
    AlreadyInit,
    /// P19: a batch isn't accepted; table, least failing key and code.
    BackfillRefused(Name, i64, Code),
    /// P20: a quantity passes its limit; which.
    Limit(Name),
    /// P21: a line of a script doesn't read; its number.
    BadScript(u32),
}

#[derive(Debug, Drop, PartialEq, Eq, Error)]
pub enum PlanFault {
    /// P7: no table of the old version that isn't dropped has this name.
    #[error("the old version has no such table")]
    NoSuchTable(Name),
    /// P8: no such column or constraint; table and name.
    #[error("the table has no such column or constraint")]
    NoSuchColumn(Name, Name),
    /// P9: the name is taken, in the old version or in the new one so far.
    #[error("the name is taken")]
    Exists(Name),
    /// P10: a rule on the key column is broken; the table.
    #[error("a rule on the key column is broken")]
    KeyColumn(Name),
    /// P11: the column is the subject of an earlier operation; table and column.
    #[error("the column is the subject of an earlier operation")]
    ColumnTwice(Name, Name),
    /// P12: an `up` is needed; table and column.
    #[error("the column needs an `up`")]
    UpNeeded(Name, Name),
    /// P13: a `down` is needed; table and column.
    #[error("the column needs a `down`")]
    DownNeeded(Name, Name),
    /// P14: an expression doesn't type.
    #[error("an expression does not type")]
    BadExpr(Place),
    /// P15: a default of another type.
    #[error("a default has another type than its column")]
    BadType(Place),
    /// P20: a quantity passes its limit; which.
    #[error("a limit is passed")]
    Limit(Name),
    /// Memory was refused.
    #[error("out of memory")]
    NoMemory,
}

impl Copying for Refusal {
    fn copy(&self, alloc: Global) -> Result<Refusal, NoMemory> {
        let copy = match self {
            Refusal::AlreadyActive(name) => Refusal::AlreadyActive(name.copy(alloc)?),
            Refusal::NoActive => Refusal::NoActive,
            Refusal::Unfinished(kind) => Refusal::Unfinished(*kind),
            Refusal::NotFilled(table, key) => Refusal::NotFilled(table.copy(alloc)?, *key),
            Refusal::NotValid(name, key) => Refusal::NotValid(name.copy(alloc)?, *key),
            Refusal::NameTaken(name) => Refusal::NameTaken(name.copy(alloc)?),
            Refusal::NoSuchTable(name) => Refusal::NoSuchTable(name.copy(alloc)?),
            Refusal::NoSuchColumn(table, name) => Refusal::NoSuchColumn(
                table.copy(alloc)?,
                name.copy(alloc)?,
            ),
            Refusal::Exists(name) => Refusal::Exists(name.copy(alloc)?),
            Refusal::KeyColumn(table) => Refusal::KeyColumn(table.copy(alloc)?),
            Refusal::ColumnTwice(table, name) => Refusal::ColumnTwice(
                table.copy(alloc)?,
                name.copy(alloc)?,
            ),
            Refusal::UpNeeded(table, name) => Refusal::UpNeeded(
                table.copy(alloc)?,
                name.copy(alloc)?,
            ),
            Refusal::DownNeeded(table, name) => Refusal::DownNeeded(
                table.copy(alloc)?,
                name.copy(alloc)?,
            ),
            Refusal::BadExpr(place) => Refusal::BadExpr(*place),
            Refusal::BadType(place) => Refusal::BadType(*place),
            Refusal::BadJson(path) => Refusal::BadJson(path.copy(alloc)?),
            Refusal::NotInit => Refusal::NotInit,
            Refusal::AlreadyInit => Refusal::AlreadyInit,
            Refusal::BackfillRefused(table, key, code) => Refusal::BackfillRefused(
                table.copy(alloc)?,
                *key,
                *code,
            ),
            Refusal::Limit(name) => Refusal::Limit(name.copy(alloc)?),
            Refusal::BadScript(line) => Refusal::BadScript(*line),
        };
        Ok(copy)
    }
}

impl Copying for PlanFault {
    fn copy(&self, alloc: Global) -> Result<PlanFault, NoMemory> {
        let copy = match self {
            PlanFault::NoSuchTable(name) => PlanFault::NoSuchTable(name.copy(alloc)?),
            PlanFault::NoSuchColumn(table, name) => PlanFault::NoSuchColumn(
                table.copy(alloc)?,
                name.copy(alloc)?,
            ),
            PlanFault::Exists(name) => PlanFault::Exists(name.copy(alloc)?),
            PlanFault::KeyColumn(table) => PlanFault::KeyColumn(table.copy(alloc)?),
            PlanFault::ColumnTwice(table, name) => PlanFault::ColumnTwice(
                table.copy(alloc)?,
                name.copy(alloc)?,
            ),
            PlanFault::UpNeeded(table, name) => PlanFault::UpNeeded(
                table.copy(alloc)?,
                name.copy(alloc)?,
            ),
            PlanFault::DownNeeded(table, name) => PlanFault::DownNeeded(
                table.copy(alloc)?,
                name.copy(alloc)?,
            ),
            PlanFault::BadExpr(place) => PlanFault::BadExpr(*place),
            PlanFault::BadType(place) => PlanFault::BadType(*place),
            PlanFault::Limit(name) => PlanFault::Limit(name.copy(alloc)?),
            PlanFault::NoMemory => PlanFault::NoMemory,
        };
        Ok(copy)
    }
}

impl From<NoMemory> for PlanFault {
    ghost use Rattle.std.specs.Prelude.{◌≡◌};
    ghost use Rattle.mig_lens.specs.declared.faults.PlanFault.TheVariants as fault;

    ghost from_gives = { λ _ e. e ≡ fault.NoMemory };

    fn from(_refused: NoMemory) -> PlanFault {
        PlanFault::NoMemory
    }
}
