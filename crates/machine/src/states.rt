//! The machine's states as plain data.
use mig_lens::{Fate, Kind};
use row_rules::Kept;
use sql_base::{Copying, List, Name, NoMemory, Schema};
use std::alloc::Global;

/// Whether a migration is active.
#[derive(Drop)]
pub enum Mode {
    /// None is: one version stands, and it is the old side.
    Calm,
    /// One is: two versions stand.
    Both {
        /// The new version's name, without `public_`.
        name: Name,
        /// Its tables.
        schema: Schema,
        /// What becomes of each table, by its number.
        fates: List<(u32, Fate)>,
    },
}

/// A state of the machine.
#[derive(Drop)]
pub struct State {
    /// The current version's name, without `public_`. While a migration is active this is the old version.
    pub version: Name,
    /// The current version's tables.
    pub schema: Schema,
    /// Whether a migration is active.
    pub mode: Mode,
    /// How many steps of tidying are left.
    pub left: u8,
    /// Which steps these are.
    pub kind: Kind,
    /// The number of the next table that a migration creates.
    pub next_table: u32,
    /// Of each table its number and its rows: tables by ascending number, rows by ascending key.
    pub tables: List<(u32, List<Kept>)>,
    /// While steps of tidying are left, of each table that has any the number of columns that are lost with the version
    /// that is gone: by ascending table number.
    pub lost_columns: List<(u32, u32)>,
}

impl Copying for Mode {
    fn copy(&self, alloc: Global) -> Result<Mode, NoMemory> {
        match self {
            Mode::Calm => Ok(Mode::Calm),
            Mode::Both {
                name,
                schema,
                fates,
            } => Ok(Mode::Both {
                name: name.copy(alloc)?,
                schema: schema.copy(alloc)?,
                fates: fates.copy(alloc)?,
            }),
        }
    }
}

impl Copying for State {
    fn copy(&self, alloc: Global) -> Result<State, NoMemory> {
        Ok(State {
            version: self.version.copy(alloc)?,
            schema: self.schema.copy(alloc)?,
            mode: self.mode.copy(alloc)?,
            left: self.left,
            kind: self.kind,
            next_table: self.next_table,
            tables: self.tables.copy(alloc)?,
            lost_columns: self.lost_columns.copy(alloc)?,
        })
    }
}
