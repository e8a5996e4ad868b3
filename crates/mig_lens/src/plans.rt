//! What a migration makes of a schema, and how a table's rows are stored meanwhile.
use crate::columns::Lens;
use sql_base::{Copying, List, Name, NoMemory, Schema, Ty};
use std::alloc::Global;

/// What becomes of a table.
#[derive(Drop)]
pub enum Fate {
    /// Both versions have it, and its shapes hang together by this lens.
    Kept(Lens),
    /// The new version alone has it.
    Created,
    /// The old version alone has it.
    Dropped,
}

/// What a migration makes of a schema.
#[derive(Drop)]
pub struct Plan {
    /// The new version's tables.
    pub schema: Schema,
    /// The fate of each table, by its number.
    pub fates: List<(u32, Fate)>,
}

/// The places of a table's stored rows.
#[derive(Debug, Drop)]
pub struct Layout {
    /// Of each place its name and the type of its values.
    pub columns: List<(Name, Ty)>,
    /// Whether the last place is the mark, which is true exactly while the row's new half is missing.
    pub mark: bool,
}

impl Copying for Fate {
    fn copy(&self, alloc: Global) -> Result<Fate, NoMemory> {
        match self {
            Fate::Kept(lens) => Ok(Fate::Kept(lens.copy(alloc)?)),
            Fate::Created => Ok(Fate::Created),
            Fate::Dropped => Ok(Fate::Dropped),
        }
    }
}

impl Copying for Plan {
    fn copy(&self, alloc: Global) -> Result<Plan, NoMemory> {
        Ok(Plan {
            schema: self.schema.copy(alloc)?,
            fates: self.fates.copy(alloc)?,
        })
    }
}

impl Copying for Layout {
    fn copy(&self, alloc: Global) -> Result<Layout, NoMemory> {
        let mut columns = List::new(alloc);
        for (name, ty) in self.columns.as_slice() {
            columns.push((name.copy(alloc)?, *ty))?;
        }
        Ok(Layout {
            columns,
            mark: self.mark,
        })
    }
}
