//! The versions that stand, what is known of one that is gone, and the view of a table.
use mig_lens::Fate;
use sql_base::{List, Name, Schema};

/// How far a migration has come, and what it has beside the current version.
#[derive(Drop)]
pub enum Stage {
    /// No migration is active, and no step of tidying is left.
    Calm,
    /// A migration is active: its new version stands beside the current one.
    Both {
        /// The new version's name, another than the current one's.
        name: Name,
        /// The new version's tables.
        schema: Schema,
        /// The fate of each table, by its number.
        fates: List<(u32, Fate)>,
    },
    /// A migration was completed, and C2 is next. The current version is the one that it made.
    AfterFirst {
        /// The tables of the version that stood before.
        lost: Schema,
        /// The migration's fates.
        fates: List<(u32, Fate)>,
    },
    /// C2 is done too, and C3 is next.
    AfterSecond {
        /// The tables of the version that stood before.
        lost: Schema,
        /// The migration's fates.
        fates: List<(u32, Fate)>,
    },
    /// A migration was rolled back, and B2 is next. The current version is the one that stood before it.
    RolledBack {
        /// The tables of the version that the migration made.
        lost: Schema,
        /// The migration's fates.
        fates: List<(u32, Fate)>,
    },
}

/// What is known of the versions: the current one, and the stage.
#[derive(Drop)]
pub struct Known {
    /// The current version's name.
    pub name: Name,
    /// The current version's tables.
    pub schema: Schema,
    /// How far a migration has come.
    pub stage: Stage,
}

/// The view of a table in a version.
#[derive(Drop)]
pub struct View {
    /// The table's name in the version.
    pub name: Name,
    /// Of each column of the version, in order, its name and its place among those of a stored row, from 0.
    pub columns: List<(Name, u32)>,
}
