//! Migrations, the lens between a table's two shapes, and how rows are stored while both versions stand.
#![tactic(auto)]

mod columns;
mod faults;
mod halves;
pub mod laws;
mod layouts;
mod migrations;
mod plans;

pub use columns::{Cell, Lens, Side};
pub use faults::{Kind, Member, Place, PlanFault, Refusal};
pub use halves::{backward, forward, unfilled};
pub use layouts::layout;
pub use migrations::{ColumnDef, Migration, Op, Ways};
pub use plans::{Fate, Layout, Plan};
