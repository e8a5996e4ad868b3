//! The values, expressions, statements and shapes that every other crate speaks of.
#![tactic(auto)]

mod codes;
mod copies;
mod exprs;
mod faults;
mod lists;
mod maps;
mod memory;
mod rows;
mod shapes;
mod stmts;
mod texts;
mod trees;
mod values;
mod weights;

pub use codes::Code;
pub use copies::Copying;
pub use exprs::{Arm, BinOp, Expr, Func};
pub use faults::{EvalFault, RowFault, ScriptFault, TypeFault};
pub use lists::List;
pub use maps::try_map;
pub use memory::NoMemory;
pub use rows::{has_type, row_fits};
pub use shapes::{Check, Column, Schema, Shape, Unique};
pub use stmts::{Items, Stmt};
pub use texts::{Name, SqlBytes, SqlText};
pub use trees::{depth, names_column};
pub use values::{Ty, Value};
pub use weights::{value_weight, weight};
