//! A list of records on a disk, each of them on it before it counts.
#![tactic(auto)]

mod gates;
mod keeping;
mod laws;
mod memory;
mod pieces;
mod stage;
#[cfg(test)]
mod tests;
mod through;

pub use gates::{Attached, JOURNAL_LIMIT, Journal};
pub use keeping::{KeepFault, Keeper};
pub use laws::{a_file_reads_as_one_list, a_journal_has_its_beginning};
pub use memory::MemKeeper;
pub use pieces::{JournalFault, RECORD_LIMIT};
pub use stage::Phase;
