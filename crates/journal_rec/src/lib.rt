//! What a journal's records say, as bytes and back.
#![tactic(auto)]

mod faults;
mod fields;
mod laws;
mod order;
mod reading;
mod records;
#[cfg(test)]
mod tests;
mod writing;

pub use faults::RecordFault;
pub use laws::{
    a_body_has_its_size, a_body_is_of_one_record, a_body_is_read_as_its_record, rows_are_bounded,
};
pub use reading::read_record;
pub use records::{Record, RecordedRow};
pub use writing::write_record;
