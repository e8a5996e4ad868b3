//! What a record says.
use sql_base::{List, SqlBytes, Value};

/// What is left of a row.
#[derive(Debug, Drop)]
pub struct RecordedRow {
    /// Its key.
    pub key: i64,
    /// The values that are stored under it, or `None` where it was removed.
    pub values: Option<List<Value>>,
}

/// One change of what is stored.
#[derive(Debug, Drop)]
pub enum Record {
    /// A migration was started. The text is its canonical JSON, which nobody looks at here.
    Start(SqlBytes),
    /// Rows were written or removed.
    Rows {
        /// The number of their table.
        table: u32,
        /// The rows, in ascending key.
        rows: List<RecordedRow>,
    },
    /// A step of completing or of rolling back was done: 1, 2 and 3 are those of completing, 4 and 5 those of rolling
    /// back.
    Step(u8),
}
