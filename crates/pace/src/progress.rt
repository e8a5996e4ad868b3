//! What the functions are asked with.

/// How far the filling is. It is well formed where `done` is at most `total`, and `batch` is 1 to 10,000.
#[derive(Clone, Copy, Debug, PartialEq, Eq)]
pub struct Progress {
    /// The number of rows that have their new half.
    pub done: u32,
    /// The number of rows in all.
    pub total: u32,
    /// How many rows a batch was asked to fill.
    pub batch: u32,
    /// The number of rows at which the filling was asked to pause.
    pub pause: u64,
}

/// Whether the filling goes on.
#[derive(Clone, Copy, Debug, PartialEq, Eq)]
pub enum Turn {
    /// With the next batch.
    Go,
    /// Not in this run.
    Stop,
}
