//! How far a journal has come.

/// How far a journal has come.
#[derive(Clone, Copy, Debug, PartialEq, Eq)]
pub enum Phase {
    /// Its records are being read.
    Reading,
    /// All were read, and records can be appended.
    Standing,
    /// An append failed before its record's gate was touched: no crash leaves the record.
    Fallen,
    /// An append failed after its record's gate was touched: a crash leaves the record or doesn't.
    Undecided,
}
