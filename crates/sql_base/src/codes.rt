//! The codes that a refused statement carries.

/// An SQLSTATE code, as the PostgreSQL manual lists them. It is printed without the leading `C`.
///
/// Which code some refusals carry is our own: every type fault is 42804, every passed limit 54000.
#[derive(Clone, Copy, Debug, PartialEq, Eq)]
pub enum Code {
    /// A number is out of range.
    C22003,
    /// Division by zero.
    C22012,
    /// A text doesn't read as a value of the type.
    C22P02,
    /// NULL in a column that takes none.
    C23502,
    /// A key or a unique constraint's values stand twice.
    C23505,
    /// A check is false.
    C23514,
    /// Not supported: a key column is updated.
    C0A000,
    /// The text reads as no statement.
    C42601,
    /// A column is named twice.
    C42701,
    /// No such column.
    C42703,
    /// A value has another type than its place.
    C42804,
    /// No such table.
    C42P01,
    /// Out of memory.
    C53200,
    /// A limit of this program is passed.
    C54000,
}
