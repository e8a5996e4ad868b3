//! What the lines of an input say.
use sql_base::{List, Name, SqlBytes};

/// A command that runs, without the backslash that its line begins with.
#[derive(Debug, Drop)]
pub enum Order {
    /// `\start TEXT`: the migration of this text is to be started. The text is the rest of the line, and may be empty.
    Start(SqlBytes),
    /// `\batch N`: one batch of at most N rows is to be filled.
    Batch(u32),
    /// `\fill`: all rows are to be filled.
    Fill,
    /// `\complete`: the migration is to be completed.
    Complete,
    /// `\rollback`: the migration is to be taken back.
    Rollback,
}

/// A line that isn't passed by.
#[derive(Debug, Drop)]
pub enum Line {
    /// A text that is to be said. It may be a statement, or none.
    Text(SqlBytes),
    /// A command.
    Command(Order),
}

/// Any command, that one too which `exec` doesn't run yet.
#[derive(Debug, Drop)]
pub enum AnyCommand {
    /// A command that runs.
    Order(Order),
    /// `\status`: how far the migration has come is to be told.
    Status,
}

/// A line that isn't passed by, of an input in which every command is known.
#[derive(Debug, Drop)]
pub enum AnyLine {
    /// A text that is to be said. It may be a statement, or none.
    Text(SqlBytes),
    /// A command.
    Command(AnyCommand),
}

/// A lane of a script.
#[derive(Debug, Drop)]
pub struct LaneText {
    /// The lane's name.
    pub name: Name,
    /// The version that is the lane's first path, in small letters.
    pub version: Name,
    /// The texts that the lane says, in order. Each may be a statement, or none.
    pub lines: List<SqlBytes>,
}

/// A script: what is said side by side, and the commands that are given meanwhile.
#[derive(Debug, Drop)]
pub struct Script {
    /// The lanes, in order.
    pub lanes: List<LaneText>,
    /// The commands of the control block, in order.
    pub control: List<AnyCommand>,
}
