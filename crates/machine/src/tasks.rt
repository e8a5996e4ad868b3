//! What is asked of the machine, a line at a time.
use crate::events::{Asked, Reading};

/// What one line of an input asks for. Each task is one event or several, one after another.
#[derive(Drop)]
pub enum Task {
    /// A line is to be said: one event. A statement goes through the path that the last SET before it gave.
    Say(Reading),
    /// A migration is to be started: one event.
    Start(Asked),
    /// One batch of at most so many rows is to be filled: one event.
    Batch(u32),
    /// All rows are to be filled: batches of 1,000 rows, up to one that fills none, that is refused, or for which memory
    /// was wanting.
    Fill,
    /// The migration is to be completed: step by step, up to the last one or to a refusal.
    Complete,
    /// The migration is to be rolled back: step by step, up to the last one or to a refusal.
    Rollback,
}
