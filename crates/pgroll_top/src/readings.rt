//! What a line reads as.
ghost use Rattle.std.specs.Prelude.{IfOk};
ghost use Rattle.pgroll_top.specs.Work as spec;

use machine::Reading;
use sql_base::NoMemory;
use sql_parse::{ParseFault, parse_stmt};
use std::alloc::Global;

/// The most bytes that a line may have to be read. (This limit is our own.)
const MAX_STATEMENT: usize = 4_096;

/// What a line reads as: the statement that it is; or none, since it is too long, or for its first fault. An error is want
/// of memory.
pub fn reading(alloc: Global, line: &[u8]) -> Result<Reading, NoMemory>
    ensures { IfOk result (λ reading. spec.ReadsAs line.now reading) }
{
    if line.len() > MAX_STATEMENT {
        return Ok(Reading::TooLong);
    }
    match parse_stmt(alloc, line) {
        Ok(stmt) => Ok(Reading::Stmt(stmt)),
        Err(ParseFault::Syntax { .. }) => Ok(Reading::Syntax),
        Err(ParseFault::Wide { .. }) => Ok(Reading::Wide),
        Err(ParseFault::Deep) => Ok(Reading::Deep),
        Err(ParseFault::NoMemory) => Err(NoMemory),
    }
}
