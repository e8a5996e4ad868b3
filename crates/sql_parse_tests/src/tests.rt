mod expressions;
mod statements;

use sql_parse::ParseFault;
use std::alloc::Global;
use std::test::Fail;

// The longest text that is read.
const MOST: usize = 65_536;

// A fault, in words.
fn told(alloc: Global, fault: ParseFault) -> Result<String, Fail> {
    match fault {
        ParseFault::Syntax { at } => Ok(format!(in alloc; "syntax {at}")?),
        ParseFault::Wide { at } => Ok(format!(in alloc; "wide {at}")?),
        ParseFault::Deep => Ok(String::from_str(alloc, "deep")?),
        ParseFault::NoMemory => Ok(String::from_str(alloc, "no memory")?),
    }
}
