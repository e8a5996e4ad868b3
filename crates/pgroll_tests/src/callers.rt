//! Callers of the top call whose own contracts follow from its clauses alone.
ghost use Rattle.std.specs.Prelude.{◌≡◌, ◌⊎◌, ◌<◌, ◌≤◌, ◌++◌, List, [], Some, length, IfOk};
ghost use Rattle.pg_io.specs.Causes.{Rose};
ghost use Rattle.machine.specs.declared.events.Entry.{Entry};
ghost use Rattle.machine.specs.State.{beginning};
ghost use Rattle.pgroll_top.specs.declared.ending.End.TheVariants.{Usage, WantOfMemory};
ghost use Rattle.pgroll_top.specs.Top.{HasBadLine, IsForm, end_line, limit, texts};
ghost use Rattle.pgroll_top.specs.Work.{IsHistory, IsShown, Follows, Begins, lines_of};

use pg_io::{MemSink, MemSource};
use pgroll_top::top;
use sql_base::NoMemory;
use std::alloc::Global;

/// The status and the output of a call over an input in memory, where no read and no write is to fail.
pub fn over_memory(
    alloc: Global,
    words: &[String],
    input: Vec<u8>,
) -> Result<(u8, Vec<u8>), NoMemory>
    ensures done { IfOk result (λ r. r.0 ≡ 0 → (history : List Entry) × IsHistory history × Follows (texts words.now) beginning history input.items × (r.1.items ≡ lines_of history) × (length input.items ≤ limit)) }
{
    let mut source = MemSource::new(input, Vec::new(alloc));
    let mut sink = MemSink::new(alloc, Vec::new(alloc));
    let status = top(alloc, words, &mut source, &mut sink);
    Ok((status, Vec::from_slice(alloc, sink.bytes())?))
}

/// The status of a call between a source and a sink in memory.
pub fn between(alloc: Global, words: &[String], input: &mut MemSource, out: &mut MemSink) -> u8
    // All is done: the whole input was read, and the lines of one history were written.
    ensures done { result ≡ 0 → (history : List Entry) × IsHistory history × Follows (texts words.now) beginning history input.old.left
        × (out.new.held ≡ out.old.held ++ lines_of history) × (length input.old.left ≤ limit) }

    // Without the form, and where no write failed, the usage line is written and nothing is read.
    ensures usage { ¬ IsForm (texts words.now) → ¬ Rose out.old.faults out.new.faults
        → (result ≡ 2) × (out.new.held ≡ out.old.held ++ end_line Usage) × (input.new.left ≡ input.old.left) }

    // Memory was wanting, for the input or after its lines were read: the lines of all entries but perhaps the last were written, whole, and then the line that tells it.
    ensures wanting { result ≡ 6 → (history : List Entry) × (shown : List Entry) × IsHistory history
        × ((history ≡ []) ⊎ Begins (texts words.now) beginning history input.old.left) × IsShown shown history × (out.new.held ≡ out.old.held ++ (lines_of shown ++ end_line WantOfMemory)) }

    // An input with a line that breaks the rules is told, unless memory is wanting or something failed.
    ensures bad { IsForm (texts words.now) → HasBadLine (Some input.old.left)
        → ¬ Rose input.old.faults input.new.faults → ¬ Rose out.old.faults out.new.faults → (result ≡ 1) ⊎ (result ≡ 6) }

    // A longer input is told, unless memory is wanting or something failed.
    ensures long { IsForm (texts words.now) → limit < length input.old.left
        → ¬ Rose input.old.faults input.new.faults → ¬ Rose out.old.faults out.new.faults → (result ≡ 8) ⊎ (result ≡ 6) }
{
    top(alloc, words, input, out)
}
