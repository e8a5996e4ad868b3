//! The top call: its words, its input, its work and its end.
ghost use Rattle.std.specs.Prelude.{◌≡◌, ◌⊎◌, ◌≤◌, ◌↔◌, List, IsTrue, codes, string_bytes};
ghost use Rattle.pg_io.specs.Causes.{Rose};
ghost use Rattle.pg_io.specs.Outside.{known, PassesLimit, IsWithin, IsBeyond};
ghost use Rattle.machine.specs.declared.events.Entry.{Entry};
ghost use Rattle.machine.specs.State.{beginning};
ghost use Rattle.pgroll_top.specs.Top.{texts, IsForm, HasInput, HasBadLine, IsDone, Explains, TellsRefusal, limit};

use crate::ending::{End, Stop, WRITE_FAULT, close, end_of_fault, end_of_script, end_of_work};
use crate::exec::work;
use pg_io::{Sink, Source, read_whole};
use script_text::read_exec;
use std::alloc::Global;

/// The longest input, in bytes.
const LIMIT: usize = 65_536;

fn is_exec(word: &String) -> bool
    ensures { IsTrue result ↔ (string_bytes word.now ≡ codes "exec") }
{
    word.as_str() == "exec"
}

// Whether the words are the one form that there is.
fn is_form(words: &[String]) -> bool
    ensures { IsTrue result ↔ IsForm (texts words.now) }
{
    match words {
        [word] => is_exec(word),
        _ => false,
    }
}

// Reads the input, does what its lines say, in order, and writes a line for each.
fn perform<S: Source, K: Sink>(alloc: Global, words: &[String], input: &mut S, out: &mut K) -> u8
    ensures history { (history : List Entry) × Explains (texts words.now) beginning
        (known S.left S.faults input.old input.new) (known K.held K.faults out.old out.new) result history }
    ensures input_later { S.faults input.old ≤ S.faults input.new }
    ensures out_later { K.faults out.old ≤ K.faults out.new }
{
    if !is_form(words) {
        return close(out, End::Usage);
    }
    let text = match read_whole(alloc, input, LIMIT) {
        Ok(text) => text,
        Err(fault) => return close(out, end_of_fault(fault)),
    };
    let lines = match read_exec(alloc, &text) {
        Ok(lines) => lines,
        Err(fault) => return close(out, end_of_script(fault)),
    };
    match work(alloc, lines.as_slice(), out) {
        Ok(refused) => close(out, end_of_work(refused)),
        Err(Stop::NoMemory) => close(out, End::WantOfMemory),
        Err(Stop::WriteFault) => WRITE_FAULT,
    }
}

/// Does what the words ask for, and answers the status that the program ends with.
///
/// The one form of words is `exec` alone. It reads the input to its end, where it has at most 65,536 bytes, and then
/// takes its lines in order. Empty lines, lines of spaces alone and lines that begin with `--` are passed by. A line
/// that begins with a backslash is a command of control: `\start TEXT` starts the migration of this JSON text,
/// `\batch N` fills at most N rows, `\fill` fills batches of 1,000 rows up to one that fills none, and `\complete` and
/// `\rollback` do the steps of completing, or of rolling back, that are due. Each other line is one statement of `main`, through the path that the last
/// `SET search_path` before it gave, at first the version `01_users`, whose one table `users` is empty. For each
/// event a line with its number and its reply is written, and behind the line of a SELECT one for each row.
///
/// The statuses, with the line that each writes besides (the numbers and the texts are our own):
///
/// - 0: all is done, and no command was refused; an `ERROR` reply of a statement doesn't change it.
/// - 1: all is done, and a command was refused, which its line says; or a line of the input begins with a backslash
///   and is no command: `0 control REFUSED P21 n`, where the n-th line, from 1, is the first such, and no event is done.
/// - 2: the words aren't of a form: the usage line, and nothing is read.
/// - 3: a read of the input failed: `0 control ERROR read`, and no event is done.
/// - 4: the writing of a line failed; nothing is written after it, and no later event is done.
/// - 6: the call gave up for want of memory outside an event: `0 control ERROR memory`. No clause says that memory
///   was wanting.
/// - 8: the input is longer than its limit: `0 control ERROR input`, and no event is done.
pub fn top<S: Source, K: Sink>(alloc: Global, words: &[String], input: &mut S, out: &mut K) -> u8
    // One history explains the status, what was read and what was written.
    ensures history { (history : List Entry) × Explains (texts words.now) beginning
        (known S.left S.faults input.old input.new) (known K.held K.faults out.old out.new) result history }

    // Why there is which status; want of memory alone needs no cause.
    ensures usage { result ≡ 2 → ¬ IsForm (texts words.now) }
    ensures read_fault { result ≡ 3 → Rose (S.faults input.old) (S.faults input.new) }
    ensures write_fault { result ≡ 4 → Rose (K.faults out.old) (K.faults out.new) }
    ensures refused { result ≡ 1 → TellsRefusal (known K.held K.faults out.old out.new) }
    ensures too_long { result ≡ 8 → PassesLimit limit (S.left input.old) (S.left input.new) }

    // A fault of the outside is told by the status, and isn't passed over.
    ensures write_told { (result ≡ 4) ⊎ (K.faults out.new ≡ K.faults out.old) }
    ensures read_told { (result ≡ 3) ⊎ ((result ≡ 4) ⊎ (S.faults input.new ≡ S.faults input.old)) }

    // Where nothing failed, a form with its input within the limit is done, unless memory is wanting.
    ensures complete { IsForm (texts words.now) → (HasInput (texts words.now) → IsWithin limit (S.left input.old))
        → ¬ Rose (S.faults input.old) (S.faults input.new) → ¬ Rose (K.faults out.old) (K.faults out.new)
        → IsDone result ⊎ (result ≡ 6) }
    ensures complete_script { HasInput (texts words.now) → HasBadLine (S.left input.old)
        → ¬ Rose (S.faults input.old) (S.faults input.new) → ¬ Rose (K.faults out.old) (K.faults out.new)
        → (result ≡ 1) ⊎ (result ≡ 6) }
    ensures complete_long { HasInput (texts words.now) → IsBeyond limit (S.left input.old)
        → ¬ Rose (S.faults input.old) (S.faults input.new) → ¬ Rose (K.faults out.old) (K.faults out.new)
        → (result ≡ 8) ⊎ (result ≡ 6) }
    ensures complete_usage { ¬ IsForm (texts words.now) → ¬ Rose (K.faults out.old) (K.faults out.new) → result ≡ 2 }

    // The counts of faults never fall.
    ensures input_later { S.faults input.old ≤ S.faults input.new }
    ensures out_later { K.faults out.old ≤ K.faults out.new }
{
    machine::laws::only_commands_are_refused();
    perform(alloc, words, input, out)
}
