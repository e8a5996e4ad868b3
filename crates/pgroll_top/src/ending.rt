//! How a call ends.
ghost use Rattle.std.specs.Prelude.{◌≡◌, ◌≤◌, [], OnOk, OnErr};
ghost use Rattle.std.specs.Io.KnownBytes.{Appends};
ghost use Rattle.pg_io.specs.Causes.{HasExactCause};
ghost use Rattle.pg_io.specs.Outside.{Cut, known};
ghost use Rattle.pgroll_top.specs.Parts.{end_of_fault, end_of_script, end_of_work};
ghost use Rattle.pgroll_top.specs.Top.{Closes, end_line};

use itoa::Buffer;
use pg_io::{Failed, InputFault, Sink, write_whole};
use sql_base::{NoMemory, ScriptFault};

/// The usage line.
const USAGE: &[u8] = b"usage: pgroll_cli JOURNAL COMMAND [ARGS] [--batch N] [--pause-at N]\n";

/// Why the work on an input stopped before its end.
#[derive(Clone, Copy, Debug, PartialEq, Eq)]
pub enum Stop {
    /// The writing of a line failed.
    WriteFault,
    /// Memory was wanting for a line.
    NoMemory,
}

impl From<Failed> for Stop {
    ghost use Rattle.pgroll_top.specs.declared.ending.Stop.TheVariants.{WriteFault};

    ghost from_gives = { λ _ stop. stop ≡ WriteFault };

    fn from(_fault: Failed) -> Self {
        Stop::WriteFault
    }
}

impl From<NoMemory> for Stop {
    ghost use Rattle.pgroll_top.specs.declared.ending.Stop.TheVariants.{NoMemory};

    ghost from_gives = { λ _ stop. stop ≡ NoMemory };

    fn from(_refused: NoMemory) -> Self {
        Stop::NoMemory
    }
}

/// How a call ends, but for a fault in writing its lines.
#[derive(Clone, Copy, Debug, PartialEq, Eq)]
pub enum End {
    /// All is done, and no command was refused.
    Done,
    /// All is done, and a command was refused.
    Refused,
    /// The words aren't of a form.
    Usage,
    /// A read of the input failed.
    ReadFault,
    /// The input is longer than its limit.
    InputTooLong,
    /// The line of this number, from 1, is the first that breaks the rules of inputs: P21.
    BadScript(u32),
    /// Memory was wanting outside an entry.
    WantOfMemory,
}

impl End {
    ghost use Rattle.std.specs.Prelude.{◌≡◌};
    ghost use Rattle.pgroll_top.specs.Top.{status_of};

    fn status(self) -> u8
        ensures { result ≡ status_of self }
    {
        match self {
            End::Done => 0,
            End::Refused | End::BadScript(_) => 1,
            End::Usage => 2,
            End::ReadFault => 3,
            End::WantOfMemory => 6,
            End::InputTooLong => 8,
        }
    }
}

/// The status where the writing of a line failed.
pub const WRITE_FAULT: u8 = 4;

// Writes the line of an input that breaks the rules at the line of this number.
fn write_bad_script<K: Sink>(out: &mut K, number: u32) -> Result<(), Failed>
    ensures whole { OnOk result (Appends (K.held out.old) (K.held out.new) (end_line (End.BadScript number))) }
    ensures cut { OnErr result (Cut (known K.held K.faults out.old out.new) [] (end_line (End.BadScript number))) }
    ensures cause { HasExactCause (K.faults out.old) (K.faults out.new) result }
{
    let mut digits = Buffer::new();
    write_whole(out, b"0 control REFUSED P21 ")?;
    write_whole(out, digits.format(number).as_bytes())?;
    write_whole(out, b"\n")?;
    Ok(())
}

// Writes the line of an end, where it has one.
fn write_line<K: Sink>(out: &mut K, end: End) -> Result<(), Failed>
    ensures whole { OnOk result (Appends (K.held out.old) (K.held out.new) (end_line end)) }
    ensures cut { OnErr result (Cut (known K.held K.faults out.old out.new) [] (end_line end)) }
    ensures cause { HasExactCause (K.faults out.old) (K.faults out.new) result }
{
    match end {
        End::Done | End::Refused => write_whole(out, b""),
        End::Usage => write_whole(out, USAGE),
        End::ReadFault => write_whole(out, b"0 control ERROR read\n"),
        End::InputTooLong => write_whole(out, b"0 control ERROR input\n"),
        End::BadScript(number) => write_bad_script(out, number),
        End::WantOfMemory => write_whole(out, b"0 control ERROR memory\n"),
    }
}

/// Writes the line of an end, and answers the status; where a write fails, that is 4.
pub fn close<K: Sink>(out: &mut K, end: End) -> u8
    ensures closes { Closes (known K.held K.faults out.old out.new) [] end result }
    ensures later { K.faults out.old ≤ K.faults out.new }
{
    match write_line(out, end) {
        Ok(()) => end.status(),
        Err(_) => WRITE_FAULT,
    }
}

/// The end of a call that did all its work; whether a command was refused.
pub fn end_of_work(refused: bool) -> End
    ensures { result ≡ end_of_work refused }
{
    if refused { End::Refused } else { End::Done }
}

/// The end of a call whose input doesn't read.
pub fn end_of_script(fault: ScriptFault) -> End
    ensures { result ≡ end_of_script fault }
{
    match fault {
        ScriptFault::Line(number) => End::BadScript(number),
        ScriptFault::NoMemory => End::WantOfMemory,
    }
}

/// The end of a call whose input wasn't read to its end.
pub fn end_of_fault(fault: InputFault) -> End
    ensures { result ≡ end_of_fault fault }
{
    match fault {
        InputFault::Failed => End::ReadFault,
        InputFault::TooLong => End::InputTooLong,
        InputFault::NoMemory => End::WantOfMemory,
    }
}
