//! Reading an input to its first fault or to its end.
ghost use Rattle.std.specs.Prelude.{◌≤◌, length, IfOk};
ghost use Rattle.script_text.specs.Script as spec;
ghost use Rattle.script_text.specs.Steps.{line_at};

use crate::lines::{AnyLine, Line};
use crate::orders::LineForm;
use crate::splitting::{is_passed, split_line};
use sql_base::{List, ScriptFault};
use std::alloc::Global;

// What the line of this number says.
fn line_at<L: LineForm>(alloc: Global, number: u32, line: &[u8]) -> Result<L, ScriptFault>
    ensures { spec.Answers (line_at L.said number line.now) result }
{
    match L::of_line(alloc, line)? {
        Some(read) => Ok(read),
        None => Err(ScriptFault::Line(number)),
    }
}

// The lines that aren't passed by, in order.
fn lines_of<L: LineForm>(alloc: Global, text: &[u8]) -> Result<List<L>, ScriptFault>
    requires { length text.now ≤ 16777216 }
    ensures reading { spec.Answers (spec.lines_of L.said text.now) result }
    ensures few { IfOk result (λ lines. length lines ≤ length text.now) }
{
    let mut lines = List::new(alloc);
    let mut number = 0;
    let mut rest = text;
    while !rest.is_empty() {
        let (line, after) = split_line(rest);
        rest = after;
        number += 1;
        if !is_passed(line) {
            lines.push(line_at(alloc, number, line)?)?;
        }
    }
    Ok(lines)
}

/// The lines of an input that aren't passed by, in order: what each says, of the commands that run.
///
/// A line ends with a newline, which the last one may lack; a carriage return directly before a newline belongs to the
/// line's end. Empty lines, lines of spaces alone and lines that begin with `--` are passed by. A line that begins with
/// a backslash is a command: `\start TEXT` and `\batch N`, where N has 1 to 9 digits, each with one space, `\fill`,
/// `\complete` and `\rollback`. Every other line is a text. These rules are our own.
///
/// `Line` comes exactly where a line begins with a backslash and is none of these commands, with the number of the
/// first such line. Lines are counted from 1, and those that are passed by count.
pub fn read_exec(alloc: Global, text: &[u8]) -> Result<List<Line>, ScriptFault>
    requires { length text.now ≤ 16777216 }
    ensures reading { spec.Answers (spec.script_of text.now) result }
    ensures few { IfOk result (λ lines. length lines ≤ length text.now) }
{
    lines_of(alloc, text)
}

/// The lines of an input that aren't passed by, in order: what each says, of all commands.
///
/// The rules are those of `read_exec`, where `\status` is a command too.
///
/// `Line` comes exactly where a line begins with a backslash and is no command, with the number of the first such line.
pub fn read_any_lines(alloc: Global, text: &[u8]) -> Result<List<AnyLine>, ScriptFault>
    requires { length text.now ≤ 16777216 }
    ensures reading { spec.Answers (spec.lines_of spec.any_line_of text.now) result }
    ensures few { IfOk result (λ lines. length lines ≤ length text.now) }
{
    lines_of(alloc, text)
}
