//! The lines that are commands.
ghost use Rattle.std.specs.Prelude.{◌≡◌, ◌<◌, ◌≤◌, ◌^◌, ℕ, List, Option, true, length, IfOk};
ghost use Rattle.std.specs.Char.{is_ascii_digit};
ghost use Rattle.std.specs.List.{list_all};
ghost use Rattle.std.specs.Option.{option_copied};
ghost use Rattle.std.specs.Str.{byte};
ghost use Rattle.std.specs.Str.Parse.{digits_value};
ghost use Rattle.script_text.specs.Input.{begins_with};
ghost use Rattle.script_text.specs.Script as spec;

use crate::lines::{AnyCommand, AnyLine, Line, Order};
use sql_base::{NoMemory, SqlBytes};
use std::alloc::Global;

/// The most digits of a batch's size.
const MAX_DIGITS: usize = 9;

/// What a line that isn't passed by may say.
pub trait LineForm: Drop {
    ghost said: { List ℕ → Option Self };

    /// What this line says, or `None` where it begins with a backslash and is no command. An error is want of memory.
    fn of_line(alloc: Global, line: &[u8]) -> Result<Option<Self>, NoMemory>
        ensures { IfOk result (λ read. read ≡ said line.now) };
}

/// What stands behind this front, in a line that begins with it.
pub fn behind<'a>(front: &[u8], line: &'a [u8]) -> Option<&'a [u8]>
    ensures { option_copied result ≡ spec.behind front.now line.now }
{
    line.strip_prefix(front)
}

fn are_digits(text: &[u8]) -> bool
    ensures { result ≡ list_all is_ascii_digit text.now }
{
    text.iter().all(|byte| byte.is_ascii_digit())
}

fn is_count(digits: &[u8]) -> bool
    ensures { result ≡ spec.is_count digits.now }
{
    are_digits(digits) && !digits.is_empty() && digits.len() <= MAX_DIGITS
}

// The number that these digits are.
fn count_of(digits: &[u8]) -> u32
    requires digits { list_all is_ascii_digit digits.now ≡ true }
    requires few { length digits.now ≤ 9 }
    ensures { result ≡ digits_value 10 digits.now }
{
    let mut count = 0;
    for digit in digits {
        count = count * 10 + u32::from(*digit - b'0');
    }
    count
}

fn batch_of(digits: &[u8]) -> Option<Order>
    ensures { result ≡ spec.batch_of digits.now }
{
    if is_count(digits) {
        Some(Order::Batch(count_of(digits)))
    } else {
        None
    }
}

fn word_of(line: &[u8]) -> Option<Order>
    ensures { result ≡ spec.word_of line.now }
{
    if line == b"\\fill".as_slice() {
        Some(Order::Fill)
    } else if line == b"\\complete".as_slice() {
        Some(Order::Complete)
    } else if line == b"\\rollback".as_slice() {
        Some(Order::Rollback)
    } else {
        None
    }
}

// The command that a line is.
fn order_of(alloc: Global, line: &[u8]) -> Result<Option<Order>, NoMemory>
    ensures { IfOk result (λ order. order ≡ spec.order_of line.now) }
{
    if let Some(text) = behind(b"\\start ", line) {
        let text = SqlBytes::from_vec(Vec::from_slice(alloc, text)?);
        return Ok(Some(Order::Start(text)));
    }
    match behind(b"\\batch ", line) {
        Some(digits) => Ok(batch_of(digits)),
        None => Ok(word_of(line)),
    }
}

// The command that a line is, of those that don't run yet: `\status`.
fn further_of(line: &[u8]) -> Option<AnyCommand>
    ensures { result ≡ spec.further_of line.now }
{
    if line == b"\\status".as_slice() {
        Some(AnyCommand::Status)
    } else {
        None
    }
}

// The command that a line is, of all.
fn command_of(alloc: Global, line: &[u8]) -> Result<Option<AnyCommand>, NoMemory>
    ensures { IfOk result (λ command. command ≡ spec.command_of line.now) }
{
    match order_of(alloc, line)? {
        Some(order) => Ok(Some(AnyCommand::Order(order))),
        None => Ok(further_of(line)),
    }
}

// Whether a line is to be a command.
fn is_command(line: &[u8]) -> bool
    ensures { result ≡ begins_with (byte "\\") line.now }
{
    line.first() == Some(&b'\\')
}

fn text_of(alloc: Global, line: &[u8]) -> Result<SqlBytes, NoMemory>
    ensures { IfOk result (λ text. text ≡ line.now) }
{
    Ok(SqlBytes::from_vec(Vec::from_slice(alloc, line)?))
}

impl LineForm for Line {
    ghost said = { spec.line_of };

    fn of_line(alloc: Global, line: &[u8]) -> Result<Option<Line>, NoMemory> {
        if is_command(line) {
            return match order_of(alloc, line)? {
                Some(order) => Ok(Some(Line::Command(order))),
                None => Ok(None),
            };
        }
        Ok(Some(Line::Text(text_of(alloc, line)?)))
    }
}

impl LineForm for AnyLine {
    ghost said = { spec.any_line_of };

    fn of_line(alloc: Global, line: &[u8]) -> Result<Option<AnyLine>, NoMemory> {
        if is_command(line) {
            return match command_of(alloc, line)? {
                Some(command) => Ok(Some(AnyLine::Command(command))),
                None => Ok(None),
            };
        }
        Ok(Some(AnyLine::Text(text_of(alloc, line)?)))
    }
}
