//! Reading the words.
ghost use Rattle.std.specs.Prelude.{◌≡◌, ◌≢◌, [], IfOk, MatchOption, codes, map, option_map};
ghost use Rattle.clap.specs.Words.{all_of, app_of, first_of, found_of, rows_of};
ghost use Rattle.words.specs.Forms as forms;
ghost use Rattle.words.specs.Words as spec;

use crate::forms::{Command, Form, form_of};
use crate::numbers::{number_between, number_of};
use crate::texts::texts_of;
use clap::error::ErrorKind;
use clap::{Arg, ArgMatches, Command as App};
use sql_base::NoMemory;
use std::alloc::Global;

/// The rows of a batch where `--batch` isn't given.
const BATCH: u32 = 1000;

/// The most rows of a batch.
const MAX_BATCH: u32 = 10_000;

// The command line: a command, its values and two options.
fn app<'a>(alloc: Global) -> Result<App<'a>, NoMemory>
    ensures { IfOk result (λ app. app_of app ≡ spec.app) }
{
    let name = Arg::new(alloc, "command").required(true);
    let values = Arg::new(alloc, "values").num_args(0..=4);
    let batch = Arg::new(alloc, "batch").long("batch");
    let pause = Arg::new(alloc, "pause-at").long("pause-at");
    let plain = App::new(alloc, "words")
        .no_binary_name(true)
        .disable_help_flag(true)
        .disable_version_flag(true);
    let first = plain.arg(name)?;
    let second = first.arg(values)?;
    let third = second.arg(batch)?;
    let whole = third.arg(pause)?;
    Ok(whole)
}

// What the words hold, or `None` exactly where they are refused.
fn matches_of<'a>(alloc: Global, words: &'a [&'a str]) -> Result<Option<ArgMatches<'a>>, NoMemory>
    ensures { let texts = map (λ word. word.now) words.entry.now in IfOk result (λ found. MatchOption found
        (spec.refusals texts ≢ [])
        (λ m. (spec.refusals texts ≡ []) × (rows_of (found_of m) ≡ spec.rows texts))) }
{
    let app = app(alloc)?;
    match app.try_get_matches_from(words) {
        Ok(matches) => Ok(Some(matches)),
        Err(error) => match error.kind() {
            ErrorKind::OutOfMemory => Err(NoMemory),
            _ => Ok(None),
        },
    }
}

fn batch_of(text: Option<&str>) -> Option<u32>
    ensures { result ≡ forms.batch_of (option_map (λ t. t.now) text.entry) }
{
    match text {
        Some(text) => number_between(text, 1, MAX_BATCH),
        None => Some(BATCH),
    }
}

fn pause_of(text: Option<&str>) -> Option<u64>
    ensures { result ≡ forms.pause_of (option_map (λ t. t.now) text.entry) }
{
    match text {
        Some(text) => number_of(text),
        None => Some(u64::MAX),
    }
}

// The first value of an argument.
fn first_of<'a>(matches: &ArgMatches<'a>, id: &str) -> Option<&'a str>
    ensures { option_map (λ text. text.now) result ≡ first_of id.now (rows_of (found_of matches.now)) }
{
    matches.get_str(id)
}

// All values behind the command.
fn values_of<'m, 'a>(matches: &'m ArgMatches<'a>) -> Option<&'m [&'a str]>
    ensures { option_map (λ values. map (λ text. text.now) values.now) result
        ≡ all_of (codes "values") (rows_of (found_of matches.now)) }
{
    matches.get_strs("values")
}

// The form of what was found.
fn form_in(alloc: Global, matches: &ArgMatches) -> Result<Option<Form>, NoMemory>
    ensures { IfOk result (λ form. form ≡ spec.form_in (rows_of (found_of matches.now))) }
{
    let word = first_of(matches, "command").unwrap_or("");
    match values_of(matches) {
        Some(values) => form_of(alloc, word, values),
        None => form_of(alloc, word, &[]),
    }
}

// What was found asks for.
fn command_in(alloc: Global, matches: &ArgMatches) -> Result<Option<Command>, NoMemory>
    ensures { IfOk result (λ command. command ≡ spec.command_in (rows_of (found_of matches.now))) }
{
    let Some(form) = form_in(alloc, matches)? else {
        return Ok(None);
    };
    let Some(batch) = batch_of(first_of(matches, "batch")) else {
        return Ok(None);
    };
    match pause_of(first_of(matches, "pause-at")) {
        Some(pause_at) => Ok(Some(Command {
            form,
            batch,
            pause_at,
        })),
        None => Ok(None),
    }
}

// What the words ask for, or `None` exactly where they have no form.
fn command_of<'a>(alloc: Global, words: &'a [&'a str]) -> Result<Option<Command>, NoMemory>
    ensures { IfOk result (λ command. command ≡ spec.form_with (map (λ word. word.now) words.entry.now)) }
{
    match matches_of(alloc, words)? {
        Some(matches) => command_in(alloc, &matches),
        None => Ok(None),
    }
}

/// What the words behind the journal's ask for, or `None` exactly where they have no form. An error is want of memory.
///
/// The forms are `init`, `exec`, `start`, `fill`, `complete`, `rollback`, `status`, `run`, `load TABLE VERSION`,
/// `gen PART NUMBER ROWS LANES` with PART `setup` or `lanes`, and `trial NUMBER ROWS LANES`. TABLE and VERSION are plain
/// identifiers, and capitals stand for small letters. Numbers are 1 to 19 digits: NUMBER is 0 to 2,147,483,647, ROWS 1 to
/// 100,000, and LANES 1 to 63. With each form `--batch N`, N from 1 to 10,000 and by default 1,000, and `--pause-at N`, by
/// default 18,446,744,073,709,551,615, may be given, as `--batch 5` or `--batch=5`, each at most once. An option stands
/// before or after the command and its values, and not between two values. Behind `--` all words are a command or values;
/// any other word that begins with `-` and has a second byte is refused. A
/// word that isn't UTF-8 has no form. These rules are our own.
pub fn read_words(alloc: Global, words: &[&[u8]]) -> Result<Option<Command>, NoMemory>
    ensures { IfOk result (λ command. command ≡ spec.command_of (map (λ word. word.now) words.now)) }
{
    match texts_of(alloc, words)? {
        Some(texts) => command_of(alloc, &texts),
        None => Ok(None),
    }
}
