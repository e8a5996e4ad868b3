//! What the words of a command line ask for.
ghost use Rattle.std.specs.Prelude.{◌≡◌, IfOk, map};
ghost use Rattle.sql_text.specs.Identifier.{plain_name};
ghost use Rattle.words.specs.Forms as spec;

use crate::numbers::number_between;
use sql_base::{Name, NoMemory};
use sql_text::name_in;
use std::alloc::Global;

/// A part of a workload.
#[derive(Clone, Copy, Debug, PartialEq, Eq)]
pub enum Part {
    /// `setup`: what stands before the lanes.
    Setup,
    /// `lanes`: the lanes.
    Lanes,
}

/// What is asked for.
#[derive(Debug, Drop)]
pub enum Form {
    /// `init`: a journal is to be made.
    Init,
    /// `exec`: the lines of the input are to be taken in order.
    Exec,
    /// `start`: the migration of the input is to be started and filled.
    Start,
    /// `fill`: all rows are to be filled.
    Fill,
    /// `complete`: the migration is to be completed.
    Complete,
    /// `rollback`: the migration is to be taken back.
    Rollback,
    /// `status`: how far the migration has come is to be told.
    Status,
    /// `run`: the lanes of the input and its commands are to be taken side by side.
    Run,
    /// `load TABLE VERSION`: the records of the input are to be inserted into this table, through this version.
    Load(Name, Name),
    /// `gen PART NUMBER ROWS LANES`: this part of a workload is to be written.
    Gen(Part, u32, u32, u32),
    /// `trial NUMBER ROWS LANES`: this workload is to be run.
    Trial(u32, u32, u32),
}

/// A command line.
#[derive(Debug, Drop)]
pub struct Command {
    /// What is asked for.
    pub form: Form,
    /// The most rows that one batch of filling takes.
    pub batch: u32,
    /// How many filled rows end the filling.
    pub pause_at: u64,
}

/// The most that NUMBER may be.
const MAX_NUMBER: u32 = 2_147_483_647;

/// The most that ROWS may be.
const MAX_ROWS: u32 = 100_000;

/// The most that LANES may be.
const MAX_LANES: u32 = 63;

// The forms of one word.
fn plain_form(word: &str) -> Option<Form>
    ensures { result ≡ spec.plain_form word.now }
{
    match word {
        "init" => Some(Form::Init),
        "exec" => Some(Form::Exec),
        "start" => Some(Form::Start),
        "fill" => Some(Form::Fill),
        "complete" => Some(Form::Complete),
        "rollback" => Some(Form::Rollback),
        "status" => Some(Form::Status),
        "run" => Some(Form::Run),
        _ => None,
    }
}

fn is_quoted(text: &str) -> bool
    ensures { result ≡ spec.is_quoted text.now }
{
    text.as_bytes().first() == Some(&b'"')
}

// The name that a plain identifier is.
fn plain_name(alloc: Global, text: &str) -> Result<Option<Name>, NoMemory>
    ensures { IfOk result (λ name. name ≡ plain_name text.now) }
{
    if is_quoted(text) {
        return Ok(None);
    }
    name_in(alloc, text.as_bytes())
}

fn load_of(alloc: Global, word: &str, table: &str, version: &str) -> Result<Option<Form>, NoMemory>
    ensures { IfOk result (λ form. form ≡ spec.load_of word.now table.now version.now) }
{
    if word != "load" {
        return Ok(None);
    }
    let Some(table) = plain_name(alloc, table)? else {
        return Ok(None);
    };
    match plain_name(alloc, version)? {
        Some(version) => Ok(Some(Form::Load(table, version))),
        None => Ok(None),
    }
}

fn part_of(word: &str) -> Option<Part>
    ensures { result ≡ spec.part_of word.now }
{
    match word {
        "setup" => Some(Part::Setup),
        "lanes" => Some(Part::Lanes),
        _ => None,
    }
}

// The numbers of a workload: NUMBER, ROWS and LANES.
fn workload_of(number: &str, rows: &str, lanes: &str) -> Option<(u32, u32, u32)>
    ensures { result ≡ spec.workload_of number.now rows.now lanes.now }
{
    let number = number_between(number, 0, MAX_NUMBER)?;
    let rows = number_between(rows, 1, MAX_ROWS)?;
    let lanes = number_between(lanes, 1, MAX_LANES)?;
    Some((number, rows, lanes))
}

fn gen_of(word: &str, part: &str, number: &str, rows: &str, lanes: &str) -> Option<Form>
    ensures { result ≡ spec.gen_of word.now part.now number.now rows.now lanes.now }
{
    if word != "gen" {
        return None;
    }
    let part = part_of(part)?;
    let (number, rows, lanes) = workload_of(number, rows, lanes)?;
    Some(Form::Gen(part, number, rows, lanes))
}

fn trial_of(word: &str, number: &str, rows: &str, lanes: &str) -> Option<Form>
    ensures { result ≡ spec.trial_of word.now number.now rows.now lanes.now }
{
    if word != "trial" {
        return None;
    }
    let (number, rows, lanes) = workload_of(number, rows, lanes)?;
    Some(Form::Trial(number, rows, lanes))
}

/// What a word asks for with these values, or `None` where they are of no form. An error is want of memory.
pub fn form_of(alloc: Global, word: &str, values: &[&str]) -> Result<Option<Form>, NoMemory>
    ensures { IfOk result (λ form. form ≡ spec.form_of word.now (map (λ value. value.now) values.now)) }
{
    match values {
        [] => Ok(plain_form(word)),
        [_] => Ok(None),
        [table, version] => load_of(alloc, word, table, version),
        [number, rows, lanes] => Ok(trial_of(word, number, rows, lanes)),
        [part, number, rows, lanes] => Ok(gen_of(word, part, number, rows, lanes)),
        _ => Ok(None),
    }
}
