//! Texts of statements, read to their trees.

ghost use Rattle.std.specs.Prelude.{◌≡◌, ◌≢◌, ◌≤◌, ◌<◌, ◌^◌, map, length, IfOk, IfErr};
ghost use Rattle.std.specs.List.{AllByRecursion};
ghost use Rattle.sql_parse.specs.Grammar.{IsStmt};
ghost use Rattle.sql_parse.specs.Reader as reader;
ghost use Rattle.sql_parse.specs.Reading as spec;
ghost use Rattle.sql_parse.specs.Stages as stages;

use crate::faults::ParseFault;
use crate::parse::{fault_of, takes_number};
use crate::stages::{SelectStage, Stage};
use crate::verbs::stage_step;
use sql_base::Stmt;
use sql_text::{Placed, lex, places_are_inside, tokens_end};
use std::alloc::Global;

/// Whether a number may come next.
fn takes_number_there(stage: &Stage) -> bool
    ensures { result ≡ reader.takes_number_there stage.now }
{
    match stage {
        Stage::In(_, state) => takes_number(state),
        Stage::Select(SelectStage::Word) => true,
        _ => false,
    }
}

// The stage after a token.
fn advanced(alloc: Global, stage: Stage, placed: &Placed) -> Result<Stage, ParseFault>
    requires { placed.now.at < 2 ^ 32 }
    ensures { reader.Advances (stages.stage_step 64) (reader.takes_number_there stage) stage placed.now result }
{
    let fault = fault_of(takes_number_there(&stage), placed);
    match stage_step(alloc, stage, &placed.token)? {
        Some(next) => Ok(next),
        None => Err(fault),
    }
}

// The statement that was built, or that a tree in it was given up.
fn stmt_of(done: Option<Stmt>) -> Result<Stmt, ParseFault>
    ensures { reader.IsStmtOf done result }
{
    match done {
        Some(stmt) => Ok(stmt),
        None => Err(ParseFault::Deep),
    }
}

fn read_tokens(alloc: Global, tokens: &[Placed]) -> Result<Stmt, ParseFault>
    requires ended { reader.IsEnded (spec.kinds tokens.now) }
    requires places { AllByRecursion (λ at. at ≤ 65536) (map (λ p. p.at) tokens.now) }
    ensures { reader.Answers IsStmt spec.stmt_depth tokens.now result }
{
    let mut stage = Stage::Begin;
    for placed in tokens {
        stage = advanced(alloc, stage, placed)?;
    }
    match stage {
        Stage::Done(done) => stmt_of(done),
        _ => unreachable!(),
    }
}

/// The tree of a statement's text, or why it has none.
///
/// A fault is the first in the text: `Syntax` and `Wide` stand at the first token that fits no reading, `Deep` says that
/// the text reads but for the limit on the depth of its expressions.
pub fn parse_stmt(alloc: Global, text: &[u8]) -> Result<Stmt, ParseFault>
    requires { length text.now ≤ 65536 }
    // What is read is a text of the statement, and none of its expressions is too deep.
    ensures found { IfOk result (λ a. spec.ReadsAs IsStmt spec.stmt_depth text.now a) }
    // A text that reads is read, to its statement, unless memory runs out.
    ensures only { spec.AnswersOnly IsStmt spec.stmt_depth text.now result }
    // A fault is the first of the text.
    ensures fault { IfErr result (λ f. f ≢ ParseFault.NoMemory → spec.Fails IsStmt spec.stmt_depth text.now f) }
{
    tokens_end();
    places_are_inside();
    let tokens = lex(alloc, text)?;
    read_tokens(alloc, tokens.as_slice())
}
