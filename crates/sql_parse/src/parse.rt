//! Texts of expressions, read to their trees.

ghost use Rattle.std.specs.Prelude.{◌≡◌, ◌≢◌, ◌≤◌, ◌<◌, ◌^◌, map, length, IfOk, IfErr};
ghost use Rattle.std.specs.List.{AllByRecursion};
ghost use Rattle.sql_base.specs.Tree.{depth};
ghost use Rattle.sql_text.specs.Laws.{HasText};
ghost use Rattle.sql_parse.specs.Grammar.{IsText};
ghost use Rattle.sql_parse.specs.Machine as machine;
ghost use Rattle.sql_parse.specs.Reader as reader;
ghost use Rattle.sql_parse.specs.Reading as spec;

use crate::faults::ParseFault;
use crate::laws::{read_back, trees_have_text};
use crate::machine::{Part, Stack, State};
use crate::step::step;
use sql_base::Expr;
use sql_text::{Placed, Token, lex, places_are_inside, tokens_end};
use std::alloc::Global;

/// Whether a number may come next.
pub fn takes_number(state: &State) -> bool
    ensures { result ≡ reader.takes_number state.now }
{
    match state {
        State::Want(_) | State::Minus(_) => true,
        _ => false,
    }
}

/// The fault of a token that can't be gone through, where a number may come or none may.
pub fn fault_of(takes_number: bool, placed: &Placed) -> ParseFault
    requires { placed.now.at < 2 ^ 32 }
    ensures { result ≡ reader.fault_of takes_number placed.now.token placed.now.at }
{
    let at = placed.at as u32;
    match placed.token {
        Token::Int(_) if takes_number => ParseFault::Wide { at },
        _ => ParseFault::Syntax { at },
    }
}

// The state after a token.
fn advanced(alloc: Global, state: State, placed: &Placed) -> Result<State, ParseFault>
    requires { placed.now.at < 2 ^ 32 }
    ensures { reader.Advances (machine.step 64) (reader.takes_number state) state placed.now result }
{
    let fault = fault_of(takes_number(&state), placed);
    match step(alloc, state, &placed.token)? {
        Some(next) => Ok(next),
        None => Err(fault),
    }
}

// The tree that was built, or that it was given up.
fn tree_of(part: Part) -> Result<Expr, ParseFault>
    ensures { reader.IsTreeOf part result }
{
    match part {
        Part::Whole(tree, _) => Ok(tree),
        Part::Deep => Err(ParseFault::Deep),
    }
}

fn read_tokens(alloc: Global, tokens: &[Placed]) -> Result<Expr, ParseFault>
    requires ended { reader.IsEnded (spec.kinds tokens.now) }
    requires places { AllByRecursion (λ at. at ≤ 65536) (map (λ p. p.at) tokens.now) }
    ensures { reader.Answers IsText depth tokens.now result }
{
    let mut state = State::Want(Stack::new(alloc));
    for placed in tokens {
        state = advanced(alloc, state, placed)?;
    }
    match state {
        State::Done(part) => tree_of(part),
        _ => unreachable!(),
    }
}

/// The tree of an expression's text, or why it has none.
///
/// A fault is the first in the text: `Syntax` and `Wide` stand at the first token that fits no reading, `Deep` says that
/// the text reads but for the limit on depth.
pub fn parse_expr(alloc: Global, text: &[u8]) -> Result<Expr, ParseFault>
    requires { length text.now ≤ 65536 }
    // What is read is a text of the tree, and not too deep.
    ensures found { IfOk result (λ a. spec.ReadsAs IsText depth text.now a) }
    // A text that reads is read, to its tree, unless memory runs out.
    ensures only { spec.AnswersOnly IsText depth text.now result }
    // The tree has a canonical text.
    ensures text { IfOk result (λ a. HasText a) }
    // The canonical text of a tree is read as that tree.
    ensures again { spec.ReadsAgain text.now result }
    // A fault is the first of the text.
    ensures fault { IfErr result (λ f. f ≢ ParseFault.NoMemory → spec.Fails IsText depth text.now f) }
{
    tokens_end();
    places_are_inside();
    trees_have_text();
    read_back();
    let tokens = lex(alloc, text)?;
    read_tokens(alloc, tokens.as_slice())
}
