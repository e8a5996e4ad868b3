//! Names, where a text is an identifier and nothing more.

ghost use Rattle.std.specs.Prelude.{◌≡◌, IfOk, option_copied};
ghost use Rattle.sql_text.specs.Identifier as spec;
ghost use Rattle.sql_text.specs.Lexing as lexing;

use crate::keys::key_of;
use crate::lexer::{MAX_NAME, folded, is_name};
use crate::scan::Class;
use sql_base::{Name, NoMemory};
use std::alloc::Global;

#[tactic(auto, unfolding(crate::specs::Identifier::is_plain))]
fn is_plain(word: &[u8]) -> bool
    ensures { result ≡ spec.is_plain word.now }
{
    Class::Word.fills(word)
        && !word.is_empty()
        && word.len() <= MAX_NAME
        && !Class::Digit.begins(word)
        && key_of(word).is_none()
}

#[tactic(auto, unfolding(crate::specs::Identifier::plain_name))]
fn plain_name(alloc: Global, word: &[u8]) -> Result<Option<Name>, NoMemory>
    ensures { IfOk result (λ name. name ≡ spec.plain_name word.now) }
{
    if !is_plain(word) {
        return Ok(None);
    }
    Ok(Some(folded(alloc, word)?))
}

fn behind_quote(text: &[u8]) -> Option<&[u8]>
    ensures { option_copied result ≡ spec.behind_quote text.now }
{
    match text {
        [b'"', rest @ ..] => Some(rest),
        _ => None,
    }
}

fn before_quote(text: &[u8]) -> Option<&[u8]>
    ensures { option_copied result ≡ spec.before_quote text.now }
{
    text.strip_suffix(b"\"")
}

#[tactic(auto, unfolding(crate::specs::Lexing::is_name))]
fn is_small_name(word: &[u8]) -> bool
    ensures { result ≡ lexing.is_name word.now }
{
    Class::Small.fills(word) && is_name(word)
}

// Behind the opening quote.
#[tactic(auto, unfolding(crate::specs::Identifier::quoted_name))]
fn quoted_name(alloc: Global, rest: &[u8]) -> Result<Option<Name>, NoMemory>
    ensures { IfOk result (λ name. name ≡ spec.quoted_name rest.now) }
{
    let Some(name) = before_quote(rest) else {
        return Ok(None);
    };
    if !is_small_name(name) {
        return Ok(None);
    }
    Ok(Some(Name::from_slice(alloc, name)?))
}

/// The name that the text is an identifier of, or `None` exactly where it is none. An error is want of memory.
///
/// A plain identifier is a letter or `_` and then letters, digits and `_`, at most 63 bytes in all; it is no key word, and
/// ASCII capitals stand for small letters. A quoted one is a plain identifier in small letters, or a key word in such,
/// between double quotes (PostgreSQL manual 4.1.1). Blanks around it make it none.
pub fn name_in(alloc: Global, text: &[u8]) -> Result<Option<Name>, NoMemory>
    ensures { IfOk result (λ name. name ≡ spec.name_in text.now) }
{
    match behind_quote(text) {
        Some(rest) => quoted_name(alloc, rest),
        None => plain_name(alloc, text),
    }
}
