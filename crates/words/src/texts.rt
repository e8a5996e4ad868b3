//! The words as texts.
ghost use Rattle.std.specs.Prelude.{◌≡◌, IfOk, map, option_map};
ghost use Rattle.std.specs.Str.{is_utf8};
ghost use Rattle.words.specs.Words as spec;

use sql_base::NoMemory;
use std::alloc::Global;

fn text_of(word: &[u8]) -> Option<&str>
    ensures { option_map (λ text. text.now) result ≡ spec.text_of word.now }
{
    match str::from_utf8(word) {
        Ok(text) => Some(text),
        Err(_) => None,
    }
}

/// The words as texts, or `None` exactly where one isn't UTF-8. An error is want of memory.
pub fn texts_of<'a>(alloc: Global, words: &[&'a [u8]]) -> Result<Option<Vec<&'a str>>, NoMemory>
    ensures { IfOk result (λ found. option_map (λ texts. map (λ text. text.now) texts.items) found
        ≡ spec.texts_of (map (λ word. word.now) words.now)) }
{
    let mut texts = Vec::new(alloc);
    for word in words {
        match text_of(word) {
            Some(text) => texts.push(text)?,
            None => return Ok(None),
        }
    }
    Ok(Some(texts))
}
