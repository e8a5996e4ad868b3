//! The names of lanes and of their versions.
ghost use Rattle.std.specs.Prelude.{◌≡◌, ◌==◌, codes, IfOk, is_some};
ghost use Rattle.std.specs.List.{list_all};
ghost use Rattle.std.specs.Str.{byte};
ghost use Rattle.sql_text.specs.Identifier.{plain_name};
ghost use Rattle.script_text.specs.Input.{begins_with};
ghost use Rattle.script_text.specs.Names as spec;
ghost use Rattle.script_text.specs.Script.{behind};

use crate::orders::behind;
use sql_base::{Name, NoMemory};
use sql_text::name_in;
use std::alloc::Global;

/// The bytes that a name may have.
const MAX_NAME: usize = 48;

fn has_name_bytes(text: &[u8]) -> bool
    ensures { result ≡ list_all spec.is_name_byte text.now }
{
    text.iter()
        .all(|byte| matches!(*byte, b'a'..=b'z' | b'0'..=b'9' | b'_'))
}

fn is_reserved(text: &[u8]) -> bool
    ensures { result ≡ is_some (behind (codes "_pgroll_") text.now) }
{
    behind(b"_pgroll_", text).is_some()
}

fn is_name(text: &[u8]) -> bool
    ensures { result ≡ spec.is_name text.now }
{
    !text.is_empty() && text.len() <= MAX_NAME && has_name_bytes(text) && !is_reserved(text)
}

fn is_actor(text: &[u8]) -> bool
    ensures { result ≡ spec.is_actor text.now }
{
    text == b"control".as_slice() || text == b"main".as_slice() || text == b"load".as_slice()
}

/// Whether a lane may have this name.
pub fn is_lane_name(text: &[u8]) -> bool
    ensures { result ≡ spec.is_lane_name text.now }
{
    is_name(text) && !is_actor(text)
}

fn is_quoted(text: &[u8]) -> bool
    ensures { result ≡ begins_with (byte "\"") text.now }
{
    text.first() == Some(&b'"')
}

/// The version that a plain identifier names, or `None` exactly where the text is none. An error is want of memory.
pub fn version_of(alloc: Global, text: &[u8]) -> Result<Option<Name>, NoMemory>
    ensures { IfOk result (λ name. name ≡ plain_name text.now) }
{
    if is_quoted(text) {
        return Ok(None);
    }
    name_in(alloc, text)
}
