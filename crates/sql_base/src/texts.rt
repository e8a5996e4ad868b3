//! Names, texts and bytes.
ghost use Rattle.std.specs.Prelude.{◌≡◌, ◌<◌, ◌^◌, ◌++◌, length, IfOk, MatchOption};
ghost use Rattle.sql_base.specs.Text as spec;

use crate::copies::Copying;
use crate::memory::NoMemory;
use std::alloc::Global;
use std::marker::Model;

/// Bytes that are handed out, as a line or a printed value.
#[derive(Debug, Drop)]
pub struct SqlBytes {
    bytes: Vec<u8>,
}

impl Model for SqlBytes {
    ghost use Rattle.std.specs.Prelude.{ℕ, List};

    ghost Value = { List ℕ };

    ghost view = { λ b. b.bytes.items };
}

impl SqlBytes {
    /// These bytes.
    pub fn from_vec(bytes: Vec<u8>) -> SqlBytes
        ensures { result ≡ bytes.items }
    {
        SqlBytes { bytes }
    }

    /// The bytes, given back.
    pub fn into_vec(self) -> Vec<u8>
        ensures { result.items ≡ self }
    {
        let SqlBytes { bytes } = self;
        bytes
    }

    /// The bytes.
    pub fn as_slice(&self) -> &[u8]
        ensures { result.now ≡ self.now }
    {
        self.bytes.as_slice()
    }
}

impl Copying for SqlBytes {
    fn copy(&self, alloc: Global) -> Result<SqlBytes, NoMemory> {
        let bytes = Vec::from_slice(alloc, self.bytes.as_slice())?;
        Ok(SqlBytes { bytes })
    }
}

/// The name of a table, a column or a constraint.
#[derive(Debug, Drop)]
pub struct Name {
    bytes: Vec<u8>,
}

impl Model for Name {
    ghost use Rattle.std.specs.Prelude.{ℕ, List};

    ghost Value = { List ℕ };

    ghost view = { λ b. b.bytes.items };
}

impl Name {
    /// The name that these bytes spell.
    pub fn from_slice(alloc: Global, bytes: &[u8]) -> Result<Name, NoMemory>
        ensures { IfOk result (λ name. name ≡ bytes.now) }
    {
        let bytes = Vec::from_slice(alloc, bytes)?;
        Ok(Name { bytes })
    }

    /// The bytes of the name.
    pub fn as_slice(&self) -> &[u8]
        ensures { result.now ≡ self.now }
    {
        self.bytes.as_slice()
    }
}

impl Copying for Name {
    fn copy(&self, alloc: Global) -> Result<Name, NoMemory> {
        let bytes = Vec::from_slice(alloc, self.bytes.as_slice())?;
        Ok(Name { bytes })
    }
}

/// UTF-8 without the byte 0.
#[derive(Debug, Drop)]
pub struct SqlText {
    text: String,
}

impl Model for SqlText {
    ghost use Rattle.std.specs.Prelude.{◌≡◌, ℕ, List, false};
    ghost use Rattle.std.specs.String.{string_bytes};
    ghost use Rattle.sql_base.specs.Text.{has_zero};

    ghost Value = { List ℕ };

    ghost view = { λ t. string_bytes t.text };

    ghost invariant = { λ t. has_zero (string_bytes t.text) ≡ false };
}

// Whether a byte is 0.
fn has_zero(bytes: &[u8]) -> bool
    ensures { result ≡ spec.has_zero bytes.now }
{
    bytes.iter().any(|byte| *byte == 0)
}

impl SqlText {
    ghost use Rattle.std.specs.Prelude.{◌≡◌, false};
    ghost use Rattle.std.specs.String.{string_bytes};
    ghost use Rattle.sql_base.specs.Text.{has_zero, IsText};

    /// The text of a string that has no byte 0.
    pub fn from_string(text: String) -> SqlText
        requires { has_zero (string_bytes text) ≡ false }
        ensures { result ≡ string_bytes text }
    {
        SqlText { text }
    }

    /// The text that these bytes are, or `None` exactly where they are none.
    pub fn read(alloc: Global, bytes: &[u8]) -> Result<Option<SqlText>, NoMemory>
        ensures { IfOk result (λ found. MatchOption found (¬ IsText bytes.now) (λ text. IsText bytes.now × (text ≡ bytes.now))) }
    {
        if has_zero(bytes) {
            return Ok(None);
        }
        match str::from_utf8(bytes) {
            Ok(text) => Ok(Some(SqlText {
                text: String::from_str(alloc, text)?,
            })),
            Err(_) => Ok(None),
        }
    }

    /// The characters of the text.
    pub fn as_str(&self) -> &str
        ensures bytes { result.now ≡ self.now }
        ensures nonzero { has_zero self.now ≡ false }
    {
        self.text.as_str()
    }

    /// The number of bytes.
    pub fn len(&self) -> usize
        ensures bytes { result ≡ length self.now }
        ensures small { result < 2 ^ 63 }
    {
        self.text.len()
    }

    /// This text, and then the other.
    pub fn joined(&self, alloc: Global, other: &SqlText) -> Result<SqlText, NoMemory>
        ensures { IfOk result (λ both. both ≡ self.now ++ other.now) }
    {
        let mut text = String::from_str(alloc, self.text.as_str())?;
        text.push_str(other.text.as_str())?;
        Ok(SqlText { text })
    }
}

impl Copying for SqlText {
    fn copy(&self, alloc: Global) -> Result<SqlText, NoMemory> {
        let text = String::from_str(alloc, self.text.as_str())?;
        Ok(SqlText { text })
    }
}

impl PartialEq for Name {
    ghost use Rattle.std.specs.Str.{bytes_eq};
    ghost use Rattle.std.proofs.Common.{rules};
    ghost use Rattle.std.specs.Cmp.Rules.{comparing};

    ghost eq = { bytes_eq };

    ghost laws = { Prim.search (comparing, rules) };

    fn eq(&self, other: &Name) -> bool {
        self.as_slice() == other.as_slice()
    }
}

impl Eq for Name {
    ghost use Rattle.std.proofs.Common.{rules};
    ghost use Rattle.std.specs.Cmp.Rules.{comparing};

    ghost laws = { Prim.search (comparing, rules) };
}

impl PartialEq for SqlText {
    ghost use Rattle.std.specs.Str.{bytes_eq};
    ghost use Rattle.std.proofs.Common.{rules};
    ghost use Rattle.std.specs.Cmp.Rules.{comparing};

    ghost eq = { bytes_eq };

    ghost laws = { Prim.search (comparing, rules) };

    fn eq(&self, other: &SqlText) -> bool {
        self.as_str() == other.as_str()
    }
}

impl Eq for SqlText {
    ghost use Rattle.std.proofs.Common.{rules};
    ghost use Rattle.std.specs.Cmp.Rules.{comparing};

    ghost laws = { Prim.search (comparing, rules) };
}
