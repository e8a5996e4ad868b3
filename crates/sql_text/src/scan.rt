//! Bytes that stand together.

ghost use Rattle.std.specs.Prelude.{◌≡◌, ◌≤◌, length, take, true};
ghost use Rattle.std.specs.List.{list_all, prefix_len};
ghost use Rattle.sql_text.specs.Lexing as spec;

/// A kind of bytes.
#[derive(Clone, Copy, Debug)]
pub enum Class {
    /// What stands between tokens: space, tab and carriage return.
    Blank,
    /// What words have: letters, digits and `_`.
    Word,
    /// What quoted identifiers have: small letters, digits and `_`.
    Small,
    /// Digits.
    Digit,
}

impl Class {
    /// Whether the byte is of this kind.
    #[tactic(auto, unfolding(crate::specs::Lexing::is_blank, crate::specs::Lexing::is_word_byte, crate::specs::Lexing::is_small_byte))]
    pub fn has(self, byte: u8) -> bool
        ensures { result ≡ spec.belongs self byte }
    {
        match self {
            Class::Blank => matches!(byte, b' ' | b'\t' | b'\r'),
            Class::Word => byte.is_ascii_alphanumeric() || byte == b'_',
            Class::Small => byte.is_ascii_lowercase() || byte.is_ascii_digit() || byte == b'_',
            Class::Digit => byte.is_ascii_digit(),
        }
    }

    fn count(self, text: &[u8]) -> usize
        ensures length { result ≡ prefix_len (spec.belongs self) text.now }
        ensures within { result ≤ length text.now }
    {
        text.iter().take_while(|byte| self.has(**byte)).count()
    }

    /// How many bytes of this kind come first.
    pub fn run(self, text: &[u8]) -> usize
        ensures length { result ≡ prefix_len (spec.belongs self) text.now }
        ensures within { result ≤ length text.now }
        ensures all { list_all (spec.belongs self) (take result text.now) ≡ true }
    {
        self.count(text)
    }

    /// Whether all bytes are of this kind.
    pub fn fills(self, text: &[u8]) -> bool
        ensures { result ≡ list_all (spec.belongs self) text.now }
    {
        text.iter().all(|byte| self.has(*byte))
    }

    /// Whether a byte of this kind comes first.
    pub fn begins(self, text: &[u8]) -> bool
        ensures { result ≡ spec.begins (spec.belongs self) text.now }
    {
        match text {
            [byte, ..] => self.has(*byte),
            [] => false,
        }
    }
}
