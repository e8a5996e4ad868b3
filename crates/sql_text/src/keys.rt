//! The key words.

ghost use Rattle.std.specs.Prelude.{◌≡◌};
ghost use Rattle.std.specs.List.{find};
ghost use Rattle.std.specs.Str.{str_eq_ignore_ascii_case};
ghost use Rattle.sql_text.specs.Keys as spec;

/// A key word. It is no plain identifier, in letters of either case; between double quotes it is one.
#[derive(Clone, Copy, Debug, PartialEq, Eq)]
pub enum Key {
    /// `AND`
    And,
    /// `AS`
    As,
    /// `CASE`
    Case,
    /// `CAST`
    Cast,
    /// `DELETE`
    Delete,
    /// `ELSE`
    Else,
    /// `END`
    End,
    /// `FALSE`
    False,
    /// `FROM`
    From,
    /// `INSERT`
    Insert,
    /// `INTO`
    Into,
    /// `IS`
    Is,
    /// `NOT`
    Not,
    /// `NULL`
    Null,
    /// `OR`
    Or,
    /// `SELECT`
    Select,
    /// `SET`
    Set,
    /// `THEN`
    Then,
    /// `TO`
    To,
    /// `TRUE`
    True,
    /// `UPDATE`
    Update,
    /// `VALUES`
    Values,
    /// `WHEN`
    When,
    /// `WHERE`
    Where,
}

/// All key words.
const KEYS: [Key; 24] = [
    Key::And,
    Key::As,
    Key::Case,
    Key::Cast,
    Key::Delete,
    Key::Else,
    Key::End,
    Key::False,
    Key::From,
    Key::Insert,
    Key::Into,
    Key::Is,
    Key::Not,
    Key::Null,
    Key::Or,
    Key::Select,
    Key::Set,
    Key::Then,
    Key::To,
    Key::True,
    Key::Update,
    Key::Values,
    Key::When,
    Key::Where,
];

impl Key {
    /// The key word in capitals.
    pub fn spelling(self) -> &'static str
        ensures { result.now ≡ spec.spelling self }
    {
        match self {
            Key::And => "AND",
            Key::As => "AS",
            Key::Case => "CASE",
            Key::Cast => "CAST",
            Key::Delete => "DELETE",
            Key::Else => "ELSE",
            Key::End => "END",
            Key::False => "FALSE",
            Key::From => "FROM",
            Key::Insert => "INSERT",
            Key::Into => "INTO",
            Key::Is => "IS",
            Key::Not => "NOT",
            Key::Null => "NULL",
            Key::Or => "OR",
            Key::Select => "SELECT",
            Key::Set => "SET",
            Key::Then => "THEN",
            Key::To => "TO",
            Key::True => "TRUE",
            Key::Update => "UPDATE",
            Key::Values => "VALUES",
            Key::When => "WHEN",
            Key::Where => "WHERE",
        }
    }
}

// The first of these key words that the word is.
fn key_in(keys: &[Key], word: &[u8]) -> Option<Key>
    ensures { result ≡ find (λ key. str_eq_ignore_ascii_case word.now (spec.spelling key)) keys.now }
{
    for key in keys {
        if word.eq_ignore_ascii_case(key.spelling().as_bytes()) {
            return Some(*key);
        }
    }
    None
}

/// The key word that this word is, in letters of either case.
#[tactic(auto, unfolding(crate::specs::Keys::key_of))]
pub fn key_of(word: &[u8]) -> Option<Key>
    ensures { result ≡ spec.key_of word.now }
{
    key_in(&KEYS, word)
}
