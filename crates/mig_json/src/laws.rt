//! The laws of reading. Each is the contract of a function that does nothing.

ghost use Rattle.mig_json.specs.Migration.{TextsReadOrFail, NeverBoth, TextsReadOnce, TextsFailOnce, FaultsWantNothing, CanonicalTextsAreRead};

use sql_parse::{one_tree, read_back, trees_have_text};

/// A text has a first fault exactly where it reads as no migration; it has one at most, and reads as one at most. Want of
/// memory is the fault of no text.
pub fn texts_read_or_fail()
    ensures either { TextsReadOrFail }
    ensures never_both { NeverBoth }
    ensures reads_once { TextsReadOnce }
    ensures fails_once { TextsFailOnce }
    ensures wants_nothing { FaultsWantNothing }
{
    one_tree();
    sql_parse::texts_read_or_fail();
}

/// The law that the canonical text of a migration that was read is read as that migration, and by `texts_read_or_fail`
/// as no other.
pub fn canonical_texts_are_read()
    ensures { CanonicalTextsAreRead }
{
    read_back();
    trees_have_text();
}
