//! Laws of the definitions.

ghost use Rattle.sql_text.specs.Identifier.{IdentifiersAreNames};
ghost use Rattle.sql_text.specs.Laws.{TextHasItsTokens, TokensAreProper, TokensEnd, PlacesAreInside, LiteralsAreDoubled};

/// The law that the canonical text of an expression has the tokens that the expression is written as.
pub fn a_text_has_its_tokens()
    ensures { TextHasItsTokens }
{}

/// The law that names, numbers and texts in tokens are as they may be.
pub fn tokens_are_proper()
    ensures { TokensAreProper }
{}

/// The law that the tokens of a text end in the end.
pub fn tokens_end()
    ensures { TokensEnd }
{}

/// The law that no token begins behind the end of the text.
pub fn places_are_inside()
    ensures { PlacesAreInside }
{}

/// The law that a text literal is read exactly where its value stands with each quote written twice.
pub fn literals_are_doubled()
    ensures { LiteralsAreDoubled }
{}

/// The law that an identifier is one token of its text, and that a name.
pub fn identifiers_are_names()
    ensures { IdentifiersAreNames }
{}
