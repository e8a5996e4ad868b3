//! Laws of the grammar.

ghost use Rattle.sql_base.specs.Tree.{depth};
ghost use Rattle.sql_parse.specs.Grammar.{IsText, IsStmt};
ghost use Rattle.sql_parse.specs.Laws.{OneTree, OneStatement, ReadBack, TreesHaveText, TextsReadOrFail, NeverBoth, ReadsOnce, FailsOnce};
ghost use Rattle.sql_parse.specs.Reading.{stmt_depth};

use sql_text::{a_text_has_its_tokens, tokens_are_proper, tokens_end};

/// The law that no text has two trees.
pub fn one_tree()
    ensures { OneTree }
{}

/// The law that no text has two statements.
pub fn one_statement()
    ensures { OneStatement }
{}

/// The law that the canonical text of an expression reads as that expression.
pub fn read_back()
    ensures { ReadBack }
{
    a_text_has_its_tokens();
}

/// The law that each expression that a text reads as has a canonical text.
pub fn trees_have_text()
    ensures { TreesHaveText }
{
    tokens_are_proper();
}

/// The law that a text of any length reads as one expression or has one first fault, and never both.
pub fn texts_read_or_fail()
    ensures either { TextsReadOrFail IsText depth }
    ensures never_both { NeverBoth IsText depth }
    ensures reads_once { ReadsOnce IsText depth }
    ensures fails_once { FailsOnce IsText depth }
{
    tokens_end();
}

/// The same of statements.
pub fn statements_read_or_fail()
    ensures either { TextsReadOrFail IsStmt stmt_depth }
    ensures never_both { NeverBoth IsStmt stmt_depth }
    ensures reads_once { ReadsOnce IsStmt stmt_depth }
    ensures fails_once { FailsOnce IsStmt stmt_depth }
{
    tokens_end();
}
