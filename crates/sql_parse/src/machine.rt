//! What is kept of a text that was read so far.

ghost use Rattle.std.specs.Prelude.{◌≡◌, [], ◌∷◌, OnOk, MatchOption};
ghost use Rattle.std.specs.List.{list_all};
ghost use Rattle.sql_parse.specs.Machine as spec;

use crate::table::{level, right};
use sql_base::{BinOp, Expr, Func, List, Name, NoMemory, Ty};
use std::alloc::Global;
use std::marker::Model;

/// A part of a tree with its depth, or that one deeper than 64 was given up.
#[derive(Drop)]
pub enum Part {
    /// The part, and its depth.
    Whole(Expr, u8),
    /// It was given up.
    Deep,
}

/// A part that is still open: what stands before a missing operand.
#[derive(Drop)]
pub enum Open {
    /// `(`
    Paren,
    /// `NOT`
    Not,
    /// `-`
    Neg,
    /// A left operand and its operator.
    Left(BinOp, Part),
    /// `CAST(`
    CastOf,
    /// A function, and the arguments that are complete.
    Call(Func, List<Part>),
    /// The arms that are complete, and WHEN.
    When(List<(Part, Part)>),
    /// The arms that are complete, a condition and THEN.
    Then(List<(Part, Part)>, Part),
    /// The arms, and ELSE.
    Else(List<(Part, Part)>),
}

/// The open parts, the innermost first.
#[derive(Drop)]
pub struct Stack {
    parts: Vec<Open>,
}

impl Model for Stack {
    ghost use Rattle.std.specs.Prelude.{List, reverse};
    ghost use Rattle.std.specs.Coded.{codes};
    ghost use Rattle.sql_base.specs.contracts.exprs.Expr as expr;
    ghost use Rattle.sql_parse.specs.declared.machine.Open.{Open};

    ghost Value = { List Open };

    ghost coded = { Prim.hlevel (codes, expr.the_row.coded) };

    ghost view = { λ stack. reverse stack.parts.items };
}

impl Stack {
    /// No part is open.
    pub fn new(alloc: Global) -> Stack
        ensures { result ≡ [] }
    {
        Stack {
            parts: Vec::new(alloc),
        }
    }

    /// One more part is open. An error is want of memory.
    pub fn push(&mut self, part: Open) -> Result<(), NoMemory>
        ensures { OnOk result (self.new ≡ part ∷ self.old) }
    {
        self.parts.push(part)?;
        Ok(())
    }

    /// The innermost part, taken off.
    pub fn pop(&mut self) -> Option<Open>
        ensures { MatchOption result (self.old ≡ []) (λ part. self.old ≡ part ∷ self.new) }
    {
        self.parts.pop()
    }

    /// Whether nothing but operators is open.
    #[tactic(auto, using(crate::proofs::Reversed::all_reversed))]
    pub fn is_flat(&self) -> bool
        ensures { result ≡ spec.is_flat self.now }
    {
        all_inner(self.parts.as_slice())
    }

    /// The loosest level of what may stand in the innermost hole.
    pub fn hole(&self) -> u8
        ensures { result ≡ spec.hole self.now }
    {
        match self.parts.last() {
            Some(part) => part.hole(),
            None => 0,
        }
    }
}

impl Open {
    /// The loosest level of what may stand in the part's hole.
    pub fn hole(&self) -> u8
        ensures { result ≡ spec.hole_of self.now }
    {
        match self {
            Open::Not => 3,
            Open::Neg => 9,
            Open::Left(op, _) => right(*op),
            _ => 0,
        }
    }

    /// The level of the part, its hole filled.
    pub fn level(&self) -> u8
        ensures { result ≡ spec.level_of self.now }
    {
        match self {
            Open::Not => 3,
            Open::Neg => 9,
            Open::Left(op, _) => level(*op),
            _ => 11,
        }
    }
}

// Whether the part is an operator's.
fn is_inner(part: &Open) -> bool
    ensures { result ≡ spec.is_inner part.now }
{
    part.hole() > 0
}

fn all_inner(parts: &[Open]) -> bool
    ensures { result ≡ list_all spec.is_inner parts.now }
{
    parts.iter().all(is_inner)
}

/// An operand of a level, below open parts, the innermost first.
#[derive(Drop)]
pub struct Operand {
    /// The open parts.
    pub stack: Stack,
    /// The operand.
    pub tree: Part,
    /// The level of its outermost form.
    pub level: u8,
}

/// What may come next.
#[derive(Drop)]
pub enum State {
    /// An operand must come.
    Want(Stack),
    /// A minus stood directly before a digit.
    Minus(Stack),
    /// An operand of this level is there.
    Have(Stack, Part, u8),
    /// A name that is a function where `(` follows, and else a column.
    Named(Stack, Func, Name),
    /// IS came after an operand.
    Is(Stack, Part),
    /// IS NOT came after it.
    IsNot(Stack, Part),
    /// `::` came after it.
    Typed(Stack, Part),
    /// CAST came.
    Cast(Stack),
    /// AS came after the operand of a CAST.
    CastAs(Stack, Part),
    /// And then a type.
    CastTo(Stack, Part, Ty),
    /// CASE came.
    Case(Stack),
    /// The end came after an expression.
    Done(Part),
}
