//! Expressions, as trees.
ghost use Rattle.std.specs.Prelude.{◌≡◌, IfOk};

use crate::copies::Copying;
use crate::memory::NoMemory;
use crate::texts::Name;
use crate::values::{Ty, Value};
use sqlite_items::{Boxed, Items};
use std::alloc::Global;

/// An operator between two operands.
#[derive(Clone, Copy, Debug, PartialEq, Eq)]
pub enum BinOp {
    /// `OR`
    Or,
    /// `AND`
    And,
    /// `=`
    Eq,
    /// `<>`
    Ne,
    /// `<`
    Lt,
    /// `<=`
    Le,
    /// `>`
    Gt,
    /// `>=`
    Ge,
    /// `||`
    Concat,
    /// `+`
    Add,
    /// `-`
    Sub,
    /// `*`
    Mul,
    /// `/`, rounded toward zero
    Div,
    /// `%`, with the sign of the left operand
    Rem,
}

/// A function.
#[derive(Clone, Copy, Debug, PartialEq, Eq)]
pub enum Func {
    /// The first argument that isn't NULL.
    Coalesce,
    /// NULL where the two arguments are equal, else the first.
    Nullif,
    /// With ASCII letters as capitals.
    Upper,
    /// With ASCII letters as small ones.
    Lower,
    /// Without spaces at both ends.
    Trim,
    /// The number of code points.
    Length,
}

/// An expression, as a tree.
#[cycle(expr)]
#[derive(Drop)]
pub enum Expr {
    /// A literal.
    Lit(Value),
    /// The column of this name.
    Col(Name),
    /// `NOT`
    Not(Boxed<Expr>),
    /// `-` in front of its operand
    Neg(Boxed<Expr>),
    /// `IS NULL`
    IsNull(Boxed<Expr>),
    /// An operator between two operands.
    Bin(BinOp, Boxed<Expr>, Boxed<Expr>),
    /// The operand as a value of this type.
    Cast(Boxed<Expr>, Ty),
    /// CASE with its arms, and the branch of ELSE.
    Case(Items<Arm>, Boxed<Expr>),
    /// A function of these arguments.
    Call(Func, Items<Expr>),
}

/// WHEN and THEN of a CASE.
#[cycle(expr)]
#[derive(Drop)]
pub struct Arm {
    /// The condition.
    pub when: Expr,
    /// The branch.
    pub gives: Expr,
}

impl Copying for Expr {
    #[cycle(copy)]
    fn copy(&self, alloc: Global) -> Result<Expr, NoMemory> {
        let copy = match self {
            Expr::Lit(value) => Expr::Lit(value.copy(alloc)?),
            Expr::Col(name) => Expr::Col(name.copy(alloc)?),
            Expr::Not(a) => Expr::Not(boxed_copy(alloc, a)?),
            Expr::Neg(a) => Expr::Neg(boxed_copy(alloc, a)?),
            Expr::IsNull(a) => Expr::IsNull(boxed_copy(alloc, a)?),
            Expr::Bin(op, a, b) => Expr::Bin(*op, boxed_copy(alloc, a)?, boxed_copy(alloc, b)?),
            Expr::Cast(a, ty) => Expr::Cast(boxed_copy(alloc, a)?, *ty),
            Expr::Case(arms, other) => Expr::Case(
                copy_arms(alloc, arms)?,
                boxed_copy(alloc, other)?,
            ),
            Expr::Call(func, args) => Expr::Call(*func, copy_all(alloc, args)?),
        };
        Ok(copy)
    }
}

impl Copying for Arm {
    #[cycle(copy)]
    fn copy(&self, alloc: Global) -> Result<Arm, NoMemory> {
        Ok(Arm {
            when: self.when.copy(alloc)?,
            gives: self.gives.copy(alloc)?,
        })
    }
}

#[cycle(copy)]
fn boxed_copy(alloc: Global, e: &Boxed<Expr>) -> Result<Boxed<Expr>, NoMemory>
    ensures { IfOk result (λ copy. copy ≡ e.now) }
{
    Ok(Boxed::new(alloc, e.get().copy(alloc)?)?)
}

#[cycle(copy)]
fn copy_arms(alloc: Global, arms: &Items<Arm>) -> Result<Items<Arm>, NoMemory>
    ensures { IfOk result (λ copy. copy ≡ arms.now) }
{
    let mut copy = Items::new(alloc);
    for arm in arms.as_slice() {
        copy.push(arm.copy(alloc)?)?;
    }
    Ok(copy)
}

#[cycle(copy)]
fn copy_all(alloc: Global, all: &Items<Expr>) -> Result<Items<Expr>, NoMemory>
    ensures { IfOk result (λ copy. copy ≡ all.now) }
{
    let mut copy = Items::new(alloc);
    for e in all.as_slice() {
        copy.push(e.copy(alloc)?)?;
    }
    Ok(copy)
}
