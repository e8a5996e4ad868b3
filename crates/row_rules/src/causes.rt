//! Why rows and statements aren't accepted.
ghost use Rattle.std.specs.Prelude.{◌≡◌, IfOk, Some};
ghost use Rattle.sql_base.specs.declared.codes.Code.TheVariants as Code;
ghost use Rattle.row_rules.specs.Causes as spec;

use crate::kinds::{Cause, SqlError, Table};
use constraint::not_null_name;
use sql_base::{Code, EvalFault, Name, NoMemory, RowFault, TypeFault};
use std::alloc::Global;

fn fault_code(fault: EvalFault) -> Code
    ensures { result ≡ spec.fault_code fault }
{
    match fault {
        EvalFault::DivZero => Code::C22012,
        EvalFault::Range => Code::C22003,
        EvalFault::BadText => Code::C22P02,
        EvalFault::TooLong => Code::C54000,
        EvalFault::NoMemory => Code::C53200,
    }
}

// A name, of these bytes.
fn named(alloc: Global, bytes: &[u8]) -> Result<Option<Name>, NoMemory>
    ensures { IfOk result (λ name. name ≡ Some bytes.now) }
{
    Ok(Some(Name::from_slice(alloc, bytes)?))
}

fn fault_name(alloc: Global, fault: EvalFault) -> Result<Option<Name>, NoMemory>
    ensures { IfOk result (λ name. name ≡ spec.fault_name fault) }
{
    match fault {
        EvalFault::TooLong => named(alloc, b"text"),
        _ => Ok(None),
    }
}

/// An expression has no value over the row of this key.
pub fn value_cause(alloc: Global, key: i64, fault: EvalFault) -> Result<Cause, NoMemory>
    ensures { IfOk result (λ cause. cause ≡ spec.value_cause key fault) }
{
    Ok(Cause {
        code: fault_code(fault),
        name: fault_name(alloc, fault)?,
        key,
    })
}

/// A constraint or a limit isn't met by the row of this key.
pub fn constraint_cause(alloc: Global, code: Code, name: &[u8], key: i64) -> Result<Cause, NoMemory>
    ensures { IfOk result (λ cause. cause ≡ spec.constraint_cause code name.now key) }
{
    Ok(Cause {
        code,
        name: named(alloc, name)?,
        key,
    })
}

/// A half of the row of this key is too heavy.
pub fn heavy_cause(alloc: Global, key: i64) -> Result<Cause, NoMemory>
    ensures { IfOk result (λ cause. cause ≡ spec.heavy_cause key) }
{
    constraint_cause(alloc, Code::C54000, b"row", key)
}

/// Another row of the table has this key.
pub fn taken_key(alloc: Global, table: &Table, key: i64) -> Result<Cause, NoMemory>
    ensures { IfOk result (λ cause. cause ≡ spec.taken_key table.now key) }
{
    let mut constraint = Vec::from_slice(alloc, table.0.as_slice())?;
    constraint.extend_from_slice(b"_pkey")?;
    constraint_cause(alloc, Code::C23505, constraint.as_slice(), key)
}

/// The code of a fault of a row.
pub fn row_code(fault: RowFault) -> Code
    ensures { result ≡ spec.row_code fault }
{
    match fault {
        RowFault::Null(_) => Code::C23502,
        RowFault::Check(_) => Code::C23514,
        RowFault::Eval(_, fault) => fault_code(fault),
    }
}

/// A cause that was found in a row, as why a statement is refused.
pub fn row_error(cause: Cause) -> SqlError
    ensures { result ≡ spec.row_error cause }
{
    SqlError {
        code: cause.code,
        name: cause.name,
        key: Some(cause.key),
    }
}

/// Something of this name is at fault, and no row.
pub fn named_error(alloc: Global, code: Code, name: &[u8]) -> Result<SqlError, NoMemory>
    ensures { IfOk result (λ error. error ≡ spec.named_error code name.now) }
{
    Ok(SqlError {
        code,
        name: named(alloc, name)?,
        key: None,
    })
}

/// Nothing is at fault that has a name.
pub fn bare_error(code: Code) -> SqlError
    ensures { result ≡ spec.bare_error code }
{
    SqlError {
        code,
        name: None,
        key: None,
    }
}

/// An expression has no type.
pub fn untyped(fault: TypeFault) -> SqlError
    ensures { result ≡ spec.untyped fault }
{
    match fault {
        TypeFault::NoColumn(name) => SqlError {
            code: Code::C42703,
            name: Some(name),
            key: None,
        },
        TypeFault::Mismatch => bare_error(Code::C42804),
        TypeFault::NoMemory => bare_error(Code::C53200),
    }
}

/// An expression has no value, and stands beside no row.
pub fn no_value(alloc: Global, fault: EvalFault) -> Result<SqlError, NoMemory>
    ensures { IfOk result (λ error. error ≡ spec.no_value fault) }
{
    Ok(SqlError {
        code: fault_code(fault),
        name: fault_name(alloc, fault)?,
        key: None,
    })
}

/// More rows match than one reply may have.
pub fn long_reply(alloc: Global) -> Result<SqlError, NoMemory>
    ensures { IfOk result (λ error. error ≡ spec.long_reply) }
{
    named_error(alloc, Code::C54000, b"reply")
}

/// The rows that a statement leaves written are too heavy together.
pub fn heavy_statement(alloc: Global) -> Result<SqlError, NoMemory>
    ensures { IfOk result (λ error. error ≡ spec.heavy_statement) }
{
    named_error(alloc, Code::C54000, b"weight")
}

/// The key of a new row is NULL.
pub fn null_key_error(alloc: Global, table: &Table) -> Result<SqlError, NoMemory>
    ensures { IfOk result (λ error. error ≡ spec.named_error Code.C23502 (spec.not_null_name table.now table.now.2.key)) }
{
    let name = not_null_name(alloc, &table.0, &table.2, table.2.key as usize)?;
    named_error(alloc, Code::C23502, name.as_slice())
}
