//! Values as they stand in a line of output.

ghost use Rattle.std.specs.Prelude.{◌≡◌, ◌++◌, IfOk, OnOk};
ghost use Rattle.std.specs.List.{flat_map};
ghost use Rattle.sql_text.specs.Printing as spec;

use crate::write::{push, write};
use sql_base::{NoMemory, SqlBytes, Value};
use std::alloc::Global;

fn write_escaped(out: &mut Vec<u8>, byte: u8) -> Result<(), NoMemory>
    ensures { OnOk result (out.new.items ≡ out.old.items ++ spec.escaped byte) }
{
    match byte {
        b'\\' => write(out, "\\\\"),
        b'|' => write(out, "\\|"),
        b'\n' => write(out, "\\n"),
        b'\r' => write(out, "\\r"),
        _ => push(out, byte),
    }
}

fn write_text(out: &mut Vec<u8>, text: &[u8]) -> Result<(), NoMemory>
    ensures { OnOk result (out.new.items ≡ out.old.items ++ flat_map spec.escaped text.now) }
{
    for byte in text {
        write_escaped(out, *byte)?;
    }
    Ok(())
}

fn write_value(alloc: Global, out: &mut Vec<u8>, v: &Value) -> Result<(), NoMemory>
    ensures { OnOk result (out.new.items ≡ out.old.items ++ spec.value_text v.now) }
{
    match v {
        Value::Null => write(out, "\\N"),
        Value::Int(n) => write(out, n.to_string(alloc)?.as_str()),
        Value::Text(text) => write_text(out, text.as_str().as_bytes()),
        Value::Bool(true) => write(out, "true"),
        Value::Bool(false) => write(out, "false"),
    }
}

/// The value as it stands in a line of output: NULL is `\N`, and in a text `\`, `|`, newline and carriage
/// return are written `\\`, `\|`, `\n` and `\r`. An error is want of memory.
pub fn print_value(alloc: Global, v: &Value) -> Result<SqlBytes, NoMemory>
    ensures { IfOk result (λ text. text ≡ spec.value_text v.now) }
{
    let mut out = Vec::new(alloc);
    write_value(alloc, &mut out, v)?;
    Ok(SqlBytes::from_vec(out))
}
