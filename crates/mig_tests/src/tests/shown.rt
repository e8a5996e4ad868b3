//! Plans, halves and faults as words.
use mig_lens::{Cell, Layout, Lens, Member, Place, PlanFault};
use sql_base::{Column, Name, Shape, Ty, Unique, Value};
use std::alloc::Global;
use std::test::Fail;

pub fn word(name: &Name) -> &str {
    str::from_utf8(name.as_slice()).unwrap_or("?")
}

fn value(alloc: Global, value: &Value) -> Result<String, Fail> {
    match value {
        Value::Null => Ok(String::from_str(alloc, "NULL")?),
        Value::Int(n) => Ok(format!(in alloc; "{n}")?),
        Value::Text(text) => Ok(String::from_str(alloc, text.as_str())?),
        Value::Bool(b) => Ok(format!(in alloc; "{b}")?),
    }
}

/// The values, with `|` in front of each.
pub fn half(alloc: Global, values: &[Value]) -> Result<String, Fail> {
    let mut all = String::new(alloc);
    for one in values {
        all.push('|')?;
        all.push_str(value(alloc, one)?.as_str())?;
    }
    Ok(all)
}

fn cell(alloc: Global, cell: &Cell) -> Result<String, Fail> {
    match cell {
        Cell::Carry(at) => Ok(format!(in alloc; " {at}")?),
        Cell::Make(_) => Ok(String::from_str(alloc, " up")?),
        Cell::Still(constant) => {
            let constant = value(alloc, constant)?;
            Ok(format!(in alloc; " ={constant}")?)
        }
    }
}

fn cells(alloc: Global, all: &mut String, cells: &[Cell]) -> Result<(), Fail> {
    for one in cells {
        all.push_str(cell(alloc, one)?.as_str())?;
    }
    Ok(())
}

/// The names of the columns, a `!` behind one that isn't nullable, then the names of the constraints.
pub fn shape(alloc: Global, shape: &Shape) -> Result<String, Fail> {
    let mut all = String::new(alloc);
    for column in shape.columns.as_slice() {
        all.push_str(word(&column.name))?;
        all.push_str(if column.nullable { " " } else { "! " })?;
    }
    for check in shape.checks.as_slice() {
        all.push_str(word(&check.name))?;
        all.push(' ')?;
    }
    for unique in shape.uniques.as_slice() {
        all.push_str(word(&unique.name))?;
        all.push(' ')?;
        for at in unique.columns.as_slice() {
            all.push_str(format!(in alloc; "({at}) ")?.as_str())?;
        }
    }
    Ok(all)
}

/// The cells of the new columns, and then those of the old ones.
pub fn lens(alloc: Global, lens: &Lens) -> Result<String, Fail> {
    let mut all = String::new(alloc);
    cells(alloc, &mut all, lens.new_cols.as_slice())?;
    all.push_str(" /")?;
    cells(alloc, &mut all, lens.old_cols.as_slice())?;
    Ok(all)
}

fn place(alloc: Global, number: &str, place: Place) -> Result<String, Fail> {
    let member = match place.member {
        Member::Up => "up",
        Member::Down => "down",
        Member::Check => "check",
        Member::Default => "default",
        Member::TypeName => "type",
    };
    let at = place.operation;
    Ok(format!(in alloc; "{number} operations[{at}].{member}")?)
}

/// The number of the refusal, and what is printed after it.
pub fn fault(alloc: Global, fault: &PlanFault) -> Result<String, Fail> {
    let (number, first, second) = match fault {
        PlanFault::NoSuchTable(name) => ("P7", word(name), ""),
        PlanFault::NoSuchColumn(table, name) => ("P8", word(table), word(name)),
        PlanFault::Exists(name) => ("P9", word(name), ""),
        PlanFault::KeyColumn(table) => ("P10", word(table), ""),
        PlanFault::ColumnTwice(table, name) => ("P11", word(table), word(name)),
        PlanFault::UpNeeded(table, name) => ("P12", word(table), word(name)),
        PlanFault::DownNeeded(table, name) => ("P13", word(table), word(name)),
        PlanFault::BadExpr(at) => return place(alloc, "P14", *at),
        PlanFault::BadType(at) => return place(alloc, "P15", *at),
        PlanFault::Limit(name) => ("P20", word(name), ""),
        PlanFault::NoMemory => ("memory", "", ""),
    };
    if second.is_empty() {
        return Ok(format!(in alloc; "{number} {first}")?);
    }
    Ok(format!(in alloc; "{number} {first} {second}")?)
}

/// The places, each with its type, and whether there is a mark.
pub fn layout(alloc: Global, layout: &Layout) -> Result<String, Fail> {
    let mut all = String::new(alloc);
    for (name, ty) in layout.columns.as_slice() {
        all.push_str(word(name))?;
        all.push_str(match ty {
            Ty::Bigint => ":bigint ",
            Ty::Text => ":text ",
            Ty::Boolean => ":boolean ",
        })?;
    }
    all.push_str(if layout.mark { "mark" } else { "no mark" })?;
    Ok(all)
}
