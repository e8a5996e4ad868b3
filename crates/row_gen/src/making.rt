//! The text of a workload.
ghost use Rattle.std.specs.Prelude.{◌≡◌, ◌≤◌, ◌++◌, IfOk, OnOk};
ghost use Rattle.row_gen.specs.Listing as spec;
ghost use Rattle.row_gen.specs.Steps.{lane_text, people_from, state_behind, statements_text};

use crate::draws::Draws;
use crate::lines::{alter_age, create_people, insert_person, lane_head, push_line, statement};
use sql_base::{NoMemory, SqlBytes};
use std::alloc::Global;

/// A part of a workload.
#[derive(Clone, Copy, Debug, PartialEq, Eq)]
pub enum Part {
    /// A table of people and its rows, and the start of a migration that changes the type of one column.
    Setup,
    /// Lanes that go through the versions before and behind that migration, and a control block that fills it.
    Lanes,
}

// A row for each key.
fn push_people(
    out: &mut Vec<u8>,
    alloc: Global,
    draws: &mut Draws,
    rows: u32,
) -> Result<(), NoMemory>
    requires { rows ≤ 100000 }
    ensures { OnOk result (out.new.items ≡ out.old.items ++ spec.text_of (people_from draws.old.state 1 rows)) }
{
    for key in 1..rows + 1 {
        let first = draws.draw();
        let second = draws.draw();
        push_line(out, insert_person(alloc, key, first, second)?.as_str())?;
    }
    Ok(())
}

fn push_setup(
    out: &mut Vec<u8>,
    alloc: Global,
    draws: &mut Draws,
    rows: u32,
) -> Result<(), NoMemory>
    requires { rows ≤ 100000 }
    ensures { OnOk result (out.new.items ≡ out.old.items ++ spec.text_of (spec.setup_lines draws.old.state rows)) }
{
    push_line(out, create_people())?;
    push_line(out, "\\complete")?;
    push_line(out, "SET search_path TO public_01_people;")?;
    push_people(out, alloc, draws, rows)?;
    push_line(out, alter_age())?;
    Ok(())
}

// A statement for each key of a lane.
fn push_statements(
    out: &mut Vec<u8>,
    alloc: Global,
    draws: &mut Draws,
    rows: u32,
    lanes: u32,
    lane: u32,
) -> Result<(), NoMemory>
    requires rows { rows ≤ 100000 }
    requires lanes { 1 ≤ lanes }
    ensures text { OnOk result (out.new.items ≡ out.old.items ++ statements_text draws.old.state rows lanes lane) }
    ensures state { OnOk result (draws.new.state ≡ state_behind draws.old.state rows lanes lane) }
{
    for key in 1..rows + 1 {
        if key % lanes == lane {
            let draw = draws.draw();
            push_line(out, statement(alloc, rows, key, draw)?.as_str())?;
        }
    }
    Ok(())
}

// A lane: its head, and its statements.
fn push_lane(
    out: &mut Vec<u8>,
    alloc: Global,
    draws: &mut Draws,
    rows: u32,
    lanes: u32,
    lane: u32,
) -> Result<(), NoMemory>
    requires rows { rows ≤ 100000 }
    requires lanes { 1 ≤ lanes }
    ensures text { OnOk result (out.new.items ≡ out.old.items ++ lane_text draws.old.state rows lanes lane) }
    ensures state { OnOk result (draws.new.state ≡ state_behind draws.old.state rows lanes lane) }
{
    push_line(out, lane_head(alloc, lane)?.as_str())?;
    push_statements(out, alloc, draws, rows, lanes, lane)
}

fn push_lanes(
    out: &mut Vec<u8>,
    alloc: Global,
    draws: &mut Draws,
    rows: u32,
    lanes: u32,
) -> Result<(), NoMemory>
    requires rows { rows ≤ 100000 }
    requires lanes { 1 ≤ lanes }
    ensures { OnOk result (out.new.items ≡ out.old.items ++ spec.text_of (spec.lanes_lines draws.old.state rows lanes)) }
{
    for lane in 0..lanes {
        push_lane(out, alloc, draws, rows, lanes, lane)?;
    }
    push_line(out, "control")?;
    push_line(out, "\\fill")?;
    Ok(())
}

/// The text of a part of the workload that a number gives, each line with a newline.
///
/// Its draws are those of a linear congruence: the state, at first the number, becomes
/// (state * 1103515245 + 12345) mod 2147483648, and a draw is the state divided by 65536, rounded down.
///
/// `Setup` is for a new journal: it makes the table `people` with a row for each key from 1 to `rows`, each from two
/// draws, and starts a migration of the column `age`. `Lanes` has a lane for each number below `lanes`, whose statements
/// are on the keys that leave this number when divided by `lanes`, each from one draw; even lanes go through the old
/// version and odd ones through the new one. A control block that fills all rows stands last. Both are our own.
///
/// An error is want of memory.
pub fn make(
    alloc: Global,
    part: Part,
    number: u32,
    rows: u32,
    lanes: u32,
) -> Result<SqlBytes, NoMemory>
    requires number { number ≤ 2147483647 }
    requires rows { (1 ≤ rows) × (rows ≤ 100000) }
    requires lanes { (1 ≤ lanes) × (lanes ≤ 63) }
    ensures { IfOk result (λ text. text ≡ spec.text_of (spec.lines_of part number rows lanes)) }
{
    let mut out = Vec::new(alloc);
    let mut draws = Draws::begin(number);
    match part {
        Part::Setup => push_setup(&mut out, alloc, &mut draws, rows)?,
        Part::Lanes => push_lanes(&mut out, alloc, &mut draws, rows, lanes)?,
    }
    Ok(SqlBytes::from_vec(out))
}
