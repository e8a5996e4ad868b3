//! The work of `exec`: what the lines of an input ask for, in order.
ghost use Rattle.std.specs.Prelude.{◌≤◌, List, length};
ghost use Rattle.pg_io.specs.Outside.{known};
ghost use Rattle.machine.specs.declared.events.Entry.{Entry};
ghost use Rattle.machine.specs.State.{beginning};
ghost use Rattle.pgroll_top.specs.Parts.{Works};
ghost use Rattle.pgroll_top.specs.Work.{IsHistory};

use crate::ending::Stop;
use crate::lanes::Lane;
use pg_io::Sink;
use script_text::Line;
use std::alloc::Global;

/// Does what these lines of a text ask for, in order, from the state that a call begins with, and answers whether a
/// command was refused.
pub fn work<K: Sink>(alloc: Global, lines: &[Line], out: &mut K) -> Result<bool, Stop>
    requires { length lines.now ≤ 65536 }
    ensures works { (history : List Entry) × IsHistory history × Works beginning lines.now (known K.held K.faults out.old out.new) result history }
    ensures later { K.faults out.old ≤ K.faults out.new }
{
    machine::laws::states_stand();
    mig_json::laws::texts_read_or_fail();
    sql_parse::statements_read_or_fail();
    let mut lane = Lane::new(alloc)?;
    for line in lines {
        lane.serve(alloc, line, out)?;
    }
    Ok(lane.refused)
}
