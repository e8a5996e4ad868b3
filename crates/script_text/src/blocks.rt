//! Reading a script to its first fault or to its end.
ghost use Rattle.std.specs.Prelude.{◌≡◌, ◌≤◌, [], length, IfOk, OnOk};
ghost use Rattle.std.specs.List.{list_any};
ghost use Rattle.std.specs.Str.{bytes_eq};
ghost use Rattle.script_text.specs.declared.pieces.Piece.TheVariants as piece;
ghost use Rattle.script_text.specs.Blocks.{blocks_of};
ghost use Rattle.script_text.specs.Building as spec;
ghost use Rattle.script_text.specs.Script.{Answers};

use crate::lines::{AnyCommand, LaneText, Script};
use crate::pieces::{Piece, piece_of};
use crate::splitting::{is_passed, split_line};
use sql_base::{List, Name, NoMemory, ScriptFault, SqlBytes};
use std::alloc::Global;

/// The most lanes of a script.
const MAX_LANES: usize = 64;

/// What a line of a script belongs to.
#[derive(Clone, Copy, Debug, PartialEq, Eq)]
pub enum Block {
    /// No block has begun.
    Front,
    /// The last lane that began.
    Lane,
    /// The control block.
    Control,
}

// A script as far as it is read.
#[derive(Drop)]
struct Blocks {
    // The lanes that have begun, with their texts so far.
    lanes: Vec<LaneText>,
    // The commands so far.
    control: List<AnyCommand>,
    // What the next line belongs to.
    block: Block,
    // Whether the control block has begun.
    has_control: bool,
}

// Adds a text to the last lane.
fn add_text(lanes: &mut Vec<LaneText>, text: SqlBytes) -> Result<(), NoMemory>
    ensures { OnOk result (lanes.new.items ≡ spec.with_text lanes.old.items text) }
{
    if let Some(lane) = lanes.last_mut() {
        lane.lines.push(text)?;
    }
    Ok(())
}

impl Blocks {
    fn new(alloc: Global) -> Blocks
        ensures { spec.Stands result [] }
    {
        Blocks {
            lanes: Vec::new(alloc),
            control: List::new(alloc),
            block: Block::Front,
            has_control: false,
        }
    }

    // Whether a lane of this name has begun.
    fn has_lane(&self, name: &[u8]) -> bool
        ensures { result ≡ list_any (λ lane. bytes_eq name.now lane.name) self.now.lanes.items }
    {
        self.lanes.iter().any(|lane| name == lane.name.as_slice())
    }

    // Whether a lane of this name may begin.
    fn has_room(&self, name: &[u8]) -> bool
        ensures { result ≡ spec.has_room self.now.lanes.items name.now }
    {
        !self.has_lane(name) && self.lanes.len() < MAX_LANES
    }

    // A lane begins, unless one of this name has begun, or too many.
    fn take_lane(&mut self, alloc: Global, name: Name, version: Name) -> Result<bool, NoMemory>
        ensures { IfOk result (λ taken. spec.Takes self.old self.new (piece.Lane name version) taken) }
    {
        if !self.has_room(name.as_slice()) {
            return Ok(false);
        }
        let lines = List::new(alloc);
        self.lanes.push(LaneText {
            name,
            version,
            lines,
        })?;
        self.block = Block::Lane;
        Ok(true)
    }

    // The control block begins, unless it has begun.
    fn take_control(&mut self) -> bool
        ensures { spec.Takes self.old self.new piece.Control result }
    {
        if self.has_control {
            return false;
        }
        self.has_control = true;
        self.block = Block::Control;
        true
    }

    // A text stands in a lane.
    fn take_text(&mut self, text: SqlBytes) -> Result<bool, NoMemory>
        ensures { IfOk result (λ taken. spec.Takes self.old self.new (piece.Text text) taken) }
    {
        match self.block {
            Block::Lane => {
                add_text(&mut self.lanes, text)?;
                Ok(true)
            }
            _ => Ok(false),
        }
    }

    // A command stands in the control block.
    fn take_command(&mut self, command: AnyCommand) -> Result<bool, NoMemory>
        ensures { IfOk result (λ taken. spec.Takes self.old self.new (piece.Command command) taken) }
    {
        match self.block {
            Block::Control => {
                self.control.push(command)?;
                Ok(true)
            }
            _ => Ok(false),
        }
    }

    // Takes one more piece, and answers whether it may stand here.
    fn take(&mut self, alloc: Global, piece: Piece) -> Result<bool, NoMemory>
        ensures { IfOk result (λ taken. spec.Takes self.old self.new piece taken) }
    {
        match piece {
            Piece::Lane(name, version) => self.take_lane(alloc, name, version),
            Piece::Control => Ok(self.take_control()),
            Piece::Text(text) => self.take_text(text),
            Piece::Command(command) => self.take_command(command),
        }
    }

    // Takes one more line, and answers whether it may stand here.
    fn take_line(&mut self, alloc: Global, line: &[u8]) -> Result<bool, NoMemory>
        ensures { IfOk result (λ taken. spec.TakesLine self.old self.new line.now taken) }
    {
        if is_passed(line) {
            return Ok(true);
        }
        match piece_of(alloc, line)? {
            Some(piece) => self.take(alloc, piece),
            None => Ok(false),
        }
    }

    fn into_script(self) -> Script
        ensures { result ≡ spec.script_so_far self }
    {
        let Blocks {
            lanes,
            control,
            block: _,
            has_control: _,
        } = self;
        Script {
            lanes: List::from_vec(lanes),
            control,
        }
    }
}

/// The script that a text is: its lanes with their texts, and the commands of its control block.
///
/// Lines end, and are passed by, as in `read_exec`. The line `lane NAME VERSION`, with single spaces, begins a lane. NAME
/// has 1 to 48 bytes of small letters, digits and `_`, doesn't begin with `_pgroll_`, and is none of `control`, `main` and
/// `load`; VERSION is a plain identifier, and capitals stand for small letters. The line `control` begins the control
/// block. Each other line belongs to the block that began last: texts stand in lanes, and commands, `\rollback` and
/// `\status` among them, in the control block. These rules are our own.
///
/// `Line` comes exactly where a line breaks the rules, with the number of the first such line, as in `read_exec`. It
/// begins with a backslash and is no command; it begins with `lane` and a space and has another form; it stands before the
/// first block; it begins a second lane of a name, a 65th lane or a second control block; or it is a command in a lane
/// or a text in the control block.
pub fn read_script(alloc: Global, text: &[u8]) -> Result<Script, ScriptFault>
    requires { length text.now ≤ 16777216 }
    ensures { Answers (blocks_of text.now) result }
{
    let mut blocks = Blocks::new(alloc);
    let mut number = 0;
    let mut rest = text;
    while !rest.is_empty() {
        let (line, after) = split_line(rest);
        rest = after;
        number += 1;
        if !blocks.take_line(alloc, line)? {
            return Err(ScriptFault::Line(number));
        }
    }
    Ok(blocks.into_script())
}
