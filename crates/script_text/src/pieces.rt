//! What a line of a script is, wherever it stands.
ghost use Rattle.std.specs.Prelude.{◌≡◌, IfOk};
ghost use Rattle.script_text.specs.Pieces as spec;

use crate::lines::{AnyCommand, AnyLine};
use crate::names::{is_lane_name, version_of};
use crate::orders::{LineForm, behind};
use crate::splitting::place_of;
use sql_base::{Name, NoMemory, SqlBytes};
use std::alloc::Global;

/// A line of a script that isn't passed by.
#[derive(Debug, Drop)]
pub enum Piece {
    /// `lane NAME VERSION`: a lane of this name begins, whose first path is this version.
    Lane(Name, Name),
    /// `control`: the control block begins.
    Control,
    /// A text that is to be said.
    Text(SqlBytes),
    /// A command.
    Command(AnyCommand),
}

// The beginning of a lane, from what stands behind `lane` and a space.
fn lane_of(alloc: Global, rest: &[u8]) -> Result<Option<Piece>, NoMemory>
    ensures { IfOk result (λ piece. piece ≡ spec.lane_of rest.now) }
{
    let end = place_of(b' ', rest);
    if end == rest.len() {
        return Ok(None);
    }
    if !is_lane_name(&rest[..end]) {
        return Ok(None);
    }
    match version_of(alloc, &rest[end + 1..])? {
        Some(version) => {
            let name = Name::from_slice(alloc, &rest[..end])?;
            Ok(Some(Piece::Lane(name, version)))
        }
        None => Ok(None),
    }
}

// A line that begins no lane.
fn other_piece(alloc: Global, line: &[u8]) -> Result<Option<Piece>, NoMemory>
    ensures { IfOk result (λ piece. piece ≡ spec.other_piece line.now) }
{
    if line == b"control".as_slice() {
        return Ok(Some(Piece::Control));
    }
    match AnyLine::of_line(alloc, line)? {
        Some(AnyLine::Text(text)) => Ok(Some(Piece::Text(text))),
        Some(AnyLine::Command(command)) => Ok(Some(Piece::Command(command))),
        None => Ok(None),
    }
}

/// What a line that isn't passed by is, or `None` where no script has it at any place.
#[tactic(auto, unfolding(crate::specs::Pieces::piece_of))]
pub fn piece_of(alloc: Global, line: &[u8]) -> Result<Option<Piece>, NoMemory>
    ensures { IfOk result (λ piece. piece ≡ spec.piece_of line.now) }
{
    match behind(b"lane ", line) {
        Some(rest) => lane_of(alloc, rest),
        None => other_piece(alloc, line),
    }
}
