//! The first step of completing and that of rolling back: the version of one side goes, and the other one stands alone. No
//! row is touched. All memory is taken before anything is switched.
ghost use Rattle.std.specs.Prelude.{◌≡◌, ◌≤◌, ◌<◌, ◌+◌, ◌++◌, ◌∷◌, [], IfOk, None, OnErr, OnOk, is_some, map, vec_capacity, vec_len, if◌then◌else◌};
ghost use Rattle.std.specs.List.{AllByRecursion, filter, filter_map};
ghost use Rattle.std.specs.Option.{option_map};
ghost use Rattle.row_rules.specs.Site as sites;
ghost use Rattle.roll_core.specs.Seen.{former_seen, parts, seen};
ghost use Rattle.roll_core.specs.Stepping as spec;

use crate::forms::Form;
use crate::store::{Former, StoredTable};
use machine::parts::{lens_among, lost_columns_in, table_on};
use machine::{Mode, State};
use mig_lens::{Fate, Kind, Side};
use row_index::SideIndex;
use sql_base::{List, NoMemory};
use std::alloc::Global;
use std::mem::replace;
use trigger_pair::Pair;

// ---- what is lost

// How many columns of a table are lost, where any is. A number that 32 bits don't hold is answered as want of memory.
fn lost_by(
    gone: Side,
    fates: &[(u32, Fate)],
    table: &StoredTable,
) -> Result<Option<(u32, u32)>, NoMemory>
    ensures { IfOk result (λ lost. lost ≡ spec.lost_by gone fates.now (seen table.now)) }
{
    let lost = match lens_among(fates, table.number) {
        Some(lens) => lost_columns_in(gone, lens),
        None => 0,
    };
    match u32::try_from(lost) {
        Ok(0) => Ok(None),
        Ok(lost) => Ok(Some((table.number, lost))),
        Err(_) => Err(NoMemory),
    }
}

fn lost_among(
    alloc: Global,
    gone: Side,
    fates: &[(u32, Fate)],
    tables: &[StoredTable],
) -> Result<List<(u32, u32)>, NoMemory>
    ensures { IfOk result (λ lost. lost ≡ filter_map (spec.lost_by gone fates.now) (map seen tables.now)) }
{
    let mut all = List::new(alloc);
    for table in tables {
        if let Some(lost) = lost_by(gone, fates, table)? {
            all.push(lost)?;
        }
    }
    Ok(all)
}

// The columns that are lost with the version that goes, while two stand.
fn lost_columns(
    alloc: Global,
    gone: Side,
    mode: &Mode,
    tables: &[StoredTable],
) -> Result<List<(u32, u32)>, NoMemory>
    ensures { IfOk result (λ lost. lost ≡ spec.lost_columns gone mode.now (map seen tables.now)) }
{
    match mode {
        Mode::Calm => Ok(List::new(alloc)),
        Mode::Both { fates, .. } => lost_among(alloc, gone, fates.as_slice(), tables),
    }
}

// ---- which tables stay, and how

fn form_without(gone: Side, pair: Pair) -> Form
    ensures { result ≡ spec.form_without gone pair }
{
    match gone {
        Side::Old => Form::Left(pair),
        Side::New => Form::Returned(pair),
    }
}

fn left_form(gone: Side, form: Form) -> Form
    ensures { result ≡ spec.left_form gone form }
{
    match form {
        Form::Own(_) => Form::Own(Side::Old),
        Form::Paired(pair) => form_without(gone, pair),
        Form::Left(pair) => Form::Left(pair),
        Form::Trimmed(pair) => Form::Trimmed(pair),
        Form::Returned(pair) => Form::Returned(pair),
    }
}

// Whether the halves that stay are the new ones.
fn stays_new(gone: Side, form: &Form) -> bool
    ensures { result ≡ spec.stays_new gone form.now }
{
    match form {
        Form::Own(side) => *side == Side::New,
        Form::Paired(_) => gone == Side::Old,
        Form::Left(_) | Form::Trimmed(_) | Form::Returned(_) => false,
    }
}

fn index_that_stays(stays_new: bool, old: SideIndex, new: SideIndex) -> SideIndex
    ensures { result ≡ (if stays_new then new else old) }
{
    if stays_new { new } else { old }
}

// A table that stays, with its rows as they are stored and the indexes of the halves that stay. Where the old version goes
// each row has its new half.
fn left_table(alloc: Global, gone: Side, table: StoredTable) -> StoredTable
    requires { spec.MayLeave gone (seen table) }
    ensures { seen result ≡ spec.left_table gone (seen table) }
{
    let stays = stays_new(gone, &table.form);
    let index = index_that_stays(stays, table.old_index, table.new_index);
    StoredTable {
        number: table.number,
        form: left_form(gone, table.form),
        rows: table.rows,
        old_index: index,
        new_index: SideIndex::new(alloc),
    }
}

fn other(side: Side) -> Side
    ensures { result ≡ sites.other side }
{
    match side {
        Side::Old => Side::New,
        Side::New => Side::Old,
    }
}

// Whether the version that stays has the table.
fn stays(gone: Side, frame: &State, table: &StoredTable) -> bool
    ensures { result ≡ spec.stays gone frame.now (seen table.now) }
{
    table_on(frame, other(gone), table.number).is_some()
}

// ---- the tables are parted

// Moves a table to those that stay or to those that go, where there is room for one.
fn part_one(
    alloc: Global,
    gone: Side,
    frame: &State,
    table: StoredTable,
    staying: &mut Vec<StoredTable>,
    going: &mut Vec<StoredTable>,
)
    requires leaves { spec.MayLeave gone (seen table) }
    requires stay_room { vec_len staying.old < vec_capacity staying.old }
    requires go_room { vec_len going.old < vec_capacity going.old }
    ensures staying { map seen staying.new.items ≡ map seen staying.old.items
        ++ map (spec.left_table gone) (filter (spec.stays gone frame.now) (seen table ∷ [])) }
    ensures going { map seen going.new.items
        ≡ map seen going.old.items ++ filter (spec.goes gone frame.now) (seen table ∷ []) }
    ensures stay_len { vec_len staying.new ≤ vec_len staying.old + 1 }
    ensures go_len { vec_len going.new ≤ vec_len going.old + 1 }
    ensures stay_whole { vec_capacity staying.new ≡ vec_capacity staying.old }
    ensures go_whole { vec_capacity going.new ≡ vec_capacity going.old }
{
    if stays(gone, frame, &table) {
        staying.push_reserved(left_table(alloc, gone, table));
    } else {
        going.push_reserved(table);
    }
}

// Moves the tables so, where there is room for all.
fn part_all(
    alloc: Global,
    gone: Side,
    frame: &State,
    tables: Vec<StoredTable>,
    staying: &mut Vec<StoredTable>,
    going: &mut Vec<StoredTable>,
)
    requires leave { AllByRecursion (spec.MayLeave gone) (map seen tables.items) }
    requires stay_room { vec_len staying.old + vec_len tables ≤ vec_capacity staying.old }
    requires go_room { vec_len going.old + vec_len tables ≤ vec_capacity going.old }
    ensures staying { map seen staying.new.items ≡ map seen staying.old.items
        ++ map (spec.left_table gone) (filter (spec.stays gone frame.now) (map seen tables.items)) }
    ensures going { map seen going.new.items
        ≡ map seen going.old.items ++ filter (spec.goes gone frame.now) (map seen tables.items) }
{
    for table in tables {
        part_one(alloc, gone, frame, table, staying, going);
    }
}

// The tables that the version which stays has stay, as the step leaves them, and the others are given. No row is copied. An
// error is want of memory, and then the tables are as they were.
fn part(
    alloc: Global,
    gone: Side,
    frame: &State,
    tables: &mut Vec<StoredTable>,
) -> Result<Vec<StoredTable>, NoMemory>
    requires { AllByRecursion (spec.MayLeave gone) (map seen tables.old.items) }
    ensures staying { OnOk result (map seen tables.new.items
        ≡ map (spec.left_table gone) (filter (spec.stays gone frame.now) (map seen tables.old.items))) }
    ensures going { IfOk result (λ gone_tables. map seen gone_tables.items
        ≡ filter (spec.goes gone frame.now) (map seen tables.old.items)) }
    ensures err { OnErr result (tables.new.items ≡ tables.old.items) }
{
    let count = tables.len();
    let mut staying = Vec::with_capacity(alloc, count)?;
    let mut going = Vec::with_capacity(alloc, count)?;
    let all = replace(tables, Vec::new(alloc));
    part_all(alloc, gone, frame, all, &mut staying, &mut going);
    *tables = staying;
    Ok(going)
}

// ---- the step

// One version stands alone, with the steps of tidying left that are due; what the one that goes had is given, with these
// tables.
fn left_frame(
    gone: Side,
    frame: &mut State,
    lost: List<(u32, u32)>,
    tables: Vec<StoredTable>,
) -> Option<Former>
    ensures frame { frame.new ≡ spec.left_frame gone lost frame.old }
    ensures former { option_map former_seen result
        ≡ spec.former_by gone frame.old frame.old.mode (map seen tables.items) }
{
    let Mode::Both {
        name,
        schema,
        fates,
    } = replace(&mut frame.mode, Mode::Calm)
    else {
        return None;
    };
    frame.lost_columns = lost;
    let (version, schema) = match gone {
        Side::Old => {
            frame.left = 2;
            frame.kind = Kind::Complete;
            let version = replace(&mut frame.version, name);
            (version, replace(&mut frame.schema, schema))
        }
        Side::New => {
            frame.left = 1;
            frame.kind = Kind::Rollback;
            (name, schema)
        }
    };
    Some(Former {
        version,
        schema,
        fates,
        tables,
    })
}

/// The version of this side goes, while two stand, and what it had is kept. Where the old one goes no row misses its new
/// half. An error is want of memory, and then all is stored as before.
pub fn leave(
    alloc: Global,
    gone: Side,
    frame: &mut State,
    former: &mut Option<Former>,
    tables: &mut Vec<StoredTable>,
) -> Result<(), NoMemory>
    requires { AllByRecursion (spec.MayLeave gone) (map seen tables.old.items) }
    ensures stored { OnOk result (parts frame.new former.new tables.new.items ≡ spec.left_parts gone (parts frame.old former.old tables.old.items)) }
    ensures err { OnErr result (parts frame.new former.new tables.new.items ≡ parts frame.old former.old tables.old.items) }
{
    let lost = lost_columns(alloc, gone, &frame.mode, tables)?;
    let going = part(alloc, gone, frame, tables)?;
    *former = left_frame(gone, frame, lost, going);
    Ok(())
}
