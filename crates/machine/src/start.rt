//! What the start of a migration comes to.
ghost use Rattle.std.specs.Prelude.{◌≡◌, ◌+◌, ◌++◌, ◌<◌, ◌^◌, [], IfOk, length, map};
ghost use Rattle.std.specs.List.{list_any};
ghost use Rattle.mig_lens.specs.Plan.{created_in, created_number};
ghost use Rattle.row_rules.specs.Outcome.{Answers};
ghost use Rattle.row_rules.specs.Steps as steps;
ghost use Rattle.machine.specs.Migrate as spec;
ghost use Rattle.machine.specs.Plain.{replied};

use crate::events::{Asked, Reply};
use crate::phases::phase_of;
use crate::refusals::limit;
use crate::states::{Mode, State};
use crate::tables::lens_among;
use mig_lens::{Fate, Lens, Migration, Plan, PlanFault, Refusal};
use mig_plan::laws::created_tables_are_numbered;
use mig_plan::plan;
use phase_steps::may_start;
use row_rules::{Kept, Stop, begun_row, show_heavy};
use sql_base::{Copying, List, Name, NoMemory};
use std::alloc::Global;

// ---- whether it may start

/// Why the migration can't be started now: steps of tidying that are left (P3), a migration that is active (P1), or a name
/// that the current version has (P6).
pub fn may_not_start(alloc: Global, s: &State, m: &Migration) -> Result<Option<Refusal>, NoMemory>
    ensures { IfOk result (λ refusal. refusal ≡ spec.may_not_start s.now m.now) }
{
    may_start(alloc, &m.name, phase_of(s))
}

// ---- its plan

// A migration that has no plan is refused for the plan's fault.
fn plan_refusal(alloc: Global, fault: PlanFault) -> Result<Refusal, NoMemory>
    ensures { IfOk result (λ refusal. refusal ≡ spec.unplanned fault) }
{
    let refusal = match fault {
        PlanFault::NoSuchTable(name) => Refusal::NoSuchTable(name),
        PlanFault::NoSuchColumn(table, name) => Refusal::NoSuchColumn(table, name),
        PlanFault::Exists(name) => Refusal::Exists(name),
        PlanFault::KeyColumn(table) => Refusal::KeyColumn(table),
        PlanFault::ColumnTwice(table, column) => Refusal::ColumnTwice(table, column),
        PlanFault::UpNeeded(table, column) => Refusal::UpNeeded(table, column),
        PlanFault::DownNeeded(table, column) => Refusal::DownNeeded(table, column),
        PlanFault::BadExpr(place) => Refusal::BadExpr(place),
        PlanFault::BadType(place) => Refusal::BadType(place),
        PlanFault::Limit(which) => Refusal::Limit(which),
        PlanFault::NoMemory => return Err(NoMemory),
    };
    Ok(refusal)
}

/// The migration's plan over the current version, or the refusal of one that has none.
pub fn planned(alloc: Global, s: &State, m: &Migration) -> Result<Plan, Stop<Refusal>>
    ensures { Answers (spec.planned s.now m.now) result }
{
    match plan(alloc, &s.schema, s.next_table, m) {
        Ok(plan) => Ok(plan),
        Err(PlanFault::NoMemory) => Err(Stop::NoMemory),
        Err(fault) => Err(Stop::Because(plan_refusal(alloc, fault)?)),
    }
}

// ---- the rows that stand

fn begun_all(alloc: Global, lens: &Lens, rows: &[Kept]) -> Result<List<Kept>, NoMemory>
    ensures { IfOk result (λ begun. begun ≡ map (steps.begun_row lens.now) rows.now) }
{
    let mut begun = List::new(alloc);
    for row in rows {
        begun.push(begun_row(alloc, lens, row)?)?;
    }
    Ok(begun)
}

fn begun_table(
    alloc: Global,
    fates: &[(u32, Fate)],
    table: &(u32, List<Kept>),
) -> Result<(u32, List<Kept>), NoMemory>
    ensures { IfOk result (λ begun. begun ≡ spec.begun_table fates.now table.now) }
{
    match lens_among(fates, table.0) {
        Some(lens) => Ok((table.0, begun_all(alloc, lens, table.1.as_slice())?)),
        None => table.copy(alloc),
    }
}

fn begun_tables(
    alloc: Global,
    fates: &[(u32, Fate)],
    tables: &[(u32, List<Kept>)],
) -> Result<List<(u32, List<Kept>)>, NoMemory>
    ensures { IfOk result (λ begun. begun ≡ map (spec.begun_table fates.now) tables.now) }
{
    let mut begun = List::new(alloc);
    for table in tables {
        begun.push(begun_table(alloc, fates, table)?)?;
    }
    Ok(begun)
}

// ---- the tables that are created

// The number of a table that the migration creates.
fn created_number(number: u32, fate: &Fate) -> Option<u32>
    ensures { result ≡ created_number number fate.now }
{
    match fate {
        Fate::Created => Some(number),
        Fate::Kept(_) | Fate::Dropped => None,
    }
}

/// The numbers of the tables that a plan creates, by its fates, in the order of their creation.
pub fn created_in(alloc: Global, fates: &[(u32, Fate)]) -> Result<List<u32>, NoMemory>
    ensures { IfOk result (λ numbers. numbers ≡ created_in fates.now) }
{
    let mut numbers = List::new(alloc);
    for fate in fates {
        if let Some(number) = created_number(fate.0, &fate.1) {
            numbers.push(number)?;
        }
    }
    Ok(numbers)
}

// Tables with one more for each of these numbers, which has no row.
fn with_empty(
    alloc: Global,
    tables: List<(u32, List<Kept>)>,
    numbers: &[u32],
) -> Result<List<(u32, List<Kept>)>, NoMemory>
    ensures { IfOk result (λ more. more ≡ tables ++ map (λ number. (number, [])) numbers.now) }
{
    let mut more = tables;
    for number in numbers {
        more.push((*number, List::new(alloc)))?;
    }
    Ok(more)
}

// ---- the weight of the rows

fn has_heavy(
    alloc: Global,
    fates: &[(u32, Fate)],
    table: &(u32, List<Kept>),
) -> Result<bool, NoMemory>
    ensures { IfOk result (λ heavy. heavy ≡ spec.has_heavy fates.now table.now) }
{
    match lens_among(fates, table.0) {
        Some(lens) => show_heavy(alloc, lens, &table.1.as_slice()),
        None => Ok(false),
    }
}

// P20: the new version would show a row too heavy.
fn too_heavy(alloc: Global, s: &State, plan: &Plan) -> Result<Option<Refusal>, NoMemory>
    ensures { IfOk result (λ refusal. refusal ≡ spec.too_heavy s.now plan.now) }
{
    for table in s.tables.as_slice() {
        if has_heavy(alloc, plan.fates.as_slice(), table)? {
            return Ok(Some(limit(alloc, b"row")?));
        }
    }
    Ok(None)
}

// ---- the start

fn started_state(alloc: Global, s: &State, name: &Name, plan: Plan) -> Result<State, NoMemory>
    requires { s.now.next_table + length (created_in plan.fates) < 2 ^ 32 }
    ensures { IfOk result (λ t. t ≡ spec.started s.now name.now plan) }
{
    let created = created_in(alloc, plan.fates.as_slice())?;
    let begun = begun_tables(alloc, plan.fates.as_slice(), s.tables.as_slice())?;
    let tables = with_empty(alloc, begun, created.as_slice())?;
    Ok(State {
        version: s.version.copy(alloc)?,
        schema: s.schema.copy(alloc)?,
        mode: Mode::Both {
            name: name.copy(alloc)?,
            schema: plan.schema,
            fates: plan.fates,
        },
        left: s.left,
        kind: s.kind,
        next_table: s.next_table + created.len() as u32,
        tables,
        lost_columns: s.lost_columns.copy(alloc)?,
    })
}

fn start_planned(
    alloc: Global,
    s: &State,
    m: &Migration,
    plan: Plan,
) -> Result<(Reply, State), Stop<Refusal>>
    requires { s.now.next_table + length (created_in plan.fates) < 2 ^ 32 }
    ensures { Answers (replied (spec.start_planned s.now m.now plan)) result }
{
    if let Some(refusal) = too_heavy(alloc, s, &plan)? {
        return Err(Stop::Because(refusal));
    }
    Ok((
        Reply::Start(m.name.copy(alloc)?),
        started_state(alloc, s, &m.name, plan)?,
    ))
}

fn start_read(alloc: Global, s: &State, m: &Migration) -> Result<(Reply, State), Stop<Refusal>>
    ensures { Answers (replied (spec.start_read s.now m.now)) result }
{
    if let Some(refusal) = may_not_start(alloc, s, m)? {
        return Err(Stop::Because(refusal));
    }
    let plan = planned(alloc, s, m)?;
    // The number of the next table has 32 bits, and so it has after the plan.
    let _next_table = s.next_table;
    created_tables_are_numbered();
    start_planned(alloc, s, m, plan)
}

/// What the start of what was asked for comes to.
pub fn start(alloc: Global, s: &State, asked: &Asked) -> Result<(Reply, State), Stop<Refusal>>
    ensures { Answers (replied (spec.start s.now asked.now)) result }
{
    match asked {
        Asked::Read(m) => start_read(alloc, s, m),
        Asked::Refused(refusal) => Err(Stop::Because(refusal.copy(alloc)?)),
    }
}
