//! START: a migration is begun over what is stored.
ghost use Rattle.std.specs.Prelude.{◌≡◌, ◌≤◌, ◌+◌, ◌++◌, [], false, IfOk, None, OnErr, OnOk, Option, length, map};
ghost use Rattle.std.specs.List.{list_any};
ghost use Rattle.machine.specs.Laws.{leaves_all};
ghost use Rattle.machine.specs.Migrate as migrate;
ghost use Rattle.machine.specs.declared.events.Asked.TheVariants.{Read as Migrates};
ghost use Rattle.mig_lens.specs.Plan.{created_in};
ghost use Rattle.row_rules.specs.Outcome.{Answers};
ghost use Rattle.row_rules.specs.Site as sites;
ghost use Rattle.std.specs.Option.{option_copied, option_map_or};
ghost use Rattle.roll_core.specs.declared.store.Former.{Former};
ghost use Rattle.roll_core.specs.Running.{meant};
ghost use Rattle.roll_core.specs.Seen.{parts, seen};
ghost use Rattle.roll_core.specs.Stepping as spec;
ghost use Rattle.roll_core.specs.Store as model;

use crate::forms::Form;
use crate::laws::laws_below;
use crate::stepping::stepped_rows;
use crate::store::StoredTable;
use machine::parts::{created_in, lens_among, may_not_start, numbered, planned};
use machine::{Asked, Mode, Reply, State};
use mig_lens::{Fate, Lens, Migration, Plan, Refusal, Side, layout};
use row_rules::{Stop, Table, show_heavy};
use row_store::RowStore;
use sql_base::{Copying, Name, NoMemory, Unique};
use std::alloc::Global;
use trigger_pair::Pair;

// ---- whether it may start

// Whether the new version would show a row of a table too heavy that both versions have.
fn has_heavy(alloc: Global, fates: &[(u32, Fate)], table: &StoredTable) -> Result<bool, NoMemory>
    ensures { IfOk result (λ heavy. heavy ≡ migrate.has_heavy fates.now (model.table_meant (seen table.now))) }
{
    match lens_among(fates, table.number) {
        Some(lens) => show_heavy(alloc, lens, table),
        None => Ok(false),
    }
}

fn any_heavy(alloc: Global, fates: &[(u32, Fate)], tables: &[StoredTable]) -> Result<bool, NoMemory>
    ensures { IfOk result (λ heavy. heavy ≡ list_any (migrate.has_heavy fates.now) (map model.table_meant (map seen tables.now))) }
{
    for table in tables {
        if has_heavy(alloc, fates, table)? {
            return Ok(true);
        }
    }
    Ok(false)
}

// The plan by which the migration is started.
fn startable(
    alloc: Global,
    frame: &State,
    tables: &[StoredTable],
    m: &Migration,
) -> Result<Plan, Stop<Refusal>>
    ensures { Answers (spec.startable (meant frame.now (map seen tables.now)) m.now) result }
{
    if let Some(refusal) = may_not_start(alloc, frame, m)? {
        return Err(Stop::Because(refusal));
    }
    let plan = planned(alloc, frame, m)?;
    if any_heavy(alloc, plan.fates.as_slice(), tables)? {
        return Err(Stop::Because(Refusal::Limit(Name::from_slice(alloc, b"row")?)));
    }
    Ok(plan)
}

// ---- the tables as it begins with them

fn pair_of(alloc: Global, old: &Table, new: &Table, lens: &Lens) -> Result<Pair, NoMemory>
    ensures { IfOk result (λ pair. pair ≡ model.pair_over (record { old = old.now; new = new.now; lens = lens.now })) }
{
    Ok(Pair {
        old: old.2.copy(alloc)?,
        new: new.2.copy(alloc)?,
        lens: lens.copy(alloc)?,
        layout: layout(alloc, &old.2, &new.2, lens)?,
    })
}

fn begun_form(alloc: Global, frame: &State, plan: &Plan, number: u32) -> Result<Form, NoMemory>
    ensures { IfOk result (λ form. form ≡ spec.begun_form frame.now plan.now number) }
{
    match (
        numbered(&frame.schema, number),
        numbered(&plan.schema, number),
        lens_among(plan.fates.as_slice(), number),
    ) {
        (Some(old), Some(new), Some(lens)) => Ok(Form::Paired(pair_of(alloc, old, new, lens)?)),
        _ => Ok(Form::Own(Side::Old)),
    }
}

// The unique constraints that a version has for a table, which it may not have.
fn uniques_of(table: Option<&Table>) -> &[Unique]
    ensures { result.now ≡ option_map_or (λ table. (sites.shape_of table).uniques) (option_copied table.entry) [] }
{
    match table {
        Some(table) => table.2.uniques.as_slice(),
        None => &[],
    }
}

fn begun_table(
    alloc: Global,
    frame: &State,
    plan: &Plan,
    table: &StoredTable,
) -> Result<StoredTable, NoMemory>
    ensures { IfOk result (λ begun. seen begun ≡ spec.begun_table frame.now plan.now (seen table.now)) }
{
    let form = begun_form(alloc, frame, plan, table.number)?;
    let rows = stepped_rows(alloc, &form, &table.rows)?;
    let old = uniques_of(numbered(&frame.schema, table.number));
    let new = uniques_of(numbered(&plan.schema, table.number));
    StoredTable::new(alloc, table.number, form, rows, old, new)
}

fn begun_tables(
    alloc: Global,
    frame: &State,
    plan: &Plan,
    tables: &[StoredTable],
) -> Result<Vec<StoredTable>, NoMemory>
    ensures { IfOk result (λ begun. map seen begun.items ≡ map (spec.begun_table frame.now plan.now) (map seen tables.now)) }
{
    let mut begun = Vec::new(alloc);
    for table in tables {
        begun.push(begun_table(alloc, frame, plan, table)?)?;
    }
    Ok(begun)
}

fn created_table(alloc: Global, plan: &Plan, number: u32) -> Result<StoredTable, NoMemory>
    ensures { IfOk result (λ table. seen table ≡ spec.created_table number) }
{
    let uniques = uniques_of(numbered(&plan.schema, number));
    let form = Form::Own(Side::New);
    let table = StoredTable::new(alloc, number, form, RowStore::new(alloc), &[], uniques)?;
    Ok(table)
}

// Adds a table without rows for each of these numbers.
fn add_created(
    alloc: Global,
    plan: &Plan,
    tables: &mut Vec<StoredTable>,
    numbers: &[u32],
) -> Result<(), NoMemory>
    ensures { OnOk result (map seen tables.new.items
        ≡ map seen tables.old.items ++ map spec.created_table numbers.now) }
{
    for number in numbers {
        tables.push(created_table(alloc, plan, *number)?)?;
    }
    Ok(())
}

// ---- the start

// The migration is begun by its plan. An error is want of memory, and then nothing has changed.
fn begin(
    alloc: Global,
    frame: &mut State,
    tables: &mut Vec<StoredTable>,
    name: &Name,
    plan: Plan,
) -> Result<(), NoMemory>
    requires { frame.old.next_table + length (created_in plan.fates) ≤ 4294967295 }
    ensures frame { OnOk result (frame.new ≡ spec.begun_frame frame.old name.now plan) }
    ensures tables { OnOk result (map seen tables.new.items
        ≡ map (spec.begun_table frame.old plan) (map seen tables.old.items)
        ++ map spec.created_table (created_in plan.fates)) }
    ensures none { OnErr result (parts frame.new None tables.new.items ≡ parts frame.old None tables.old.items) }
{
    let created = created_in(alloc, plan.fates.as_slice())?;
    let mut begun = begun_tables(alloc, frame, &plan, tables)?;
    add_created(alloc, &plan, &mut begun, created.as_slice())?;
    let name = name.copy(alloc)?;
    frame.next_table += created.len() as u32;
    frame.mode = Mode::Both {
        name,
        schema: plan.schema,
        fates: plan.fates,
    };
    *tables = begun;
    Ok(())
}

// The migration is started: whether it may is looked for in place.
fn start_read(
    alloc: Global,
    frame: &mut State,
    tables: &mut Vec<StoredTable>,
    m: &Migration,
) -> Result<Reply, Stop<Refusal>>
    requires { spec.AreRun frame.old (map seen tables.old.items) }
    ensures goes { (former : Option Former) → spec.Goes (parts frame.old former tables.old.items) (migrate.start_read (meant frame.old (map seen tables.old.items)) m.now) result (parts frame.new former tables.new.items) }
    ensures changes { IfOk result (λ reply. leaves_all reply ≡ false) }
    ensures stored { (former : Option Former) → OnOk result (spec.StartStores (parts frame.old former tables.old.items) (Migrates m.now) (parts frame.new former tables.new.items)) }
    ensures kept { (former : Option Former) → spec.AreKept (parts frame.old former tables.old.items) → spec.AreKept (parts frame.new former tables.new.items) }
{
    laws_below();
    let plan = match startable(alloc, frame, tables, m) {
        Ok(plan) => plan,
        Err(stop) => return Err(stop),
    };
    let reply = Reply::Start(m.name.copy(alloc)?);
    // The number of the next table has 32 bits, and so it has after the plan.
    let _next_table = frame.next_table;
    begin(alloc, frame, tables, &m.name, plan)?;
    Ok(reply)
}

/// Starts what was asked for, and answers why it can't be started. Whatever is kept of a version that is gone stays. All
/// rows are stored anew before anything is switched. After an error all is stored as before.
pub fn start(
    alloc: Global,
    frame: &mut State,
    tables: &mut Vec<StoredTable>,
    asked: &Asked,
) -> Result<Reply, Stop<Refusal>>
    requires { spec.AreRun frame.old (map seen tables.old.items) }
    ensures goes { (former : Option Former) → spec.Goes (parts frame.old former tables.old.items) (migrate.start (meant frame.old (map seen tables.old.items)) asked.now) result (parts frame.new former tables.new.items) }
    ensures changes { IfOk result (λ reply. leaves_all reply ≡ false) }
    ensures stored { (former : Option Former) → OnOk result (spec.StartStores (parts frame.old former tables.old.items) asked.now (parts frame.new former tables.new.items)) }
    ensures kept { (former : Option Former) → spec.AreKept (parts frame.old former tables.old.items) → spec.AreKept (parts frame.new former tables.new.items) }
{
    match asked {
        Asked::Read(m) => start_read(alloc, frame, tables, m),
        Asked::Refused(refusal) => Err(Stop::Because(refusal.copy(alloc)?)),
    }
}
