//! Rows that a step of a migration stores anew.
ghost use Rattle.std.specs.Prelude.{◌≡◌, IfOk, map};
ghost use Rattle.std.specs.FinMap as finite;
ghost use Rattle.roll_core.specs.Stepping as spec;

use crate::forms::{Form, copied};
use phase_steps::{trimmed, trimmed_view};
use row_store::RowStore;
use sql_base::{List, NoMemory, Value};
use std::alloc::Global;
use trigger_pair::{begun, old_view};

// The values that a step stores of a row. START leads to its form, and the other steps lead from it.
fn stepped_values(alloc: Global, form: &Form, values: &[Value]) -> Result<List<Value>, NoMemory>
    ensures { IfOk result (λ stepped. stepped ≡ spec.stepped_values form.now values.now) }
{
    match form {
        Form::Own(_) => copied(alloc, values),
        Form::Paired(pair) => begun(alloc, pair, values),
        Form::Left(pair) => trimmed(alloc, &pair.lens, values),
        Form::Trimmed(pair) => trimmed_view(alloc, &pair.lens, values),
        Form::Returned(pair) => old_view(alloc, pair, values),
    }
}

// One more row, for which memory is asked.
fn put(rows: &mut RowStore, key: i64, values: List<Value>) -> Result<(), NoMemory>
    ensures { IfOk result (λ _. rows.new.rows ≡ finite.insert rows.old.rows key values) }
{
    rows.reserve(1)?;
    rows.put_reserved(key, values);
    Ok(())
}

/// These rows as a step stores them. START leads to this form, and the other steps lead from it. An error is want of
/// memory.
pub fn stepped_rows(alloc: Global, form: &Form, rows: &RowStore) -> Result<RowStore, NoMemory>
    ensures { IfOk result (λ stepped. finite.entries stepped.rows ≡ map (spec.stepped_row form.now) (finite.entries rows.now.rows)) }
{
    let mut stepped = RowStore::new(alloc);
    for at in 0..rows.len() {
        let Some((key, values)) = rows.at(at) else {
            break;
        };
        let values = stepped_values(alloc, form, values)?;
        put(&mut stepped, key, values)?;
    }
    Ok(stepped)
}
