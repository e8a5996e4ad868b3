//! Tables as the steps behind the first one of completing or of rolling back leave them.
ghost use Rattle.std.specs.Prelude.{◌≡◌, IfOk, map};
ghost use Rattle.roll_core.specs.Seen.{seen};
ghost use Rattle.roll_core.specs.Stepping as spec;

use crate::forms::Form;
use crate::stepping::stepped_rows;
use crate::store::StoredTable;
use mig_lens::Side;
use sql_base::{Copying, NoMemory};
use std::alloc::Global;

fn tidied_form(alloc: Global, form: &Form) -> Result<Form, NoMemory>
    ensures { IfOk result (λ tidied. tidied ≡ spec.tidied_form form.now) }
{
    match form {
        Form::Own(side) => Ok(Form::Own(*side)),
        Form::Paired(pair) => Ok(Form::Paired(pair.copy(alloc)?)),
        Form::Left(pair) => Ok(Form::Trimmed(pair.copy(alloc)?)),
        Form::Trimmed(_) => Ok(Form::Own(Side::Old)),
        Form::Returned(_) => Ok(Form::Own(Side::Old)),
    }
}

fn tidied_table(alloc: Global, table: &StoredTable) -> Result<StoredTable, NoMemory>
    ensures { IfOk result (λ tidied. seen tidied ≡ spec.tidied_table (seen table.now)) }
{
    let form = tidied_form(alloc, &table.form)?;
    let rows = stepped_rows(alloc, &table.form, &table.rows)?;
    StoredTable::new(
        alloc,
        table.number,
        form,
        rows,
        table.old_index.uniques(),
        table.new_index.uniques(),
    )
}

/// All these tables after the next step. An error is want of memory.
pub fn tidied_tables(alloc: Global, tables: &[StoredTable]) -> Result<Vec<StoredTable>, NoMemory>
    ensures { IfOk result (λ tidied. map seen tidied.items ≡ map spec.tidied_table (map seen tables.now)) }
{
    let mut tidied = Vec::new(alloc);
    for table in tables {
        tidied.push(tidied_table(alloc, table)?)?;
    }
    Ok(tidied)
}
