//! A caller of stored rows.
ghost use Rattle.std.specs.Prelude.{◌≡◌, IfOk, OnErr};
ghost use Rattle.std.specs.FinMap as map;

use row_store::RowStore;
use sql_base::{List, NoMemory, Value};

/// Puts a row under its key, and gives the row that was there. An error is want of memory, and then the rows are as they were.
pub fn put(
    store: &mut RowStore,
    key: i64,
    row: List<Value>,
) -> Result<Option<List<Value>>, NoMemory>
    ensures former { IfOk result (λ former. former ≡ map.get store.old.rows key) }
    ensures rows { IfOk result (λ _. store.new.rows ≡ map.insert store.old.rows key row) }
    ensures err { OnErr result (store.new.rows ≡ store.old.rows) }
{
    store.reserve(1)?;
    Ok(store.put_reserved(key, row))
}
