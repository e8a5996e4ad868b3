//! A caller of an index of values.
ghost use Rattle.std.specs.Prelude.{◌≡◌, IfOk, OnErr};
ghost use Rattle.std.specs.FinMap as map;

use sql_base::{List, NoMemory, Value};
use uniq_index::UniqIndex;

/// Puts values under a key, and gives those that were there. An error is want of memory, and then
/// the values are as they were.
pub fn put(
    index: &mut UniqIndex,
    key: i64,
    values: List<Value>,
) -> Result<Option<List<Value>>, NoMemory>
    ensures former { IfOk result (λ former. former ≡ map.get index.old.entries key) }
    ensures entries { IfOk result (λ _. index.new.entries ≡ map.insert index.old.entries key values) }
    ensures err { OnErr result (index.new.entries ≡ index.old.entries) }
{
    index.reserve(1)?;
    Ok(index.put_reserved(key, values))
}
