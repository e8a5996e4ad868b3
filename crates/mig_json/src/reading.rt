//! From a text to a migration, by way of its JSON value.

ghost use Rattle.std.specs.Prelude.{◌≡◌, ◌≢◌, [], Some, true, false, codes, length, option_map, map, IfErr, IfOk, MatchResult};
ghost use Rattle.serde_json.specs.View.{view, items_view, members_view};
ghost use Rattle.mig_json.specs.Demand.{Reads};
ghost use Rattle.mig_json.specs.Kind.{demands, item_demands, AreItems};
ghost use Rattle.mig_json.specs.Kind as kind;
ghost use Rattle.serde_json.specs.Data.{string};
ghost use Rattle.serde_json.specs.Find.{get};
ghost use Rattle.mig_json.specs.Migration.{Makes, IsOperation, IsMigration, Spells, IsReading, Fails};
ghost use Rattle.mig_json.specs.Name as spec_name;
ghost use Rattle.mig_json.specs.Reading as spec;
ghost use Rattle.mig_json.specs.Reading.{Asked};
ghost use Rattle.mig_json.specs.Table as table;
ghost use Rattle.mig_json.specs.Writing.{canonical_text};

use crate::faults::{JsonFault, inside, top};
use crate::members::{Object, Operation, is_of};
use crate::names::is_name;
use crate::objects::elements;
use crate::operations::read_members;
use crate::writing::write_migration;
use mig_lens::{Migration, Op};
use serde_json::{Map, Value};
use sql_base::{List, Name, NoMemory};
use std::alloc::Global;

/// The bytes that a migration's text may have.
const MAX_TEXT: usize = 65536;

// ---- operations

/// The only member of an object.
fn only_in(map: &Map<String, Value>) -> Option<(&str, &Value)>
    ensures { option_map (λ m. (m.0.now, view m.1.now)) result ≡ spec.only_in (members_view map.now.entries) }
{
    let mut members = map.iter();
    let (key, value) = members.next()?;
    match members.next() {
        Some(_) => None,
        None => Some((key.as_str(), value)),
    }
}

fn only_member(value: &Value) -> Option<(&str, &Value)>
    ensures { option_map (λ m. (m.0.now, view m.1.now)) result ≡ spec.only_member (view value.now) }
{
    only_in(value.as_object()?)
}

fn is_check(value: &Value) -> bool
    ensures { result ≡ kind.needs (kind.is_word (codes "check")) (get (codes "type") (view value.now)) }
{
    match value.get("type").and_then(Value::as_str) {
        Some(text) => text == "check",
        None => false,
    }
}

/// The operation of this name, which holds this value.
fn operation_of(key: &str, value: &Value) -> Option<Operation>
    ensures { result ≡ table.operation_of key.now (view value.now) }
{
    match key {
        "create_table" => Some(Operation::CreateTable),
        "drop_table" => Some(Operation::DropTable),
        "rename_table" => Some(Operation::RenameTable),
        "add_column" => Some(Operation::AddColumn),
        "drop_column" => Some(Operation::DropColumn),
        "rename_column" => Some(Operation::RenameColumn),
        "alter_column" => Some(Operation::AlterColumn),
        "create_constraint" => {
            if is_check(value) {
                Some(Operation::CreateCheck)
            } else {
                Some(Operation::CreateUnique)
            }
        }
        "drop_constraint" => Some(Operation::DropConstraint),
        _ => None,
    }
}

/// What an object under an operation's name is.
fn read_object(alloc: Global, at: u64, operation: Operation, value: &Value) -> Result<Op, JsonFault>
    ensures { Reads (demands (kind.object (table.form operation).fields) at [] (view value.now))
        (Makes (record { operation = operation; value = view value.now })) result }
{
    if !is_of(Object::Of(operation), value) {
        return Err(inside(alloc, at, ""));
    }
    read_members(alloc, at, operation, value)
}

fn read_asked(alloc: Global, at: u64, key: &str, value: &Value) -> Result<Op, JsonFault>
    ensures { let o = spec.asked_by key.now (view value.now) in
        Reads (spec.asked_demands at o) (λ op. (it : Asked) × (o ≡ Some it) × Makes it op) result }
{
    let Some(operation) = operation_of(key, value) else {
        return Err(inside(alloc, at, ""));
    };
    read_object(alloc, at, operation, value)
}

#[tactic(auto, unfolding(crate::specs::Reading::asked))]
fn read_operation(alloc: Global, at: u64, value: &Value) -> Result<Op, JsonFault>
    ensures { Reads (spec.asked_demands at (spec.asked (view value.now))) (λ it. IsOperation (view value.now) it) result }
{
    let Some((key, held)) = only_member(value) else {
        return Err(inside(alloc, at, ""));
    };
    read_asked(alloc, at, key, held)
}

fn read_operations(alloc: Global, items: &[Value]) -> Result<List<Op>, JsonFault>
    ensures { Reads (item_demands spec.operation_demands [] (items_view items.now))
        (λ xs. AreItems (λ before. IsOperation) [] (items_view items.now) xs) result }
{
    let mut operations = List::new(alloc);
    for (at, item) in items.iter().enumerate() {
        operations.push(read_operation(alloc, at as u64, item)?)?;
    }
    Ok(operations)
}

// ---- the whole

/// The name of a migration, which must be there.
fn migration_name(alloc: Global, value: Option<&Value>) -> Result<Name, JsonFault>
    ensures { let d = option_map (λ v. view v.now) value.entry in
        MatchResult result (λ x. d ≡ Some (string x) × (spec_name.is_name x ≡ true))
        (λ f. f ≢ JsonFault.NoMemory → (spec.has_migration_name d ≡ false) × (f ≡ JsonFault.Json (codes "name"))) }
{
    let Some(text) = value.and_then(Value::as_str) else {
        return Err(top(alloc, "name"));
    };
    if !is_name(text) {
        return Err(top(alloc, "name"));
    }
    Ok(Name::from_slice(alloc, text.as_bytes())?)
}

#[tactic(auto, unfolding(crate::specs::Reading::migration_demands))]
fn read_value(alloc: Global, value: &Value) -> Result<Migration, JsonFault>
    ensures { Reads (spec.migration_demands (view value.now)) (λ it. IsMigration (view value.now) it) result }
{
    if !is_of(Object::Migration, value) {
        return Err(top(alloc, "$"));
    }
    let name = migration_name(alloc, value.get("name"))?;
    let Some(items) = elements(value.get("operations")) else {
        return Err(top(alloc, "operations"));
    };
    let operations = read_operations(alloc, items)?;
    Ok(Migration { name, operations })
}

/// The text's JSON value, or `None` where it isn't JSON.
fn parse(alloc: Global, text: &[u8]) -> Result<Option<Value>, JsonFault>
    ensures { MatchResult result
        (λ value. option_map view value ≡ spec.json_in text.now)
        (λ f. f ≡ JsonFault.NoMemory) }
{
    match Value::from_slice(alloc, text) {
        Ok(value) => Ok(Some(value)),
        Err(e) => if e.is_memory() {
            Err(JsonFault::NoMemory)
        } else {
            Ok(None)
        },
    }
}

#[tactic(auto, unfolding(crate::specs::Reading::text_demands))]
fn read_text(alloc: Global, text: &[u8]) -> Result<Migration, JsonFault>
    ensures { Reads (spec.text_demands text.now) (λ it. Spells text.now it) result }
{
    if text.len() > MAX_TEXT {
        return Err(JsonFault::TooLong {
            len: text.len() as u64,
        });
    }
    match parse(alloc, text)? {
        Some(value) => read_value(alloc, &value),
        None => Err(top(alloc, "$")),
    }
}

/// The bytes of the migration's canonical text. An error is want of memory.
fn canonical_len(alloc: Global, m: &Migration) -> Result<usize, NoMemory>
    ensures { IfOk result (λ len. len ≡ length (canonical_text m.now)) }
{
    let text = write_migration(alloc, m)?;
    Ok(text.as_slice().len())
}

/// The migration that a text reads as.
///
/// P20 `TooLong` comes where the text, or else the canonical text of the migration, has more than 65,536 bytes. An error is the first fault of the text, or want of memory. `laws::texts_read_or_fail` has that a text has a fault
/// exactly where it reads as no migration.
pub fn read_migration(alloc: Global, text: &[u8]) -> Result<Migration, JsonFault>
    ensures reading { IfOk result (λ m. IsReading text.now m) }
    ensures fault { IfErr result (λ f. f ≢ JsonFault.NoMemory → Fails text.now f) }
{
    let m = read_text(alloc, text)?;
    let len = canonical_len(alloc, &m)?;
    if len > MAX_TEXT {
        return Err(JsonFault::TooLong { len: len as u64 });
    }
    Ok(m)
}
