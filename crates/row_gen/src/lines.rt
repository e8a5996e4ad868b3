//! The lines of a workload, one by one.
ghost use Rattle.std.specs.Prelude.{◌≡◌, ◌++◌, ◌+◌, ◌<◌, ◌≤◌, ◌^◌, IfOk, OnOk};
ghost use Rattle.std.specs.String.{string_bytes};
ghost use Rattle.row_gen.specs.Listing as spec;
ghost use Rattle.row_gen.specs.Steps.{line_text};

use sql_base::NoMemory;
use std::alloc::Global;

/// The command that starts the migration which makes the table of people.
#[tactic(auto, unfolding(crate::specs::Listing::create_people))]
pub fn create_people() -> &'static str
    ensures { result.now ≡ spec.create_people }
{
    "\\start {\"name\":\"01_people\",\"operations\":[{\"create_table\":{\"name\":\"people\",\"columns\":[{\"name\":\"id\",\"type\":\"bigint\",\"pk\":true},{\"name\":\"name\",\"type\":\"text\"},{\"name\":\"age\",\"type\":\"text\",\"nullable\":true}]}}]}"
}

/// The command that starts the migration which makes ages whole tens.
#[tactic(auto, unfolding(crate::specs::Listing::alter_age))]
pub fn alter_age() -> &'static str
    ensures { result.now ≡ spec.alter_age }
{
    "\\start {\"name\":\"02_age\",\"operations\":[{\"alter_column\":{\"table\":\"people\",\"column\":\"age\",\"type\":\"bigint\",\"up\":\"CAST(age AS bigint) / 10 * 10\",\"down\":\"CAST(age AS text)\"}}]}"
}

/// A line at the end, with its newline.
pub fn push_line(out: &mut Vec<u8>, line: &str) -> Result<(), NoMemory>
    ensures { OnOk result (out.new.items ≡ out.old.items ++ line_text line.now) }
{
    out.extend_from_slice(line.as_bytes())?;
    out.extend_from_slice(b"\n")?;
    Ok(())
}

fn age_text(alloc: Global, draw: u32) -> Result<String, NoMemory>
    ensures { IfOk result (λ text. string_bytes text ≡ spec.age_text draw) }
{
    if draw % 10 == 0 {
        return Ok(String::from_str(alloc, "NULL")?);
    }
    let age = draw % 100;
    Ok(format!(in alloc; "'{age}'")?)
}

/// The row of a key, with one draw for its name and one for its age.
#[tactic(auto, unfolding(crate::specs::Listing::insert_person))]
pub fn insert_person(alloc: Global, key: u32, first: u32, second: u32) -> Result<String, NoMemory>
    ensures { IfOk result (λ line. string_bytes line ≡ spec.insert_person key first second) }
{
    let name = first % 1_000;
    let age = age_text(alloc, second)?;
    Ok(format!(in alloc; "INSERT INTO people (id, name, age) VALUES ({key}, 'u{name}', {age});")?)
}

fn version_of(lane: u32) -> &'static str
    ensures { result.now ≡ spec.version_of lane }
{
    if lane % 2 == 0 {
        "public_01_people"
    } else {
        "public_02_age"
    }
}

/// The line that a lane begins with.
#[tactic(auto, unfolding(crate::specs::Listing::lane_head))]
pub fn lane_head(alloc: Global, lane: u32) -> Result<String, NoMemory>
    ensures { IfOk result (λ line. string_bytes line ≡ spec.lane_head lane) }
{
    let version = version_of(lane);
    Ok(format!(in alloc; "lane l{lane} {version}")?)
}

/// The statement on a key that a draw gives.
#[tactic(auto, unfolding(crate::specs::Listing::statement))]
pub fn statement(alloc: Global, rows: u32, key: u32, draw: u32) -> Result<String, NoMemory>
    requires { rows + key < 2 ^ 32 }
    ensures { IfOk result (λ line. string_bytes line ≡ spec.statement rows key draw) }
{
    let value = draw % 1_000;
    match draw % 4 {
        0 => Ok(format!(in alloc; "UPDATE people SET name = 'v{value}' WHERE id = {key};")?),
        1 => Ok(format!(in alloc; "SELECT id, name FROM people WHERE id = {key};")?),
        2 => Ok(format!(in alloc; "DELETE FROM people WHERE id = {key};")?),
        _ => {
            let fresh = rows + key;
            Ok(format!(in alloc; "INSERT INTO people (id, name) VALUES ({fresh}, 'v{value}');")?)
        }
    }
}
