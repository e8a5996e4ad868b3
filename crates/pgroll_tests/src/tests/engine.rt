// What the engine answers by calls: through paths, and beyond what a short input can say.
use crate::tests::statements::{NULL, Said, VERSION, Wanted, comes_to, is_replied, reply_to};
use machine::Reply;
use mig_lens::Kind;
use roll_core::Core;
use sql_base::{Code, Copying, NoMemory};
use std::alloc::Global;
use std::test::Fail;

const ALL: &str = "SELECT * FROM users";

const ONE: &str = "INSERT INTO users (id, name) VALUES (1, 'a')";

const OTHER: &str = "INSERT INTO users (id, name) VALUES (1, 'b')";

const MINUS: &str = "INSERT INTO users (id, name) VALUES (-2, '')";

const TWO: &str = "INSERT INTO users (id, name, n) VALUES (2, 'c', 'n')";

const THREE: &str = "INSERT INTO users (id, name, n) VALUES (3, 'd', 'm')";

const FOUR: &str = "INSERT INTO users (id, name, n) VALUES (4, 'e', 'l')";

const ADDED: &str = "SELECT id, n FROM users";

const PATH: &[&str] = &[VERSION];

const NEW: &[&str] = &["public_02"];

const COLUMNS: &[&str] = &["id", "name"];

const NOWHERE: Wanted = Wanted::Refused(Code::C42P01, Some("nowhere"), None);

/// What is answered through a version that doesn't stand.
pub const NO_TABLE: Wanted = Wanted::Refused(Code::C42P01, Some("users"), None);

const SYNTAX: Wanted = Wanted::Refused(Code::C42601, None, None);

/// What is said, what it has to come to, and what the old version and the new one show of the table then.
pub type Row = (Said, Wanted, Wanted, Wanted);

/// A session, in its order, that writes nothing.
pub const REFUSED: &[Row] = &[
    // The path: the first version that stands is taken, and names that no version has are passed by.
    (
        Said::Line(PATH, ALL),
        Wanted::Shown(&[]),
        Wanted::Shown(&[]),
        NO_TABLE,
    ),
    (
        Said::Numbers,
        Wanted::Shown(&[]),
        Wanted::Shown(&[]),
        NO_TABLE,
    ),
    (
        Said::Line(&["public_02_users", VERSION], ALL),
        Wanted::Shown(&[]),
        Wanted::Shown(&[]),
        NO_TABLE,
    ),
    (
        Said::Line(&["public_02_users"], ALL),
        NO_TABLE,
        Wanted::Shown(&[]),
        NO_TABLE,
    ),
    (
        Said::Line(&["01_users"], ALL),
        NO_TABLE,
        Wanted::Shown(&[]),
        NO_TABLE,
    ),
    (
        Said::Line(&["users"], ONE),
        NO_TABLE,
        Wanted::Shown(&[]),
        NO_TABLE,
    ),
    (Said::Line(&[], ONE), NO_TABLE, Wanted::Shown(&[]), NO_TABLE),
    // The form, and which refusal comes first.
    (
        Said::Row("nowhere", COLUMNS, 1),
        NOWHERE,
        Wanted::Shown(&[]),
        NO_TABLE,
    ),
    (
        Said::Row("nowhere", COLUMNS, 4_085),
        NOWHERE,
        Wanted::Shown(&[]),
        NO_TABLE,
    ),
    // A number for the name, and a text for the key.
    (
        Said::Row("users", &["name", "id"], 1),
        Wanted::Refused(Code::C42804, None, None),
        Wanted::Shown(&[]),
        NO_TABLE,
    ),
    (
        Said::Row("users", &["id"], 4_085),
        SYNTAX,
        Wanted::Shown(&[]),
        NO_TABLE,
    ),
    (
        Said::Row("users", COLUMNS, 4_085),
        Wanted::Refused(Code::C54000, Some("row"), Some(7)),
        Wanted::Shown(&[]),
        NO_TABLE,
    ),
];

/// One that writes rows.
pub const WRITTEN: &[Row] = &[
    // A key stands once, and rows are shown in ascending key.
    (
        Said::Line(PATH, ONE),
        Wanted::Written,
        Wanted::Shown(&[(1, "a")]),
        NO_TABLE,
    ),
    (
        Said::Line(PATH, OTHER),
        Wanted::Refused(Code::C23505, Some("users_pkey"), Some(1)),
        Wanted::Shown(&[(1, "a")]),
        NO_TABLE,
    ),
    (
        Said::Line(&["public_02_users", VERSION], MINUS),
        Wanted::Written,
        Wanted::Shown(&[(-2, ""), (1, "a")]),
        NO_TABLE,
    ),
    (
        Said::Line(PATH, ALL),
        Wanted::Shown(&[(-2, ""), (1, "a")]),
        Wanted::Shown(&[(-2, ""), (1, "a")]),
        NO_TABLE,
    ),
    (
        Said::Row("users", COLUMNS, 2),
        Wanted::Written,
        Wanted::Shown(&[(-2, ""), (1, "a"), (7, "xx")]),
        NO_TABLE,
    ),
    // A present key of a row that is too heavy.
    (
        Said::Row("users", COLUMNS, 4_085),
        Wanted::Refused(Code::C54000, Some("row"), Some(7)),
        Wanted::Shown(&[(-2, ""), (1, "a"), (7, "xx")]),
        NO_TABLE,
    ),
];

/// One that asks for listed items.
pub const LISTED: &[Row] = &[
    (
        Said::Line(PATH, MINUS),
        Wanted::Written,
        MINUS_ROW,
        NO_TABLE,
    ),
    // Listed items: a fault tells its row.
    (Said::Columns(COLUMNS), MINUS_ROW, MINUS_ROW, NO_TABLE),
    (
        Said::Columns(&["id", "age"]),
        Wanted::Refused(Code::C42703, Some("age"), None),
        MINUS_ROW,
        NO_TABLE,
    ),
    (
        Said::Numbers,
        Wanted::Refused(Code::C22P02, None, Some(-2)),
        MINUS_ROW,
        NO_TABLE,
    ),
    // A path is set without a look at its names.
    (
        Said::Path(&["public_02_users"]),
        Wanted::Set,
        MINUS_ROW,
        NO_TABLE,
    ),
    // A row that is too heavy.
    (
        Said::Row("users", COLUMNS, 4_085),
        Wanted::Refused(Code::C54000, Some("row"), Some(7)),
        MINUS_ROW,
        NO_TABLE,
    ),
];

const TWO_LEFT: Wanted = Wanted::Shown(&[(2, "b!"), (3, "c!")]);

const X_LEFT: Wanted = Wanted::Shown(&[(2, "x"), (3, "c!")]);

const LAST: Wanted = Wanted::Shown(&[(3, "c!")]);

const Y_LEFT: Wanted = Wanted::Shown(&[(3, "y")]);

/// One that updates and deletes rows, through both versions. The new column `n` is made of the name.
pub const CHANGED: &[Row] = &[
    (
        Said::Line(
            PATH,
            "INSERT INTO users (name, id) VALUES ('a', 1), ('b', 2), ('c', 3)",
        ),
        Wanted::Inserted(3),
        Wanted::Shown(&[(1, "a"), (2, "b"), (3, "c")]),
        NO_TABLE,
    ),
    (
        Said::Line(PATH, "UPDATE users SET name = name || '!' WHERE id >= 2"),
        Wanted::Updated(2),
        Wanted::Shown(&[(1, "a"), (2, "b!"), (3, "c!")]),
        NO_TABLE,
    ),
    (
        Said::Line(PATH, "DELETE FROM users WHERE name = 'a'"),
        Wanted::Deleted(1),
        TWO_LEFT,
        NO_TABLE,
    ),
    (
        Said::Start,
        Wanted::Started,
        TWO_LEFT,
        Wanted::Shown(&[(2, NULL), (3, NULL)]),
    ),
    // A row that is written through the old version is filled.
    (
        Said::Line(PATH, "UPDATE users SET name = 'x' WHERE id = 2"),
        Wanted::Updated(1),
        X_LEFT,
        Wanted::Shown(&[(2, "x"), (3, NULL)]),
    ),
    // Through the new version the new column alone is written.
    (
        Said::Line(NEW, "UPDATE users SET n = 'y' WHERE id = 3"),
        Wanted::Updated(1),
        X_LEFT,
        Wanted::Shown(&[(2, "x"), (3, "y")]),
    ),
    (
        Said::Line(NEW, "DELETE FROM users WHERE n = 'x'"),
        Wanted::Deleted(1),
        LAST,
        Y_LEFT,
    ),
    // The key isn't assigned, and the name may not be NULL.
    (
        Said::Line(PATH, "UPDATE users SET id = 5"),
        Wanted::Refused(Code::C0A000, Some("id"), None),
        LAST,
        Y_LEFT,
    ),
    (
        Said::Line(PATH, "UPDATE users SET name = NULL"),
        Wanted::Refused(Code::C23502, Some("users_name_not_null"), Some(3)),
        LAST,
        Y_LEFT,
    ),
    (
        Said::Line(PATH, "DELETE FROM users WHERE id = 4"),
        Wanted::Deleted(0),
        LAST,
        Y_LEFT,
    ),
];

const MINUS_ROW: Wanted = Wanted::Shown(&[(-2, "")]);

const NONE: Wanted = Wanted::Shown(&[]);

const B: Wanted = Wanted::Shown(&[(1, "b")]);

const BOTH: Wanted = Wanted::Shown(&[(-2, ""), (1, "b")]);

const UNFILLED: Wanted = Wanted::Shown(&[(1, NULL)]);

const N: Wanted = Wanted::Shown(&[(2, "n")]);

/// One that lives through a migration that adds a column.
pub const WHOLE: &[Row] = &[
    (Said::Line(PATH, OTHER), Wanted::Written, B, NO_TABLE),
    (Said::Start, Wanted::Started, B, UNFILLED),
    (
        Said::Line(PATH, MINUS),
        Wanted::Written,
        Wanted::Shown(&[(-2, ""), (1, "b")]),
        Wanted::Shown(&[(-2, ""), (1, NULL)]),
    ),
    (
        Said::Line(NEW, TWO),
        Wanted::Written,
        Wanted::Shown(&[(-2, ""), (1, "b"), (2, "c")]),
        Wanted::Shown(&[(-2, ""), (1, NULL), (2, "n")]),
    ),
    (
        Said::Complete,
        Wanted::NotFilled,
        Wanted::Shown(&[(-2, ""), (1, "b"), (2, "c")]),
        Wanted::Shown(&[(-2, ""), (1, NULL), (2, "n")]),
    ),
    (
        Said::Batch,
        Wanted::Filled(1),
        Wanted::Shown(&[(-2, ""), (1, "b"), (2, "c")]),
        Wanted::Shown(&[(-2, ""), (1, "b"), (2, "n")]),
    ),
    (
        Said::Batch,
        Wanted::Filled(0),
        Wanted::Shown(&[(-2, ""), (1, "b"), (2, "c")]),
        Wanted::Shown(&[(-2, ""), (1, "b"), (2, "n")]),
    ),
    (
        Said::Complete,
        Wanted::Completed(1),
        NO_TABLE,
        Wanted::Shown(&[(-2, ""), (1, "b"), (2, "n")]),
    ),
    (
        Said::Line(NEW, THREE),
        Wanted::Written,
        NO_TABLE,
        Wanted::Shown(&[(-2, ""), (1, "b"), (2, "n"), (3, "m")]),
    ),
    (
        Said::Complete,
        Wanted::Completed(2),
        NO_TABLE,
        Wanted::Shown(&[(-2, ""), (1, "b"), (2, "n"), (3, "m")]),
    ),
    (
        Said::Line(NEW, FOUR),
        Wanted::Written,
        NO_TABLE,
        Wanted::Shown(&[(-2, ""), (1, "b"), (2, "n"), (3, "m"), (4, "l")]),
    ),
    (
        Said::Complete,
        Wanted::Completed(3),
        NO_TABLE,
        Wanted::Shown(&[(-2, ""), (1, "b"), (2, "n"), (3, "m"), (4, "l")]),
    ),
    (
        Said::Complete,
        Wanted::Inactive,
        NO_TABLE,
        Wanted::Shown(&[(-2, ""), (1, "b"), (2, "n"), (3, "m"), (4, "l")]),
    ),
];

/// One whose rows are filled by a batch.
pub const FILLED: &[Row] = &[
    (Said::Line(PATH, OTHER), Wanted::Written, B, NO_TABLE),
    (Said::Line(PATH, MINUS), Wanted::Written, BOTH, NO_TABLE),
    (
        Said::Start,
        Wanted::Started,
        BOTH,
        Wanted::Shown(&[(-2, NULL), (1, NULL)]),
    ),
    (Said::Batch, Wanted::Filled(2), BOTH, BOTH),
];

/// One that is completed while a row is still to be filled.
pub const EARLY: &[Row] = &[
    (Said::Line(PATH, OTHER), Wanted::Written, B, NO_TABLE),
    (Said::Start, Wanted::Started, B, UNFILLED),
    (Said::Complete, Wanted::NotFilled, B, UNFILLED),
];

/// One that writes through the old version alone, after the start.
pub const OLD_WRITE: &[Row] = &[
    (Said::Start, Wanted::Started, NONE, NONE),
    (Said::Line(PATH, OTHER), Wanted::Written, B, B),
];

/// One that writes through the new version alone, after the start.
pub const NEW_WRITE: &[Row] = &[
    (Said::Start, Wanted::Started, NONE, NONE),
    (
        Said::Line(NEW, TWO),
        Wanted::Written,
        Wanted::Shown(&[(2, "c")]),
        N,
    ),
];

/// One that is completed, over a filled row.
pub const STEPS: &[Row] = &[
    (Said::Line(PATH, OTHER), Wanted::Written, B, NO_TABLE),
    (Said::Start, Wanted::Started, B, UNFILLED),
    (Said::Batch, Wanted::Filled(1), B, B),
    (Said::Complete, Wanted::Completed(1), NO_TABLE, B),
    (Said::Complete, Wanted::Completed(2), NO_TABLE, B),
    (Said::Complete, Wanted::Completed(3), NO_TABLE, B),
];

/// One that writes after the first step of completing.
pub const AFTER_ONE: &[Row] = &[
    (Said::Start, Wanted::Started, NONE, NONE),
    (Said::Complete, Wanted::Completed(1), NO_TABLE, NONE),
    (Said::Line(NEW, TWO), Wanted::Written, NO_TABLE, N),
];

/// One that writes after the second step of completing.
pub const AFTER_TWO: &[Row] = &[
    (Said::Start, Wanted::Started, NONE, NONE),
    (Said::Complete, Wanted::Completed(1), NO_TABLE, NONE),
    (Said::Complete, Wanted::Completed(2), NO_TABLE, NONE),
    (Said::Line(NEW, TWO), Wanted::Written, NO_TABLE, N),
];

/// One with a column whose values are NULL.
pub const NULLS: &[Row] = &[
    (Said::Line(PATH, OTHER), Wanted::Written, B, NO_TABLE),
    (Said::Constant, Wanted::Started, B, UNFILLED),
    (Said::Complete, Wanted::Completed(1), NO_TABLE, UNFILLED),
    (Said::Complete, Wanted::Completed(2), NO_TABLE, UNFILLED),
    (Said::Complete, Wanted::Completed(3), NO_TABLE, UNFILLED),
];

const RENAME: &str = "UPDATE users SET name = 'x' WHERE id = 2";

const RENAME_AGAIN: &str = "UPDATE users SET name = 'y' WHERE id = 2";

const B_C: Wanted = Wanted::Shown(&[(1, "b"), (2, "c")]);

const B_X: Wanted = Wanted::Shown(&[(1, "b"), (2, "x")]);

const B_Y: Wanted = Wanted::Shown(&[(1, "b"), (2, "y")]);

const UNFILLED_N: Wanted = Wanted::Shown(&[(1, NULL), (2, "n")]);

const UNFILLED_X: Wanted = Wanted::Shown(&[(1, NULL), (2, "x")]);

const UNFILLED_TWO: Wanted = Wanted::Shown(&[(1, NULL), (2, NULL)]);

/// One that is rolled back, which writes through both versions before and through the old one between the two steps. What
/// was written stays, and the row that wasn't filled is no reason to refuse it.
pub const BACK: &[Row] = &[
    (Said::Line(PATH, OTHER), Wanted::Written, B, NO_TABLE),
    (Said::RollBack, Wanted::Inactive, B, NO_TABLE),
    (Said::Start, Wanted::Started, B, UNFILLED),
    (Said::Line(NEW, TWO), Wanted::Written, B_C, UNFILLED_N),
    (
        Said::Line(PATH, RENAME),
        Wanted::Updated(1),
        B_X,
        UNFILLED_X,
    ),
    (Said::RollBack, Wanted::RolledBack(1), B_X, NO_TABLE),
    (
        Said::Complete,
        Wanted::Unfinished(Kind::Rollback),
        B_X,
        NO_TABLE,
    ),
    (
        Said::Start,
        Wanted::Unfinished(Kind::Rollback),
        B_X,
        NO_TABLE,
    ),
    (
        Said::Batch,
        Wanted::Unfinished(Kind::Rollback),
        B_X,
        NO_TABLE,
    ),
    (
        Said::Line(PATH, RENAME_AGAIN),
        Wanted::Updated(1),
        B_Y,
        NO_TABLE,
    ),
    (Said::RollBack, Wanted::RolledBack(2), B_Y, NO_TABLE),
    (Said::RollBack, Wanted::Inactive, B_Y, NO_TABLE),
    (Said::Start, Wanted::Started, B_Y, UNFILLED_TWO),
    (Said::Batch, Wanted::Filled(2), B_Y, B_Y),
    (Said::Complete, Wanted::Completed(1), NO_TABLE, B_Y),
    (
        Said::RollBack,
        Wanted::Unfinished(Kind::Complete),
        NO_TABLE,
        B_Y,
    ),
];

/// Whether the two versions show this of the table.
pub fn shows(alloc: Global, core: &mut Core, old: Wanted, new: Wanted) -> Result<bool, NoMemory> {
    Ok(
        is_replied(alloc, core, Said::Line(PATH, ALL), old)?
            && is_replied(alloc, core, Said::Line(NEW, ADDED), new)?,
    )
}

// Whether a copy of a reply is what is wanted.
fn is_wanted_copy(alloc: Global, reply: &Option<Reply>, wanted: Wanted) -> Result<bool, NoMemory> {
    let copy = reply.copy(alloc)?;
    Ok(comes_to(&copy, wanted))
}

// Whether what is said comes to what it has to.
fn is_done(alloc: Global, core: &mut Core, row: &Row) -> Result<bool, NoMemory> {
    let reply = reply_to(alloc, core, row.0)?;
    is_wanted_copy(alloc, &reply, row.1)
}

// Whether what is said comes to what it has to, and leaves those rows.
fn is_answered(alloc: Global, core: &mut Core, row: &Row) -> Result<bool, NoMemory> {
    Ok(is_done(alloc, core, row)? && shows(alloc, core, row.2, row.3)?)
}

// The place of the first row of a session that isn't answered so.
fn first_wrong(alloc: Global, session: &[Row]) -> Result<Option<usize>, NoMemory> {
    let mut core = Core::fixed(alloc)?;
    for (at, row) in session.iter().enumerate() {
        if !is_answered(alloc, &mut core, row)? {
            return Ok(Some(at));
        }
    }
    Ok(None)
}

#[test]
fn refused_statements_are_answered(rt: HostRuntime) -> Result<(), Fail> {
    assert_eq!(rt; first_wrong(rt.alloc(), REFUSED)?, None);
    Ok(())
}

#[test]
fn written_rows_are_answered(rt: HostRuntime) -> Result<(), Fail> {
    assert_eq!(rt; first_wrong(rt.alloc(), WRITTEN)?, None);
    Ok(())
}

#[test]
fn listed_items_are_answered(rt: HostRuntime) -> Result<(), Fail> {
    assert_eq!(rt; first_wrong(rt.alloc(), LISTED)?, None);
    Ok(())
}

#[test]
fn changed_rows_are_answered(rt: HostRuntime) -> Result<(), Fail> {
    assert_eq!(rt; first_wrong(rt.alloc(), CHANGED)?, None);
    Ok(())
}

#[test]
fn a_migration_is_lived_through(rt: HostRuntime) -> Result<(), Fail> {
    assert_eq!(rt; first_wrong(rt.alloc(), WHOLE)?, None);
    Ok(())
}

#[test]
fn rows_are_filled(rt: HostRuntime) -> Result<(), Fail> {
    assert_eq!(rt; first_wrong(rt.alloc(), FILLED)?, None);
    Ok(())
}

#[test]
fn an_early_completion_is_refused(rt: HostRuntime) -> Result<(), Fail> {
    assert_eq!(rt; first_wrong(rt.alloc(), EARLY)?, None);
    Ok(())
}

#[test]
fn a_row_of_the_old_version_is_filled(rt: HostRuntime) -> Result<(), Fail> {
    assert_eq!(rt; first_wrong(rt.alloc(), OLD_WRITE)?, None);
    Ok(())
}

#[test]
fn a_row_of_the_new_version_is_kept(rt: HostRuntime) -> Result<(), Fail> {
    assert_eq!(rt; first_wrong(rt.alloc(), NEW_WRITE)?, None);
    Ok(())
}

#[test]
fn steps_of_completing_keep_rows(rt: HostRuntime) -> Result<(), Fail> {
    assert_eq!(rt; first_wrong(rt.alloc(), STEPS)?, None);
    Ok(())
}

#[test]
fn rows_are_written_after_one_step(rt: HostRuntime) -> Result<(), Fail> {
    assert_eq!(rt; first_wrong(rt.alloc(), AFTER_ONE)?, None);
    Ok(())
}

#[test]
fn rows_are_written_after_two_steps(rt: HostRuntime) -> Result<(), Fail> {
    assert_eq!(rt; first_wrong(rt.alloc(), AFTER_TWO)?, None);
    Ok(())
}

#[test]
fn a_migration_is_rolled_back(rt: HostRuntime) -> Result<(), Fail> {
    assert_eq!(rt; first_wrong(rt.alloc(), BACK)?, None);
    Ok(())
}

#[test]
fn a_column_of_nulls_needs_no_batch(rt: HostRuntime) -> Result<(), Fail> {
    assert_eq!(rt; first_wrong(rt.alloc(), NULLS)?, None);
    Ok(())
}
