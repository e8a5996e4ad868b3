// What the commands in an input come to: their lines, the statuses, and lines that break the rules of inputs.
use crate::tests::calls::call;
use sql_base::NoMemory;
use std::alloc::Global;
use std::test::Fail;

/// Three rows, and what is told of them.
const ROWS: &str =
    "INSERT INTO users (id, name) VALUES (1, 'a')\nINSERT INTO users (id, name) VALUES (2, 'b')\nINSERT INTO users (id, name) VALUES (3, 'c')\n";

const ROWS_TOLD: &str = "1 main INSERT 0 1\n2 main INSERT 0 1\n3 main INSERT 0 1\n";

/// A migration that adds a column.
const START: &str =
    "\\start {\"name\":\"02_add_age\",\"operations\":[{\"add_column\":{\"table\":\"users\",\"column\":{\"name\":\"age\",\"type\":\"bigint\",\"nullable\":true},\"up\":\"0\"}}]}\n";

/// A migration that adds a column with a check which its default doesn't meet.
const POSITIVE: &str =
    "\\start {\"name\":\"02_pos\",\"operations\":[{\"add_column\":{\"table\":\"users\",\"column\":{\"name\":\"age\",\"type\":\"bigint\",\"default\":\"0\",\"check\":{\"name\":\"age_pos\",\"constraint\":\"age > 0\"}}}}]}\n";

/// A migration that adds a unique column.
const CODE: &str =
    "\\start {\"name\":\"02_code\",\"operations\":[{\"add_column\":{\"table\":\"users\",\"column\":{\"name\":\"code\",\"type\":\"text\",\"nullable\":true,\"unique\":true},\"up\":\"CASE WHEN name = 'a' THEN NULL ELSE 'x' END\"}}]}\n";

const NEW_PATH: &str = "SET search_path TO public_02_add_age;\nSELECT * FROM users;\n";

/// Lines behind the three rows, the status, and what is told of these lines.
const RUNS: [(&[&str], u8, &str); 12] = [
    (
        &["\\complete\n", START, START],
        1,
        "4 control REFUSED P2\n5 control START public_02_add_age\n6 control REFUSED P1 02_add_age\n",
    ),
    (&["\\batch 10001\n"], 1, "4 control REFUSED P20 batch\n"),
    (&["\\start \n"], 1, "4 control REFUSED P16 $\n"),
    (
        &[START, NEW_PATH],
        0,
        "4 control START public_02_add_age\n5 main SET\n6 main SELECT 3\n  1|a|\\N\n  2|b|\\N\n  3|c|\\N\n",
    ),
    // Batches, then the steps of completing; the old version is gone, and its path finds no table.
    (
        &[
            START,
            NEW_PATH,
            "\\batch 2\nSELECT id, age FROM users\n",
            "\\batch 2\n\\complete\nSET search_path TO public_01_users\nSELECT * FROM users\n",
        ],
        0,
        "4 control START public_02_add_age\n5 main SET\n6 main SELECT 3\n  1|a|\\N\n  2|b|\\N\n  3|c|\\N\n7 control FILL users 2 1 2\n8 main SELECT 3\n  1|0\n  2|0\n  3|\\N\n9 control FILL users 1 3 3\n10 control COMPLETE 1\n11 control COMPLETE 2\n12 control COMPLETE 3\n13 main SET\n14 main ERROR 42P01 users -\n",
    ),
    (
        &[START, "\\fill\n\\fill\n"],
        0,
        "4 control START public_02_add_age\n5 control FILL users 3 1 3\n6 control FILLED\n7 control FILLED\n",
    ),
    (
        &[START, "\\complete\n"],
        1,
        "4 control START public_02_add_age\n5 control REFUSED P4 users 1\n",
    ),
    // Leading zeros don't matter.
    (
        &[START, "\\batch 000000003\n"],
        0,
        "4 control START public_02_add_age\n5 control FILL users 3 1 3\n",
    ),
    // A check that the rows which stood don't meet: it holds for what is written, the completion is refused, and the
    // rollback leaves what was written meanwhile.
    (
        &[
            POSITIVE,
            "INSERT INTO users (id, name) VALUES (4, 'd')\nSET search_path TO public_02_pos\nINSERT INTO users (id, name, age) VALUES (4, 'd', 1)\nUPDATE users SET name = 'e', age = 2 WHERE id = 3\n",
            "\\fill\n\\complete\n\\rollback\nSELECT * FROM users\nSET search_path TO public_01_users\nSELECT * FROM users\n\\rollback\n",
        ],
        1,
        "4 control START public_02_pos\n5 main ERROR 23514 age_pos 4\n6 main SET\n7 main INSERT 0 1\n8 main UPDATE 1\n9 control FILLED\n10 control REFUSED P5 age_pos 1\n11 control ROLLBACK 1\n12 control ROLLBACK 2\n13 main ERROR 42P01 users -\n14 main SET\n15 main SELECT 4\n  1|a\n  2|b\n  3|e\n  4|d\n16 control REFUSED P2\n",
    ),
    // A rollback while rows are still to be filled; and the same name once more.
    (
        &[
            START,
            "\\batch 1\n\\rollback\n",
            START,
            "\\fill\n\\complete\n",
        ],
        0,
        "4 control START public_02_add_age\n5 control FILL users 1 1 1\n6 control ROLLBACK 1\n7 control ROLLBACK 2\n8 control START public_02_add_age\n9 control FILL users 3 1 3\n10 control FILLED\n11 control COMPLETE 1\n12 control COMPLETE 2\n13 control COMPLETE 3\n",
    ),
    // Two rows would have one code: the batch is refused with the least key that has an equal. NULLs are equal to none.
    (
        &[
            "INSERT INTO users (id, name) VALUES (4, 'c')\nUPDATE users SET name = 'a' WHERE id = 2\nUPDATE users SET name = 'b' WHERE id = 3\n",
            CODE,
            "\\batch 10\n\\batch 3\n\\batch 3\n",
        ],
        1,
        "4 main INSERT 0 1\n5 main UPDATE 1\n6 main UPDATE 1\n7 control START public_02_code\n8 control REFUSED P19 users 3 23505\n9 control FILL users 3 1 3\n10 control REFUSED P19 users 4 23505\n",
    ),
    // The last of two members counts.
    (
        &[
            "\\start {\"name\":\"02_x\",\"operations\":[],\"name\":\"02_b\"}\n\\start {\"name\":\"02_c\"}\n",
        ],
        1,
        "4 control START public_02_b\n5 control REFUSED P16 operations\n",
    ),
];

fn joined(alloc: Global, pieces: &[&str]) -> Result<Vec<u8>, NoMemory> {
    let mut bytes = Vec::new(alloc);
    for piece in pieces {
        bytes.extend_from_slice((*piece).as_bytes())?;
    }
    Ok(bytes)
}

#[test]
fn commands_are_done(rt: HostRuntime) -> Result<(), Fail> {
    for (lines, status, wanted) in RUNS {
        let lines = joined(rt.alloc(), lines)?;
        let mut input = Vec::from_slice(rt.alloc(), ROWS.as_bytes())?;
        input.extend_from_slice(&lines)?;
        let told = call(rt.alloc(), &["exec"], &input, &[], &[])?;
        let output = joined(rt.alloc(), &[ROWS_TOLD, wanted])?;
        assert_eq!(rt; told.status, status, "{wanted}");
        assert_eq!(rt; told.output.as_slice(), output.as_slice(), "{wanted}");
    }
    Ok(())
}

/// A table of people with one row: a migration that creates it, completed.
const PEOPLE: &str =
    "\\start {\"name\":\"01_people\",\"operations\":[{\"create_table\":{\"name\":\"people\",\"columns\":[{\"name\":\"id\",\"type\":\"bigint\",\"pk\":true},{\"name\":\"name\",\"type\":\"text\"},{\"name\":\"age\",\"type\":\"text\",\"nullable\":true}]}}]}\n\\complete\nSET search_path TO public_01_people\nINSERT INTO people (id, name, age) VALUES (1, 'ann', '37')\n";

const PEOPLE_TOLD: &str =
    "4 control START public_01_people\n5 control COMPLETE 1\n6 control COMPLETE 2\n7 control COMPLETE 3\n8 main SET\n9 main INSERT 0 1\n";

/// A migration that makes a number of the text `age`, and a text of the number.
const NUMBER: &str =
    "\\start {\"name\":\"02_age\",\"operations\":[{\"alter_column\":{\"table\":\"people\",\"column\":\"age\",\"type\":\"bigint\",\"up\":\"CAST(age AS bigint)\",\"down\":\"CAST(age AS text)\"}}]}\n";

/// A migration that gives a column another name, looks at it, and drops another column.
const TIDY: &str =
    "\\start {\"name\":\"02_tidy\",\"operations\":[{\"rename_column\":{\"table\":\"people\",\"from\":\"name\",\"to\":\"full_name\"}},{\"create_constraint\":{\"table\":\"people\",\"name\":\"name_some\",\"type\":\"check\",\"columns\":[\"full_name\"],\"check\":\"length(full_name) > 0\"}},{\"drop_column\":{\"table\":\"people\",\"column\":\"age\",\"down\":\"'0'\"}}]}\n";

/// A migration that drops the table and creates another one.
const SWAP: &str =
    "\\start {\"name\":\"02_swap\",\"operations\":[{\"drop_table\":{\"name\":\"people\"}},{\"create_table\":{\"name\":\"pets\",\"columns\":[{\"name\":\"id\",\"type\":\"bigint\",\"pk\":true}]}}]}\n";

/// Lines behind the table of people, and what is told of them.
const CHANGED: [(&[&str], &str); 6] = [
    // A write through the new version is seen through the old one as `down` makes it.
    (
        &[
            NUMBER,
            "SET search_path TO public_02_age\nINSERT INTO people (id, name, age) VALUES (2, 'bob', 5)\nSET search_path TO public_01_people\nSELECT age || '!' FROM people WHERE id = 2\n",
        ],
        "10 control START public_02_age\n11 main SET\n12 main INSERT 0 1\n13 main SET\n14 main SELECT 1\n  5!\n",
    ),
    // An update through the new version fills the row first, and `down` gives the text again.
    (
        &[
            NUMBER,
            "SET search_path TO public_02_age\nUPDATE people SET name = 'eve' WHERE id = 1\nSET search_path TO public_01_people\nSELECT * FROM people\n",
        ],
        "10 control START public_02_age\n11 main SET\n12 main UPDATE 1\n13 main SET\n14 main SELECT 1\n  1|eve|37\n",
    ),
    // What `up` rounded, `down` gives rounded.
    (
        &[
            "\\start {\"name\":\"02_age\",\"operations\":[{\"alter_column\":{\"table\":\"people\",\"column\":\"age\",\"type\":\"bigint\",\"up\":\"CAST(age AS bigint) / 10 * 10\",\"down\":\"CAST(age AS text)\"}}]}\n",
            "SET search_path TO public_02_age\nUPDATE people SET name = 'eve' WHERE id = 1\nSET search_path TO public_01_people\nSELECT * FROM people\n",
        ],
        "10 control START public_02_age\n11 main SET\n12 main UPDATE 1\n13 main SET\n14 main SELECT 1\n  1|eve|30\n",
    ),
    // A column gets another name and a check, and another column goes. A write through one version has to be right in the
    // other one too.
    (
        &[
            TIDY,
            "SET search_path TO public_02_tidy\nINSERT INTO people (id, full_name) VALUES (5, 'eve')\nSET search_path TO public_01_people\nSELECT * FROM people\nINSERT INTO people (id, name) VALUES (6, '')\n\\complete\nSET search_path TO public_02_tidy\nSELECT * FROM people\n",
        ],
        "10 control START public_02_tidy\n11 main SET\n12 main INSERT 0 1\n13 main SET\n14 main SELECT 2\n  1|ann|37\n  5|eve|0\n15 main ERROR 23514 name_some 6\n16 control COMPLETE 1\n17 control COMPLETE 2\n18 control COMPLETE 3\n19 main SET\n20 main SELECT 2\n  1|ann\n  5|eve\n",
    ),
    // A table is dropped and another one created: after a rollback both are as they were, and after a completion the old
    // one is gone.
    (
        &[
            SWAP,
            "SET search_path TO public_02_swap, public_01_people\nINSERT INTO pets (id) VALUES (7)\nUPDATE people SET name = 'eve' WHERE id = 1\n\\rollback\nSELECT * FROM people\nSELECT * FROM pets\n",
            SWAP,
            "SELECT * FROM pets\n\\complete\nSELECT * FROM people\nSELECT * FROM pets\n",
        ],
        "10 control START public_02_swap\n11 main SET\n12 main INSERT 0 1\n13 main UPDATE 1\n14 control ROLLBACK 1\n15 control ROLLBACK 2\n16 main SELECT 1\n  1|eve|37\n17 main ERROR 42P01 pets -\n18 control START public_02_swap\n19 main SELECT 0\n20 control COMPLETE 1\n21 control COMPLETE 2\n22 control COMPLETE 3\n23 main ERROR 42P01 people -\n24 main SELECT 0\n",
    ),
    // A row that is not filled yet has no number.
    (
        &[
            NUMBER,
            "SET search_path TO public_02_age\nUPDATE people SET name = 'z' WHERE age = 37\n",
        ],
        "10 control START public_02_age\n11 main SET\n12 main UPDATE 0\n",
    ),
];

#[test]
fn columns_change_their_type(rt: HostRuntime) -> Result<(), Fail> {
    for (lines, wanted) in CHANGED {
        let lines = joined(rt.alloc(), lines)?;
        let mut input = joined(rt.alloc(), &[ROWS, PEOPLE])?;
        input.extend_from_slice(&lines)?;
        let told = call(rt.alloc(), &["exec"], &input, &[], &[])?;
        let output = joined(rt.alloc(), &[ROWS_TOLD, PEOPLE_TOLD, wanted])?;
        assert_eq!(rt; told.status, 0, "{wanted}");
        assert_eq!(rt; told.output.as_slice(), output.as_slice(), "{wanted}");
    }
    Ok(())
}

/// Inputs with a line that breaks the rules, and its number.
const BAD: [(&str, &str); 7] = [
    ("SELECT * FROM users\n\n\\status\n\\fil\n", "3"),
    ("\\fill \n", "1"),
    ("--\n\\batch\n", "2"),
    ("\\batch  1\n", "1"),
    ("\\batch 1234567890\n", "1"),
    ("\\start\n", "1"),
    ("\\complete\r\n\\Complete", "2"),
];

#[test]
fn bad_lines_are_told(rt: HostRuntime) -> Result<(), Fail> {
    for (input, number) in BAD {
        let told = call(rt.alloc(), &["exec"], input.as_bytes(), &[], &[])?;
        let output = joined(rt.alloc(), &["0 control REFUSED P21 ", number, "\n"])?;
        assert_eq!(rt; told.status, 1, "{input}");
        assert_eq!(rt; told.output.as_slice(), output.as_slice(), "{input}");
    }
    Ok(())
}
