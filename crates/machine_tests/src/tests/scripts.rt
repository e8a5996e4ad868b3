//! Worked examples: the lines of one lane, and what they are answered.

/// A line of a script.
#[derive(Drop)]
pub enum Line<'a> {
    Start(&'a str),
    Batch(u32),
    Complete,
    Rollback,
    Lost,
    Said(&'a str),
}

/// What a line is.
pub fn line_of(line: &str) -> Line<'_> {
    if let Some(text) = line.strip_prefix("\\start ") {
        return Line::Start(text);
    }
    if let Some(count) = line.strip_prefix("\\batch ") {
        return Line::Batch(count.parse::<u32>().unwrap_or(0));
    }
    match line {
        "\\complete" => Line::Complete,
        "\\rollback" => Line::Rollback,
        "\\lost" => Line::Lost,
        _ => Line::Said(line),
    }
}

/// The scripts, each with what it is answered. `\lost` is answered each row's key and its lost weight.
pub const SCRIPTS: [(&str, &str); 27] = [
    (
        "\
INSERT INTO users (id, name) VALUES (1, 'a')
INSERT INTO users (id, name) VALUES (2, 'b')
INSERT INTO users (id, name) VALUES (3, 'c')
\\start {\"name\":\"02_add_age\",\"operations\":[{\"add_column\":{\"table\":\"users\",\"column\":{\"name\":\"age\",\"type\":\"bigint\",\"nullable\":true},\"up\":\"0\"}}]}
SET search_path TO public_02_add_age
SELECT * FROM users
\\batch 2
SELECT id, age FROM users
\\batch 2
\\complete
\\complete
\\complete
SET search_path TO public_01_users
SELECT * FROM users
\\complete
",
        "\
INSERT 0 1
INSERT 0 1
INSERT 0 1
START public_02_add_age
SET
SELECT
  1|a|\\N
  2|b|\\N
  3|c|\\N
FILL users 2 1 2
SELECT
  1|0
  2|0
  3|\\N
FILL users 1 3 3
COMPLETE 1
COMPLETE 2
COMPLETE 3
SET
ERROR 42P01 users -
REFUSED P2
",
    ),
    (
        "\
\\complete
\\start {\"name\":\"02_add_age\",\"operations\":[{\"add_column\":{\"table\":\"users\",\"column\":{\"name\":\"age\",\"type\":\"bigint\",\"nullable\":true},\"up\":\"0\"}}]}
\\start {\"name\":\"02_add_age\",\"operations\":[{\"add_column\":{\"table\":\"users\",\"column\":{\"name\":\"age\",\"type\":\"bigint\",\"nullable\":true},\"up\":\"0\"}}]}
\\start {\"name\":\"01_users\",\"operations\":[{\"add_column\":{\"table\":\"users\",\"column\":{\"name\":\"age\",\"type\":\"bigint\",\"nullable\":true},\"up\":\"0\"}}]}
",
        "\
REFUSED P2
START public_02_add_age
REFUSED P1 02_add_age
REFUSED P1 02_add_age
",
    ),
    (
        "\
\\batch 10001
\\batch 0
\\batch 10000
",
        "\
REFUSED P20 batch
REFUSED P20 batch
REFUSED P2
",
    ),
    (
        "\
INSERT INTO users (id, name) VALUES (7, 'g')
\\start {\"name\":\"02_nick\",\"operations\":[{\"add_column\":{\"table\":\"users\",\"column\":{\"name\":\"nick\",\"type\":\"text\",\"nullable\":true},\"up\":\"name\"}}]}
INSERT INTO users (id, name) VALUES (8, 'h')
\\complete
\\batch 5
SET search_path TO public_02_nick, public_01_users
SELECT nick, id FROM users
SELECT * FROM users
\\batch 5
\\complete
SELECT * FROM users
\\start {\"name\":\"03\",\"operations\":[{\"add_column\":{\"table\":\"users\",\"column\":{\"name\":\"age\",\"type\":\"bigint\",\"nullable\":true}}}]}
\\batch 1
\\complete
\\complete
",
        "\
INSERT 0 1
START public_02_nick
INSERT 0 1
REFUSED P4 users 7
FILL users 1 7 7
SET
SELECT
  g|7
  h|8
SELECT
  7|g|g
  8|h|h
FILLED
COMPLETE 1
SELECT
  7|g|g
  8|h|h
REFUSED P3 complete
REFUSED P3 complete
COMPLETE 2
COMPLETE 3
",
    ),
    (
        "\
\\start {\"name\":\"01_users\",\"operations\":[{\"add_column\":{\"table\":\"users\",\"column\":{\"name\":\"age\",\"type\":\"bigint\",\"nullable\":true}}}]}
\\start {\"name\":\"02\",\"operations\":[{\"add_column\":{\"table\":\"people\",\"column\":{\"name\":\"age\",\"type\":\"bigint\",\"nullable\":true}}}]}
\\start {\"name\":\"02\",\"operations\":[{\"add_column\":{\"table\":\"users\",\"column\":{\"name\":\"name\",\"type\":\"bigint\",\"nullable\":true}}}]}
",
        "\
REFUSED P6 01_users
REFUSED P7 people
REFUSED P9 name
",
    ),
    (
        "\
INSERT INTO users (id, name) VALUES (1, 'a')
\\start {\"name\":\"02_age\",\"operations\":[{\"add_column\":{\"table\":\"users\",\"column\":{\"name\":\"age\",\"type\":\"bigint\",\"nullable\":true}}}]}
\\batch 9
SET search_path TO public_02_age
SELECT * FROM users
INSERT INTO users (id, name) VALUES (2, 'b')
\\complete
SELECT * FROM users
",
        "\
INSERT 0 1
START public_02_age
FILLED
SET
SELECT
  1|a|\\N
INSERT 0 1
COMPLETE 1
SELECT
  1|a|\\N
  2|b|\\N
",
    ),
    (
        "\
INSERT INTO users (id, name) VALUES (1, 'a')
INSERT INTO users (id, name) VALUES (1, 'z')
SELECT x FROM users
SELECT name, id, id FROM users
SELEC
",
        "\
INSERT 0 1
ERROR 23505 users_pkey 1
ERROR 42703 x -
SELECT
  a|1|1
ERROR 42601 - -
",
    ),
    (
        "\
SET search_path TO nowhere
SELECT * FROM users
SET search_path TO nowhere, public_01_users
SELECT * FROM users
",
        "\
SET
ERROR 42P01 users -
SET
SELECT
",
    ),
    (
        "\
\\start {}
\\start {\"name\":\"02_c\"}
\\start {\"name\":\"x\",\"name\":\"02_b\",\"operations\":[{\"add_column\":{\"table\":\"users\",\"column\":{\"name\":\"age\",\"type\":\"bigint\",\"nullable\":true}}}]}
",
        "\
REFUSED P16 name
REFUSED P16 operations
START public_02_b
",
    ),
    (
        "\
INSERT INTO users (id, name) VALUES (1, 'a'), (2, 'b'), (3, 'c')
\\start {\"name\":\"02_add_age\",\"operations\":[{\"add_column\":{\"table\":\"users\",\"column\":{\"name\":\"age\",\"type\":\"bigint\",\"nullable\":true},\"up\":\"0\"}}]}
\\batch 2
UPDATE users SET name = 'cc' WHERE id = 3
\\batch 2
SELECT * FROM users WHERE id > 2
",
        "\
INSERT 0 3
START public_02_add_age
FILL users 2 1 2
UPDATE 1
FILLED
SELECT
  3|cc
",
    ),
    (
        "\
INSERT INTO users (id, name) VALUES (1, 'a'), (2, 'b'), (3, 'c')
\\start {\"name\":\"02_add_age\",\"operations\":[{\"add_column\":{\"table\":\"users\",\"column\":{\"name\":\"age\",\"type\":\"bigint\",\"nullable\":true},\"up\":\"0\"}}]}
SET search_path TO public_02_add_age
UPDATE users SET name = 'z' WHERE age = 0
UPDATE users SET name = 'eve' WHERE id = 1
UPDATE users SET age = age + 5 WHERE id = 2
SELECT * FROM users
SET search_path TO public_01_users
SELECT * FROM users
DELETE FROM users WHERE name = 'eve'
SET search_path TO public_02_add_age
SELECT name FROM users WHERE age IS NULL
",
        "\
INSERT 0 3
START public_02_add_age
SET
UPDATE 0
UPDATE 1
UPDATE 1
SELECT
  1|eve|0
  2|b|5
  3|c|\\N
SET
SELECT
  1|eve
  2|b
  3|c
DELETE 1
SET
SELECT
  c
",
    ),
    (
        "\
INSERT INTO users (id, name) VALUES (1, 'a'), (2, 'b'), (3, 'c')
\\start {\"name\":\"02_n\",\"operations\":[{\"add_column\":{\"table\":\"users\",\"column\":{\"name\":\"n\",\"type\":\"bigint\"},\"up\":\"CASE WHEN name = 'b' THEN NULL ELSE 1 END\"}}]}
\\batch 10
\\complete
UPDATE users SET name = 'b' WHERE id > 1
UPDATE users SET name = 'd' WHERE id = 2
\\batch 10
\\complete
",
        "\
INSERT 0 3
START public_02_n
REFUSED P19 users 2 23502
REFUSED P4 users 1
ERROR 23502 users_n_not_null 2
UPDATE 1
FILL users 2 1 3
COMPLETE 1
",
    ),
    (
        "\
INSERT INTO users (id, name) VALUES (1, 'a'), (2, 'b'), (3, 'c')
SELECT -9223372036854775808 / -1 FROM users WHERE id = 1
SELECT -9223372036854775808 % -1 FROM users WHERE id = 1
SELECT NULL AND FALSE, NULL OR TRUE, -7 / 2, -7 % 2 FROM users WHERE id = 1
SELECT 10 / (id - 2) FROM users WHERE id <> 2
SELECT 10 / (id - 2) FROM users
SELECT id FROM users WHERE name
",
        "\
INSERT 0 3
ERROR 22003 - 1
SELECT
  0
SELECT
  false|true|-3|-1
SELECT
  -10
  10
ERROR 22012 - 2
ERROR 42804 - -
",
    ),
    (
        "\
INSERT INTO users (id, name) VALUES (1, 'a'), (2, 'b'), (3, 'c')
UPDATE users SET name = name || '|' WHERE id < 3
SELECT name FROM users WHERE id = 2
UPDATE users SET id = 9
UPDATE users SET x = 9
UPDATE users SET name = 'a', name = 'b'
UPDATE users SET name = 9
UPDATE users SET name = NULL WHERE id = 3
UPDATE users SET name = 'x' WHERE 10 / (id - 2) > 0
SELECT * FROM users
UPDATE users SET name = 'x'
SELECT * FROM users
",
        "\
INSERT 0 3
UPDATE 2
SELECT
  b|
ERROR 0A000 id -
ERROR 42703 x -
ERROR 42701 name -
ERROR 42804 - -
ERROR 23502 users_name_not_null 3
ERROR 22012 - 2
SELECT
  1|a|
  2|b|
  3|c
UPDATE 3
SELECT
  1|x
  2|x
  3|x
",
    ),
    (
        "\
INSERT INTO users (id, name) VALUES (1, 'a'), (2, 'b'), (3, 'c')
INSERT INTO users (name, id) VALUES ('e', 5), ('d', 4)
INSERT INTO users (id, name) VALUES (1, 'z')
INSERT INTO users (id, name) VALUES (7, 'g'), (6, 'f'), (7, 'h')
INSERT INTO users (id) VALUES (6)
INSERT INTO users (name) VALUES ('f')
INSERT INTO users (id, name) VALUES (6)
INSERT INTO users (id, id) VALUES (6, 6)
INSERT INTO users (id, name) VALUES (3 + 3, upper('f'))
SELECT * FROM users WHERE id > 3
SELEC
SELECT x FROM users
",
        "\
INSERT 0 3
INSERT 0 2
ERROR 23505 users_pkey 1
ERROR 23505 users_pkey 7
ERROR 23502 users_name_not_null 6
ERROR 23502 users_id_not_null -
ERROR 42601 - -
ERROR 42701 id -
INSERT 0 1
SELECT
  4|d
  5|e
  6|F
ERROR 42601 - -
ERROR 42703 x -
",
    ),
    (
        "\
INSERT INTO users (id, name) VALUES (1, 'a'), (2, 'b'), (3, 'c')
DELETE FROM users WHERE 10 / (id - 2) > 0
DELETE FROM users WHERE id
DELETE FROM users WHERE NULL
DELETE FROM users WHERE id = 2
SELECT * FROM users
DELETE FROM users
SELECT * FROM users
DELETE FROM people
",
        "\
INSERT 0 3
ERROR 22012 - 2
ERROR 42804 - -
DELETE 0
DELETE 1
SELECT
  1|a
  3|c
DELETE 2
SELECT
ERROR 42P01 people -
",
    ),
    (
        "\
\\start {\"name\":\"02_age\",\"operations\":[{\"add_column\":{\"table\":\"users\",\"column\":{\"name\":\"age\",\"type\":\"bigint\",\"default\":\"7\"}}}]}
INSERT INTO users (id, name) VALUES (1, 'a')
SET search_path TO public_02_age
INSERT INTO users (id, name) VALUES (2, 'b')
INSERT INTO users (id, name, age) VALUES (3, 'c', 9)
INSERT INTO users (id, name, age) VALUES (4, 'd', NULL)
SELECT * FROM users
",
        "\
START public_02_age
INSERT 0 1
SET
INSERT 0 1
INSERT 0 1
ERROR 23502 users_age_not_null 4
SELECT
  1|a|7
  2|b|7
  3|c|9
",
    ),
    (
        "\
INSERT INTO users (id, name) VALUES (1, 'a'), (2, 'b')
\\start {\"name\":\"02_code\",\"operations\":[{\"add_column\":{\"table\":\"users\",\"column\":{\"name\":\"code\",\"type\":\"bigint\",\"default\":\"7\",\"unique\":true}}}]}
\\complete
SET search_path TO public_02_code
UPDATE users SET code = 9 WHERE id = 2
SET search_path TO public_01_users
UPDATE users SET name = 'c' WHERE id = 2
INSERT INTO users (id, name) VALUES (3, 'd')
SET search_path TO public_02_code
SELECT * FROM users
INSERT INTO users (id, name, code) VALUES (4, 'e', 9)
\\complete
\\complete
\\complete
",
        "\
INSERT 0 2
START public_02_code
REFUSED P5 users_code_key 1
SET
UPDATE 1
SET
UPDATE 1
ERROR 23505 users_code_key 3
SET
SELECT
  1|a|7
  2|c|9
ERROR 23505 users_code_key 4
COMPLETE 1
COMPLETE 2
COMPLETE 3
",
    ),
    (
        "\
INSERT INTO users (id, name) VALUES (1, 'a')
\\start {\"name\":\"02_age\",\"operations\":[{\"add_column\":{\"table\":\"users\",\"column\":{\"name\":\"age\",\"type\":\"bigint\",\"pk\":true}}}]}
\\start {\"name\":\"02_age\",\"operations\":[{\"add_column\":{\"table\":\"users\",\"column\":{\"name\":\"age\",\"type\":\"bigint\"}}}]}
\\start {\"name\":\"02_age\",\"operations\":[{\"add_column\":{\"table\":\"users\",\"column\":{\"name\":\"age\",\"type\":\"bigint\",\"default\":\"'x'\"}}}]}
\\start {\"name\":\"02_age\",\"operations\":[{\"add_column\":{\"table\":\"users\",\"column\":{\"name\":\"age\",\"type\":\"bigint\",\"default\":\"0\",\"check\":{\"name\":\"age_pos\",\"constraint\":\"age > 0\"}}}}]}
INSERT INTO users (id, name) VALUES (2, 'b')
\\complete
SET search_path TO public_02_age
UPDATE users SET age = 5
\\complete
SELECT * FROM users
",
        "\
INSERT 0 1
REFUSED P10 users
REFUSED P12 users age
REFUSED P15 operations[0].default
START public_02_age
ERROR 23514 age_pos 2
REFUSED P5 age_pos 1
SET
UPDATE 1
COMPLETE 1
SELECT
  1|a|5
",
    ),
    (
        "\
\\start {\"name\":\"01_people\",\"operations\":[{\"create_table\":{\"name\":\"people\",\"columns\":[{\"name\":\"id\",\"type\":\"bigint\",\"pk\":true},{\"name\":\"name\",\"type\":\"text\"},{\"name\":\"age\",\"type\":\"text\",\"nullable\":true}]}}]}
SELECT * FROM people
SET search_path TO public_01_people
SELECT * FROM people
INSERT INTO people (id, name, age) VALUES (1, 'ann', '37')
SELECT * FROM users
\\batch 9
\\complete
SELECT * FROM people
\\lost
\\complete
\\complete
\\start {\"name\":\"02_age\",\"operations\":[{\"alter_column\":{\"table\":\"people\",\"column\":\"age\",\"type\":\"bigint\",\"up\":\"CAST(age AS bigint)\",\"down\":\"CAST(age AS text)\"}}]}
SET search_path TO public_02_age
INSERT INTO people (id, name, age) VALUES (2, 'bob', 5)
SET search_path TO public_01_people
SELECT age || '!' FROM people WHERE id = 2
SET search_path TO public_02_age
UPDATE people SET name = 'z' WHERE age = 37
UPDATE people SET name = 'eve' WHERE id = 1
SET search_path TO public_01_people
SELECT * FROM people WHERE id = 1
UPDATE people SET age = '401' WHERE id = 2
UPDATE people SET age = 'x' WHERE id = 2
SET search_path TO public_02_age
SELECT age + 1 FROM people
\\complete
INSERT INTO people (id, name, age) VALUES (3, 'fay', NULL)
\\lost
\\complete
\\lost
",
        "\
START public_01_people
ERROR 42P01 people -
SET
SELECT
INSERT 0 1
SELECT
FILLED
COMPLETE 1
SELECT
  1|ann|37
LOST
  1|0
COMPLETE 2
COMPLETE 3
START public_02_age
SET
INSERT 0 1
SET
SELECT
  5!
SET
UPDATE 0
UPDATE 1
SET
SELECT
  1|eve|37
UPDATE 1
ERROR 22P02 - 2
SET
SELECT
  38
  402
COMPLETE 1
INSERT 0 1
LOST
  1|5
  2|6
  3|1
COMPLETE 2
LOST
  1|0
  2|0
  3|0
",
    ),
    (
        "\
\\start {\"name\":\"01_people\",\"operations\":[{\"create_table\":{\"name\":\"people\",\"columns\":[{\"name\":\"id\",\"type\":\"bigint\",\"pk\":true},{\"name\":\"name\",\"type\":\"text\"},{\"name\":\"age\",\"type\":\"text\",\"nullable\":true}]}}]}
SET search_path TO public_01_people
INSERT INTO people (id, name, age) VALUES (1, 'ann', '37')
\\complete
\\complete
\\complete
\\start {\"name\":\"02_age\",\"operations\":[{\"alter_column\":{\"table\":\"people\",\"column\":\"age\",\"type\":\"bigint\",\"up\":\"CAST(age AS bigint) / 10 * 10\",\"down\":\"CAST(age AS text)\"}}]}
SET search_path TO public_02_age
UPDATE people SET name = 'eve' WHERE id = 1
SET search_path TO public_01_people
SELECT * FROM people
",
        "\
START public_01_people
SET
INSERT 0 1
COMPLETE 1
COMPLETE 2
COMPLETE 3
START public_02_age
SET
UPDATE 1
SET
SELECT
  1|eve|30
",
    ),
    (
        "\
\\start {\"name\":\"01_people\",\"operations\":[{\"create_table\":{\"name\":\"people\",\"columns\":[{\"name\":\"id\",\"type\":\"bigint\",\"pk\":true},{\"name\":\"name\",\"type\":\"text\"},{\"name\":\"age\",\"type\":\"text\",\"nullable\":true}]}}]}
SET search_path TO public_01_people
INSERT INTO people (id, name, age) VALUES (1, 'ann', '37'), (2, 'bob', '5')
\\complete
\\complete
\\complete
\\start {\"name\":\"02_tidy\",\"operations\":[{\"rename_column\":{\"table\":\"people\",\"from\":\"name\",\"to\":\"full_name\"}},{\"create_constraint\":{\"table\":\"people\",\"name\":\"name_some\",\"type\":\"check\",\"columns\":[\"full_name\"],\"check\":\"length(full_name) > 0\"}},{\"drop_column\":{\"table\":\"people\",\"column\":\"age\",\"down\":\"'0'\"}}]}
\\batch 9
SET search_path TO public_02_tidy
INSERT INTO people (id, full_name) VALUES (5, 'eve')
UPDATE people SET full_name = 'ann b' WHERE id = 1
SELECT * FROM people
SELECT age FROM people
SET search_path TO public_01_people
SELECT full_name FROM people
SELECT * FROM people
INSERT INTO people (id, name, age) VALUES (6, '', '1')
",
        "\
START public_01_people
SET
INSERT 0 2
COMPLETE 1
COMPLETE 2
COMPLETE 3
START public_02_tidy
FILLED
SET
INSERT 0 1
UPDATE 1
SELECT
  1|ann b
  2|bob
  5|eve
ERROR 42703 age -
SET
ERROR 42703 full_name -
SELECT
  1|ann b|0
  2|bob|5
  5|eve|0
ERROR 23514 name_some 6
",
    ),
    (
        "\
\\start {\"name\":\"01_people\",\"operations\":[{\"create_table\":{\"name\":\"people\",\"columns\":[{\"name\":\"id\",\"type\":\"bigint\",\"pk\":true},{\"name\":\"name\",\"type\":\"text\"},{\"name\":\"age\",\"type\":\"text\",\"nullable\":true}]}}]}
SET search_path TO public_01_people
INSERT INTO people (id, name, age) VALUES (1, 'ann', '37')
\\complete
\\complete
\\complete
\\start {\"name\":\"02_tidy\",\"operations\":[{\"drop_column\":{\"table\":\"people\",\"column\":\"age\"}}]}
SET search_path TO public_02_tidy
INSERT INTO people (id, name) VALUES (5, 'eve')
UPDATE people SET name = 'ann b' WHERE id = 1
SET search_path TO public_01_people
SELECT * FROM people
\\complete
SELECT * FROM people
SET search_path TO public_02_tidy
INSERT INTO people (id, name) VALUES (6, 'fay')
SELECT * FROM people
\\lost
",
        "\
START public_01_people
SET
INSERT 0 1
COMPLETE 1
COMPLETE 2
COMPLETE 3
START public_02_tidy
SET
INSERT 0 1
UPDATE 1
SET
SELECT
  1|ann b|37
  5|eve|\\N
COMPLETE 1
ERROR 42P01 people -
SET
INSERT 0 1
SELECT
  1|ann b
  5|eve
  6|fay
LOST
  1|5
  5|1
  6|1
",
    ),
    (
        "\
INSERT INTO users (id, name) VALUES (1, 'a'), (2, 'b'), (3, 'c')
\\start {\"name\":\"02_pos\",\"operations\":[{\"add_column\":{\"table\":\"users\",\"column\":{\"name\":\"age\",\"type\":\"bigint\",\"default\":\"0\",\"check\":{\"name\":\"age_pos\",\"constraint\":\"age > 0\"}}}}]}
INSERT INTO users (id, name) VALUES (4, 'd')
\\batch 1000
\\complete
\\rollback
\\rollback
SELECT * FROM users
\\rollback
",
        "\
INSERT 0 3
START public_02_pos
ERROR 23514 age_pos 4
FILLED
REFUSED P5 age_pos 1
ROLLBACK 1
ROLLBACK 2
SELECT
  1|a
  2|b
  3|c
REFUSED P2
",
    ),
    (
        "\
INSERT INTO users (id, name) VALUES (1, 'a'), (2, 'a'), (3, 'b'), (4, 'c')
\\start {\"name\":\"02_code\",\"operations\":[{\"add_column\":{\"table\":\"users\",\"column\":{\"name\":\"code\",\"type\":\"text\",\"nullable\":true,\"unique\":true},\"up\":\"CASE WHEN name = 'a' THEN NULL ELSE 'x' END\"}}]}
\\batch 10
\\batch 3
\\batch 3
",
        "\
INSERT 0 4
START public_02_code
REFUSED P19 users 3 23505
FILL users 3 1 3
REFUSED P19 users 4 23505
",
    ),
    (
        "\
INSERT INTO users (id, name) VALUES (1, 'a'), (2, 'b')
\\start {\"name\":\"02_add_age\",\"operations\":[{\"add_column\":{\"table\":\"users\",\"column\":{\"name\":\"age\",\"type\":\"bigint\",\"nullable\":true},\"up\":\"0\"}}]}
\\batch 1
UPDATE users SET name = 'aa' WHERE id = 1
\\rollback
\\lost
INSERT INTO users (id, name) VALUES (3, 'c')
\\lost
\\complete
\\batch 1
\\start {\"name\":\"02_add_age\",\"operations\":[{\"add_column\":{\"table\":\"users\",\"column\":{\"name\":\"age\",\"type\":\"bigint\",\"nullable\":true},\"up\":\"0\"}}]}
SET search_path TO public_02_add_age
SELECT * FROM users
\\rollback
\\lost
SET search_path TO public_01_users
SELECT * FROM users
\\start {\"name\":\"02_add_age\",\"operations\":[{\"add_column\":{\"table\":\"users\",\"column\":{\"name\":\"age\",\"type\":\"bigint\",\"nullable\":true},\"up\":\"0\"}}]}
",
        "\
INSERT 0 2
START public_02_add_age
FILL users 1 1 1
UPDATE 1
ROLLBACK 1
LOST
  1|9
  2|1
INSERT 0 1
LOST
  1|9
  2|1
  3|1
REFUSED P3 rollback
REFUSED P3 rollback
REFUSED P3 rollback
SET
ERROR 42P01 users -
ROLLBACK 2
LOST
  1|0
  2|0
  3|0
SET
SELECT
  1|aa
  2|b
  3|c
START public_02_add_age
",
    ),
    ("\n", ""),
];
