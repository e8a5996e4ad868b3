use crate::draws::Draws;
use crate::{Part, make};
use std::test::Fail;

const PEOPLE: &str =
    "\\start {\"name\":\"01_people\",\"operations\":[{\"create_table\":{\"name\":\"people\",\"columns\":[{\"name\":\"id\",\"type\":\"bigint\",\"pk\":true},{\"name\":\"name\",\"type\":\"text\"},{\"name\":\"age\",\"type\":\"text\",\"nullable\":true}]}}]}\n\\complete\nSET search_path TO public_01_people;\nINSERT INTO people (id, name, age) VALUES (1, 'u838', '58');\nINSERT INTO people (id, name, age) VALUES (2, 'u113', '15');\nINSERT INTO people (id, name, age) VALUES (3, 'u51', '27');\nINSERT INTO people (id, name, age) VALUES (4, 'u10', '19');\n\\start {\"name\":\"02_age\",\"operations\":[{\"alter_column\":{\"table\":\"people\",\"column\":\"age\",\"type\":\"bigint\",\"up\":\"CAST(age AS bigint) / 10 * 10\",\"down\":\"CAST(age AS text)\"}}]}\n";

const LANES: &str =
    "lane l0 public_01_people\nDELETE FROM people WHERE id = 1;\nDELETE FROM people WHERE id = 2;\nSELECT id, name FROM people WHERE id = 3;\nINSERT INTO people (id, name) VALUES (8, 'v515');\ncontrol\n\\fill\n";

#[test]
fn a_number_gives_its_draws(rt: HostRuntime) -> Result<(), Fail> {
    let mut draws = Draws::begin(1);
    for draw in [16_838, 5_758, 10_113, 17_515, 31_051, 5_627, 23_010, 7_419] {
        assert_eq!(rt; draws.draw(), draw);
    }
    Ok(())
}

#[test]
fn a_workload_has_its_text(rt: HostRuntime) -> Result<(), Fail> {
    for (part, text) in [(Part::Setup, PEOPLE), (Part::Lanes, LANES)] {
        let made = make(rt.alloc(), part, 1, 4, 1)?;
        assert_eq!(rt; made.as_slice(), text.as_bytes(), "{part:?}");
    }
    Ok(())
}
