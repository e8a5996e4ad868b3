//! Names in a migration.

ghost use Rattle.std.specs.Prelude.{◌≡◌, ◌==◌, codes};
ghost use Rattle.std.specs.List.{list_all, starts_with};
ghost use Rattle.mig_json.specs.Name as spec;

/// The bytes that a name may have.
const MAX_NAME: usize = 48;

fn is_reserved(text: &str) -> bool
    ensures { result ≡ starts_with ◌==◌ text.now (codes "_pgroll_") }
{
    text.starts_with("_pgroll_")
}

fn has_name_bytes(text: &str) -> bool
    ensures { result ≡ list_all spec.is_name_byte text.now }
{
    text.as_bytes()
        .iter()
        .all(|b| matches!(*b, b'a'..=b'z' | b'0'..=b'9' | b'_'))
}

/// Whether this is the name of a migration.
pub(crate) fn is_name(text: &str) -> bool
    ensures { result ≡ spec.is_name text.now }
{
    !text.is_empty() && text.len() <= MAX_NAME && has_name_bytes(text) && !is_reserved(text)
}

/// Whether this is the name of a table or a column: such a name that doesn't begin with a digit.
pub(crate) fn is_part_name(text: &str) -> bool
    ensures { result ≡ spec.is_part_name text.now }
{
    match text.as_bytes().first() {
        Some(b) => !matches!(*b, b'0'..=b'9') && is_name(text),
        None => false,
    }
}
