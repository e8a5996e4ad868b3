//! The lines of an input.
ghost use Rattle.std.specs.Prelude.{◌≡◌, ◌==◌, ℕ, ◌<◌, ◌≤◌, ◌∷◌, false, length, slice_index};
ghost use Rattle.std.specs.List.{list_all, position_or_len};
ghost use Rattle.script_text.specs.Input as spec;
ghost use Rattle.script_text.specs.Steps.{trimmed};

/// Where the first such byte is, or the length where there is none.
pub fn place_of(wanted: u8, bytes: &[u8]) -> usize
    ensures place { result ≡ position_or_len (λ b. b == wanted) bytes.now }
    ensures within { result ≤ length bytes.now }
    ensures before { (k : ℕ) → k < result → (slice_index bytes.now k == wanted) ≡ false }
    ensures found { result < length bytes.now → slice_index bytes.now result ≡ wanted }
{
    for (at, byte) in bytes.iter().enumerate() {
        if *byte == wanted {
            return at;
        }
    }
    bytes.len()
}

// A line without a carriage return at its end.
fn trimmed(line: &[u8]) -> &[u8]
    ensures { result.now ≡ trimmed line.now }
{
    if line.is_empty() {
        return line;
    }
    let end = line.len() - 1;
    if line[end] == b'\r' {
        &line[..end]
    } else {
        line
    }
}

/// The first line, and what stands behind it.
pub fn split_line(bytes: &[u8]) -> (&[u8], &[u8])
    requires { 0 < length bytes.now }
    ensures lines { spec.split_lines bytes.now ≡ result.0.now ∷ spec.split_lines result.1.now }
    ensures less { length result.1.now < length bytes.now }
{
    let at = place_of(b'\n', bytes);
    if at < bytes.len() {
        (trimmed(&bytes[..at]), &bytes[at + 1..])
    } else {
        (bytes, &[])
    }
}

// Spaces alone, or nothing.
fn is_empty(line: &[u8]) -> bool
    ensures { result ≡ list_all (λ b. b == 32) line.now }
{
    line.iter().all(|byte| *byte == b' ')
}

// Two dashes in front.
fn is_comment(line: &[u8]) -> bool
    ensures { result ≡ spec.is_comment line.now }
{
    matches!(line, [b'-', b'-', ..])
}

/// Empty lines, lines of spaces alone and lines that begin with two dashes are passed by.
pub fn is_passed(line: &[u8]) -> bool
    ensures { result ≡ spec.is_passed line.now }
{
    is_empty(line) || is_comment(line)
}
