//! Rows in ascending key.
ghost use Rattle.std.specs.Prelude.{◌≡◌};
ghost use Rattle.journal_rec.specs.Body as spec;

use crate::records::RecordedRow;

// Whether each key is below the next.
pub fn ascend(rows: &[RecordedRow]) -> bool
    ensures { result ≡ spec.ascend rows.now }
{
    rows.is_sorted_by(|row, next| row.key < next.key)
}
