//! Laws of the format.
ghost use Rattle.journal_rec.specs.Laws.{BodyIsOfOneRecord, BodyIsRead, ReadIsOfItsBody, BodyHasItsSize, RowsAreBounded};

/// The law that no bytes are the body of two records.
pub fn a_body_is_of_one_record()
    ensures { BodyIsOfOneRecord }
{}

/// The law that a body is read as its record, and nothing else as that record.
pub fn a_body_is_read_as_its_record()
    ensures read { BodyIsRead }
    ensures body { ReadIsOfItsBody }
{}

/// The law that a body has as many bytes as its size says.
pub fn a_body_has_its_size()
    ensures { BodyHasItsSize }
{}

/// The law that a record of rows has 9 bytes, per row at most 11, and what its stored rows weigh.
pub fn rows_are_bounded()
    ensures { RowsAreBounded }
{}
