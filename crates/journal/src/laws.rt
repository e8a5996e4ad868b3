//! Laws of the format.
ghost use Rattle.journal.specs.Laws.{ReadsAsOneList, BeginsOrIsNone};

/// The law that a file reads as one list of records at most, which is what it has as a journal.
pub fn a_file_reads_as_one_list()
    ensures { ReadsAsOneList }
{}

/// The law that a file with another beginning is no journal.
pub fn a_journal_has_its_beginning()
    ensures { BeginsOrIsNone }
{}
