//! What the crates above cite of rows that were checked.

ghost use Rattle.file_checker.specs.RowLaws.{RowsMakeAFile};

/// Where the prime index leads to rows, and no two of them have one rank by an alternate key, they
/// are the rows of a file. It does nothing.
pub fn rows_make_a_file()
    ensures { RowsMakeAFile }
{}
