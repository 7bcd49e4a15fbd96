//! The order of rows and what keeps them apart, as their users would say it.
ghost use Rattle.indexed_file.specs.Laws.{least_is_lowest, apart_in_each_key};

/// The row that `least` gives passes the test, and no other row that passes is of lower rank; it
/// gives none where no row passes. Rows are apart exactly where they differ in each key: in its
/// value, or in its stamp where it may have duplicates. It does nothing.
pub fn row_laws()
    ensures least { least_is_lowest }
    ensures apart { apart_in_each_key }
{}
