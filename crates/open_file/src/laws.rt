//! What the crates above cite of an open file that stands.

ghost use Rattle.open_file.specs.Laws.{reads_as_its_file, is_filled, counts_its_rows};

/// Laws of an open file that stands for a list of records: what is read off its pages is that list,
/// each tree of two levels or more is filled, and its prime index counts its records. It does
/// nothing.
pub fn open_file_laws()
    ensures reads { reads_as_its_file }
    ensures filled { is_filled }
    ensures counts { counts_its_rows }
{}
