//! What marks say of the parts of a file.

ghost use Rattle.pages.specs.PartLaw.{MarksPartThePages};

/// Where each walk reached pages that none before it had, and no page is left, the parts that were
/// walked have the pages in use between them.
pub fn marks_part_the_pages()
    ensures { MarksPartThePages }
{}
