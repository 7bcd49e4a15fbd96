//! Pages that were written.
ghost use Rattle.page_store.specs.PageFacts.{WrittenIsRead, OthersRead, OthersKept};

/// The laws by which a page reads back what was last written to it, and every other page stays. It
/// does nothing.
pub fn page_laws()
    ensures written { WrittenIsRead }
    ensures others { OthersRead }
    ensures kept { OthersKept }
{}
