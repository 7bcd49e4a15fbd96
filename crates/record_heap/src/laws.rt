//! What the crates above cite of a heap that stands.

ghost use Rattle.record_heap.specs.Standing.{slots_read_off, kept_by_its_pages, own_pages_live};

/// The laws of a heap that stands: what is read off its pages is what stands, it stands while its
/// own pages stay, and these are in use. It does nothing.
pub fn heap_laws()
    ensures read_off { slots_read_off }
    ensures kept { kept_by_its_pages }
    ensures live { own_pages_live }
{}
