//! What the crates above cite of an index that stands.

ghost use Rattle.key_index.specs.Laws.{prime_reads, prime_is_live, prime_is_kept, prime_stands_aside};
ghost use Rattle.key_index.specs.Laws.{alt_reads, alt_is_live, alt_is_kept, alt_stands_aside};

/// Laws of a prime index that stands: what is read off its pages are its entries, its pages are in
/// use, it stands while they stay, and a change of something else leaves it standing. It does
/// nothing.
pub fn prime_laws()
    ensures reads { prime_reads }
    ensures live { prime_is_live }
    ensures kept { prime_is_kept }
    ensures aside { prime_stands_aside }
{}

/// The same laws of an index of an alternate key. It does nothing.
pub fn alt_laws()
    ensures reads { alt_reads }
    ensures live { alt_is_live }
    ensures kept { alt_is_kept }
    ensures aside { alt_stands_aside }
{}
