//! What the crates above cite of indexes and heaps that are being built.

ghost use Rattle.tree_building.specs.Laws.{prime_building_is_live, prime_building_is_kept};
ghost use Rattle.tree_building.specs.Laws.{prime_building_stands_aside, prime_building_counts};
ghost use Rattle.tree_building.specs.Laws.{alt_building_is_live, alt_building_is_kept};
ghost use Rattle.tree_building.specs.Laws.{alt_building_stands_aside, alt_building_counts};
ghost use Rattle.tree_building.specs.Laws.{filling_is_kept, filling_is_apart, filling_stands_aside};
ghost use Rattle.tree_building.specs.Laws.{standing_primes_rise, standing_alts_rise, places_do_not_order};

/// Laws of a prime index that is being built: its pages are in use, it is as it was while they
/// stay, a change of something else leaves it so, and it counts its entries. It does nothing.
pub fn prime_builder_laws()
    ensures live { prime_building_is_live }
    ensures kept { prime_building_is_kept }
    ensures aside { prime_building_stands_aside }
    ensures counts { prime_building_counts }
{}

/// The same laws of an index of an alternate key. It does nothing.
pub fn alt_builder_laws()
    ensures live { alt_building_is_live }
    ensures kept { alt_building_is_kept }
    ensures aside { alt_building_stands_aside }
    ensures counts { alt_building_counts }
{}

/// The same laws of a heap that is being built. It does nothing.
pub fn heap_builder_laws()
    ensures apart { filling_is_apart }
    ensures kept { filling_is_kept }
    ensures aside { filling_stands_aside }
{}

/// Laws of the order of entries: those of an index that stands rise, and where records lie has no
/// part in it. It does nothing.
pub fn entry_order_laws()
    ensures primes { standing_primes_rise }
    ensures alternates { standing_alts_rise }
    ensures places { places_do_not_order }
{}
