//! Quiet calls: at each moment each image begins as some image did before.
ghost use Rattle.page_store.specs.QuietFacts.{NothingIsQuiet, StepsAreQuiet, OpenStaysOpen, OpenIsKept};

/// The laws by which the layers above show that a call is quiet, and what it means for an open
/// gate. It does nothing.
pub fn quiet_laws()
    ensures nothing { NothingIsQuiet }
    ensures steps { StepsAreQuiet }
    ensures open { OpenStaysOpen }
    ensures kept { OpenIsKept }
{}
