//! Runs that follow one another.
ghost use Rattle.shelf_run.specs.Histories.{CleanNights, NightsFromNothing};
ghost use Rattle.shelf_run.specs.AnyNights.{AnyNights};
ghost use Rattle.shelf_run.specs.NightPoints.{NightsGoThrough};
ghost use Rattle.shelf_run.specs.NightRows.{NightsByRows};

use deck_reader::one_deck;

/// The laws of decks that are run one after another, each over the files that the run before it
/// left, or that a crash left of them. It does nothing.
pub fn history_laws()
    ensures clean { CleanNights }
    ensures from_nothing { NightsFromNothing }
    ensures any { AnyNights }
    ensures rows { NightsByRows }
    ensures points { NightsGoThrough }
{
    one_deck();
}
