//! Statements, and where they stand.
ghost use Rattle.std.specs.Prelude.{◌≡◌, IfOk};
ghost use Rattle.deck_reader.specs.Placed.{nothing_placed, placed_statement};
ghost use Rattle.deck_reader.specs.Placed.{placed_paragraph, placed_behind};

use crate::places::{Paragraph, StatementPlaces};
use crate::statement::Statement;
use crate::statement_list::StatementList;
use io_state::Name;
use std::alloc::{AllocError, Global};

/// Statements in their order, and where each of them stands.
#[derive(Drop)]
pub struct PlacedStatements {
    pub statements: StatementList,
    pub places: StatementPlaces,
}

impl PlacedStatements {
    /// No statements, with room for so many.
    pub fn with_capacity(alloc: Global, capacity: usize) -> Result<Self, AllocError>
        ensures { IfOk result (λ placed. placed ≡ nothing_placed) }
    {
        Ok(PlacedStatements {
            statements: StatementList::with_capacity(alloc, capacity)?,
            places: StatementPlaces::with_capacity(alloc, capacity)?,
        })
    }

    /// The statements, and one more at the end, which stands in this line.
    #[tactic(auto, using(crate::proofs::PlacedLemmas::one_more_statement))]
    pub fn with(self, statement: Statement, line: u64) -> Result<Self, AllocError>
        ensures { IfOk result (λ placed. placed ≡ placed_behind self (placed_statement line statement)) }
    {
        let PlacedStatements { statements, places } = self;
        Ok(PlacedStatements {
            statements: statements.with(statement)?,
            places: places.with_line(line)?,
        })
    }

    /// The statements, behind which a paragraph begins.
    #[tactic(auto, using(crate::proofs::PlacedLemmas::one_more_paragraph))]
    pub fn with_paragraph(self, name: Name, line: u64) -> Result<Self, AllocError>
        ensures { IfOk result (λ placed. placed ≡ placed_behind self (placed_paragraph line name.bytes)) }
    {
        let PlacedStatements { statements, places } = self;
        let at = statements.as_slice().len();
        let places = places.with_paragraph(Paragraph { name, line, at })?;
        Ok(PlacedStatements { statements, places })
    }
}
