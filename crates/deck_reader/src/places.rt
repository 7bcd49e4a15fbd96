//! Where the statements of a procedure stand.
ghost use Rattle.std.specs.Prelude.{◌≡◌, ◌++◌, ◌∷◌, [], IfOk};

use io_state::Name;
use std::alloc::{AllocError, Global};
use std::marker::Model;

/// The name of a paragraph, its line, and how many statements stand before it.
#[derive(Drop)]
pub struct Paragraph {
    pub name: Name,
    pub line: u64,
    pub at: usize,
}

impl Model for Paragraph {
    ghost use Rattle.deck_reader.specs.StatementPlaces.{Paragraph as Seen};

    ghost Value = { Seen };

    ghost view = { λ p. record { name = p.name.bytes; line = p.line; at = p.at } };
}

/// The line of each statement: of its verb, or, of an OPEN or CLOSE, of its file's name; and the
/// paragraphs in their order.
#[derive(Drop)]
pub struct StatementPlaces {
    lines: Vec<u64>,
    paragraphs: Vec<Paragraph>,
}

impl Model for StatementPlaces {
    ghost use Rattle.deck_reader.specs.StatementPlaces.{StatementPlaces as Seen};

    ghost Value = { Seen };

    ghost view = { λ p. record { lines = p.lines.items; paragraphs = p.paragraphs.items } };
}

impl StatementPlaces {
    /// No places, with room for so many lines.
    pub fn with_capacity(alloc: Global, capacity: usize) -> Result<Self, AllocError>
        ensures { IfOk result (λ places. places ≡ record { lines = []; paragraphs = [] }) }
    {
        Ok(StatementPlaces {
            lines: Vec::with_capacity(alloc, capacity)?,
            paragraphs: Vec::new(alloc),
        })
    }

    /// The lines of the statements, in their order.
    pub fn lines(&self) -> &[u64]
        ensures { result.now ≡ self.now.lines }
    {
        self.lines.as_slice()
    }

    /// The paragraphs, in their order.
    pub fn paragraphs(&self) -> &[Paragraph]
        ensures { result.now ≡ self.now.paragraphs }
    {
        self.paragraphs.as_slice()
    }

    /// The places, and the line of one more statement.
    pub fn with_line(self, line: u64) -> Result<Self, AllocError>
        ensures { IfOk result (λ places. places ≡ record { lines = self.lines ++ line ∷ []; paragraphs = self.paragraphs }) }
    {
        let StatementPlaces {
            mut lines,
            paragraphs,
        } = self;
        lines.push(line)?;
        Ok(StatementPlaces { lines, paragraphs })
    }

    /// The places, and one more paragraph.
    pub fn with_paragraph(self, paragraph: Paragraph) -> Result<Self, AllocError>
        ensures { IfOk result (λ places. places ≡ record { lines = self.lines; paragraphs = self.paragraphs ++ paragraph ∷ [] }) }
    {
        let StatementPlaces {
            lines,
            mut paragraphs,
        } = self;
        paragraphs.push(paragraph)?;
        Ok(StatementPlaces { lines, paragraphs })
    }
}
