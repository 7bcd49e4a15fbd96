//! The verbs as a transcript and a listing write them.
ghost use Rattle.std.specs.Prelude.{◌≡◌, ◌≤◌, length};
ghost use Rattle.deck_reader.specs.VerbText.{verb_text};

use io_state::{FileStatement, OpenMode};

/// A verb as it is written.
pub fn verb_text(statement: &FileStatement) -> &'static str
    ensures text { result.now ≡ verb_text statement.now }
    ensures short { length result.now ≤ 11 }
{
    match statement {
        FileStatement::Open(OpenMode::Input) => "OPEN INPUT",
        FileStatement::Open(OpenMode::Output) => "OPEN OUTPUT",
        FileStatement::Open(OpenMode::InputOutput) => "OPEN I-O",
        FileStatement::Open(OpenMode::Extend) => "OPEN EXTEND",
        FileStatement::Close { lock: _ } => "CLOSE",
        FileStatement::ReadNext => "READ NEXT",
        FileStatement::Read { key: _ } => "READ",
        FileStatement::Start {
            key: _,
            length: _,
            relation: _,
        } => "START",
        FileStatement::Write => "WRITE",
        FileStatement::Rewrite => "REWRITE",
        FileStatement::Delete => "DELETE",
    }
}
