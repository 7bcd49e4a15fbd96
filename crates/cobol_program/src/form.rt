//! The form of a text in COBOL.
ghost use Rattle.std.specs.Prelude.{◌≡◌};
ghost use Rattle.cobol_program.specs.Layout.{margin};

/// Free form, or fixed form: columns 8 to 72 of each line.
#[derive(Clone, Copy, Debug, PartialEq, Eq)]
pub enum SourceForm {
    Free,
    Fixed,
}

impl SourceForm {
    ghost use Rattle.std.specs.Prelude.{◌≡◌};
    ghost use Rattle.cobol_program.specs.Layout.{margin};

    /// What stands before each line.
    pub fn margin(self) -> &'static str
        ensures { result.now ≡ margin self }
    {
        match self {
            SourceForm::Free => "",
            SourceForm::Fixed => "       ",
        }
    }
}
