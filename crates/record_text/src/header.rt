//! What stands before the first record of a text.
ghost use Rattle.std.specs.Prelude.{◌≡◌, ◌++◌, MatchOption};
ghost use Rattle.record_text.specs.Header.{header_lines};
ghost use Rattle.record_text.specs.Quoted.{LacksStart};

use crate::form::Form;

/// How many lines stand before the first record.
pub fn header_lines(form: &Form) -> u64
    ensures { result ≡ header_lines form.now }
{
    match form {
        Form::Csv(_) => 1,
        Form::Text | Form::Json(_) => 0,
    }
}

/// The text behind what stands before the first record. None where it does not begin with that.
pub fn behind_header<'a>(text: &'a [u8], header: &[u8]) -> Option<&'a [u8]>
    ensures { MatchOption result (LacksStart header.now text.now)
        (λ rest. text.now ≡ header.now ++ rest.now) }
{
    text.strip_prefix(header)
}
