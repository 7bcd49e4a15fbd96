//! The text of a load, in an encoding.
ghost use Rattle.folder_shelf.specs.Reading.{ByReads};
ghost use Rattle.command_line.specs.Encoding.{AreBackslashesOf};
ghost use Rattle.command_line.specs.LoadForm.{ReadsEncoded, form_word};

use crate::encoding::Encoding;
use crate::load_form::FormKind;
use command_support::{CommandFault, read_text};
use folder_shelf::System;
use std::alloc::Global;
use std::io::Read;
use streams::{Backslashes, in_ascii};

/// How many backslashes begin an escape in a form.
fn backslashes_by(form: FormKind) -> Backslashes
    ensures { AreBackslashesOf (form_word form) result }
{
    match form {
        FormKind::Text | FormKind::Csv => Backslashes::One,
        FormKind::Json => Backslashes::Two,
    }
}

/// The text of a load as a list in ASCII has it, and as it was given, where that is another one.
#[derive(Drop)]
pub struct LoadText {
    pub list: Vec<u8>,
    pub given: Vec<u8>,
}

/// The text that a word names as a list in ASCII has it: that of the file of a path, or of the input
/// where the word is a hyphen, which is in an encoding.
pub fn read_encoded<S: System, I: Read>(
    system: &mut S,
    alloc: Global,
    encoding: Encoding,
    form: FormKind,
    path: &str,
    input: &mut I,
) -> Result<LoadText, CommandFault>
    ensures { ByReads (ReadsEncoded (I.remaining input.old) path.now encoding form result)
        (S.state system.old) (S.state system.new) }
{
    let text = match read_text(system, alloc, path, input) {
        Ok(text) => text,
        Err(fault) => return Err(fault),
    };
    match encoding {
        Encoding::Ascii => Ok(LoadText {
            list: text,
            given: Vec::new(alloc),
        }),
        Encoding::Utf8 => match in_ascii(alloc, backslashes_by(form), text.as_slice()) {
            Ok(list) => Ok(LoadText { list, given: text }),
            Err(_) => Err(CommandFault::Memory),
        },
    }
}
