//! The name of a column, in JSON.
ghost use Rattle.std.specs.Prelude.{◌≡◌, IfSome, None};
ghost use Rattle.record_text.specs.Quoted.{behind_label, LacksFront};
ghost use Rattle.record_text.specs.Part.{inside_text};
ghost use Rattle.record_text.specs.declared.quoted.Quoting.TheVariants.{Escaped};

use crate::passed::passed;
use crate::quoted::{Quoting, first_quoted};
use io_state::Name;

/// What is behind these bytes as they stand in quotes. None where the text does not begin with them.
fn passed_bytes<'a>(text: &'a [u8], bytes: &[u8]) -> Option<&'a [u8]>
    ensures some { IfSome result (λ behind. text.now ≡ inside_text Escaped bytes.now behind.now) }
    ensures none { result ≡ None → LacksFront (inside_text Escaped bytes.now) text.now }
{
    let mut rest = text;
    let mut left = bytes;
    'more: while let Some((byte, after)) = left.split_first() {
        let first = first_quoted(Quoting::Escaped, rest)?;
        if first.byte != *byte {
            return None;
        }
        let (_, behind) = rest.split_at(first.size);
        rest = behind;
        left = after;
    }
    Some(rest)
}

/// What is behind the name of a column in quotes, and a colon.
fn passed_name<'a>(text: &'a [u8], name: &Name) -> Option<&'a [u8]>
    ensures some { IfSome result (λ behind. text.now ≡ behind_label Escaped name.now.bytes behind.now) }
    ensures none { result ≡ None → LacksFront (behind_label Escaped name.now.bytes) text.now }
{
    let opened = passed(text, b'"')?;
    let named = passed_bytes(opened, name.as_str().as_bytes())?;
    let closed = passed(named, b'"')?;
    passed(closed, b':')
}

/// What is behind the name of a column, which CSV does not have in a record's line.
pub fn passed_label<'a>(quoting: Quoting, text: &'a [u8], name: &Name) -> Option<&'a [u8]>
    ensures some { IfSome result (λ behind. text.now ≡ behind_label quoting name.now.bytes behind.now) }
    ensures none { result ≡ None → LacksFront (behind_label quoting name.now.bytes) text.now }
{
    match quoting {
        Quoting::Doubled => Some(text),
        Quoting::Escaped => passed_name(text, name),
    }
}
