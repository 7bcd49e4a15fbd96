//! Characters that have to stand at the front of a text are passed by.
ghost use Rattle.std.specs.Prelude.{◌≡◌, ◌∷◌, IfSome, None};
ghost use Rattle.record_text.specs.Quoted.{behind_comma, LacksFront};

/// What is behind this character. None where the text does not begin with it.
pub fn passed(text: &[u8], byte: u8) -> Option<&[u8]>
    ensures some { IfSome result (λ behind. text.now ≡ byte ∷ behind.now) }
    ensures none { result ≡ None → LacksFront (λ behind. byte ∷ behind) text.now }
{
    if text.is_empty() || text[0] != byte {
        return None;
    }
    Some(&text[1..])
}

/// What is behind the comma before a column, which the first one does not have.
pub fn passed_comma(is_first: bool, text: &[u8]) -> Option<&[u8]>
    ensures some { IfSome result (λ behind. text.now ≡ behind_comma is_first behind.now) }
    ensures none { result ≡ None → LacksFront (behind_comma is_first) text.now }
{
    if is_first {
        Some(text)
    } else {
        passed(text, b',')
    }
}
