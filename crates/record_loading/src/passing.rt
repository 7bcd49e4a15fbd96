//! Lines of a text are passed over.
ghost use Rattle.std.specs.Prelude.{◌≡◌, ◌≤◌, ◌++◌, ℕ, List, length};
ghost use Rattle.record_loading.specs.Passing.{behind_line, behind_lines};

/// The text behind its first line, which ends with LF or with the text.
pub fn behind_line(text: &[u8]) -> &[u8]
    ensures { result.now ≡ behind_line text.now }
{
    let mut rest = text;
    'more: while let Some((byte, behind)) = rest.split_first() {
        rest = behind;
        if *byte == b'\n' {
            return rest;
        }
    }
    rest
}

/// The text behind so many lines, or behind all that it has.
pub fn behind_lines(text: &[u8], count: u64) -> &[u8]
    ensures { result.now ≡ behind_lines count text.now }
{
    let mut rest = text;
    let mut left = count;
    'more: while left > 0 && !rest.is_empty() {
        rest = behind_line(rest);
        left -= 1;
    }
    rest
}

/// The first bytes of a text, up to what is behind them.
pub fn front_of<'a>(text: &'a [u8], behind: &[u8]) -> &'a [u8]
    requires { length behind.now ≤ length text.now }
    ensures { (front : List ℕ) → text.now ≡ front ++ behind.now → result.now ≡ front }
{
    &text[..text.len() - behind.len()]
}
