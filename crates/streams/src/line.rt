//! Bytes that are written, cut into lines.
ghost use Rattle.std.specs.Prelude.{◌≡◌, ◌≤◌, ◌<◌, ◌++◌, ◌∷◌, MatchOption, length, take, get_or};
ghost use Rattle.streams.specs.LinesIn.{IsWithinLine};

/// How many bytes stand before the first LF, or all.
fn line_length(bytes: &[u8]) -> usize
    ensures within { result ≤ length bytes.now }
    ensures line { IsWithinLine (take result bytes.now) }
    ensures end { result < length bytes.now → get_or bytes.now result 0 ≡ 10 }
{
    let mut at = 0;
    'more: while at < bytes.len() && bytes[at] != b'\n' {
        at += 1;
    }
    at
}

/// The first line, without its LF, and what follows it; nothing where no LF stands in the bytes.
pub(crate) fn split_line(bytes: &[u8]) -> Option<(&[u8], &[u8])>
    ensures { MatchOption result (IsWithinLine bytes.now) (λ parts.
        (bytes.now ≡ parts.0.now ++ 10 ∷ parts.1.now) × IsWithinLine parts.0.now) }
{
    let at = line_length(bytes);
    if at == bytes.len() {
        return None;
    }
    let (line, after) = bytes.split_at(at);
    Some((line, &after[1..]))
}
