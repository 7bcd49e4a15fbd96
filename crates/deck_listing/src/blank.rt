//! Bytes that are left out of a deck, and words that are put there.

/// Leaves bytes out: each becomes a space, and line feeds stay, so that no line moves.
pub fn blank(bytes: &mut [u8], start: usize, end: usize) {
    if let Some(part) = bytes.get_mut(start..end) {
        for byte in part.iter_mut() {
            if *byte != b'\n' {
                *byte = b' ';
            }
        }
    }
}

/// Whether a text of this length can stand at a place, in one line, with white space behind it or a
/// period.
fn has_room(bytes: &[u8], at: usize, length: usize, end: usize) -> bool {
    let behind = at.saturating_add(length);
    let is_before_period = bytes.get(end) == Some(&b'.');
    let is_short = behind < end || (behind == end && is_before_period);
    match bytes.get(at..behind) {
        Some(part) => is_short && !part.contains(&b'\n'),
        None => false,
    }
}

/// Puts a text somewhere among bytes that are left out, behind the first of them. Answers whether
/// there is room for it.
pub fn put(bytes: &mut [u8], start: usize, end: usize, text: &[u8]) -> bool {
    for at in start.saturating_add(1)..end {
        if has_room(bytes, at, text.len(), end) {
            if let Some(part) = bytes.get_mut(at..at.saturating_add(text.len())) {
                for (byte, own) in part.iter_mut().zip(text.iter()) {
                    *byte = *own;
                }
            }
            return true;
        }
    }
    false
}
