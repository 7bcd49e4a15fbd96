//! Words that are spelled nearly alike.

/// How many bytes at the front are the same.
fn same_front(a: &[u8], b: &[u8]) -> usize {
    a.iter()
        .zip(b.iter())
        .take_while(|pair| pair.0.eq_ignore_ascii_case(pair.1))
        .count()
}

/// How many bytes at the end are the same.
fn same_end(a: &[u8], b: &[u8]) -> usize {
    a.iter()
        .rev()
        .zip(b.iter().rev())
        .take_while(|pair| pair.0.eq_ignore_ascii_case(pair.1))
        .count()
}

/// Whether two different words may be one word, misspelt.
pub fn is_near(a: &[u8], b: &[u8]) -> bool {
    let same = same_front(a, b).saturating_add(same_end(a, b));
    let left = a.len().max(b.len()).saturating_sub(same);
    left <= 2 && same >= 3 && !a.eq_ignore_ascii_case(b)
}
