//! Bytes, numbers and pages of a file.

/// The bytes of a page.
pub const PAGE: usize = 4096;

/// Whether there are so many bytes from one place on.
pub fn has(bytes: &[u8], at: usize, length: usize) -> bool {
    at.saturating_add(length) <= bytes.len()
}

/// The number in so many bytes from one place on, the first of which weighs most; 0 where they are not all
/// there.
pub fn number(bytes: &[u8], at: usize, length: usize) -> u64 {
    let end = at.saturating_add(length);
    let mut number = 0u64;
    if end <= bytes.len() {
        for i in at..end {
            number = number.wrapping_mul(256).wrapping_add(u64::from(bytes[i]));
        }
    }
    number
}

/// Whether so many bytes from one place on are there, and zero.
pub fn are_zero(bytes: &[u8], at: usize, length: usize) -> bool {
    let end = at.saturating_add(length);
    if bytes.len() < end {
        return false;
    }
    for i in at..end {
        if bytes[i] != 0 {
            return false;
        }
    }
    true
}

/// Whether so many bytes from one place on are there, and are those from another one on.
pub fn are_same(bytes: &[u8], one: usize, other: usize, length: usize) -> bool {
    let one_end = one.saturating_add(length);
    let other_end = other.saturating_add(length);
    one_end <= bytes.len()
        && other_end <= bytes.len()
        && bytes[one..one_end].cmp(&bytes[other..other_end]).is_eq()
}

/// Whether so many bytes from one place on are there, and are below those from another one on.
pub fn are_below(bytes: &[u8], one: usize, other: usize, length: usize) -> bool {
    let one_end = one.saturating_add(length);
    let other_end = other.saturating_add(length);
    one_end <= bytes.len()
        && other_end <= bytes.len()
        && bytes[one..one_end].cmp(&bytes[other..other_end]).is_lt()
}

/// Where a page begins.
pub fn page_start(n: u64) -> usize {
    (n as usize).saturating_mul(PAGE)
}

/// Takes a page for one part of the file. Each belongs to one alone.
pub fn take(taken: &mut [bool], n: u64) -> bool {
    let at = n as usize;
    if taken.len() <= at || taken[at] {
        return false;
    }
    taken[at] = true;
    true
}
