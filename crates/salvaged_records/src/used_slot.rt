//! A slot in use.
ghost use Rattle.std.specs.Prelude.{◌≤◌, length};

/// A slot in use: the number of its page, its own number in that page, and its record.
#[derive(Clone, Copy, Debug)]
pub struct UsedSlot<'a> {
    pub page: usize,
    pub slot: u16,
    pub bytes: &'a [u8],
    ghost short: { length bytes.now ≤ 4077 },
}
