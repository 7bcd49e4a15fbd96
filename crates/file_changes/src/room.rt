//! The pages and stamps that a change needs.

ghost use Rattle.std.specs.Prelude.{◌≡◌, ◌^◌, ◌||◌, nat_lt, nat_le};
ghost use Rattle.indexed_file.specs.Room.{need_of_add};
ghost use Rattle.open_file.specs.Stands.{heights_of};
ghost use Rattle.open_file.specs.Fields.{next_stamp_of};

use open_file::OpenFile;

/// How many pages a new record may take.
fn need_to_add(opened: &OpenFile) -> u64
    ensures { result ≡ need_of_add (heights_of opened.now) }
{
    let mut need = 1 + (u64::from(opened.prime_height()) + 1);
    for index in opened.alternates() {
        need += u64::from(index.height()) + 1;
    }
    need
}

/// Whether a record cannot be added for want of pages or stamps.
pub(crate) fn is_full(opened: &OpenFile, left: u64) -> bool
    ensures { result ≡ (nat_lt left (need_of_add (heights_of opened.now))
        || nat_le (2 ^ 63) (next_stamp_of opened.now)) }
{
    left < need_to_add(opened) || opened.next_stamp() >= 1 << 63
}
