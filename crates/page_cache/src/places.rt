//! The places of frames, as rows of numbers and marks.
ghost use Rattle.std.specs.Prelude.{◌≡◌, ◌+◌, ◌<◌, ◌∷◌, [], ◌++◌, ◌≤◌, length, vec_capacity, vec_len};
ghost use Rattle.page_cache.specs.Places.{IsSeatOf};

/// The place of page `n`, by a look at each.
#[inline(never)]
pub(crate) fn search(numbers: &[u32], n: u32) -> Option<usize>
    ensures { IsSeatOf n numbers.now result }
{
    for (place, &number) in numbers.iter().enumerate() {
        if number == n {
            return Some(place);
        }
    }
    None
}

/// The next place, from this one on and around, whose page was not used since the last call that went
/// by it. It takes the marks of the places that it goes by; where all have one, it ends where it
/// began.
pub(crate) fn next_unused(used: &mut [bool], from: usize) -> usize
    requires { from < length used.old }
    ensures place { result < length used.old }
    ensures marks { length used.new ≡ length used.old }
{
    let mut place = from;
    for _ in 0..used.len() {
        if !used[place] {
            return place;
        }
        used[place] = false;
        place = if place + 1 < used.len() { place + 1 } else { 0 };
    }
    place
}

/// Adds an item, for which there is room.
pub(crate) fn add<T: Drop>(items: &mut Vec<T>, item: T)
    requires { vec_len items.old < vec_capacity items.old }
    ensures items { items.new.items ≡ items.old.items ++ item ∷ [] }
    ensures room { vec_capacity items.old ≤ vec_capacity items.new }
{
    if items.push(item).is_err() {
        unreachable!()
    }
}
