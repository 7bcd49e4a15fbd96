//! What is printed of a page and a `Vec` with the same entries.

ghost use Rattle.std.specs.Prelude.{◌≡◌, ◌≤◌};

use super::entries::mixed_entries;
use super::measure::{Timed, measure};
use super::page_leaf::PageLeaf;
use super::vec_leaf::VecLeaf;
use std::alloc::Global;
use std::io;
use std::time::Clock;
use tree_node::NodeShape;

/// How many entries are looked up and put in by each round.
const ENTRIES: usize = 4096;

/// Asks a page and a `Vec` the same by turns, and prints what they answer, and where a number of
/// steps is given, how fast each is in its fastest round.
pub fn compare<const WIDTH: usize, const ENTRY: usize>(
    rt: &(impl Print + Clock),
    alloc: Global,
    shape: NodeShape,
    steps: Option<u64>,
) -> io::Result<()>
    requires number { 8 ≤ WIDTH }
    requires key { WIDTH ≤ ENTRY }
    requires size { shape.entry ≡ ENTRY }
{
    let room = shape.leaf_room();
    let entries = mixed_entries::<WIDTH, ENTRY>(alloc, ENTRIES)?;
    let mut page = PageLeaf::<ENTRY>::new(shape);
    let mut vec = VecLeaf::<WIDTH, ENTRY>::new(alloc, room)?;
    let mut of_page = measure::<WIDTH, ENTRY, _>(rt, &mut page, &entries, room)?;
    let mut of_vec = measure::<WIDTH, ENTRY, _>(rt, &mut vec, &entries, room)?;
    for _ in 0..steps.unwrap_or(0) / ENTRIES as u64 {
        let again = measure::<WIDTH, ENTRY, _>(rt, &mut page, &entries, room)?;
        of_page = of_page.or_faster(again);
        let again = measure::<WIDTH, ENTRY, _>(rt, &mut vec, &entries, room)?;
        of_vec = of_vec.or_faster(again);
    }
    let timed = steps.is_some();
    println!(rt; "{room} entries with keys of {WIDTH} bytes")?;
    print_step(rt, "look-ups", of_page.look_ups, of_vec.look_ups, timed)?;
    print_step(rt, "inserts", of_page.inserts, of_vec.inserts, timed)
}

/// Prints the sums of the places, and where they are timed, how many steps a second each does, and
/// how many the page does in the time of one of the `Vec`'s.
fn print_step(rt: &impl Print, name: &str, page: Timed, vec: Timed, timed: bool) -> io::Result<()> {
    println!(rt;
        "  {name}: places {} in the page, {} in the Vec",
        page.places, vec.places
    )?;
    if !timed {
        return Ok(());
    }
    let ratio = u128::from(vec.nanoseconds) * 100 / u128::from(page.nanoseconds.max(1));
    println!(rt;
        "  {name} a second: {} in the page, {} in the Vec, ratio {}.{:02}",
        per_second(page),
        per_second(vec),
        ratio / 100,
        ratio % 100
    )
}

fn per_second(round: Timed) -> u64 {
    ENTRIES as u64 * 1_000_000_000 / round.nanoseconds.max(1)
}
