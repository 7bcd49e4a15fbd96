//! The calls that are measured together.

ghost use Rattle.indexed_file.specs.Clients.{IsOpenWith};

use super::calls::{Tally, adds, goes_on, reads, removes, replaces};
use super::records::{GROUP, NUMBER, OTHER, Records};
use indexed_file::Library;
use io_state::{Fault, Key, Position};
use record_layout::Schema;

/// Calls of one kind.
#[derive(Clone, Copy)]
pub enum Work {
    /// Every record is added, in mixed order, to a new file.
    Add,
    /// Records are read by a value of a key, in mixed order.
    Read(u8),
    /// Every record is read, one after another, by a key.
    Next(u8),
    /// Records get another group, in mixed order.
    Replace,
    /// Half of the records are removed, in mixed order.
    Remove,
}

/// In this order.
pub const ALL: [(Work, &str); 8] = [
    (Work::Add, "add"),
    (Work::Read(NUMBER), "read by number"),
    (Work::Read(OTHER), "read by other number"),
    (Work::Read(GROUP), "read by group"),
    (Work::Next(NUMBER), "next by number"),
    (Work::Next(GROUP), "next by group"),
    (Work::Replace, "replace"),
    (Work::Remove, "remove"),
];

/// The call of a turn. READ NEXT goes on from the position.
fn call<L: Library>(
    library: &mut L,
    schema: &Schema,
    records: &Records,
    work: Work,
    turn: u32,
    position: &mut Position,
    tally: &mut Tally,
) -> Result<(), Fault>
    requires { IsOpenWith (L.shown.world library.old) 0 schema.now }
    ensures { IsOpenWith (L.shown.world library.new) 0 schema.now }
{
    let place = records.mixed_place(turn);
    match work {
        Work::Add => adds(library, schema, &records.record(turn, 0), tally),
        Work::Read(k) => reads(library, schema, k, &records.value(place, k), tally),
        Work::Next(k) => {
            *position = goes_on(library, schema, k, position, tally)?;
            Ok(())
        }
        Work::Replace => replaces(library, schema, &records.record(place, 3), tally),
        Work::Remove => removes(library, schema, &records.value(place, NUMBER), tally),
    }
}

/// Makes the calls on an open file.
pub fn perform<L: Library>(
    library: &mut L,
    schema: &Schema,
    records: &Records,
    work: Work,
) -> Result<Tally, Fault>
    requires { IsOpenWith (L.shown.world library.old) 0 schema.now }
    ensures { IsOpenWith (L.shown.world library.new) 0 schema.now }
{
    let turns = match work {
        Work::Remove => records.count / 2,
        _ => records.count,
    };
    let mut tally = Tally::new();
    let mut position = Position::From(Key::new());
    for turn in 0..turns {
        call(
            library,
            schema,
            records,
            work,
            turn,
            &mut position,
            &mut tally,
        )?;
    }
    Ok(tally)
}
