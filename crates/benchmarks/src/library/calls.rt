//! One call of a library on its first unit, with the pages that it asked for.

ghost use Rattle.indexed_file.specs.Clients.{IsOpenWith};

use indexed_file::{Added, Library, Replaced};
use io_state::{Fault, Key, Position};
use record_layout::Schema;

/// What calls asked for.
#[derive(Clone, Copy)]
pub struct Tally {
    pub calls: u64,
    pub asked: u64,
    /// By the call that asked for most.
    pub most: u64,
}

impl Tally {
    pub fn new() -> Tally {
        Tally {
            calls: 0,
            asked: 0,
            most: 0,
        }
    }

    fn note(&mut self, asked: u64) {
        self.calls = self.calls.wrapping_add(1);
        self.asked = self.asked.wrapping_add(asked);
        self.most = self.most.max(asked);
    }
}

/// Adds a record.
pub fn adds<L: Library>(
    library: &mut L,
    schema: &Schema,
    record: &[u8; 100],
    tally: &mut Tally,
) -> Result<(), Fault>
    requires { IsOpenWith (L.shown.world library.old) 0 schema.now }
    ensures { IsOpenWith (L.shown.world library.new) 0 schema.now }
{
    if schema.least() > 100 || schema.greatest() != 100 {
        return Err(Fault::Damage);
    }
    library.restart_count(0);
    let added = library.add(0, record)?;
    tally.note(library.asked(0));
    match added {
        Added::Done { .. } => Ok(()),
        Added::Clash => Err(Fault::Damage),
    }
}

/// Replaces the record of its number.
pub fn replaces<L: Library>(
    library: &mut L,
    schema: &Schema,
    record: &[u8; 100],
    tally: &mut Tally,
) -> Result<(), Fault>
    requires { IsOpenWith (L.shown.world library.old) 0 schema.now }
    ensures { IsOpenWith (L.shown.world library.new) 0 schema.now }
{
    if schema.least() > 100 || schema.greatest() != 100 {
        return Err(Fault::Damage);
    }
    library.restart_count(0);
    let replaced = library.replace(0, record)?;
    tally.note(library.asked(0));
    match replaced {
        Replaced::Done { .. } => Ok(()),
        _ => Err(Fault::Damage),
    }
}

/// Removes the record of a number.
pub fn removes<L: Library>(
    library: &mut L,
    schema: &Schema,
    number: &Key,
    tally: &mut Tally,
) -> Result<(), Fault>
    requires { IsOpenWith (L.shown.world library.old) 0 schema.now }
    ensures { IsOpenWith (L.shown.world library.new) 0 schema.now }
{
    library.restart_count(0);
    let found = library.remove(0, number)?;
    tally.note(library.asked(0));
    if found { Ok(()) } else { Err(Fault::Damage) }
}

/// Reads the first record with a value of key k.
pub fn reads<L: Library>(
    library: &mut L,
    schema: &Schema,
    k: u8,
    value: &Key,
    tally: &mut Tally,
) -> Result<(), Fault>
    requires { IsOpenWith (L.shown.world library.old) 0 schema.now }
    ensures { IsOpenWith (L.shown.world library.new) 0 schema.now }
{
    if usize::from(k) >= schema.key_count() || schema.greatest() != 100 {
        return Err(Fault::Damage);
    }
    let mut area = [b' '; 100];
    library.restart_count(0);
    let found = library.by_key(0, k, value, &mut area)?;
    tally.note(library.asked(0));
    if found.is_some() {
        Ok(())
    } else {
        Err(Fault::Damage)
    }
}

/// Reads the record that a position admits by key k, and answers the position behind it.
pub fn goes_on<L: Library>(
    library: &mut L,
    schema: &Schema,
    k: u8,
    position: &Position,
    tally: &mut Tally,
) -> Result<Position, Fault>
    requires { IsOpenWith (L.shown.world library.old) 0 schema.now }
    ensures { IsOpenWith (L.shown.world library.new) 0 schema.now }
{
    if usize::from(k) >= schema.key_count() || schema.greatest() != 100 {
        return Err(Fault::Damage);
    }
    let mut area = [b' '; 100];
    library.restart_count(0);
    let found = library.next(0, k, position, &mut area)?;
    tally.note(library.asked(0));
    match found {
        Some(found) => Ok(Position::After(found.key, found.stamp)),
        None => Err(Fault::Damage),
    }
}
