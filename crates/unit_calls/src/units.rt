//! Calls on a unit of a library.

ghost use Rattle.std.specs.Prelude.{◌≡◌, ◌≤◌, true, length, OnOk, OnErr, IfOk};
ghost use Rattle.indexed_file.specs.Clients.{IsOpenWith, IsNotOpen};
ghost use Rattle.unit_calls.specs.declared.units.Told.TheVariants.{Sound};

use crate::records::{Record, key, record_of};
use indexed_file::{Added, Found, Library, Replaced, Seen};
use io_state::{Fault, Key, Position, Relation};
use record_layout::Schema;

/// What the name of a unit stands for.
#[derive(Clone, Copy, Debug, PartialEq, Eq)]
pub enum Told {
    Absent,
    Unsound,
    /// A file of the schema that was expected.
    Sound,
    /// A file of another schema.
    Other,
}

/// Looks at a unit.
pub fn looks<L: Library>(library: &mut L, u: usize, schema: &Schema) -> Result<Told, Fault>
    requires { IsNotOpen (L.shown.world library.old) u }
    ensures { IsNotOpen (L.shown.world library.new) u }
{
    Ok(match library.look(u)? {
        Seen::Absent => Told::Absent,
        Seen::Unsound => Told::Unsound,
        Seen::Sound(seen) if seen.same(schema) => Told::Sound,
        Seen::Sound(_) => Told::Other,
    })
}

/// Opens a new file.
pub fn creates<L: Library>(library: &mut L, u: usize, schema: &Schema) -> Result<(), Fault>
    requires { IsNotOpen (L.shown.world library.old) u }
    ensures opened { OnOk result (IsOpenWith (L.shown.world library.new) u schema.now) }
    ensures failed { OnErr result (IsNotOpen (L.shown.world library.new) u) }
{
    library.create(u, schema)
}

/// Opens the file of a unit, where it is sound and of this schema.
pub fn opens<L: Library>(library: &mut L, u: usize, schema: &Schema) -> Result<Told, Fault>
    requires { IsNotOpen (L.shown.world library.old) u }
    ensures opened { IfOk result
        (λ told. told ≡ Sound → IsOpenWith (L.shown.world library.new) u schema.now) }
    ensures failed { OnErr result (IsNotOpen (L.shown.world library.new) u) }
{
    match library.look(u)? {
        Seen::Absent => Ok(Told::Absent),
        Seen::Unsound => Ok(Told::Unsound),
        Seen::Sound(seen) => {
            if !seen.same(schema) {
                return Ok(Told::Other);
            }
            library.open(u)?;
            Ok(Told::Sound)
        }
    }
}

/// Shuts a unit.
pub fn shuts<L: Library>(library: &mut L, u: usize, schema: &Schema) -> Result<(), Fault>
    requires { IsOpenWith (L.shown.world library.old) u schema.now }
    ensures { IsNotOpen (L.shown.world library.new) u }
{
    library.shut(u)
}

/// Whether records of the schema can have this length.
fn has_length(schema: &Schema, bytes: usize) -> bool
    ensures { result ≡ true → (schema.now.least ≤ bytes) × (bytes ≤ schema.now.greatest) }
{
    usize::from(schema.least()) <= bytes && bytes <= usize::from(schema.greatest())
}

/// Adds a record. One of a length that the schema does not have is `Damage`.
pub fn adds<L: Library>(
    library: &mut L,
    u: usize,
    schema: &Schema,
    record: &[u8],
) -> Result<Added, Fault>
    requires { IsOpenWith (L.shown.world library.old) u schema.now }
    ensures { IsOpenWith (L.shown.world library.new) u schema.now }
{
    if !has_length(schema, record.len()) {
        return Err(Fault::Damage);
    }
    library.add(u, record)
}

/// Adds the record of these numbers, of the greatest length.
pub fn adds_numbers<L: Library>(
    library: &mut L,
    u: usize,
    schema: &Schema,
    numbers: &[u64],
) -> Result<Added, Fault>
    requires { IsOpenWith (L.shown.world library.old) u schema.now }
    ensures { IsOpenWith (L.shown.world library.new) u schema.now }
{
    let record = record_of(schema, numbers, usize::from(schema.greatest()));
    adds(library, u, schema, record.as_slice())
}

/// Replaces a record. One of a length that the schema does not have is `Damage`.
pub fn replaces<L: Library>(
    library: &mut L,
    u: usize,
    schema: &Schema,
    record: &[u8],
) -> Result<Replaced, Fault>
    requires { IsOpenWith (L.shown.world library.old) u schema.now }
    ensures { IsOpenWith (L.shown.world library.new) u schema.now }
{
    if !has_length(schema, record.len()) {
        return Err(Fault::Damage);
    }
    library.replace(u, record)
}

/// Removes the record of a prime value.
pub fn removes<L: Library>(
    library: &mut L,
    u: usize,
    schema: &Schema,
    prime: &[u8],
) -> Result<bool, Fault>
    requires { IsOpenWith (L.shown.world library.old) u schema.now }
    ensures { IsOpenWith (L.shown.world library.new) u schema.now }
{
    library.remove(u, &key(prime))
}

/// Begins to count the pages that a unit asks for.
pub fn restarts<L: Library>(library: &mut L, u: usize, schema: &Schema)
    requires { IsOpenWith (L.shown.world library.old) u schema.now }
    ensures { IsOpenWith (L.shown.world library.new) u schema.now }
{
    library.restart_count(u);
}

/// The pages that it asked for since.
pub fn asked<L: Library>(library: &L, u: usize, schema: &Schema) -> u64
    requires { IsOpenWith (L.shown.world library.now) u schema.now }
{
    library.asked(u)
}

/// What was read, and the area that it was read into, which held the letter z alone.
#[derive(Drop)]
pub struct Read {
    pub found: Option<Found>,
    pub area: Record,
}

impl Read {
    /// Whether two calls found the same record, and read it alike.
    pub fn is_same(&self, other: &Read) -> bool {
        let same = match (&self.found, &other.found) {
            (None, None) => true,
            (Some(a), Some(b)) => {
                a.key.as_slice() == b.key.as_slice()
                    && (a.stamp, a.repeated, a.length) == (b.stamp, b.repeated, b.length)
            }
            _ => false,
        };
        same && self.area.as_slice() == other.area.as_slice()
    }

    /// The position behind it.
    pub fn behind(self) -> Option<Position> {
        self.found
            .map(|found| Position::After(found.key, found.stamp))
    }

    /// Whether a later record has the value too.
    pub fn repeats(&self) -> bool {
        self.found.as_ref().is_some_and(|found| found.repeated)
    }

    /// Whether it is this record.
    pub fn has(&self, record: &[u8]) -> bool {
        match &self.found {
            Some(found) => {
                usize::from(found.length) == record.len()
                    && self.area.as_slice().starts_with(record)
            }
            None => false,
        }
    }
}

/// An area for records of so many bytes.
fn new_area(bytes: usize) -> Record
    ensures { bytes ≤ 4000 → length result.items ≡ bytes }
{
    let mut area = Record::new();
    for _ in 0..bytes.min(4000) {
        let _ = area.try_push(b'z');
    }
    area
}

/// Reads the first record with this value of a key. A key that the schema does not have is `Damage`, here and
/// below.
pub fn finds<L: Library>(
    library: &mut L,
    u: usize,
    schema: &Schema,
    k: u8,
    value: &[u8],
) -> Result<Read, Fault>
    requires { IsOpenWith (L.shown.world library.old) u schema.now }
    ensures { IsOpenWith (L.shown.world library.new) u schema.now }
{
    if usize::from(k) >= schema.key_count() {
        return Err(Fault::Damage);
    }
    let mut area = new_area(usize::from(schema.greatest()));
    let found = library.by_key(u, k, &key(value), area.as_mut_slice())?;
    Ok(Read { found, area })
}

/// Reads the first record that a position admits.
pub fn goes_on<L: Library>(
    library: &mut L,
    u: usize,
    schema: &Schema,
    k: u8,
    position: &Position,
) -> Result<Read, Fault>
    requires { IsOpenWith (L.shown.world library.old) u schema.now }
    ensures { IsOpenWith (L.shown.world library.new) u schema.now }
{
    if usize::from(k) >= schema.key_count() {
        return Err(Fault::Damage);
    }
    let mut area = new_area(usize::from(schema.greatest()));
    let found = library.next(u, k, position, area.as_mut_slice())?;
    Ok(Read { found, area })
}

/// The first value that begins so related to the operand.
pub fn seeks<L: Library>(
    library: &mut L,
    u: usize,
    schema: &Schema,
    k: u8,
    operand: &[u8],
    relation: Relation,
) -> Result<Option<Key>, Fault>
    requires { IsOpenWith (L.shown.world library.old) u schema.now }
    ensures { IsOpenWith (L.shown.world library.new) u schema.now }
{
    if usize::from(k) >= schema.key_count() {
        return Err(Fault::Damage);
    }
    library.seek(u, k, operand, relation)
}

/// The greatest prime value.
pub fn tops<L: Library>(library: &mut L, u: usize, schema: &Schema) -> Result<Option<Key>, Fault>
    requires { IsOpenWith (L.shown.world library.old) u schema.now }
    ensures { IsOpenWith (L.shown.world library.new) u schema.now }
{
    library.highest(u)
}
