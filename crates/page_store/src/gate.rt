//! The gate: the first byte of a file says whether its pages can be relied on.
//!
//! | Byte 0 | Meaning |
//! |---|---|
//! | `C` | closed: the file is as its last change left it |
//! | any other | open: a change was begun and not finished |
ghost use Rattle.std.specs.Prelude.{◌≡◌, None};
ghost use Rattle.page_store.specs.DeviceFile.{IsWithin, IsThere, IsEmpty};
ghost use Rattle.page_store.specs.Gate.{GateWritten, GateFails};
ghost use Rattle.page_store.specs.ShelfCalls.{HasUnitWith, ChangesUnitFile, StartsGate, ReopensGate};

use crate::shelf::Shelf;
use io_state::Fault;

pub(crate) const CLOSED: u8 = b'C';

pub(crate) const OPEN: u8 = b'D';

/// Writes the first byte, and syncs.
pub(crate) fn write<S: Shelf>(shelf: &mut S, unit: usize, gate: u8) -> Result<(), Fault>
    requires { HasUnitWith (S.state shelf.old) unit IsThere }
    ensures { ChangesUnitFile S.state S.fault_count unit (GateWritten gate) (GateFails gate)
        shelf.old shelf.new result }
{
    shelf.write_at(unit, 0, &[gate])?;
    shelf.sync(unit)?;
    Ok(())
}

/// Makes a file with an open gate as its only byte.
pub(crate) fn start<S: Shelf>(shelf: &mut S, unit: usize) -> Result<(), Fault>
    requires { HasUnitWith (S.state shelf.old) unit (λ file. file.seen ≡ None) }
    ensures { StartsGate S.state S.fault_count unit shelf.old shelf.new result }
{
    shelf.create(unit)?;
    write(shelf, unit, OPEN)?;
    Ok(())
}

/// Gives an empty file an open gate as its only byte. It is synced before, since what was asked of
/// it until now may have left any bytes behind that one.
pub(crate) fn begin<S: Shelf>(shelf: &mut S, unit: usize) -> Result<(), Fault>
    requires { HasUnitWith (S.state shelf.old) unit IsEmpty }
    ensures { StartsGate S.state S.fault_count unit shelf.old shelf.new result }
{
    shelf.sync(unit)?;
    write(shelf, unit, OPEN)?;
    Ok(())
}

/// Opens the gate of a file with bytes. One that is open already is synced, and not written.
pub(crate) fn reopen<S: Shelf>(shelf: &mut S, unit: usize) -> Result<(), Fault>
    requires { HasUnitWith (S.state shelf.old) unit (IsWithin 1) }
    ensures { ReopensGate S.state S.fault_count unit shelf.old shelf.new result }
{
    let mut first = [0];
    shelf.read_at(unit, 0, &mut first)?;
    if first[0] == CLOSED {
        write(shelf, unit, OPEN)?;
    } else {
        shelf.sync(unit)?;
    }
    Ok(())
}
