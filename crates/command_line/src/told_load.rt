//! What is told of a load.
ghost use Rattle.std.specs.Prelude.{◌≡◌, [], string_bytes, IfOk, IfErr};
ghost use Rattle.folder_shelf.specs.Reading.{ByReads};
ghost use Rattle.folder_shelf.specs.SystemState.{file_path};
ghost use Rattle.command_line.specs.Loaded.{TellsEndOfLoad, WritesEnd};

use command_support::{CommandFault, Outcome};
use file_commands::{differences_at, path_in};
use file_control::FileDesc;
use folder_shelf::System;
use record_layout::Schema;
use record_loading::{ShelfEnd, add_answer, is_compared};
use std::alloc::Global;
use std::io::Write;

/// The most bytes of the lines that tell of a load: a line with three numbers, or two lines with a number
/// and two statuses.
const MOST_BYTES: usize = 96;

/// Writes the lines that tell of a load, for which there is room, if any do, and those of the
/// differences of the file. The load is over by then, so that no other fault is told than that of the
/// output.
fn write_answer<W: Write>(
    room: Vec<u8>,
    end: &ShelfEnd,
    differences: &[u8],
    out: &mut W,
) -> Result<Outcome, CommandFault>
    requires { room.items ≡ [] }
    ensures { WritesEnd end.now differences.now (W.contents out.old) (W.contents out.new) result }
{
    let mut answer = room;
    if let ShelfEnd::Loaded(loaded) = end {
        if add_answer(&mut answer, *loaded).is_err() {
            return Err(CommandFault::Output);
        }
        if out.write_all(&answer).is_err() {
            return Err(CommandFault::Output);
        }
    }
    if out.write_all(differences).is_err() {
        return Err(CommandFault::Output);
    }
    Ok(Outcome::Loaded(*end))
}

/// Tells how a load ended into the file of a path. Where OPEN found the file to be of another schema,
/// or a new one was wanted and it is there, a line for each difference from the schema of the deck
/// comes behind that.
pub fn tell_end<S: System, W: Write>(
    system: &mut S,
    alloc: Global,
    path: &str,
    schema: &Schema,
    room: Vec<u8>,
    end: &ShelfEnd,
    out: &mut W,
) -> Result<Outcome, CommandFault>
    requires { room.items ≡ [] }
    ensures { ByReads (TellsEndOfLoad path.now schema.now end.now (W.contents out.old) (W.contents out.new) result)
        (S.state system.old) (S.state system.new) }
{
    if !is_compared(*end) {
        return write_answer(room, end, &[], out);
    }
    match differences_at(system, alloc, path, schema) {
        Ok(differences) => write_answer(room, end, differences.as_slice(), out),
        Err(fault) => Err(fault),
    }
}

/// Room for the lines that tell of a load, and the path of the file of a folder that it is into.
pub fn room_and_path(
    alloc: Global,
    folder: &str,
    file: &FileDesc,
) -> Result<(Vec<u8>, String), CommandFault>
    ensures room { IfOk result (λ had. had.0.items ≡ []) }
    ensures path { IfOk result (λ had. string_bytes had.1 ≡ file_path folder.now file.now.file) }
    ensures fault { IfErr result (λ fault. fault ≡ CommandFault.Memory) }
{
    let room = match Vec::with_capacity(alloc, MOST_BYTES) {
        Ok(room) => room,
        Err(_) => return Err(CommandFault::Memory),
    };
    match path_in(alloc, folder, &file.file) {
        Ok(path) => Ok((room, path)),
        Err(fault) => Err(fault),
    }
}
