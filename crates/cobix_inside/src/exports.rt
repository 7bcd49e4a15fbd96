//! What C calls.
ghost use Rattle.std.specs.Prelude.{◌≡◌, ◌≤◌, true, [], Some, is_some, IfSome, length};
ghost use Rattle.serve.specs.LentAnswer.{lent_frame};
ghost use types.Logic.{sem};
ghost use Rattle.cobix_inside.specs.Answered.{AnswersFrame};
ghost use Rattle.cobix_inside.specs.NewLibrary.{shelf_of, shown_inside, unasked, unasked_within};
ghost use Rattle.serve.specs.ExactSession.{ExactInRequests};
ghost use Rattle.shelf_run.specs.SessionOnShelf.{ExactOnShelf};
ghost use Rattle.cobix_inside.specs.Holding.{HoldsSo};
ghost use Rattle.cobix_inside.specs.Sessions.{AreExactAtFirst, StartsAs, ClosesAll, NoneFalseAtFirst};
ghost use Rattle.cobix_inside.specs.declared.open_session.OpenSession.{OpenSession};

use crate::asked_system::AskedSystem;
use crate::handle::Handle;
use crate::library::{AskedLibrary, AskedShelf, asked_library};
use crate::library_limits::LibraryLimits;
use crate::open_session::OpenSession;
use folder_shelf::{Disk, EmptyDisk};
use indexed_file::GrowingLibrary;
use page_store::Shelf;
use serve::{
    FreePlaces, LentAnswer, Session, answer_lent, close_all, exact_in_requests,
    no_false_file_in_requests,
};
use shelf_run::exact_on_shelf;
use std::alloc::Global;
use std::io::{Stdin, Stdout};

// A session in memory of its own. None where that was refused.
fn boxed(alloc: Global, session: Session<AskedLibrary>) -> Option<Box<OpenSession>>
    ensures { IfSome result (λ made. made.value.session ≡ session) }
{
    Box::new(alloc, OpenSession { session }).ok()
}

// A session in which no file is described. None where the path is no text, or memory was refused.
fn session(
    alloc: Global,
    system: AskedSystem,
    folder: &[u8],
    limits: LibraryLimits,
) -> Option<Box<OpenSession>>
    ensures { IfSome result (λ made. StartsAs
        (unasked_within (⟦<EmptyDisk as Disk>⟧).unseen folder.now limits) made.value) }
{
    let folder = std::str::from_utf8(folder).ok()?;
    let folder = folder.to_string(alloc).ok()?;
    let places = FreePlaces::new(alloc).ok()?;
    let library: AskedLibrary = asked_library(alloc, system, folder, limits);
    boxed(alloc, Session::new(alloc, library, places))
}

/// Makes a session over the folder of this path, in which no file is described. A file may have so
/// many pages at most, and so many of them are held in memory. Whether it was made: not where the
/// path is no UTF-8, there are fewer than 16 pages or no frame, or memory was refused.
#[unsafe(no_mangle)]
pub extern "C" fn cobix_inside_begin(
    alloc: Global,
    input: Stdin,
    output: Stdout,
    folder: &[u8],
    pages: u32,
    frames: usize,
    out: &mut Handle,
) -> bool
    ensures held { result ≡ true → is_some out.new.value ≡ true }
    ensures made { (new : OpenSession) → result ≡ true → out.new.value ≡ Some new
        → StartsAs (unasked (⟦<EmptyDisk as Disk>⟧).unseen folder.now pages frames) new }
{
    let Some(limits) = LibraryLimits::of(pages, frames) else {
        return false;
    };
    match session(alloc, AskedSystem::new(input, output), folder, limits) {
        Some(session) => {
            *out = Handle::of(session);
            true
        }
        None => false,
    }
}

/// What `cobix_inside_answer` says, with what it was told of the head and of the record.
fn answered<'s>(
    handle: &'s mut Handle,
    body: &[u8],
    room: &mut [u8],
    delivered: &mut &'s [u8],
) -> LentAnswer<'s>
    requires held { is_some handle.old.value ≡ true }
    requires room { 5 ≤ length room.old }
    ensures* answered { sem 𝓛 (HoldsSo handle.entry (AnswersFrame
        (lent_frame body.now room.old room.new result.size delivered.new.now))) }
{
    let held = handle.lend();
    let answer = answer_lent(&mut held.session, body, room);
    *delivered = answer.delivered;
    answer
}

/// Does what the body of a frame asks for, and puts the head of the answer's frame into the room: all
/// but the record. How many bytes it has. The record that was delivered, of no bytes where none was, is
/// lent: it lies in the session, as it is, until the handle is used again.
#[unsafe(no_mangle)]
pub extern "C" fn cobix_inside_answer<'s>(
    handle: &'s mut Handle,
    body: &[u8],
    room: &mut [u8],
    delivered: &mut &'s [u8],
) -> usize
    requires held { is_some handle.old.value ≡ true }
    requires room { 5 ≤ length room.old }
    ensures* answered { sem 𝓛 (HoldsSo handle.entry (AnswersFrame
        (lent_frame body.now room.old room.new result delivered.new.now))) }
{
    answered(handle, body, room, delivered).size
}

// Gives the memory of a session back.
fn give_up(held: Box<OpenSession>)
    requires closed { held.value.session.table.opened ≡ [] }
{
    drop(held);
}

/// Closes the files that are open, in the order of opening, and ends the session. How many of the
/// closes failed: were answered another status than 00. Its handle is not to be used again.
#[unsafe(no_mangle)]
pub extern "C" fn cobix_inside_end(handle: Handle) -> usize
    requires held { is_some handle.value ≡ true }
    ensures closed { (old : OpenSession) → handle.value ≡ Some old
        → ClosesAll (shown_inside ⟦<AskedShelf as Shelf>⟧)
        old.session result }
{
    let mut held = handle.into_box();
    let unclosed = close_all(&mut held.session);
    give_up(held);
    unclosed
}

/// What a session begins with: before its first request it has had no false file. It does nothing.
pub fn no_false_file_at_first()
    ensures { NoneFalseAtFirst (shown_inside ⟦<AskedShelf as Shelf>⟧)
        (⟦<AskedLibrary as GrowingLibrary>⟧).keeps_open }
{
    no_false_file_in_requests::<AskedLibrary>();
}

/// What a session begins with, and what becomes of it: before its first request it is exact, over what
/// the folder of its path held; behind each answer it is so still; and where no answer has told of a
/// fault, the files of the folder represent what the definitions leave. It does nothing.
pub fn exact_from_first()
    ensures begun { AreExactAtFirst (⟦<AskedLibrary as GrowingLibrary>⟧).keeps_open
        (⟦<EmptyDisk as Disk>⟧).unseen }
    ensures requests { ExactInRequests
        (shown_inside ⟦<AskedShelf as Shelf>⟧)
        (⟦<AskedLibrary as GrowingLibrary>⟧).keeps_open }
    ensures files { ExactOnShelf
        (shown_inside ⟦<AskedShelf as Shelf>⟧)
        (⟦<AskedLibrary as GrowingLibrary>⟧).keeps_open (shelf_of ⟦<AskedShelf as Shelf>⟧) }
{
    exact_in_requests::<AskedLibrary>();
    exact_on_shelf::<AskedShelf>();
}
