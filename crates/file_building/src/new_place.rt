//! Where a new file is to be.

ghost use Rattle.std.specs.Prelude.{◌≡◌, false, None, IfSome};
ghost use Rattle.io_state.specs.FileName.{is_file_name};
ghost use Rattle.file_building.specs.NewPlace.{folder_of, folder_or_here, last_part, IsNewPlaceOf};

use io_state::{FileName, file_name_of};
use std::path::Path;

/// A folder, and the name of a file in it.
#[derive(Clone, Copy)]
pub struct NewPlace<'a> {
    pub folder: &'a str,
    pub name: FileName,
}

/// A folder: the one that the program runs in, where its path is empty.
fn folder_or_here(folder: &str) -> &str
    ensures { result.now ≡ folder_or_here folder.now }
{
    if folder.is_empty() { "." } else { folder }
}

/// The folder of a path.
fn folder_of(path: &str) -> &str
    ensures { result.now ≡ folder_of path.now }
{
    match Path::new(path).parent() {
        Some(folder) => folder_or_here(folder.as_str()),
        None => ".",
    }
}

/// The last part of a path.
fn last_part(path: &str) -> &str
    ensures { result.now ≡ last_part path.now }
{
    match Path::new(path).file_name() {
        Some(name) => name,
        None => "",
    }
}

/// The folder and the name that a path tells. None where its last part is the name of no file.
pub fn place_of(path: &str) -> Option<NewPlace<'_>>
    ensures some { IfSome result (IsNewPlaceOf path.now) }
    ensures none { result ≡ None → is_file_name (last_part path.now) ≡ false }
{
    match file_name_of(last_part(path).as_bytes()) {
        Some(name) => Some(NewPlace {
            folder: folder_of(path),
            name,
        }),
        None => None,
    }
}
