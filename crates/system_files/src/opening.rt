//! Files opened by their names, and locked.
ghost use Rattle.std.specs.Prelude.{◌≡◌, OnOk};
ghost use Rattle.system_files.specs.Held.{IsOpenFolder};

use crate::calls::{again, measure, require_file};
use crate::cause::Cause;
use crate::folder_lock::share_folder;
use crate::kept_file::KeptFile;
use crate::kept_folder::KeptFolder;
use crate::lock_wait::{LockWait, in_time};
use crate::locks::{LockFile, share};
use std::fs::{self, OpenFile, OpenOptions};
use std::io::ErrorKind;
use std::os::unix::fs::FileExt;
use std::rt::{Clock, Files};

/// The seconds for which the lock of a file that was just made is tried.
const TO_LOCK: u32 = 2;

/// Makes a file that is not there, and has it alone. It is not made where the folder cannot be
/// had. The folder is locked until the file is. Where another run made the file first, it is not
/// made by this one.
///
/// The lock of the new file is tried for two seconds: no run that opens it by its name has it by
/// then, and one that reads it by a link to it has it for a moment. Where it is refused, as long as
/// another program has it, or where the run is killed before it, an empty file is left. OPEN answers
/// 91 to it, and OPEN OUTPUT makes it anew.
pub fn make<R: Files + Clock>(
    rt: &R,
    wait: LockWait,
    path: &str,
    folder: &mut KeptFolder<R::File>,
) -> Result<KeptFile<R::File>, Cause>
where
    R::File: FileExt + LockFile,
    ensures folder { OnOk result (IsOpenFolder folder.new) }
    ensures path { folder.new.path ≡ folder.old.path }
{
    folder.reach(rt)?;
    folder.claim(rt);
    let made = make_locked(rt, wait, path);
    folder.release();
    made
}

// Makes the file in a folder that is locked.
fn make_locked<R: Files + Clock>(
    rt: &R,
    wait: LockWait,
    path: &str,
) -> Result<KeptFile<R::File>, Cause>
where
    R::File: FileExt + LockFile,
{
    match open_path(rt, path, true, true) {
        Ok(file) => KeptFile::made(rt, wait.or_seconds(TO_LOCK), file),
        Err(Cause::Other(ErrorKind::AlreadyExists)) => Err(Cause::InUse),
        Err(cause) => Err(cause),
    }
}

/// Opens what is a file by its own name, and no link, for as long as no other run changes it. Where
/// the system refuses writing it is opened for reading. At each try for its lock it is opened anew,
/// so that it has its name when the lock is had.
pub fn open<R: Files + Clock>(
    rt: &R,
    wait: LockWait,
    path: &str,
) -> Result<KeptFile<R::File>, Cause>
where
    R::File: FileExt + LockFile,
{
    in_time(rt, wait, || open_once(rt, path))
}

// An empty file may be one that another run makes. So it is opened anew once nobody makes one.
fn open_once<R: Files + Clock>(rt: &R, path: &str) -> Result<KeptFile<R::File>, Cause>
where
    R::File: FileExt + LockFile,
{
    let (file, only_read) = open_named(rt, path)?;
    if measure(&file)? > 0 {
        return KeptFile::opened(file, only_read);
    }
    let _folder = share_folder(rt, path)?;
    let (file, only_read) = open_named(rt, path)?;
    KeptFile::opened(file, only_read)
}

// Opens the file, and tells why it was opened for reading alone.
fn open_named<R: Files>(rt: &R, path: &str) -> Result<(R::File, Option<Cause>), Cause>
where
    R::File: LockFile,
{
    let named = again(|| fs::symlink_metadata(rt, path))?;
    require_file(&named)?;
    let (file, only_read) = match open_path(rt, path, true, false) {
        Ok(file) => (file, None),
        Err(cause) if cause.refuses_writing() => {
            (open_path(rt, path, false, false)?, Some(cause))
        }
        Err(cause) => return Err(cause),
    };
    // Another file or a link may have taken the name since.
    if !again(|| file.is_named(rt, path))? {
        return Err(Cause::Replaced);
    }
    Ok((file, only_read))
}

/// Opens the file of a path, or the one to which a link there leads, to be read. It is looked at
/// before, since the opening of a pipe waits for whoever writes into it, and once more when it is
/// open: a folder, a pipe, a device or a socket is no file.
pub fn open_to_read<R: Files>(rt: &R, path: &str) -> Result<R::File, Cause> {
    let (file, _length) = open_measured(rt, path)?;
    Ok(file)
}

// The same, with the number of its bytes.
fn open_measured<R: Files>(rt: &R, path: &str) -> Result<(R::File, u64), Cause> {
    let found = again(|| fs::metadata(rt, path))?;
    require_file(&found)?;
    let file = again(|| fs::open(rt, path))?;
    let opened = again(|| file.metadata())?;
    require_file(&opened)?;
    Ok((file, opened.len()))
}

/// The same, as long as no other run changes it. It is opened anew at each try, as `open` does.
pub fn open_shared<R: Files + Clock>(rt: &R, wait: LockWait, path: &str) -> Result<R::File, Cause>
where
    R::File: LockFile,
{
    in_time(rt, wait, || open_shared_once(rt, path))
}

fn open_shared_once<R: Files + Clock>(rt: &R, path: &str) -> Result<R::File, Cause>
where
    R::File: LockFile,
{
    let (file, length) = open_measured(rt, path)?;
    if length > 0 {
        return shared(file);
    }
    let _folder = share_folder(rt, path)?;
    shared(open_to_read(rt, path)?)
}

// A file with its shared lock, if it is had.
fn shared<F: LockFile + Drop>(file: F) -> Result<F, Cause> {
    if share(&file) {
        Ok(file)
    } else {
        Err(Cause::InUse)
    }
}

fn open_path<R: Files>(
    rt: &R,
    path: &str,
    is_written: bool,
    is_new: bool,
) -> Result<R::File, Cause> {
    again(|| options(is_written, is_new).open(rt, path))
}

fn options(is_written: bool, is_new: bool) -> OpenOptions {
    let mut options = OpenOptions::new();
    options.read(true);
    options.write(is_written);
    options.create_new(is_new);
    options
}
