//! A file that was just made.
ghost use Rattle.std.specs.Prelude.{◌≡◌, true};
ghost use Rattle.std.specs.Fs.{new_options, with_write, with_create_new};

use std::fs::{OpenFile, OpenOptions};
use std::io::{self, Write};
use std::rt::Files;

/// A file that was just made, which a flush brings to the disk.
#[derive(Drop)]
pub struct NewFile<F> {
    file: F,
}

/// A file is opened to be written, and made: where anything has its name, that is refused.
fn only_new() -> OpenOptions
    ensures { result ≡ with_create_new (with_write new_options true) true }
{
    let mut options = OpenOptions::new();
    options.write(true);
    options.create_new(true);
    options
}

/// Makes the file of a path.
pub fn make_new<R: Files>(rt: &R, path: &str) -> io::Result<NewFile<R::File>> {
    match only_new().open(rt, path) {
        Ok(file) => Ok(NewFile { file }),
        Err(error) => Err(error),
    }
}

impl<F: Write + OpenFile> Write for NewFile<F> {
    ghost contents = { λ new. F.contents new.file };

    fn write(&mut self, bytes: &[u8]) -> io::Result<usize> {
        self.file.write(bytes)
    }

    fn flush(&mut self) -> io::Result<()> {
        self.file.sync_all()
    }
}
