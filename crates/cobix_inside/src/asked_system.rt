//! The system.

use crate::asked_file::AskedFile;
use crate::asked_streams::Streams;
use crate::asking::ask;
use crate::no_folder::NoFolder;
use crate::question::{Opening, Question};
use std::alloc::Allocator;
use std::fs::{Metadata, OpenOptions};
use std::io::{self, ErrorKind, Stdin, Stdout};
use std::rt::{Clock, Files};
use std::time::Duration;

/// Files that are asked for through two streams.
#[derive(Clone, Copy)]
pub struct AskedSystem {
    streams: Streams,
}

impl AskedSystem {
    pub fn new(input: Stdin, output: Stdout) -> AskedSystem {
        AskedSystem {
            streams: Streams { input, output },
        }
    }

    fn ask(&self, question: &Question<'_>) -> io::Result<u64> {
        let Streams {
            mut input,
            mut output,
        } = self.streams;
        ask(&mut input, &mut output, question)
    }
}

// What is not to be read, made anew, or both read and written, is opened by nobody.
fn opening(how: &OpenOptions) -> Opening {
    if how.asks_create_new() {
        Opening::New
    } else if how.asks_write() {
        Opening::ToWrite
    } else {
        Opening::ToRead
    }
}

fn unsupported<T>() -> io::Result<T> {
    Err(ErrorKind::Unsupported.into())
}

impl Files for AskedSystem {
    type File = AskedFile;

    type Dir = NoFolder;

    fn open_file(&self, how: &OpenOptions, path: &str) -> io::Result<AskedFile> {
        how.check()?;
        let opening = opening(how);
        let number = self.ask(&Question::Open { opening, path })?;
        Ok(AskedFile::opened(self.streams, number))
    }

    fn symlink_metadata(&self, path: &str) -> io::Result<Metadata> {
        let length = self.ask(&Question::Look { path })?;
        Ok(Metadata::of_file(length))
    }

    fn metadata(&self, path: &str) -> io::Result<Metadata> {
        self.symlink_metadata(path)
    }

    fn open_dir(&self, _path: &str) -> io::Result<NoFolder> {
        unsupported()
    }

    fn copy(&self, _from: &str, _to: &str) -> io::Result<u64> {
        unsupported()
    }

    fn rename(&self, _from: &str, _to: &str) -> io::Result<()> {
        unsupported()
    }

    fn remove_file(&self, _path: &str) -> io::Result<()> {
        unsupported()
    }

    fn create_dir(&self, _path: &str) -> io::Result<()> {
        unsupported()
    }

    fn remove_dir(&self, _path: &str) -> io::Result<()> {
        unsupported()
    }

    fn remove_dir_all<B: Allocator>(&self, _alloc: B, _path: &str) -> io::Result<()> {
        unsupported()
    }
}

// Nobody is asked for the time, and no lock is waited for: a pause ends at once.
impl Clock for AskedSystem {
    fn monotonic(&self) -> io::Result<Duration> {
        unsupported()
    }

    fn since_1970(&self) -> io::Result<Duration> {
        unsupported()
    }
}
