//! An open file.

use crate::asked_streams::Streams;
use crate::asking::{ask, ask_for_lock, ask_for_name, ask_to_read, ask_to_write};
use crate::question::Question;
use std::fs::{Metadata, OpenFile, TryLockError};
use std::io::{self, ErrorKind, Read, Seek, SeekFrom, Write};
use std::os::unix::fs::FileExt;
use std::rt::Files;
use system_files::LockFile;

/// A file that C has open, by its number. It is closed where it is dropped.
pub struct AskedFile {
    streams: Streams,
    number: u64,
}

impl AskedFile {
    pub(crate) fn opened(streams: Streams, number: u64) -> AskedFile {
        AskedFile { streams, number }
    }

    fn done(&self, question: &Question<'_>) -> io::Result<()> {
        let Streams {
            mut input,
            mut output,
        } = self.streams;
        ask(&mut input, &mut output, question)?;
        Ok(())
    }

    fn lock(&self, question: &Question<'_>) -> Result<(), TryLockError> {
        let Streams {
            mut input,
            mut output,
        } = self.streams;
        ask_for_lock(&mut input, &mut output, question)
    }
}

impl Drop for AskedFile {
    fn drop(self) {
        let AskedFile { streams, number } = self;
        let Streams {
            mut input,
            mut output,
        } = streams;
        let _ = ask(&mut input, &mut output, &Question::Close { file: number });
    }
}

impl FileExt for AskedFile {
    fn read_at(&self, bytes: &mut [u8], at: u64) -> io::Result<usize> {
        let Streams {
            mut input,
            mut output,
        } = self.streams;
        ask_to_read(&mut input, &mut output, self.number, at, bytes)
    }

    fn write_at(&self, bytes: &[u8], at: u64) -> io::Result<usize> {
        let Streams {
            mut input,
            mut output,
        } = self.streams;
        ask_to_write(&mut input, &mut output, self.number, at, bytes)
    }
}

impl LockFile for AskedFile {
    fn try_lock_shared(&self) -> Result<(), TryLockError> {
        self.lock(&Question::Share { file: self.number })
    }

    fn try_lock(&self) -> Result<(), TryLockError> {
        self.lock(&Question::Claim { file: self.number })
    }

    fn unlock(&self) -> io::Result<()> {
        self.done(&Question::Release { file: self.number })
    }

    fn is_named<R: Files>(&self, _rt: &R, path: &str) -> io::Result<bool> {
        let Streams {
            mut input,
            mut output,
        } = self.streams;
        ask_for_name(&mut input, &mut output, self.number, path)
    }
}

impl OpenFile for AskedFile {
    fn metadata(&self) -> io::Result<Metadata> {
        let Streams {
            mut input,
            mut output,
        } = self.streams;
        let length = ask(
            &mut input,
            &mut output,
            &Question::Measure { file: self.number },
        )?;
        Ok(Metadata::of_file(length))
    }

    fn set_len(&self, _size: u64) -> io::Result<()> {
        Err(ErrorKind::Unsupported.into())
    }

    fn sync_all(&self) -> io::Result<()> {
        self.done(&Question::Sync { file: self.number })
    }

    fn sync_data(&self) -> io::Result<()> {
        self.done(&Question::Sync { file: self.number })
    }
}

// What a file of `Files` has besides; a shelf asks none of it.
impl Read for AskedFile {
    fn read(&mut self, _bytes: &mut [u8]) -> io::Result<usize> {
        Err(ErrorKind::Unsupported.into())
    }
}

impl Write for AskedFile {
    fn write(&mut self, _bytes: &[u8]) -> io::Result<usize> {
        Err(ErrorKind::Unsupported.into())
    }

    fn flush(&mut self) -> io::Result<()> {
        Ok(())
    }
}

impl Seek for AskedFile {
    fn seek(&mut self, _to: SeekFrom) -> io::Result<u64> {
        Err(ErrorKind::Unsupported.into())
    }
}
