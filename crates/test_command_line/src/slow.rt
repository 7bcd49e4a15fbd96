//! Readers that give a file in parts, or not at all.

use std::io::{self, ErrorKind, Read};

/// A reader of these bytes, at most so many of them at a call. Before each part it is interrupted so many
/// times, and where `fails`, it fails at its end.
#[derive(Drop)]
pub struct Slow<'a> {
    pub bytes: &'a [u8],
    pub most: usize,
    pub interrupted: u32,
    pub times: u32,
    pub fails: bool,
}

impl<'a> Read for Slow<'a> {
    fn read(&mut self, part: &mut [u8]) -> io::Result<usize> {
        if self.times < self.interrupted {
            self.times += 1;
            return Err(ErrorKind::Interrupted.into());
        }
        self.times = 0;
        if self.bytes.is_empty() && self.fails {
            return Err(ErrorKind::PermissionDenied.into());
        }
        let n = part.len().min(self.bytes.len()).min(self.most);
        part[..n].copy_from_slice(&self.bytes[..n]);
        self.bytes = &self.bytes[n..];
        Ok(n)
    }
}
