//! A crash of a shelf in memory: what it leaves of each file.
ghost use Rattle.std.specs.Prelude.{◌≡◌, ◌+◌, leb, ltb, ◌&&◌, option_map, length, IfOk, IsOkUnless};
ghost use Rattle.io_state.specs.declared.fault.Fault.TheVariants.{Memory};
ghost use Rattle.page_store.specs.Images.{durable, covered};
ghost use Rattle.memory_shelf.specs.Events.{steps};

use crate::event::Event;
use crate::memory_file::MemFile;
use io_state::Fault;
use std::alloc::Global;

/// What a crash leaves of each file.
#[derive(Clone, Copy, Debug, PartialEq, Eq)]
pub enum Image {
    /// What reads give.
    AsRead,
    /// What the last successful sync left. A file that was never synced is absent.
    Synced,
    /// What reads give, with this byte wherever a write was asked for since the last successful sync.
    Filled(u8),
}

impl MemFile {
    ghost use Rattle.std.specs.Prelude.{◌≡◌, option_map, IfOk, IsOkUnless};
    ghost use Rattle.io_state.specs.declared.fault.Fault.TheVariants.{Memory};
    ghost use Rattle.memory_shelf.specs.MemFiles.{device_file_of, filled_file};
    ghost use Rattle.memory_shelf.specs.CrashImages.{image_of};

    /// The bytes that a crash leaves, if it leaves the file.
    pub(crate) fn left_by(&self, alloc: Global, image: Image) -> Result<Option<Vec<u8>>, Fault>
        ensures left { IfOk result (λ left. option_map (λ bytes. bytes.items) left ≡ image_of image
            (device_file_of self.now)) }
        ensures only_memory { IsOkUnless result Memory }
    {
        match image {
            Image::AsRead => Ok(Some(self.bytes.to_vec(alloc).map_err(|_| Fault::Memory)?)),
            Image::Synced => match last_synced(&self.log) {
                Some(bytes) => Ok(Some(bytes.to_vec(alloc).map_err(|_| Fault::Memory)?)),
                None => Ok(None),
            },
            Image::Filled(byte) => Ok(Some(self.filled(alloc, byte)?)),
        }
    }

    // The bytes, with another one wherever a write was asked for since the last sync.
    fn filled(&self, alloc: Global, byte: u8) -> Result<Vec<u8>, Fault>
        ensures filled { IfOk result (λ bytes. bytes.items ≡ filled_file byte self.now) }
        ensures only_memory { IsOkUnless result Memory }
    {
        let mut bytes = Vec::new(alloc);
        for (i, old) in self.bytes.iter().enumerate() {
            let new = if is_touched(&self.log, i) { byte } else { *old };
            bytes.push(new).map_err(|_| Fault::Memory)?;
        }
        Ok(bytes)
    }
}

// The bytes of the last sync.
fn last_synced(log: &[Event]) -> Option<&Vec<u8>>
    ensures { option_map (λ bytes. bytes.now.items) result ≡ (durable (steps log.now)).base }
{
    match log {
        [] => None,
        [earlier @ .., last] => match last {
            Event::Synced(bytes) => Some(bytes),
            Event::Created | Event::Wrote(..) => last_synced(earlier),
        },
    }
}

// Whether a write of this byte was asked for since the last sync.
fn is_touched(log: &[Event], byte: usize) -> bool
    ensures { result ≡ covered (durable (steps log.now)).ranges byte }
{
    match log {
        [] => false,
        [earlier @ .., last] => match last {
            Event::Wrote(at, n) => is_within(*at, *n, byte) || is_touched(earlier, byte),
            Event::Created | Event::Synced(_) => false,
        },
    }
}

fn is_within(at: usize, length: usize, byte: usize) -> bool
    ensures { result ≡ (leb at byte && ltb byte (at + length)) }
{
    at <= byte && byte - at < length
}
