//! A system that is only read.

ghost use Rattle.std.specs.Prelude.{◌≡◌, ◌∷◌, []};
ghost use Rattle.std.proofs.Props.{props};
ghost use Rattle.folder_shelf.specs.Calls.{measured, read};
ghost use Rattle.file_commands.specs.Since.{HasOnlyRead, calls_since, has_failed_read};

use crate::system_asked::SystemAsked;
use folder_shelf::System;
use std::marker::PhantomData;

/// A system by which files are read, and whether a call has failed.
#[derive(Drop)]
pub struct Reads<S: System + Drop, A: SystemAsked> {
    system: S,
    has_failed: bool,
    asked: PhantomData<A>,
    ghost reading: { HasOnlyRead A.before (S.state system) has_failed },
}

impl<S: System + Drop, A: SystemAsked> Reads<S, A> {
    /// The system, by which nothing was read yet.
    pub fn new(system: S) -> Reads<S, A>
        requires before { S.state system ≡ A.before }
        ensures none { calls_since A.before (S.state result.system) ≡ [] }
    {
        Reads {
            system,
            has_failed: false,
            asked: PhantomData,
        }
    }

    #[tactic(auto, using(crate::proofs::SinceLemmas::size_read, crate::proofs::SinceLemmas::no_size, crate::proofs::SinceLemmas::one_since))]
    /// The number of bytes of the file of a path, if it was told.
    pub fn measure(&mut self, path: &str) -> Option<u64>
        ensures { calls_since A.before (S.state self.new.system)
            ≡ measured path.now result ∷ calls_since A.before (S.state self.old.system) }
    {
        match self.system.measure_shared(path) {
            Some(size) => Some(size),
            None => {
                self.has_failed = true;
                None
            }
        }
    }

    #[tactic(auto, using(crate::proofs::SinceLemmas::bytes_read, crate::proofs::SinceLemmas::no_bytes, crate::proofs::SinceLemmas::one_since))]
    /// Fills the bytes with those of the file of a path from byte `at` on. Whether they all came.
    pub fn read(&mut self, path: &str, at: u64, bytes: &mut [u8]) -> bool
        ensures { calls_since A.before (S.state self.new.system)
            ≡ read path.now result at bytes.new ∷ calls_since A.before (S.state self.old.system) }
    {
        let done = self.system.read_shared(path, at, bytes);
        if !done {
            self.has_failed = true;
        }
        done
    }

    /// The system, and whether a call has failed.
    pub fn into_parts(self) -> (S, bool)
        ensures same { result.0 ≡ self.system }
        ensures failed { result.1 ≡ self.has_failed }
        ensures reading { HasOnlyRead A.before (S.state result.0) result.1 }
    {
        let Reads {
            system,
            has_failed,
            asked: _,
        } = self;
        (system, has_failed)
    }
}
