//! The files of a session.
ghost use Rattle.std.specs.Prelude.{◌≡◌, ◌≤◌, nat_lt, false, None, [], length};
ghost use Rattle.serve.specs.Files.{AreSessionFiles, files_at_start, no_numbered_files, file_of_number};
ghost use Rattle.serve.specs.Steps.{record_by, ShowsRecord};

use crate::described_file::DescribedFile;
use crate::opening_order::OpeningOrder;
use crate::place;
use indexed_file::GrowingLibrary;
use io_state::FileName;
use std::alloc::{AllocError, Global};
use std::marker::Model;

/// The numbers of files are less.
const NUMBER_LIMIT: usize = 64;

/// No file is described: a place for each number.
#[derive(Drop)]
pub struct FreePlaces {
    files: Vec<Option<DescribedFile>>,
    ghost free: { files.items ≡ no_numbered_files.places },
}

impl FreePlaces {
    /// Takes memory for the places of a session.
    pub fn new(alloc: Global) -> Result<FreePlaces, AllocError> {
        let mut files = Vec::new(alloc);
        for _ in 0..NUMBER_LIMIT {
            files.push(None)?;
        }
        Ok(FreePlaces { files })
    }
}

/// The files of a session: its library, whose units they are, each file by its number, and the order
/// in which the open ones were opened. The units of the library have the names `names`.
#[derive(Drop)]
pub struct Session<L: GrowingLibrary + Drop> {
    pub(crate) alloc: Global,
    pub(crate) library: L,
    pub(crate) names: Vec<FileName>,
    pub(crate) files: Vec<Option<DescribedFile>>,
    pub(crate) order: OpeningOrder,
}

impl<L: GrowingLibrary + Drop> Model for Session<L> {
    ghost use Rattle.serve.specs.Files.{Files};
    ghost use Rattle.serve.specs.Fields.{AreNamed};

    ghost Value = { Files L };

    ghost view = { λ session. record {
      library = session.library;
      table = record { places = session.files.items; opened = session.order };
    } };

    ghost invariant = { λ session. AreNamed L.shown (record {
      library = session.library;
      table = record { places = session.files.items; opened = session.order };
    }) session.names.items };
}

impl<L: GrowingLibrary + Drop> Session<L> {
    /// A session over a library without units, in which no file is described.
    pub fn new(alloc: Global, library: L, places: FreePlaces) -> Session<L>
        requires units { (L.shown.world library).units ≡ [] }
        ensures { result ≡ files_at_start library }
    {
        let FreePlaces { files } = places;
        Session {
            alloc,
            library,
            names: Vec::new(alloc),
            files,
            order: OpeningOrder::new(),
        }
    }

    /// Its library. Files that are open are forgotten.
    pub fn into_library(self) -> L
        ensures { result ≡ self.library }
    {
        self.library
    }

    /// Whether a file can have the number.
    pub(crate) fn has_place(&self, number: u8) -> bool
        ensures within { result ≡ nat_lt number 64 }
        ensures none { result ≡ false → file_of_number self.now.table number ≡ None }
    {
        usize::from(number) < self.files.len()
    }

    /// How many files are open.
    pub fn open_count(&self) -> usize
        ensures count { result ≡ length self.now.table.opened }
        ensures limit { result ≤ 64 }
        ensures files { AreSessionFiles L.shown self.now }
    {
        self.order.count()
    }

    /// The record that an answer has delivered into the area of a file, of no bytes where it delivered none.
    pub fn record(&self, number: u8, length: Option<u16>) -> &[u8]
        ensures { ShowsRecord (record_by (file_of_number self.now.table number) «length») result.now }
    {
        if !self.has_place(number) {
            return &[];
        }
        place::record(&self.files[usize::from(number)], length)
    }
}
