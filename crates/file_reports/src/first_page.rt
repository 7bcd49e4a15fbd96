//! The first page of a file.
ghost use Rattle.std.specs.Prelude.{◌≡◌, IfOk};
ghost use Rattle.open_file.specs.Bounds.{IsHeader};
ghost use Rattle.file_reports.specs.SchemaListing.{read_off, number_of_refusal};

use open_file::Header;
use pages::PAGE_SIZE;

/// Why no schema is told.
#[derive(Clone, Copy, Debug, PartialEq, Eq)]
pub enum Refusal {
    /// The file has fewer bytes than a page.
    Short,
    /// Its gate is open: it was not closed after a change.
    Gate,
    /// The page is not the first one of a file.
    Header,
}

/// How a first page begins whose gate is open.
const OPEN: &[u8; 8] = b"DCOBIXIF";

impl Refusal {
    /// The number by which a check tells the same reason.
    pub fn number(self) -> u8
        ensures { result ≡ number_of_refusal self }
    {
        match self {
            Refusal::Short => 1,
            Refusal::Gate => 2,
            Refusal::Header => 3,
        }
    }
}

/// The header that a first page has, or why it has none.
pub fn header_of(page: &[u8; PAGE_SIZE]) -> Result<Header, Refusal>
    ensures header { result ≡ read_off page.now }
    ensures allowed { IfOk result IsHeader }
{
    if let Some(header) = Header::read(page) {
        return Ok(header);
    }
    if page[..8] == OPEN[..] {
        return Err(Refusal::Gate);
    }
    Err(Refusal::Header)
}
