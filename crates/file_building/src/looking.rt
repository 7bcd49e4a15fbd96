//! What is found before anything is written.

ghost use Rattle.std.specs.Prelude.{◌≡◌};
ghost use Rattle.page_store.specs.ShelfState.{HasUnit};
ghost use Rattle.file_building.specs.Looking.{FindsSource, FindsNoTarget, IsHeaderWith};

use crate::fault::CopyingFault;
use open_file::Header;
use page_store::Shelf;
use shelf_library::{HeaderLook, look_at};

/// The header of the file that is to be copied, which has the key of this number.
pub fn source_header<S: Shelf>(shelf: &mut S, unit: usize, key: u8) -> Result<Header, CopyingFault>
    requires unit { HasUnit (S.state shelf.old) unit }
    ensures { FindsSource S.state S.fault_count unit key shelf.old shelf.new result }
{
    match look_at(shelf, unit) {
        Ok(HeaderLook::Accepted(header)) => header_with(header, key),
        Ok(HeaderLook::NoFile) => Err(CopyingFault::NoneToCopy),
        Ok(HeaderLook::Refused) => Err(CopyingFault::NotAccepted),
        Err(fault) => Err(CopyingFault::Reading(fault)),
    }
}

/// The header, where its schema has the key.
fn header_with(header: Header, key: u8) -> Result<Header, CopyingFault>
    ensures { IsHeaderWith key header result }
{
    if usize::from(key) < header.schema.key_count() {
        Ok(header)
    } else {
        Err(CopyingFault::NoKey)
    }
}

/// Finds that the new file is not there.
pub fn find_no_target<T: Shelf>(shelf: &mut T, unit: usize) -> Result<(), CopyingFault>
    requires unit { HasUnit (T.state shelf.old) unit }
    ensures { FindsNoTarget T.state T.fault_count unit shelf.old shelf.new result }
{
    match shelf.exists(unit) {
        Ok(false) => Ok(()),
        Ok(true) => Err(CopyingFault::IsThere),
        Err(fault) => Err(CopyingFault::Writing(fault)),
    }
}
