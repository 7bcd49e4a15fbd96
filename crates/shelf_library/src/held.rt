//! What a unit holds.

use crate::shelf_file::ShelfFile;
use open_file::Header;

/// Nothing; the header that a look has accepted; or a file that is open.
#[derive(Drop)]
pub enum Held {
    Nothing,
    Looked(Header),
    Opened(ShelfFile),
}
