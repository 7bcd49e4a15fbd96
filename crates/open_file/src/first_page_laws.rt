//! What is true of every header and every page.
ghost use Rattle.open_file.specs.FirstPageLaws.{WrittenHeaderIsRead, ReadIsWritten};

/// A page that was closed with a header is read as that header.
pub fn written_is_read()
    ensures { WrittenHeaderIsRead }
{}

/// A page that is read as a header was closed with that header.
pub fn read_is_written()
    ensures { ReadIsWritten }
{}
