//! Laws of the frames.
ghost use Rattle.serve.specs.Writing.{WhatIsWrittenIsRead};

/// Each request has a body that is read as that request: so no body is that of two.
pub fn what_is_written_is_read()
    ensures { WhatIsWrittenIsRead }
{}
