//! Why a request is refused.
ghost use Rattle.std.specs.Prelude.{◌≡◌};
ghost use Rattle.serve.specs.Answer.{refusal_code};

/// Why a request is refused. Nothing was changed by it.
#[derive(Clone, Copy, Debug, PartialEq, Eq)]
pub enum RequestRefusal {
    /// 1: the frame is that of no request.
    NoRequest,
    /// 2: the frame is longer than any request.
    TooLong,
    /// 3: the number is not free, or is of no file.
    Number,
    /// 4: no file can be as it is described.
    Description,
    /// 5: another file of the session has the name.
    Name,
    /// 6: the file is open.
    Open,
    /// 7: memory ran out.
    Memory,
    /// 8: the key is none of the file's.
    Key,
}

impl RequestRefusal {
    /// Its number in an answer.
    pub fn code(self) -> u8
        ensures { result ≡ refusal_code self }
    {
        match self {
            RequestRefusal::NoRequest => 1,
            RequestRefusal::TooLong => 2,
            RequestRefusal::Number => 3,
            RequestRefusal::Description => 4,
            RequestRefusal::Name => 5,
            RequestRefusal::Open => 6,
            RequestRefusal::Memory => 7,
            RequestRefusal::Key => 8,
        }
    }
}
