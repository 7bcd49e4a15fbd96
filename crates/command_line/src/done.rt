//! What the program came to.
ghost use Rattle.std.specs.Prelude.{◌≡◌, None};

use command_support::{CommandFault, Outcome};

/// A run that was begun: the bytes of its deck, and whether it is strict.
#[derive(Drop)]
pub struct Ran {
    pub bytes: Vec<u8>,
    pub strict: bool,
}

/// What was done, or why nothing was; the run, if one was begun; and how many of the closes at the end
/// of a session failed.
#[derive(Drop)]
pub struct Done {
    pub outcome: Result<Outcome, CommandFault>,
    pub ran: Option<Ran>,
    pub unclosed: usize,
}

impl Done {
    /// What was done for words that ask for no run and no session, or why a run or a session was not
    /// begun.
    pub fn without_run(outcome: Result<Outcome, CommandFault>) -> Done
        ensures { result ≡ record { outcome = outcome; ran = None; unclosed = 0 } }
    {
        Done {
            outcome,
            ran: None,
            unclosed: 0,
        }
    }
}
