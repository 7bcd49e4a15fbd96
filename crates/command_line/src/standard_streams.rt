//! The standard streams of the process.
ghost use Rattle.std.specs.Prelude.{◌≡◌, IfErr};
ghost use Rattle.folder_shelf.specs.Calls.{streams_held};
ghost use Rattle.folder_shelf.specs.SystemState.{with_call, is_done};
ghost use Rattle.command_support.specs.Status.{status_of};

use command_support::CommandFault;
use folder_shelf::{HoldsStreams, StreamFault};

/// Why the numbers of closed streams were not taken, as the program tells it.
fn told_fault(fault: StreamFault) -> CommandFault
    ensures { status_of result ≡ 4 }
{
    match fault {
        StreamFault::OutputIsClosed => CommandFault::Output,
        StreamFault::NothingOpens => CommandFault::Input,
        StreamFault::Memory => CommandFault::Memory,
    }
}

/// Takes the number of each standard stream that is closed. Output where standard output is closed;
/// Input where nothing can be opened; Memory.
pub fn hold_closed_streams<S: HoldsStreams>(system: &mut S) -> Result<(), CommandFault>
    ensures held { S.state system.new ≡ with_call (streams_held (is_done result)) (S.state system.old) }
    ensures fault { IfErr result (λ fault. status_of fault ≡ 4) }
{
    match system.hold_closed_streams() {
        Ok(()) => Ok(()),
        Err(fault) => Err(told_fault(fault)),
    }
}
