//! A fuse: it counts calls, and says which of them fail.
ghost use Rattle.std.specs.Prelude.{◌≡◌, IsErr, IsErrOf, OnOk};
ghost use Rattle.io_state.specs.declared.fault.Fault.TheVariants.{Device};
ghost use Rattle.memory_shelf.specs.Fuses.{is_counted, calls_of, turn_of, counted, after_call, one_refused};
ghost use Rattle.memory_shelf.specs.Fuses.{one_unperformed};

use io_state::Fault;

/// Which calls a fuse counts.
#[derive(Clone, Copy, Debug, PartialEq, Eq)]
pub enum Kind {
    /// `read_at`
    Reads,
    /// `write_at`
    Writes,
    /// `sync`
    Syncs,
    /// `create`, `write_at` and `sync`
    Changes,
}

/// A call of a shelf that may fail.
#[derive(Clone, Copy)]
pub(crate) enum Call {
    Create,
    Read,
    Write,
    Sync,
    Other,
}

/// What becomes of a call.
#[derive(Clone, Copy)]
pub(crate) enum Turn {
    Perform,
    PerformAndFail,
    Fail,
}

#[derive(Clone, Copy)]
pub(crate) struct Fuse {
    pub(crate) kind: Kind,
    pub(crate) at: u64,
    pub(crate) after: bool,
    pub(crate) for_good: bool,
    pub(crate) creates: u64,
    pub(crate) reads: u64,
    pub(crate) writes: u64,
    pub(crate) syncs: u64,
    pub(crate) blown: bool,
    pub(crate) refused: u64,
    pub(crate) unperformed: u64,
}

impl Fuse {
    /// How many calls of this kind it has seen.
    pub(crate) fn calls(&self, kind: Kind) -> u64
        ensures { result ≡ calls_of self.now kind }
    {
        match kind {
            Kind::Reads => self.reads,
            Kind::Writes => self.writes,
            Kind::Syncs => self.syncs,
            Kind::Changes => self
                .creates
                .saturating_add(self.writes)
                .saturating_add(self.syncs),
        }
    }

    /// Counts a call, and says what becomes of it.
    pub(crate) fn turn(&mut self, call: Call) -> Turn
        ensures turn { result ≡ turn_of self.old call }
        ensures noted { self.new ≡ after_call self.old call }
    {
        let fires = counts(self.kind, call)
            && self.at.checked_sub(1) == Some(self.calls(self.kind));
        let turn = if self.blown {
            Turn::Fail
        } else if !fires {
            Turn::Perform
        } else if self.after {
            Turn::PerformAndFail
        } else {
            Turn::Fail
        };
        self.count(call);
        self.blown = self.blown || fires && self.for_good;
        turn
    }

    /// Counts a call that failed.
    pub(crate) fn fail<T>(&mut self) -> Result<T, Fault>
        ensures device { IsErrOf result Device }
        ensures noted { self.new ≡ one_refused self.old }
    {
        self.refused = self.refused.saturating_add(1);
        Err(Fault::Device)
    }

    /// Fails a call behind its effect, and notes where the shelf below has not performed it.
    pub(crate) fn fail_behind(&mut self, done: Result<(), Fault>) -> Result<(), Fault>
        ensures device { IsErrOf result Device }
        ensures performed { OnOk done (self.new ≡ one_refused self.old) }
        ensures not { IsErr done → self.new ≡ one_refused (one_unperformed self.old) }
    {
        if done.is_err() {
            self.unperformed = self.unperformed.saturating_add(1);
        }
        self.fail()
    }

    fn count(&mut self, call: Call)
        ensures { self.new ≡ counted self.old call }
    {
        match call {
            Call::Create => self.creates = self.creates.saturating_add(1),
            Call::Read => self.reads = self.reads.saturating_add(1),
            Call::Write => self.writes = self.writes.saturating_add(1),
            Call::Sync => self.syncs = self.syncs.saturating_add(1),
            Call::Other => {}
        }
    }
}

fn counts(kind: Kind, call: Call) -> bool
    ensures { result ≡ is_counted kind call }
{
    match call {
        Call::Create => kind == Kind::Changes,
        Call::Read => kind == Kind::Reads,
        Call::Write => kind == Kind::Changes || kind == Kind::Writes,
        Call::Sync => kind == Kind::Changes || kind == Kind::Syncs,
        Call::Other => false,
    }
}
