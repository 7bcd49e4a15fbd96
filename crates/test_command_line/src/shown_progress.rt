//! What each command tells of how far it is, and that `--quiet` silences it.

use crate::checks::assert_equal_for;
use crate::writers::{DECK, RUN, TRANSCRIPT, run_with};
use std::fs;
use std::os::fd::AsRawFd;
use std::os::unix::fs::FileExt;
use std::process::Abort;
use std::rt::{Clock, Files};
use std::test::Fail;
use streams::Progress;
use system_files::LockFile;

/// How far a command was at last, of how much, and how often it was told to wipe that and to be silent.
#[derive(Clone, Copy, PartialEq)]
struct Counted {
    done: u64,
    whole: u64,
    wiped: u64,
    silenced: u64,
}

const NOTHING: Counted = Counted {
    done: 0,
    whole: 0,
    wiped: 0,
    silenced: 0,
};

impl Progress for Counted {
    fn at(&mut self, done: u64, whole: u64) {
        self.done = done;
        self.whole = whole;
    }

    fn wipe(&mut self) {
        self.wiped = self.wiped.saturating_add(1);
    }

    fn silence(&mut self) {
        self.silenced = self.silenced.saturating_add(1);
    }
}

/// The command of these words answers so, and tells this.
fn tells<R: Files + Clock + AllocGlobal + Abort>(
    rt: &R,
    words: &[&str],
    out: &str,
    expected: Counted,
) -> Result<(), Fail>
where
    R::File: FileExt + LockFile + AsRawFd,
{
    let mut counted = NOTHING;
    let ended = run_with(rt, words, 100, 100, 100, &mut counted)?;
    assert_equal_for(rt, words, ended.is(0, out.as_bytes(), b""), true);
    assert_equal_for(rt, words, counted == expected, true);
    Ok(())
}

/// All of so many bytes were done, and wiped once.
fn done(whole: u64, silenced: u64) -> Counted {
    Counted {
        done: whole,
        whole,
        wiped: 1,
        silenced,
    }
}

const CHECKED: &str = "sound records 2 pages 3\n";

const LINES: &str = "[0001]\n[0002]\n";

const LOAD: [&str; 7] = [
    "load",
    "cust.deck",
    "--folder",
    "told",
    "--file",
    "CUST",
    "cust.txt",
];

const QUIET_LOAD: [&str; 8] = [
    "load",
    "cust.deck",
    "--folder",
    "quiet",
    "--file",
    "CUST",
    "cust.txt",
    "--quiet",
];

/// Writes the deck and the lines, and makes the folder of a load.
fn write_files(rt: &impl Files, folder: &str) -> Result<(), Fail> {
    fs::write(rt, "cust.deck", DECK)?;
    fs::write(rt, "cust.txt", LINES)?;
    fs::create_dir(rt, folder)?;
    Ok(())
}

#[test]
fn long_commands_tell_how_far_they_are(rt: HostRuntime) -> Result<(), Fail> {
    write_files(&rt, "told")?;
    tells(&rt, &LOAD, "loaded 2\n", done(14, 0))?;
    let length = fs::metadata(&rt, "told/cust.dat")?.len();
    tells(&rt, &["check", "told/cust.dat"], CHECKED, done(length, 0))?;
    // Where nothing is checked first, its lines show how far a list is.
    tells(&rt, &["list", "told/cust.dat"], LINES, NOTHING)?;
    let list = ["list", "--checked", "told/cust.dat"];
    tells(&rt, &list, LINES, done(length, 0))
}

#[test]
fn quiet_silences_them(rt: HostRuntime) -> Result<(), Fail> {
    write_files(&rt, "quiet")?;
    tells(&rt, &QUIET_LOAD, "loaded 2\n", done(14, 1))?;
    let length = fs::metadata(&rt, "quiet/cust.dat")?.len();
    let check = ["check", "quiet/cust.dat", "--quiet"];
    tells(&rt, &check, CHECKED, done(length, 1))?;
    let list = ["list", "--checked", "--quiet", "quiet/cust.dat"];
    tells(&rt, &list, LINES, done(length, 1))
}

#[test]
fn a_run_tells_nothing(rt: HostRuntime) -> Result<(), Fail> {
    fs::write(&rt, "cust.deck", DECK)?;
    tells(&rt, &RUN, TRANSCRIPT, NOTHING)
}
