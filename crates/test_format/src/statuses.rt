//! The digits of statuses, and what may be written in which mode.

use crate::checks::assert_equal_for;
use io_state::{Access, OpenMode, Status, Verb, permits};

// A status, its digits, and whether it is a success.
const STATUSES: [(Status, &[u8; 2], bool); 7] = [
    (Status::Successful, b"00", true),
    (Status::Duplicate, b"02", true),
    (Status::OptionalAbsent, b"05", true),
    (Status::AtEnd, b"10", false),
    (Status::RecordNotFound, b"23", false),
    (Status::WrongLength, b"44", false),
    (Status::ConnectorFailed, b"92", false),
];

// I-O status: a first digit 0 is successful completion.
#[test]
fn a_status_prints_its_two_digits(rt: HostRuntime) {
    for &(status, digits, success) in &STATUSES {
        assert_equal_for(&rt, status, status.digits(), *digits);
        assert_equal_for(&rt, status, status.is_success(), success);
    }
}

// Whether WRITE is permitted where a file with this access is open in this mode.
const WRITING: [(Access, OpenMode, bool); 12] = [
    (Access::Sequential, OpenMode::Input, false),
    (Access::Sequential, OpenMode::Output, true),
    (Access::Sequential, OpenMode::InputOutput, false),
    (Access::Sequential, OpenMode::Extend, true),
    (Access::Random, OpenMode::Input, false),
    (Access::Random, OpenMode::Output, true),
    (Access::Random, OpenMode::InputOutput, true),
    (Access::Random, OpenMode::Extend, false),
    (Access::Dynamic, OpenMode::Input, false),
    (Access::Dynamic, OpenMode::Output, true),
    (Access::Dynamic, OpenMode::InputOutput, true),
    (Access::Dynamic, OpenMode::Extend, false),
];

// OPEN statement, general rules: the table of permissible statements.
#[test]
fn writing_depends_on_access_and_mode(rt: HostRuntime) {
    for &(access, mode, permitted) in &WRITING {
        let found = permits(access, mode, Verb::Write);
        assert_equal_for(&rt, (access, mode), found, permitted);
    }
}
