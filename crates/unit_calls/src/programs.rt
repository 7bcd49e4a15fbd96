//! Programs of verbs on one file.

use io_state::{FileStatement, OpenMode, Relation, Status};

const DONE: [Status; 2] = [Status::Successful, Status::Duplicate];

/// A statement that is performed so many times, each time with another record area.
#[derive(Clone, Copy)]
pub struct Step {
    pub statement: FileStatement,
    /// The key of reference of READ NEXT.
    pub reference: u8,
    pub count: u32,
    /// What each may answer.
    pub statuses: [Status; 2],
    /// The numbers of the areas come in no order.
    mixed: bool,
    /// They are above those of all records.
    above: bool,
    /// Their groups are not those of the records.
    moved: bool,
}

impl Step {
    fn above(self) -> Step {
        Step {
            above: true,
            ..self
        }
    }

    fn rising(self) -> Step {
        Step {
            mixed: false,
            ..self
        }
    }

    fn moved(self) -> Step {
        Step {
            moved: true,
            ..self
        }
    }

    fn by(self, reference: u8) -> Step {
        Step { reference, ..self }
    }

    fn gives(self, status: Status) -> Step {
        Step {
            statuses: [status, status],
            ..self
        }
    }

    /// The record area of the i-th time: a number and one of seven groups, each in the last bytes of a key.
    pub fn area(self, i: u32) -> [u8; 240] {
        let by = if self.mixed { 1231 } else { 1 };
        let least = if self.above { 10_000 } else { 0 };
        let number = (i.wrapping_mul(by) % 2000).wrapping_add(least);
        let group = number.wrapping_add(u32::from(self.moved)) % 7;
        let mut area = [0; 240];
        area[116..120].copy_from_slice(&number.to_be_bytes());
        area[236..240].copy_from_slice(&group.to_be_bytes());
        area
    }
}

/// A statement that is done so many times.
fn does(count: u32, statement: FileStatement) -> Step {
    Step {
        statement,
        reference: 0,
        count,
        statuses: DONE,
        mixed: true,
        above: false,
        moved: false,
    }
}

fn read(key: u8) -> FileStatement {
    FileStatement::Read { key }
}

fn start(key: u8, length: u16, relation: Relation) -> FileStatement {
    FileStatement::Start {
        key,
        length,
        relation,
    }
}

/// Two thousand records are written.
pub fn written() -> [Step; 4] {
    [
        does(1, FileStatement::Open(OpenMode::Output)).gives(Status::Successful),
        does(2000, FileStatement::Write),
        does(20, FileStatement::Write).gives(Status::DuplicateKey),
        does(1, FileStatement::Close { lock: false }),
    ]
}

/// Records are read by both keys, and some are not there.
pub fn read_by_key() -> [Step; 13] {
    [
        does(1, FileStatement::Open(OpenMode::InputOutput)),
        does(300, read(0)).gives(Status::Successful),
        does(20, read(0)).above().gives(Status::RecordNotFound),
        does(100, read(1)).gives(Status::Duplicate),
        does(20, start(0, 120, Relation::Equal)),
        does(20, start(1, 120, Relation::NotLess)),
        does(20, start(1, 117, Relation::Equal)),
        does(20, start(0, 120, Relation::Greater))
            .above()
            .gives(Status::RecordNotFound),
        does(1, start(0, 120, Relation::NotLess)),
        does(1000, FileStatement::ReadNext),
        does(1, start(1, 120, Relation::NotLess)),
        does(1000, FileStatement::ReadNext).by(1),
        does(1, FileStatement::Close { lock: false }),
    ]
}

/// Records are rewritten, deleted, and written again.
pub fn changed() -> [Step; 9] {
    [
        does(1, FileStatement::Open(OpenMode::InputOutput)),
        does(200, FileStatement::Rewrite).moved(),
        does(20, FileStatement::Rewrite)
            .above()
            .gives(Status::RecordNotFound),
        does(1000, FileStatement::Delete).gives(Status::Successful),
        does(20, FileStatement::Delete).gives(Status::RecordNotFound),
        does(200, FileStatement::Write),
        does(20, FileStatement::Write).gives(Status::DuplicateKey),
        does(200, read(0)).gives(Status::Successful),
        does(1, FileStatement::Close { lock: false }),
    ]
}

/// In sequential access records are written behind the others, and read in a row.
pub fn in_sequence() -> [Step; 10] {
    [
        does(1, FileStatement::Open(OpenMode::Extend)),
        does(1, FileStatement::Write).gives(Status::OutOfSequence),
        does(200, FileStatement::Write).above().rising(),
        does(20, FileStatement::Write).gives(Status::OutOfSequence),
        does(1, FileStatement::Close { lock: false }),
        does(1, FileStatement::Open(OpenMode::Input)),
        does(1400, FileStatement::ReadNext).gives(Status::Successful),
        does(1, FileStatement::ReadNext).gives(Status::AtEnd),
        does(1, FileStatement::ReadNext).gives(Status::NoNextRecord),
        does(1, FileStatement::Close { lock: false }),
    ]
}
