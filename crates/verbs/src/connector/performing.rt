//! Any statement.
ghost use Rattle.std.specs.Prelude.{◌≡◌, length as count_of};
ghost use Rattle.verbs.specs.Fits.{Fits, HasOperands};
ghost use Rattle.verbs.specs.Performed.{PerformsInto};

use super::Connector;
use crate::answer::Answer;
use indexed_file::Library;
use io_state::FileStatement;

impl Connector {
    /// Performs a statement; `length` is that of the record that a WRITE or REWRITE stores. On an
    /// open file each statement but OPEN and CLOSE begins the count of pages. What its checks
    /// decide is exact, and leaves all else of the library as it was; but CLOSE of a connector that
    /// has failed asks it, and answers 30 whatever it says.
    ///
    /// 30: the device failed in this statement, or it is CLOSE of a connector that has failed. 90:
    /// memory was wanted, by OPEN alone where no call on an open unit may want it. 24: the file has
    /// no room for the record. 92: the connector has failed. 91: OPEN of a file whose first page is
    /// refused, or the library is not to be believed.
    pub fn perform<L: Library>(
        &mut self,
        lib: &mut L,
        u: usize,
        statement: &FileStatement,
        length: u16,
        area: &mut [u8],
    ) -> Answer
        requires fits { Fits self.old (L.shown.world lib.old) u }
        requires operands { HasOperands self.old.connector.schema statement.now }
        requires area { count_of area.old ≡ self.old.connector.schema.greatest }
        ensures { PerformsInto L.shown u statement.now length
            self.old lib.old area.old result self.new lib.new area.new }
    {
        match *statement {
            FileStatement::Open(mode) => Answer::silent(self.open(lib, u, mode)),
            FileStatement::Close { lock } => Answer::silent(self.close(lib, u, lock)),
            FileStatement::ReadNext => self.read_next(lib, u, area),
            FileStatement::Read { key } => self.read(lib, u, key, area),
            FileStatement::Start {
                key,
                length,
                relation,
            } => Answer::silent(self.start(lib, u, key, length, relation, area)),
            FileStatement::Write => Answer::silent(self.write(lib, u, area, length)),
            FileStatement::Rewrite => Answer::silent(self.rewrite(lib, u, area, length)),
            FileStatement::Delete => Answer::silent(self.delete(lib, u, area)),
        }
    }
}
