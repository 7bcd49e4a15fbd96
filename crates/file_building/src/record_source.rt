//! Where the records of a file come from.

/// Records that come one after another, for a file of one schema.
pub trait RecordSource {
    ghost use Rattle.std.specs.Prelude.{◌≡◌, ℕ, List};
    ghost use Rattle.record_layout.specs.Schema.{Schema};
    ghost use Rattle.file_building.specs.Sources.{GivesRecord, EndsRecords, GivesNext};

    /// The schema of the file that they are for.
    ghost schema: { Self → Schema };

    /// The records that were given until now, the latest at the end.
    ghost given: { Self → List (List ℕ) };

    /// The record that was given last.
    ghost latest: { Self → List ℕ };

    /// No more records come.
    ghost has_ended: { Self → Type 0 };

    /// The same source, read on.
    ghost reads_on: { Self → Self → Type 0 };

    /// Goes on to the next record, which has from the least to the greatest length of the schema. False
    /// where no more come.
    fn next(&mut self) -> bool
        ensures gives { GivesNext schema given latest has_ended self.old self.new result }
        ensures goes { reads_on self.old self.new };

    /// The record that was given last.
    fn latest_record(&self) -> &[u8]
        ensures { result.now ≡ latest self.now };

    /// Reading nothing is reading on, and so is reading on twice. The schema stays.
    ghost reads_nothing: { (a : Self) → reads_on a a };

    ghost reads_further: { (a b c : Self) → reads_on a b → reads_on b c → reads_on a c };

    ghost reads_for: { (a b : Self) → reads_on a b → schema b ≡ schema a };
}
