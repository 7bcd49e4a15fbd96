//! The records of lines, for a file that is built.
ghost use Rattle.std.specs.Prelude.{◌≡◌, ◌≤◌, [], None, length};
ghost use Rattle.record_text.specs.Whole.{IsWholeForm};
ghost use Rattle.record_loading.specs.WholeForm.{whole_form-prop};

use crate::given_records::GivenRecords;
use crate::options::LoadOptions;
use crate::reading::read_line;
use crate::writing::tell_progress;
use file_building::RecordSource;
use record_layout::Schema;
use record_text::{Form, LineMistake};
use streams::Progress;

/// The lines of a text, of which each gives its record. The first that is the line of no record of the
/// file ends them.
#[derive(Drop)]
pub struct LineRecords<'a, P: Progress> {
    pub form: &'a Form,
    pub options: LoadOptions,
    pub schema: &'a Schema,
    pub text: &'a [u8],
    // What is left of the text.
    pub rest: &'a [u8],
    // The record that was given last is in the first `size` bytes.
    pub area: Vec<u8>,
    pub size: usize,
    // What is wrong with the line that the rest begins with, where that was read.
    pub mistake: Option<LineMistake>,
    pub given: GivenRecords,
    pub progress: &'a mut P,
    ghost whole: { IsWholeForm form.now schema.now.greatest } by { whole_form-prop form.now schema.now.greatest },
    ghost room: { length area.items ≡ schema.now.greatest },
    ghost within: { size ≤ length area.items },
}

impl<'a, P: Progress> LineRecords<'a, P> {
    ghost use Rattle.record_loading.specs.LineForm.{line_form};
    ghost use Rattle.record_loading.specs.LineRecords.{LineReading};

    /// The lines of the rest of a text. The area is as long as the greatest record.
    pub fn new(
        form: &'a Form,
        options: LoadOptions,
        schema: &'a Schema,
        text: &'a [u8],
        rest: &'a [u8],
        area: Vec<u8>,
        progress: &'a mut P,
    ) -> LineRecords<'a, P>
        requires whole { IsWholeForm form.now schema.now.greatest }
        requires room { length area.items ≡ schema.now.greatest }
        ensures form { result.form.now ≡ form.now }
        ensures options { result.options ≡ options }
        ensures schema { result.schema.now ≡ schema.now }
        ensures begun { (result.rest.now ≡ rest.now) × (result.given.records ≡ []) × (result.mistake ≡ None) }
    {
        LineRecords {
            form,
            options,
            schema,
            text,
            rest,
            area,
            size: 0,
            mistake: None,
            given: GivenRecords::new(),
            progress,
        }
    }
}

impl<'a, P: Progress> RecordSource for LineRecords<'a, P> {
    ghost use Rattle.std.specs.Prelude.{◌≡◌, [], None, take};
    ghost use Rattle.record_loading.specs.LineForm.{line_form};
    ghost use Rattle.record_loading.specs.LineRecords.{HasEndedLines, ReadsLinesOn, reads_no_line};
    ghost use Rattle.record_loading.specs.LineRecords.{reads_lines_further};

    ghost schema = { λ lines. lines.schema.now };

    ghost given = { λ lines. lines.given.records };

    ghost latest = { λ lines. take lines.size lines.area.items };

    ghost has_ended = { λ lines. lines.mistake ≡ None → lines.rest.now ≡ [] };

    ghost reads_on = { λ a b. ReadsLinesOn
        (record {
          schema = a.schema.now;
          form = line_form a.form.now a.options;
          given = a.given.records;
          rest = a.rest.now;
          mistake = a.mistake;
        })
        (record {
          schema = b.schema.now;
          form = line_form b.form.now b.options;
          given = b.given.records;
          rest = b.rest.now;
          mistake = b.mistake;
        }) };

    ghost reads_nothing = { λ a. reads_no_line _ };

    ghost reads_further = { λ a b c ab bc. reads_lines_further _ _ _ ab bc };

    ghost reads_for = { λ a b on. on.schema_is };

    fn next(&mut self) -> bool {
        if self.mistake.is_some() || self.rest.is_empty() {
            return false;
        }
        let least = self.schema.least();
        match read_line(
            self.form,
            self.options,
            self.rest,
            least,
            self.area.as_mut_slice(),
        ) {
            Ok(line) => {
                self.size = line.length;
                self.given.note(&self.area.as_slice()[..line.length]);
                self.rest = line.behind;
                tell_progress(self.progress, self.text, line.behind);
                true
            }
            Err(mistake) => {
                self.mistake = Some(mistake);
                false
            }
        }
    }

    fn latest_record(&self) -> &[u8] {
        &self.area.as_slice()[..self.size]
    }
}
