//! Records of 12 bytes, one after another.

ghost use Rattle.std.specs.Prelude.{◌≡◌, true};
ghost use Rattle.indexed_file.specs.Sound.{is_length};

use file_building::RecordSource;
use record_layout::Schema;

/// The records of so many bytes, and how many of them were given.
#[derive(Drop)]
pub struct Records<'a> {
    pub schema: Schema,
    pub bytes: &'a [u8],
    pub given: usize,
    pub latest: [u8; 12],
    ghost fits: { is_length schema 12 ≡ true },
}

impl<'a> RecordSource for Records<'a> {
    ghost use Rattle.std.specs.Prelude.{◌≡◌, ⊤, refl};
    ghost use Rattle.std.proofs.Common.{◌∙◌};
    ghost use Rattle.test_file_building.specs.Records.{first_twelves};

    ghost schema = { λ source. source.schema };

    ghost given = { λ source. first_twelves source.bytes.now source.given };

    ghost latest = { λ source. source.latest };

    ghost has_ended = { λ source. ⊤ };

    ghost reads_on = { λ a b. b.schema ≡ a.schema };

    fn next(&mut self) -> bool {
        if self.given < self.bytes.len() / 12 {
            let start = 12 * self.given;
            self.latest.copy_from_slice(&self.bytes[start..start + 12]);
            self.given += 1;
            true
        } else {
            false
        }
    }

    fn latest_record(&self) -> &[u8] {
        &self.latest
    }

    ghost reads_nothing = { λ a. refl };

    ghost reads_further = { λ a b c ab bc. bc ∙ ab };

    ghost reads_for = { λ a b reads. reads };
}
