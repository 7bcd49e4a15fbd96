//! Whether a value of a key is there.

ghost use Rattle.std.specs.Prelude.{◌*◌, slice_index};
ghost use Rattle.pages.specs.PageCalls.{ReadsPages};
ghost use Rattle.key_index.specs.Standing.{prime_height};
ghost use Rattle.open_file.specs.Stands.{heights_of};
ghost use Rattle.open_file.specs.Lent.{LendsRecord, LendsByAlternate};
ghost use Rattle.open_file.specs.Asked.{OfHonestPages};
ghost use Rattle.open_file.specs.Reading.{TellsValueThere};
ghost use Rattle.open_file.specs.Calls.{LooksForRecord};

use crate::open_file::OpenFile;
use io_state::Fault;
use pages::Pages;

impl OpenFile {
    /// Whether some record has this value of the prime key.
    fn has_prime<P: Pages>(&self, pages: &mut P, value: &[u8]) -> Result<bool, Fault>
        requires ready { P.shown.IsReady pages.old }
        ensures found { OfHonestPages P.shown pages.old pages.new
            (λ live. TellsValueThere self.now live 0 value.now result) }
        ensures reads { ReadsPages P.shown (prime_height self.now.prime) pages.old pages.new result }
    {
        self.prime.has(pages, value)
    }

    /// Whether some record has this value of an alternate key.
    fn has_alternate<P: Pages>(&self, pages: &mut P, k: usize, value: &[u8]) -> Result<bool, Fault>
        requires { LendsByAlternate P.shown pages.old self.now k }
        ensures found { OfHonestPages P.shown pages.old pages.new
            (λ live. TellsValueThere self.now live k value.now result) }
        ensures reads { ReadsPages P.shown (2 * slice_index (heights_of self.now) k) pages.old pages.new
            result }
    {
        let index = self.alternate(k);
        match index.first_from(pages, value)? {
            Some(entry) => Ok(entry.value.as_slice() == value),
            None => Ok(false),
        }
    }

    /// Whether some record has the value of a key, by its number, that this one has. Nothing is changed.
    ///
    /// Device, Damage.
    pub fn is_there<P: Pages>(&self, pages: &mut P, k: u8, bytes: &[u8]) -> Result<bool, Fault>
        requires { LendsRecord P.shown pages.old self.now k bytes.now }
        ensures { LooksForRecord P.shown self.now k bytes.now pages.old pages.new result }
    {
        let value = self.schema.value(bytes, k);
        if k == 0 {
            self.has_prime(pages, value)
        } else {
            self.has_alternate(pages, usize::from(k), value)
        }
    }
}
