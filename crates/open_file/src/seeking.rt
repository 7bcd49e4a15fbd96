//! The first value that is so related to an operand.

ghost use Rattle.std.specs.Prelude.{◌≡◌, ◌*◌, Some, None, Err, if◌then◌else◌};
ghost use Rattle.pages.specs.PageCalls.{ReadsPages};
ghost use Rattle.key_index.specs.Standing.{prime_height, alt_height};
ghost use Rattle.open_file.specs.Lent.{LendsByKey, LendsByAlternate};
ghost use Rattle.open_file.specs.Asked.{OfHonestPages, pages_to_seek};
ghost use Rattle.open_file.specs.Reading.{Seeks};
ghost use Rattle.open_file.specs.Steps.{FindsInPrimePages, FindsInAlternate, leads_prime, leads_alt};
ghost use Rattle.open_file.specs.Steps.{is_wanted_value};
ghost use Rattle.open_file.specs.Calls.{SeeksByKey};

use crate::open_file::OpenFile;
use io_state::{Fault, Key, Relation};
use key_index::{AltEntry, AltIndex, PrimeEntry};
use pages::Pages;

impl OpenFile {
    /// The full value of key k of the first record whose value begins so related to the operand.
    ///
    /// Device, Damage, Broken.
    pub fn seek<P: Pages>(
        &self,
        pages: &mut P,
        k: u8,
        operand: &[u8],
        relation: Relation,
    ) -> Result<Option<Key>, Fault>
        requires { LendsByKey P.shown pages.old self.now k }
        ensures { SeeksByKey P.shown self.now k relation operand.now pages.old pages.new result }
    {
        if self.broken {
            return Err(Fault::Broken);
        }
        if k == 0 {
            return self.seek_prime(pages, operand, relation);
        }
        self.seek_alternate(pages, usize::from(k), operand, relation)
    }

    /// The first prime value that begins so related to the operand.
    fn seek_prime<P: Pages>(
        &self,
        pages: &mut P,
        operand: &[u8],
        relation: Relation,
    ) -> Result<Option<Key>, Fault>
        requires ready { P.shown.IsReady pages.old }
        ensures found { OfHonestPages P.shown pages.old pages.new
            (λ live. Seeks self.now live 0 relation operand.now result) }
        ensures reads { ReadsPages P.shown (pages_to_seek P.shown self.now pages.old 0) pages.old pages.new
            result }
    {
        match self.first_in_prime(pages, operand, relation)? {
            Some(entry) => Ok(wanted(entry.value, operand, relation)),
            None => Ok(None),
        }
    }

    /// The first value of an alternate key that begins so related to the operand.
    fn seek_alternate<P: Pages>(
        &self,
        pages: &mut P,
        k: usize,
        operand: &[u8],
        relation: Relation,
    ) -> Result<Option<Key>, Fault>
        requires { LendsByAlternate P.shown pages.old self.now k }
        ensures found { OfHonestPages P.shown pages.old pages.new
            (λ live. Seeks self.now live k relation operand.now result) }
        ensures reads { ReadsPages P.shown (pages_to_seek P.shown self.now pages.old k) pages.old pages.new
            result }
    {
        let index = self.alternate(k);
        match first_in_alternate(&index, pages, operand, relation)? {
            Some(entry) => Ok(wanted(entry.value, operand, relation)),
            None => Ok(None),
        }
    }

    /// The entry of the prime index to begin with.
    fn first_in_prime<P: Pages>(
        &self,
        pages: &mut P,
        operand: &[u8],
        relation: Relation,
    ) -> Result<Option<PrimeEntry>, Fault>
        requires ready { P.shown.IsReady pages.old }
        ensures found { FindsInPrimePages P.shown self.now.prime (leads_prime relation operand.now)
            pages.old pages.new result }
        ensures reads { ReadsPages P.shown (2 * prime_height self.now.prime) pages.old pages.new result }
    {
        match relation {
            Relation::Greater => self.prime.first_past(pages, operand),
            Relation::Equal | Relation::NotLess => self.prime.first_from(pages, operand),
        }
    }
}

/// The entry of the index of an alternate key to begin with.
fn first_in_alternate<P: Pages>(
    index: &AltIndex,
    pages: &mut P,
    operand: &[u8],
    relation: Relation,
) -> Result<Option<AltEntry>, Fault>
    requires ready { P.shown.IsReady pages.old }
    ensures found { FindsInAlternate P.shown index.now (leads_alt relation operand.now)
        pages.old pages.new result }
    ensures reads { ReadsPages P.shown (2 * alt_height index.now) pages.old pages.new result }
{
    match relation {
        Relation::Greater => index.first_past(pages, operand),
        Relation::Equal | Relation::NotLess => index.first_from(pages, operand),
    }
}

/// The value that was found, where it is wanted: by EQUAL where it begins with the operand.
fn wanted(value: Key, operand: &[u8], relation: Relation) -> Option<Key>
    ensures { result ≡ (if is_wanted_value relation operand.now value.items then Some value else None) }
{
    match relation {
        Relation::Equal if !value.as_slice().starts_with(operand) => None,
        _ => Some(value),
    }
}
