//! A library in memory.
ghost use Rattle.std.specs.Prelude.{◌≡◌, ℕ, List, map, bytes_eq, IfOk, IsTrue, IsOkUnless};
ghost use Rattle.std.specs.List.{IsDistinct, position, list_all};
ghost use Rattle.indexed_file.specs.World.{name_in};
ghost use Rattle.indexed_file.specs.SoundWorld.{is_sound_unit};
ghost use Rattle.list_library.specs.Units.{absent_unit, in_place_among, named_among, TakesPlace};

use crate::list_unit::ListUnit;
use crate::wanted::Wanted;
use indexed_file::{Added, Found, GrowingLibrary, Library, Replaced, Seen};
use io_state::{Fault, FileName, Key, Position, Relation};
use record_layout::Schema;
use std::alloc::Global;
use std::mem;

/// A library that keeps its files in lists of rows, which every call scans. It takes memory only
/// where a list grows.
#[derive(Drop)]
pub struct ListLibrary {
    alloc: Global,
    units: Vec<ListUnit>,
    /// The files of names that are not attached.
    others: Vec<ListUnit>,
    ghost sound: { IsTrue (list_all is_sound_unit units.items) },
    ghost others_sound: { IsTrue (list_all is_sound_unit others.items) },
}

impl ListLibrary {
    ghost use Rattle.std.specs.Prelude.{◌≡◌, ℕ, List, [], IsTrue};
    ghost use Rattle.indexed_file.specs.World.{Absent, named_in};
    ghost use Rattle.list_library.specs.declared.library.ListLibrary.{ListLibrary as InMemory};
    ghost use Rattle.list_library.specs.ListWorld.{list_world_of, shown_in_memory};

    /// A library without files. Every library in memory is honest, and what it shows of every name is true.
    pub fn new(alloc: Global) -> Self
        ensures units { (list_world_of result).units ≡ [] }
        ensures named { (name : List ℕ) → named_in (list_world_of result) name ≡ Absent }
        ensures honest { (library : InMemory) → IsTrue (shown_in_memory.is_honest library) }
        ensures truly { (library : InMemory) (name : List ℕ) → shown_in_memory.IsShownTruly library name }
    {
        ListLibrary {
            alloc,
            units: Vec::new(alloc),
            others: Vec::new(alloc),
        }
    }
}

/// Units of these names, each standing for nothing.
fn absent_units(alloc: Global, names: &[FileName]) -> Result<Vec<ListUnit>, Fault>
    ensures units { IfOk result (λ units. units.items ≡ map (λ name. absent_unit name.bytes) names.now) }
    ensures only_memory { IsOkUnless result Fault.Memory }
{
    let mut units = Vec::new(alloc);
    for name in names {
        if units.push(ListUnit::absent(*name)).is_err() {
            return Err(Fault::Memory);
        }
    }
    Ok(units)
}

/// The place of the first of these units that has the name of another.
fn place_of(units: &[ListUnit], unit: &ListUnit) -> Option<usize>
    ensures { result ≡ position (λ other. bytes_eq other.name unit.now.name) units.now }
{
    units.iter().position(|other| other.has_name_of(unit))
}

/// Lets a unit that stands for nothing change places with the first of the others that has its name.
fn take_place(unit: &mut ListUnit, others: &mut [ListUnit])
    requires { unit.old ≡ absent_unit unit.old.name }
    ensures { TakesPlace unit.old.name unit.new others.old others.new }
{
    if let Some(place) = place_of(others, unit) {
        mem::swap(unit, &mut others[place]);
        unit.forget();
    }
}

/// Lets each of these units change places with the first of the others that has its name.
fn exchange(units: &mut [ListUnit], others: &mut [ListUnit])
    requires absent { units.old ≡ map (λ unit. absent_unit unit.name) units.old }
    requires distinct { IsDistinct bytes_eq (map (λ unit. unit.name) units.old) }
    ensures units { units.new ≡ map (λ unit. in_place_among others.old unit.name) units.old }
    ensures named { (name : List ℕ) → name_in units.new
        (named_among others.new) name ≡ named_among others.old name }
    ensures sound { IsTrue (list_all is_sound_unit others.old) → IsTrue (list_all is_sound_unit others.new) }
{
    for unit in units.iter_mut() {
        take_place(unit, others);
    }
}

#[tactic(auto, using(crate::proofs::ShownLemmas::sound_set, crate::proofs::ListWorldLemmas::keeps_all, crate::proofs::ListWorldLemmas::all_stay_in_memory, crate::proofs::ListWorldLemmas::goes_in_memory, crate::proofs::ListWorldLemmas::others_stay_in_memory))]
impl Library for ListLibrary {
    ghost use Rattle.std.specs.Prelude.{refl};
    ghost use Rattle.list_library.specs.ListWorld.{shown_in_memory};

    ghost shown = { shown_in_memory };

    ghost joins = { λ first then last name real later. (tt, λ image is. absurd is) };

    ghost ends = { λ old new name real. (tt, λ image is. absurd is) };

    ghost shows_files = { λ library name shown. shown };

    ghost fills = { λ library u schema file honest shown opened. tt };

    ghost limits = { λ library u opened. record { room = refl; frames = refl } };

    ghost counts = { λ library u closed. refl };

    fn attach(&mut self, names: &[FileName]) -> Result<(), Fault> {
        let units = absent_units(self.alloc, names)?;
        if self.units.append(&mut self.others).is_err() {
            return Err(Fault::Memory);
        }
        let others = mem::replace(&mut self.units, units);
        self.others = others;
        exchange(&mut self.units, &mut self.others);
        Ok(())
    }

    fn faults(&self) -> u64 {
        0
    }

    fn asked(&self, _u: usize) -> u64 {
        0
    }

    fn restart_count(&mut self, _u: usize) {}

    fn look(&mut self, u: usize) -> Result<Seen, Fault> {
        let unit = &mut self.units[u];
        let seen = unit.look();
        unit.is_sound();
        Ok(seen)
    }

    fn create(&mut self, u: usize, schema: &Schema) -> Result<(), Fault> {
        let unit = &mut self.units[u];
        unit.create(self.alloc, schema.copy());
        unit.is_sound();
        Ok(())
    }

    fn open(&mut self, u: usize) -> Result<(), Fault> {
        let unit = &mut self.units[u];
        unit.open();
        unit.is_sound();
        Ok(())
    }

    fn by_key(
        &mut self,
        u: usize,
        k: u8,
        key: &Key,
        area: &mut [u8],
    ) -> Result<Option<Found>, Fault> {
        let unit = &self.units[u];
        unit.find(k, &Wanted::Equal(key.as_slice()), area)
    }

    fn next(
        &mut self,
        u: usize,
        k: u8,
        position: &Position,
        area: &mut [u8],
    ) -> Result<Option<Found>, Fault> {
        let unit = &self.units[u];
        unit.find(k, &Wanted::Admitted(position), area)
    }

    fn seek(
        &mut self,
        u: usize,
        k: u8,
        operand: &[u8],
        relation: Relation,
    ) -> Result<Option<Key>, Fault> {
        let unit = &self.units[u];
        unit.seek(k, &Wanted::Related(relation, operand))
    }

    fn highest(&mut self, u: usize) -> Result<Option<Key>, Fault> {
        let unit = &self.units[u];
        unit.highest()
    }

    fn add(&mut self, u: usize, bytes: &[u8]) -> Result<Added, Fault> {
        let unit = &mut self.units[u];
        let added = unit.add(self.alloc, bytes);
        unit.is_sound();
        added
    }

    fn replace(&mut self, u: usize, bytes: &[u8]) -> Result<Replaced, Fault> {
        let unit = &mut self.units[u];
        let replaced = unit.replace(self.alloc, bytes);
        unit.is_sound();
        replaced
    }

    fn remove(&mut self, u: usize, key: &Key) -> Result<bool, Fault> {
        let unit = &mut self.units[u];
        let removed = unit.remove(key.as_slice());
        unit.is_sound();
        removed
    }

    fn shut(&mut self, u: usize) -> Result<(), Fault> {
        let unit = &mut self.units[u];
        let shut = unit.shut();
        unit.is_sound();
        shut
    }
}

impl GrowingLibrary for ListLibrary {
    ghost use Rattle.std.specs.Prelude.{false};

    // no file of the system is open
    ghost keeps_open = { λ _ _. false };

    fn add_unit(&mut self, name: &FileName) -> Result<(), Fault> {
        self.units.reserve(1).map_err(|_| Fault::Memory)?;
        let mut unit = ListUnit::absent(*name);
        take_place(&mut unit, &mut self.others);
        if self.units.push(unit).is_err() {
            unreachable!()
        }
        Ok(())
    }

    fn let_go(&mut self, _u: usize) {}
}
