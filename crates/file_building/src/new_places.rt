//! Where the records of a heap lie in another one.

ghost use Rattle.std.specs.Prelude.{◌≡◌, ◌<◌};

use io_state::Fault;
use record_heap::Place;
use std::alloc::Global;

/// Where the record of a slot lies that is not known to have been moved: in page 0, which is no place.
const NOWHERE: Place = Place { page: 0, slot: 0 };

/// The new place of each record of a heap, by the place that it had. It takes 8 bytes of memory for
/// each slot of the old file up to the last one whose record was moved, the pages of indexes counted
/// as if they had slots, and up to as much again as room to grow.
#[derive(Drop)]
pub struct NewPlaces {
    /// How many slots a page of the old heap has.
    pub(crate) room: usize,
    /// The new places, by the numbers of the old slots.
    pub(crate) places: Vec<Place>,
    ghost few: { room < 65536 },
}

impl NewPlaces {
    ghost use Rattle.file_building.specs.NewPlaces.{AreNowhere, PutsPlace, MakesRoomForPlaces, new_place};
    ghost use Rattle.file_building.specs.NewPlaces.{number_within};

    /// Where nothing was moved yet from pages of so many slots.
    pub fn new(alloc: Global, room: usize) -> NewPlaces
        requires { room < 65536 }
        ensures { AreNowhere room result }
    {
        NewPlaces {
            room,
            places: Vec::new(alloc),
        }
    }

    /// Where the record lies now that was at a place: in page 0 where none is known.
    pub fn of(&self, old: Place) -> Place
        ensures { result ≡ new_place self.now old }
    {
        match self.number_of(old) {
            Some(number) if number < self.places.len() => self.places[number],
            _ => NOWHERE,
        }
    }

    /// Tells where the record lies now that was at a place.
    ///
    /// Memory; Damage where no page has such a slot.
    pub fn put(&mut self, old: Place, new: Place) -> Result<(), Fault>
        ensures { PutsPlace self.old self.new old new result }
    {
        let Some(number) = self.number_of(old) else {
            return Err(Fault::Damage);
        };
        self.make_room(number + 1)?;
        self.places[number] = new;
        Ok(())
    }

    /// Tells of so many slots that nothing is known, but of those of which something is told.
    ///
    /// Memory.
    fn make_room(&mut self, count: usize) -> Result<(), Fault>
        ensures { MakesRoomForPlaces self.old self.new count result }
    {
        if self.places.len() < count {
            self.places
                .resize(count, NOWHERE)
                .map_err(|_| Fault::Memory)?;
        }
        Ok(())
    }

    /// The number of a slot, counted from those of page 0 on.
    fn number_of(&self, place: Place) -> Option<usize>
        ensures { result ≡ number_within self.now.room place }
    {
        let slot = usize::from(place.slot);
        if slot < self.room {
            Some(place.page as usize * self.room + slot)
        } else {
            None
        }
    }
}
