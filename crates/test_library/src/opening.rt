//! A file that is opened, which has to be sound.

ghost use Rattle.indexed_file.specs.Clients.{IsOpenWith, IsNotOpen};

use indexed_file::Library;
use record_layout::Schema;
use std::process::Abort;
use unit_calls::{Told, opens};

/// Opens the file of a unit.
pub fn opens_sound<L: Library>(rt: &impl Abort, library: &mut L, u: usize, schema: &Schema)
    requires { IsNotOpen (L.shown.world library.old) u }
    ensures { IsOpenWith (L.shown.world library.new) u schema.now }
{
    let told = opens(library, u, schema).expect(rt, "an answer");
    assert_eq!(rt; told, Told::Sound);
}
