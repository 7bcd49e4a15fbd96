//! What is asked of a list of the records of a file.
ghost use Rattle.command_support.specs.Front.{GivesSuch};
ghost use Rattle.command_support.specs.Bound.{FitsValue};
ghost use Rattle.file_commands.specs.Records.{AreValues, IsAskedBy, TellsOther};

use crate::first_page::fault_of;
use command_support::{CommandFault, Outcome, last_of, value_of};
use file_reports::{Comparison, compare_schema};
use io_state::Key;
use record_layout::Schema;
use record_listing::{Asked, Condition};
use std::alloc::Global;
use std::io::Write;

/// What is asked of the list of a file: a key by its number or its name, the first and the last value,
/// how many records at most, and the words of the conditions that each has to meet.
#[derive(Clone, Copy)]
pub struct Bounds<'a> {
    pub key: &'a str,
    pub from: Option<&'a str>,
    pub to: Option<&'a str>,
    pub first: u64,
    pub conditions: &'a [&'a str],
}

/// The first and the last value of a list.
#[derive(Drop)]
pub struct Values {
    pub from: Key,
    pub to: Option<Key>,
}

/// The first and the last value that the words of a command line ask for.
pub fn values_of(bounds: Bounds<'_>) -> Result<Values, CommandFault>
    ensures { FitsValue (AreValues bounds.entry) result }
{
    let from = value_of(bounds.from.unwrap_or(""))?;
    let to = last_of(bounds.to)?;
    Ok(Values { from, to })
}

/// What the words of a command line ask of a list, by the key of this number, of records that have to
/// meet these conditions.
pub fn asked_by(bounds: Bounds<'_>, values: Values, key: u8, conditions: Vec<Condition>) -> Asked
    requires { AreValues bounds values }
    ensures { IsAskedBy bounds.entry key conditions.items result }
{
    Asked {
        key,
        from: values.from,
        to: values.to,
        first: bounds.first,
        conditions,
    }
}

/// Whether a file that has these bytes is of another schema than that of a deck, if there is one:
/// the differences are written then, and nothing otherwise.
pub fn is_other<W: Write>(
    alloc: Global,
    bytes: &[u8],
    schema: &Option<Schema>,
    out: &mut W,
) -> Result<bool, CommandFault>
    ensures { GivesSuch (TellsOther schema.now bytes.now W.contents out.old out.new) result }
{
    let Some(schema) = schema else {
        return Ok(false);
    };
    match compare_schema(alloc, bytes, schema, out) {
        Ok(Ok(Comparison::Different)) => Ok(true),
        Ok(_) => Ok(false),
        Err(fault) => Err(fault_of(fault)),
    }
}
