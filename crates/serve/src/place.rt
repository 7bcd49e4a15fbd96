//! The place of a number: its file, or none where the number is free.
ghost use Rattle.std.specs.Prelude.{◌≡◌, None, Some, IfOk, IfSome, OnErr};
ghost use Rattle.serve.specs.Request.{performed_of};
ghost use Rattle.serve.specs.Files.{is_open_in, has_file_name, PlaceFits};
ghost use Rattle.serve.specs.Steps.{PerformsAt, ClosesPlace, IsClosedUnit, refusal_in, refusal_by};
ghost use Rattle.serve.specs.Steps.{refusal_of_file, record_by, ShowsRecord};

use crate::described_file::DescribedFile;
use crate::request_refusal::RequestRefusal;
use crate::statement::Performance;
use indexed_file::Library;
use io_state::Status;
use verbs::Answer;

/// Whether a file is there, and open.
pub fn is_open(place: &Option<DescribedFile>) -> bool
    ensures { result ≡ is_open_in place.now }
{
    match place {
        Some(file) => file.is_open(),
        None => false,
    }
}

/// Whether a file is there that has the name.
pub fn has_name(place: &Option<DescribedFile>, name: &[u8]) -> bool
    ensures { result ≡ has_file_name name.now place.now }
{
    match place {
        Some(file) => file.has_name(name),
        None => false,
    }
}

/// The record that an answer has delivered into the area of the file.
pub fn record(place: &Option<DescribedFile>, length: Option<u16>) -> &[u8]
    ensures { ShowsRecord (record_by place.now «length») result.now }
{
    match place {
        Some(file) => file.record(length),
        None => &[],
    }
}

/// Puts a file there.
pub fn put(place: &mut Option<DescribedFile>, file: DescribedFile)
    ensures { place.new ≡ Some file }
{
    *place = Some(file);
}

/// Performs the statement on the file, which goes with the library.
pub fn perform<L: Library>(
    place: &mut Option<DescribedFile>,
    library: &mut L,
    performance: &Performance<'_>,
) -> Result<Answer, RequestRefusal>
    requires fits { PlaceFits (L.shown.world library.old) place.old }
    ensures performed { IfOk result (λ answer. PerformsAt L.shown (performed_of performance.now)
        library.old place.old answer library.new place.new) }
    ensures refused { refusal_in result ≡ refusal_by place.old (performed_of performance.now) }
    ensures err { OnErr result (place.new ≡ place.old) }
    ensures library { OnErr result (library.new ≡ library.old) }
{
    let Some(file) = place else {
        return Err(RequestRefusal::Number);
    };
    if !file.has_key(&performance.statement) {
        return Err(RequestRefusal::Key);
    }
    if !file.has_room(performance.bytes) {
        return Err(RequestRefusal::NoRequest);
    }
    Ok(file.perform(
        library,
        &performance.statement,
        performance.length,
        performance.bytes,
    ))
}

/// Closes the file, which goes with the library.
pub fn close<L: Library>(place: &mut Option<DescribedFile>, library: &mut L) -> Option<Status>
    requires fits { PlaceFits (L.shown.world library.old) place.old }
    ensures closed { IfSome result (λ status. ClosesPlace L.shown library.old place.old status
        library.new place.new) }
    ensures none { result ≡ None → (place.old ≡ None) × (place.new ≡ place.old) × (library.new ≡ library.old) }
{
    match place {
        Some(file) => Some(file.close(library)),
        None => None,
    }
}

/// The unit of the file, if it may be given up: it is not open.
pub fn closed_unit(place: &Option<DescribedFile>) -> Result<usize, RequestRefusal>
    ensures unit { IfOk result (IsClosedUnit place.now) }
    ensures refused { refusal_in result ≡ refusal_of_file place.now }
{
    match place {
        None => Err(RequestRefusal::Number),
        Some(file) => {
            if file.is_open() {
                return Err(RequestRefusal::Open);
            }
            Ok(file.unit())
        }
    }
}

/// Takes the file out.
pub fn clear(place: &mut Option<DescribedFile>)
    ensures { place.new ≡ None }
{
    *place = None;
}
