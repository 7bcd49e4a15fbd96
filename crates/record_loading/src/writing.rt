//! The records of lines are written into an open file.
ghost use Rattle.std.specs.Prelude.{◌≡◌, ◌++◌, ◌<◌, length};
ghost use Rattle.record_text.specs.Lines.{form_header};
ghost use Rattle.io_state.specs.declared.statement.FileStatement.TheVariants.{Rewrite};
ghost use Rattle.verbs.specs.Fits.{MayPerform};
ghost use Rattle.verbs.specs.Performed.{in_memory};
ghost use Rattle.record_loading.specs.Passing.{lines_end, ends_lines};
ghost use Rattle.record_loading.specs.Replacing.{RewritesRecordIn};
ghost use Rattle.record_loading.specs.Loading.{load_text};
ghost use Rattle.record_loading.specs.Going.{TakesLines, PassesLineOf, WritesTold};

use crate::end::LinesEnd;
use crate::options::LoadOptions;
use crate::passing::{behind_line, behind_lines, front_of};
use crate::reading::read_line;
use crate::rejected::{
    RejectLog, RejectReason, RejectedLine, is_refused_for_keys, replaces_nothing,
};
use indexed_file::Library;
use io_state::Status;
use record_text::{Form, LineMistake, behind_header, header_lines};
use streams::Progress;
use verbs::Connector;

/// What became of a line; with the text behind it, where the load goes on.
#[derive(Clone, Copy)]
pub enum PassedLine<'a> {
    /// Its record was written.
    Written(&'a [u8]),
    /// Its record replaced another one.
    Replaced(&'a [u8]),
    /// It was rejected, and passed over.
    Rejected(RejectReason, &'a [u8]),
    /// It ends the load.
    Stopped(RejectReason),
}

/// Tells how many bytes of a text are done, of which this is the rest.
pub fn tell_progress<P: Progress>(progress: &mut P, text: &[u8], rest: &[u8]) {
    let done = text.len().saturating_sub(rest.len());
    progress.at(done as u64, text.len() as u64);
}

/// The end of lines at the line of this number.
fn stopped_at(line: u64, reason: RejectReason) -> LinesEnd
    ensures { result ≡ lines_end line reason }
{
    match reason {
        RejectReason::Refused(status) => LinesEnd::Refused { line, status },
        RejectReason::NoRecord(mistake) => LinesEnd::NoRecord { line, mistake },
    }
}

/// Whether a WRITE that was answered so, and is no success, ends a load.
fn ends_lines(options: LoadOptions, status: Status) -> bool
    ensures { result ≡ ends_lines options status }
{
    !((options.keep_going || options.replace) && is_refused_for_keys(status))
}

/// Puts the record of a line in the place of the one that has its prime value, behind a WRITE that was
/// refused for its keys with `refused`; or rejects the line.
fn replace_record<'a, L: Library>(
    connector: &mut Connector,
    lib: &mut L,
    area: &[u8],
    length: u16,
    options: LoadOptions,
    refused: Status,
    behind: &'a [u8],
) -> PassedLine<'a>
    requires { MayPerform Rewrite connector.old (L.shown.world lib.old) 0 area.now }
    ensures { RewritesRecordIn L.shown options refused length behind.now connector.old lib.old area.now
        connector.new lib.new result }
{
    let status = connector.rewrite(lib, 0, area, length);
    if status.is_success() {
        return PassedLine::Replaced(behind);
    }
    if !replaces_nothing(status) {
        return PassedLine::Stopped(RejectReason::Refused(status));
    }
    if options.keep_going {
        return PassedLine::Rejected(RejectReason::Refused(refused), behind);
    }
    PassedLine::Stopped(RejectReason::Refused(refused))
}

/// Writes the record of the first line of a text into the file of unit 0, or has it replace the one of its
/// prime value, or rejects the line.
fn pass_line<'a, L: Library>(
    connector: &mut Connector,
    lib: &mut L,
    least: u16,
    area: &mut [u8],
    form: &Form,
    options: LoadOptions,
    text: &'a [u8],
) -> PassedLine<'a>
    requires takes { TakesLines L.shown form.now least (in_memory connector.old lib.old area.old) }
    requires some { 0 < length text.now }
    ensures { PassesLineOf L.shown options form.now text.now (in_memory connector.old lib.old area.old)
        (in_memory connector.new lib.new area.new) result }
{
    let line = match read_line(form, options, text, least, area) {
        Ok(line) => line,
        Err(mistake) => {
            if options.keep_going {
                return PassedLine::Rejected(RejectReason::NoRecord(mistake), behind_line(text));
            }
            return PassedLine::Stopped(RejectReason::NoRecord(mistake));
        }
    };
    let length = line.length as u16;
    let status = connector.write(lib, 0, area, length);
    if status.is_success() {
        return PassedLine::Written(line.behind);
    }
    if ends_lines(options, status) {
        return PassedLine::Stopped(RejectReason::Refused(status));
    }
    if options.replace {
        return replace_record(connector, lib, area, length, options, status, line.behind);
    }
    PassedLine::Rejected(RejectReason::Refused(status), line.behind)
}

/// Writes the records of lines, which are all of the text behind its header, into the file of unit
/// 0, one after another, but for those that are skipped. The first line that is the line of no record
/// of the file, or whose WRITE is no success, ends it; where it is to keep going, such a line is told
/// and passed over, if its WRITE was refused for its keys. After each line it is told how many bytes of
/// the text are done.
fn write_lines<L: Library, P: Progress, R: RejectLog>(
    connector: &mut Connector,
    lib: &mut L,
    least: u16,
    area: &mut [u8],
    form: &Form,
    options: LoadOptions,
    text: &[u8],
    lines: &[u8],
    rejects: &mut R,
    progress: &mut P,
) -> LinesEnd
    requires takes { TakesLines L.shown form.now least (in_memory connector.old lib.old area.old) }
    requires lines { text.now ≡ form_header form.now ++ lines.now }
    ensures { WritesTold R.tells rejects.old rejects.new L.shown (load_text form.now text.now options)
        connector.old lib.old area.old connector.new lib.new result }
{
    let mut rest = behind_lines(lines, options.skip);
    let mut records = 0;
    let mut replaced = 0;
    let mut rejected = 0;
    let before = header_lines(form);
    'more: while !rest.is_empty() {
        let number = before + options.skip + records + replaced + rejected + 1;
        match pass_line(connector, lib, least, area, form, options, rest) {
            PassedLine::Written(behind) => {
                records += 1;
                rest = behind;
            }
            PassedLine::Replaced(behind) => {
                replaced += 1;
                rest = behind;
            }
            PassedLine::Rejected(reason, behind) => {
                progress.wipe();
                let rejected_line = RejectedLine {
                    line: number,
                    reason,
                };
                rejects.tell(rejected_line, front_of(rest, behind));
                rejected += 1;
                rest = behind;
            }
            PassedLine::Stopped(reason) => return stopped_at(number, reason),
        }
        tell_progress(progress, text, rest);
    }
    LinesEnd::Loaded {
        records,
        replaced,
        rejected,
    }
}

/// Writes the records of a text into the file of unit 0, one after another, but for those that are
/// skipped. The first line that is the line of no record of the file, or whose WRITE is no success, ends
/// it; where it is to keep going, such a line is told and passed over, if its WRITE was refused for its
/// keys. Where the text does not begin with its header, its first line ends it. After each line it is
/// told how many bytes of the text are done.
pub fn write_listing<L: Library, P: Progress, R: RejectLog>(
    connector: &mut Connector,
    lib: &mut L,
    least: u16,
    area: &mut [u8],
    form: &Form,
    header: &[u8],
    options: LoadOptions,
    text: &[u8],
    rejects: &mut R,
    progress: &mut P,
) -> LinesEnd
    requires takes { TakesLines L.shown form.now least (in_memory connector.old lib.old area.old) }
    requires header { header.now ≡ form_header form.now }
    ensures { WritesTold R.tells rejects.old rejects.new L.shown (load_text form.now text.now options)
        connector.old lib.old area.old connector.new lib.new result }
{
    let Some(lines) = behind_header(text, header) else {
        return LinesEnd::NoRecord {
            line: 1,
            mistake: LineMistake::Names,
        };
    };
    write_lines(
        connector, lib, least, area, form, options, text, lines, rejects, progress,
    )
}
