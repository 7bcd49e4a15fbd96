//! What the matches of a parse ask for.
ghost use Rattle.std.specs.Prelude.{◌≡◌, ℕ, Bool, List, Option, Some, None, IfOk, map, codes};
ghost use Rattle.std.specs.Option.{IfSome};
ghost use Rattle.clap.specs.Words.{Row, Text, found_of, rows_of, subcommand_rows_of};
ghost use Rattle.command_words.specs.Asks.{AreLimits, AreLineOptions, IsCheckedRequest, IsQuietRequest, IsWaitRequest, FormText, form_text, IsForm};
ghost use Rattle.command_words.specs.Asks.{IsRequestMet, IsNoRun, AreConditions};
ghost use Rattle.command_words.specs.Asks.{IsNoCheck, IsNoServe, IsNoSchema, IsNoExplain, IsNoDeckList};
ghost use Rattle.command_words.specs.Asks.{IsNoList, IsNoCobol, IsNoLoad, IsNoStat, IsNoRunOrList};
ghost use Rattle.command_words.specs.Asks.{IsNoSalvage, IsNoCopy, IsNoRecords, IsNone, IsSalvageForm};

use crate::form_words::FormWords;
use crate::limits::Limits;
use crate::line_options::LineOptions;
use crate::request::Request;
use clap::ArgMatches;
use std::alloc::{AllocError, Global};

/// The matches of this subcommand, if it was met.
fn met<'m, 'a>(matches: &'m ArgMatches<'a>, name: &str) -> Option<&'m ArgMatches<'a>>
    ensures some { IfSome result (λ found.
        subcommand_rows_of matches.now ≡ Some (name.now, rows_of (found_of found.now))) }
    ensures none { result ≡ None → (rows : List Row)
        → subcommand_rows_of matches.now ≡ Some (name.now, rows) → ⊥ }
{
    matches.subcommand_matches(name)
}

/// The limits of a run, of a session, of a load or of a copy.
fn limits_of(files: &ArgMatches<'_>) -> Option<Limits>
    ensures some { IfSome result (λ limits. AreLimits
        (rows_of (found_of files.now)) limits.pages limits.frames.value) }
    ensures none { result ≡ None → (pages frames : ℕ)
        → AreLimits (rows_of (found_of files.now)) pages frames → ⊥ }
{
    let pages = files.get_one("pages")?;
    let frames = files.get_one("frames")?;
    Limits::of(pages, frames)
}

/// How many seconds a lock is to be waited for.
fn wait_of(locking: &ArgMatches<'_>) -> Option<u32>
    ensures some { IfSome result (IsWaitRequest (rows_of (found_of locking.now))) }
    ensures none { result ≡ None → (seconds : ℕ)
        → IsWaitRequest (rows_of (found_of locking.now)) seconds → ⊥ }
{
    locking.get_one("wait")
}

/// The run that the matches ask for, if they ask for one.
fn run_of<'a>(matches: &ArgMatches<'a>) -> Option<Request<'a>>
    ensures some { IfSome result (IsRequestMet (subcommand_rows_of matches.now)) }
    ensures none { result ≡ None → IsNoRun (subcommand_rows_of matches.now) }
{
    let run = met(matches, "run")?;
    let deck = run.get_str("deck")?;
    let folder = run.get_str("folder")?;
    let limits = limits_of(run)?;
    let strict = run.get_one("strict")?;
    let wait = wait_of(run)?;
    Some(Request::Run {
        deck,
        folder,
        limits,
        strict,
        wait,
    })
}

/// Whether it is asked that no progress is shown.
fn quiet_of(long: &ArgMatches<'_>) -> Option<bool>
    ensures some { IfSome result (IsQuietRequest (rows_of (found_of long.now))) }
    ensures none { result ≡ None → (quiet : Bool) → IsQuietRequest (rows_of (found_of long.now)) quiet → ⊥ }
{
    long.get_one("quiet")
}

/// Whether it is asked that a file is checked before it is listed.
fn checked_of(list: &ArgMatches<'_>) -> Option<bool>
    ensures some { IfSome result (IsCheckedRequest (rows_of (found_of list.now))) }
    ensures none { result ≡ None → (checked : Bool) → IsCheckedRequest (rows_of (found_of list.now)) checked → ⊥ }
{
    list.get_one("checked")
}

/// The checks that the matches ask for, if they ask for some.
fn check_of<'a>(alloc: Global, matches: &ArgMatches<'a>) -> Result<Option<Request<'a>>, AllocError>
    ensures some { IfOk result (λ found. IfSome found (IsRequestMet (subcommand_rows_of matches.now))) }
    ensures none { IfOk result (λ found. found ≡ None → IsNoCheck (subcommand_rows_of matches.now)) }
{
    let check = match met(matches, "check") {
        Some(check) => check,
        None => return Ok(None),
    };
    let quiet = match quiet_of(check) {
        Some(quiet) => quiet,
        None => return Ok(None),
    };
    let wait = match wait_of(check) {
        Some(wait) => wait,
        None => return Ok(None),
    };
    match check.get_strs("file") {
        Some(files) => {
            let files = files.to_vec(alloc)?;
            Ok(Some(Request::Check { files, quiet, wait }))
        }
        None => Ok(None),
    }
}

/// The session that the matches ask for, if they ask for one.
fn serve_of<'a>(matches: &ArgMatches<'a>) -> Option<Request<'a>>
    ensures some { IfSome result (IsRequestMet (subcommand_rows_of matches.now)) }
    ensures none { result ≡ None → IsNoServe (subcommand_rows_of matches.now) }
{
    let serve = met(matches, "serve")?;
    let folder = serve.get_str("folder")?;
    let limits = limits_of(serve)?;
    let wait = wait_of(serve)?;
    Some(Request::Serve {
        folder,
        limits,
        wait,
    })
}

/// The schema that the matches ask for, if they ask for one.
fn schema_of<'a>(matches: &ArgMatches<'a>) -> Option<Request<'a>>
    ensures some { IfSome result (IsRequestMet (subcommand_rows_of matches.now)) }
    ensures none { result ≡ None → IsNoSchema (subcommand_rows_of matches.now) }
{
    let schema = met(matches, "schema")?;
    let file = schema.get_str("file")?;
    Some(Request::Schema {
        file,
        deck: schema.get_str("deck"),
        name: schema.get_str("name"),
    })
}

/// The explanation that the matches ask for, if they ask for one.
fn explain_of<'a>(matches: &ArgMatches<'a>) -> Option<Request<'a>>
    ensures some { IfSome result (IsRequestMet (subcommand_rows_of matches.now)) }
    ensures none { result ≡ None → IsNoExplain (subcommand_rows_of matches.now) }
{
    let explain = met(matches, "explain")?;
    let kind = explain.get_str("kind")?;
    let number = explain.get_str("number")?;
    Some(Request::Explain { kind, number })
}

/// The deck whose list the matches ask for, if they ask for one.
fn deck_of<'a>(matches: &ArgMatches<'a>) -> Option<Request<'a>>
    ensures some { IfSome result (IsRequestMet (subcommand_rows_of matches.now)) }
    ensures none { result ≡ None → IsNoDeckList (subcommand_rows_of matches.now) }
{
    let listed = met(matches, "deck")?;
    let deck = listed.get_str("deck")?;
    Some(Request::Deck { deck })
}

/// The words that ask for the form of a list.
fn form_of<'a>(list: &ArgMatches<'a>) -> Option<FormWords<'a>>
    ensures some { IfSome result (λ form. IsForm (rows_of (found_of list.now)) (form_text form)) }
    ensures none { result ≡ None → (form : FormText) → IsForm (rows_of (found_of list.now)) form → ⊥ }
{
    let kind = list.get_str("as")?;
    let encoding = list.get_str("encoding")?;
    Some(FormWords {
        kind,
        encoding,
        cut: list.get_str("cut"),
        deck: list.get_str("deck"),
        name: list.get_str("name"),
    })
}

/// The conditions that the records of a list have to meet.
fn conditions_of<'a>(alloc: Global, list: &ArgMatches<'a>) -> Result<Vec<&'a str>, AllocError>
    ensures { IfOk result (λ words. AreConditions (rows_of (found_of list.now)) (map (λ word. word.now) words.items)) }
{
    match list.get_strs("where") {
        Some(words) => {
            let conditions = words.to_vec(alloc)?;
            Ok(conditions)
        }
        None => Ok(Vec::new(alloc)),
    }
}

/// The list that the matches of `list` ask for, with these conditions, if they ask for one.
fn listed<'a>(list: &ArgMatches<'a>, conditions: Vec<&'a str>) -> Option<Request<'a>>
    requires { AreConditions (rows_of (found_of list.now)) (map (λ word. word.now) conditions.items) }
    ensures some { (met : Option (Text × List Row)) → met ≡ Some (codes "list", rows_of (found_of list.now))
        → IfSome result (IsRequestMet met) }
    ensures none { result ≡ None → (met : Option (Text × List Row))
        → met ≡ Some (codes "list", rows_of (found_of list.now)) → IsNoList met }
{
    let file = list.get_str("file")?;
    let key = list.get_str("key")?;
    let first = list.get_one("first")?;
    let form = form_of(list)?;
    let checked = checked_of(list)?;
    let quiet = quiet_of(list)?;
    let wait = wait_of(list)?;
    Some(Request::List {
        file,
        key,
        from: list.get_str("from"),
        to: list.get_str("to"),
        first,
        conditions,
        form,
        checked,
        quiet,
        wait,
    })
}

/// The list that the matches ask for, if they ask for one.
fn list_of<'a>(alloc: Global, matches: &ArgMatches<'a>) -> Result<Option<Request<'a>>, AllocError>
    ensures some { IfOk result (λ found. IfSome found (IsRequestMet (subcommand_rows_of matches.now))) }
    ensures none { IfOk result (λ found. found ≡ None → IsNoList (subcommand_rows_of matches.now)) }
{
    let Some(list) = met(matches, "list") else {
        return Ok(None);
    };
    match conditions_of(alloc, list) {
        Ok(conditions) => Ok(listed(list, conditions)),
        Err(error) => Err(error),
    }
}

/// The program in COBOL that the matches ask for, if they ask for one.
fn cobol_of<'a>(matches: &ArgMatches<'a>) -> Option<Request<'a>>
    ensures some { IfSome result (IsRequestMet (subcommand_rows_of matches.now)) }
    ensures none { result ≡ None → IsNoCobol (subcommand_rows_of matches.now) }
{
    let cobol = met(matches, "cobol")?;
    let deck = cobol.get_str("deck")?;
    let fixed = cobol.get_one("fixed")?;
    Some(Request::Cobol { deck, fixed })
}

/// Which lines of a text are to be loaded, and in how much memory.
fn line_options_of(load: &ArgMatches<'_>) -> Option<LineOptions>
    ensures some { IfSome result (AreLineOptions (rows_of (found_of load.now))) }
    ensures none { result ≡ None → (lines : LineOptions)
        → AreLineOptions (rows_of (found_of load.now)) lines → ⊥ }
{
    let skip = load.get_one("skip")?;
    let keep_going = load.get_one("keep-going")?;
    let replace = load.get_one("replace")?;
    let pad = load.get_one("pad")?;
    let sort = load.get_one("sort")?;
    let memory = load.get_one("memory")?;
    Some(LineOptions {
        skip,
        keep_going,
        replace,
        pad,
        sort,
        memory,
    })
}

/// The load that the matches ask for, if they ask for one.
fn load_of<'a>(matches: &ArgMatches<'a>) -> Option<Request<'a>>
    ensures some { IfSome result (IsRequestMet (subcommand_rows_of matches.now)) }
    ensures none { result ≡ None → IsNoLoad (subcommand_rows_of matches.now) }
{
    let load = met(matches, "load")?;
    let deck = load.get_str("deck")?;
    let folder = load.get_str("folder")?;
    let file = load.get_str("file")?;
    let text = load.get_str("text")?;
    let form = load.get_str("as")?;
    let encoding = load.get_str("encoding")?;
    let into = load.get_one("into")?;
    let limits = limits_of(load)?;
    let lines = line_options_of(load)?;
    let quiet = quiet_of(load)?;
    Some(Request::Load {
        deck,
        folder,
        file,
        text,
        form,
        encoding,
        into,
        limits,
        lines,
        rejects: load.get_str("rejects"),
        quiet,
    })
}

/// The count that the matches ask for, if they ask for one.
fn stat_of<'a>(matches: &ArgMatches<'a>) -> Option<Request<'a>>
    ensures some { IfSome result (IsRequestMet (subcommand_rows_of matches.now)) }
    ensures none { result ≡ None → IsNoStat (subcommand_rows_of matches.now) }
{
    let stat = met(matches, "stat")?;
    let file = stat.get_str("file")?;
    Some(Request::Stat { file })
}

/// The words that ask for the form of a salvage, which cuts no columns.
fn salvage_form_of<'a>(salvage: &ArgMatches<'a>) -> Option<FormWords<'a>>
    ensures some { IfSome result (λ form. IsSalvageForm (rows_of (found_of salvage.now)) (form_text form)) }
    ensures none { result ≡ None → (form : FormText)
        → IsSalvageForm (rows_of (found_of salvage.now)) form → ⊥ }
{
    let written = salvage.get_str("as")?;
    let encoding = salvage.get_str("encoding")?;
    Some(FormWords {
        kind: written,
        encoding,
        cut: None,
        deck: salvage.get_str("deck"),
        name: salvage.get_str("name"),
    })
}

/// The salvage that the matches ask for, if they ask for one.
fn salvage_of<'a>(matches: &ArgMatches<'a>) -> Option<Request<'a>>
    ensures some { IfSome result (IsRequestMet (subcommand_rows_of matches.now)) }
    ensures none { result ≡ None → IsNoSalvage (subcommand_rows_of matches.now) }
{
    let salvage = met(matches, "salvage")?;
    let file = salvage.get_str("file")?;
    let form = salvage_form_of(salvage)?;
    let places = salvage.get_one("places")?;
    Some(Request::Salvage { file, form, places })
}

/// The copy that the matches ask for, if they ask for one.
fn copy_of<'a>(matches: &ArgMatches<'a>) -> Option<Request<'a>>
    ensures some { IfSome result (IsRequestMet (subcommand_rows_of matches.now)) }
    ensures none { result ≡ None → IsNoCopy (subcommand_rows_of matches.now) }
{
    let copy = met(matches, "copy")?;
    let file = copy.get_str("file")?;
    let new = copy.get_str("new")?;
    let key = copy.get_one("key")?;
    let limits = limits_of(copy)?;
    Some(Request::Copy {
        file,
        new,
        key,
        limits,
    })
}

/// A run, a session, a schema, an explanation or the list of a deck that the matches ask for, if
/// they ask for one.
fn run_or_list_of<'a>(matches: &ArgMatches<'a>) -> Option<Request<'a>>
    ensures some { IfSome result (IsRequestMet (subcommand_rows_of matches.now)) }
    ensures none { result ≡ None → IsNoRunOrList (subcommand_rows_of matches.now) }
{
    if let Some(run) = run_of(matches) {
        return Some(run);
    }
    if let Some(serve) = serve_of(matches) {
        return Some(serve);
    }
    if let Some(schema) = schema_of(matches) {
        return Some(schema);
    }
    if let Some(explain) = explain_of(matches) {
        return Some(explain);
    }
    deck_of(matches)
}

/// A program in COBOL, a load, a count, a salvage or a copy that the matches ask for, if they ask for
/// one.
fn records_of<'a>(matches: &ArgMatches<'a>) -> Option<Request<'a>>
    ensures some { IfSome result (IsRequestMet (subcommand_rows_of matches.now)) }
    ensures none { result ≡ None → IsNoRecords (subcommand_rows_of matches.now) }
{
    if let Some(cobol) = cobol_of(matches) {
        return Some(cobol);
    }
    if let Some(load) = load_of(matches) {
        return Some(load);
    }
    if let Some(stat) = stat_of(matches) {
        return Some(stat);
    }
    if let Some(salvage) = salvage_of(matches) {
        return Some(salvage);
    }
    copy_of(matches)
}

/// What the matches ask for.
pub fn request_of<'a>(
    alloc: Global,
    matches: &ArgMatches<'a>,
) -> Result<Option<Request<'a>>, AllocError>
    ensures some { IfOk result (λ found. IfSome found (IsRequestMet (subcommand_rows_of matches.now))) }
    ensures none { IfOk result (λ found. found ≡ None → IsNone (subcommand_rows_of matches.now)) }
{
    if let Some(request) = run_or_list_of(matches) {
        return Ok(Some(request));
    }
    if let Some(request) = records_of(matches) {
        return Ok(Some(request));
    }
    match list_of(alloc, matches) {
        Ok(Some(list)) => Ok(Some(list)),
        Ok(None) => check_of(alloc, matches),
        Err(error) => Err(error),
    }
}
