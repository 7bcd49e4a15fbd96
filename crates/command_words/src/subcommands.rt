//! The subcommands, with their words and options.
ghost use Rattle.std.specs.Prelude.{◌≡◌, IfOk};
ghost use Rattle.clap.specs.Words.{App, Rule, Shape, app_of, with_rule, with_subcommand};
ghost use Rattle.clap.specs.Simple.{new_shape};
ghost use Rattle.command_words.specs.Commands.{HasRule, IsApp, HasShape};
ghost use Rattle.command_words.specs.Commands.{with_files, with_limits, with_checked, with_quiet, with_wait};
ghost use Rattle.command_words.specs.Commands.{with_deck, with_values, with_bounds, with_kind, with_form};
ghost use Rattle.command_words.specs.Commands.{with_file_words};
ghost use Rattle.command_words.specs.Commands.{with_text, with_rejects, with_line_options, with_salvage_form};
ghost use Rattle.command_words.specs.CommandLine.{run_shape, check_shape, serve_shape, schema_shape};
ghost use Rattle.command_words.specs.CommandLine.{explain_shape, deck_shape, list_shape, cobol_shape};
ghost use Rattle.command_words.specs.CommandLine.{load_shape, stat_shape, salvage_shape, copy_shape};
ghost use Rattle.command_words.specs.CommandLine.{versioned_shape, program_shape, runs_app, schemas_app};
ghost use Rattle.command_words.specs.CommandLine.{lists_app, records_app, loads_app, salvages_app, program_app};

use crate::arguments::{
    conditions, deck, encoding, first, flag, folder, key, key_word, memory, name, number, option,
    skip, text, usual, wait, word, words,
};
use crate::help::{
    ANSWERS, COBOL, COPIED, COUNTED, EXPLAINED, LISTED, LOADED, REASONS, RECORDS, SALVAGED, SCHEMA,
    SERVING, VERSION,
};
use clap::{Arg, Command};
use std::alloc::{AllocError, Global};

/// The forms in which records are written.
const KINDS: &str = "How they are written: 'text', 'csv' or 'json'";

/// The encodings in which records are written.
const ENCODINGS: &str =
    "How bytes a0 to ff are written: 'ascii', as escapes, or 'utf-8', as the characters of Latin-1";

/// A subcommand without its words: its name, what it does, and what is told below its help.
fn named<'a>(alloc: Global, name: &'a str, about: &'a str, after: &'a str) -> Command<'a>
    ensures { HasShape (new_shape name.entry.now) result }
{
    Command::new(alloc, name).about(about).after_help(after)
}

/// A command with this argument too, where memory was there for what it has so far.
fn with_argument<'a>(
    command: Result<Command<'a>, AllocError>,
    argument: Arg<'a>,
) -> Result<Command<'a>, AllocError>
    ensures { (app : App) (rule : Rule) → IfOk command.entry (IsApp app) → HasRule rule argument.entry
        → IfOk result (IsApp (with_rule app rule)) }
{
    let begun = command?;
    begun.arg(argument)
}

/// `run` or `load` with its deck and its folder.
fn with_files<'a>(
    alloc: Global,
    run: Result<Command<'a>, AllocError>,
) -> Result<Command<'a>, AllocError>
    ensures { (app : App) → IfOk run.entry (IsApp app) → IfOk result (IsApp (with_files app)) }
{
    let begun = with_argument(run, deck(alloc));
    with_argument(
        begun,
        folder(alloc, "The folder in which the deck's files stay"),
    )
}

/// `run`, `serve`, `load` or `copy` with its limits: so many frames where none are given.
fn with_limits<'a>(
    alloc: Global,
    files: Result<Command<'a>, AllocError>,
    usual_frames: &'a str,
) -> Result<Command<'a>, AllocError>
    ensures { (app : App) → IfOk files.entry (IsApp app)
        → IfOk result (IsApp (with_limits usual_frames.entry.now app)) }
{
    let pages = number(
        alloc,
        "pages",
        16,
        4_294_967_295,
        "1048576",
        "The most pages of 4,096 bytes that a file may have, from 16 to 4,294,967,295",
    );
    let frames = number(
        alloc,
        "frames",
        1,
        4096,
        usual_frames,
        "How many pages of an open file are held in memory at most, from 1 to 4,096",
    );
    let begun = with_argument(files, pages);
    with_argument(begun, frames)
}

/// `check`, `list` or `load` with the option by which it shows no progress.
fn with_quiet<'a>(
    alloc: Global,
    long: Result<Command<'a>, AllocError>,
) -> Result<Command<'a>, AllocError>
    ensures { (app : App) → IfOk long.entry (IsApp app) → IfOk result (IsApp (with_quiet app)) }
{
    let quiet = flag(
        alloc,
        "quiet",
        "Shows no progress; without it a terminal shows some on standard error, after two seconds",
    );
    with_argument(long, quiet)
}

/// `list` with the option by which it checks the file first.
fn with_checked<'a>(
    alloc: Global,
    list: Result<Command<'a>, AllocError>,
) -> Result<Command<'a>, AllocError>
    ensures { (app : App) → IfOk list.entry (IsApp app) → IfOk result (IsApp (with_checked app)) }
{
    let checked = flag(
        alloc,
        "checked",
        "Checks the whole file first, as 'cobix check' does, and reads it into memory",
    );
    with_argument(list, checked)
}

/// `run`, `check`, `serve` or `list` with the option by which it waits for locks.
fn with_wait<'a>(
    alloc: Global,
    locking: Result<Command<'a>, AllocError>,
) -> Result<Command<'a>, AllocError>
    ensures { (app : App) → IfOk locking.entry (IsApp app) → IfOk result (IsApp (with_wait app)) }
{
    with_argument(locking, wait(alloc))
}

/// `run`, with its words and options.
fn run_command<'a>(alloc: Global) -> Result<Command<'a>, AllocError>
    ensures { IfOk result (HasShape run_shape) }
{
    let run = named(
        alloc,
        "run",
        "Runs a deck, and writes its transcript to standard output",
        ANSWERS,
    );
    let strict = flag(
        alloc,
        "strict",
        "Ends with 1 where a line of the transcript has 24, 30, 90, 91 or 92",
    );
    let limited = with_limits(alloc, with_files(alloc, Ok(run)), "64");
    with_wait(alloc, with_argument(limited, strict))
}

/// `check`.
fn check_command<'a>(alloc: Global) -> Result<Command<'a>, AllocError>
    ensures { IfOk result (HasShape check_shape) }
{
    let files = words(
        alloc,
        "file",
        "FILE",
        "The files that are checked; they are not changed",
    );
    let check = named(
        alloc,
        "check",
        "Checks whether files stand for records",
        REASONS,
    );
    with_wait(alloc, with_quiet(alloc, check.arg(files)))
}

/// `serve`.
fn serve_command<'a>(alloc: Global) -> Result<Command<'a>, AllocError>
    ensures { IfOk result (HasShape serve_shape) }
{
    let serve = named(
        alloc,
        "serve",
        "Performs the verbs that frames on standard input ask for",
        SERVING,
    );
    let folder = folder(alloc, "The folder in which the files stay");
    with_wait(alloc, with_limits(alloc, serve.arg(folder), "1024"))
}

/// `list`, `schema` or `salvage` with a deck, and a file of it.
fn with_deck<'a>(
    alloc: Global,
    listed: Result<Command<'a>, AllocError>,
    help: &'a str,
) -> Result<Command<'a>, AllocError>
    ensures { (app : App) → IfOk listed.entry (IsApp app) → IfOk result (IsApp (with_deck app)) }
{
    let begun = with_argument(listed, text(alloc, "deck", "DECK", help));
    with_argument(begun, name(alloc))
}

/// `schema`.
fn schema_command<'a>(alloc: Global) -> Result<Command<'a>, AllocError>
    ensures { IfOk result (HasShape schema_shape) }
{
    let file = word(
        alloc,
        "file",
        "FILE",
        "The file whose first page is read; it is not changed",
    );
    let schema = named(
        alloc,
        "schema",
        "Tells the lengths, the keys and the counts of a file, by its first page",
        SCHEMA,
    );
    with_deck(
        alloc,
        schema.arg(file),
        "Tells how the schema differs from that of a file of the deck in this file, or '-' for standard \
         input",
    )
}

/// `explain`.
fn explain_command<'a>(alloc: Global) -> Result<Command<'a>, AllocError>
    ensures { IfOk result (HasShape explain_shape) }
{
    let kind = word(alloc, "kind", "KIND", "'status', 'fault' or 'unsound'");
    let number = word(alloc, "number", "NUMBER", "Which one, as it is written");
    let explain = named(
        alloc,
        "explain",
        "Explains a status, a fault of a deck, or a reason of a check",
        EXPLAINED,
    );
    with_argument(explain.arg(kind), number)
}

/// `deck`.
fn deck_command<'a>(alloc: Global) -> Result<Command<'a>, AllocError>
    ensures { IfOk result (HasShape deck_shape) }
{
    let listed = named(
        alloc,
        "deck",
        "Lists the files, the verbs and the paragraphs of a deck",
        LISTED,
    );
    listed.arg(deck(alloc))
}

/// The first and the last value of a list.
fn with_values<'a>(
    alloc: Global,
    list: Result<Command<'a>, AllocError>,
) -> Result<Command<'a>, AllocError>
    ensures { (app : App) → IfOk list.entry (IsApp app) → IfOk result (IsApp (with_values app)) }
{
    let from = text(alloc, "from", "V", "The first value, or its first bytes");
    let to = text(alloc, "to", "V", "The last value, or its first bytes");
    let begun = with_argument(list, from);
    with_argument(begun, to)
}

/// The bounds of a list.
fn with_bounds<'a>(
    alloc: Global,
    list: Result<Command<'a>, AllocError>,
) -> Result<Command<'a>, AllocError>
    ensures { (app : App) → IfOk list.entry (IsApp app) → IfOk result (IsApp (with_bounds app)) }
{
    let key = key_word(
        alloc,
        "The key in whose order they are listed: 0 is the prime key, 1 to 8 the alternate keys; or, with \
         '--deck' and '--file', the name of a key",
    );
    with_values(alloc, with_argument(list, key))
}

/// `list`, `load` or `salvage` with a kind of form, and an encoding.
fn with_kind<'a>(
    alloc: Global,
    formed: Result<Command<'a>, AllocError>,
    kinds: &'a str,
    encodings: &'a str,
) -> Result<Command<'a>, AllocError>
    ensures { (app : App) → IfOk formed.entry (IsApp app) → IfOk result (IsApp (with_kind app)) }
{
    let begun = with_argument(formed, usual(alloc, "as", "FORM", "text", kinds));
    with_argument(begun, encoding(alloc, encodings))
}

/// The form of a list.
fn with_form<'a>(
    alloc: Global,
    list: Result<Command<'a>, AllocError>,
) -> Result<Command<'a>, AllocError>
    ensures { (app : App) → IfOk list.entry (IsApp app) → IfOk result (IsApp (with_form app)) }
{
    let cut = text(
        alloc,
        "cut",
        "N,N..",
        "Begins a column at each of these offsets, and at 0",
    );
    let formed = with_kind(alloc, list, KINDS, ENCODINGS);
    with_deck(
        alloc,
        with_argument(formed, cut),
        "Takes the items of columns and conditions, and the name of a key, from a file of the deck in this file, \
         or '-' for standard input",
    )
}

/// `list`.
fn list_command<'a>(alloc: Global) -> Result<Command<'a>, AllocError>
    ensures { IfOk result (HasShape list_shape) }
{
    let file = word(
        alloc,
        "file",
        "FILE",
        "The file whose records are listed; it is not changed",
    );
    let list = named(
        alloc,
        "list",
        "Lists the records of a file, a line each, in the order of a key",
        RECORDS,
    );
    let bounded = with_bounds(alloc, list.arg(file));
    let chosen = with_argument(with_argument(bounded, first(alloc)), conditions(alloc));
    let formed = with_form(alloc, chosen);
    with_wait(alloc, with_quiet(alloc, with_checked(alloc, formed)))
}

/// `cobol`.
fn cobol_command<'a>(alloc: Global) -> Result<Command<'a>, AllocError>
    ensures { IfOk result (HasShape cobol_shape) }
{
    let fixed = flag(
        alloc,
        "fixed",
        "Writes it in columns 8 to 72, and not in free form",
    );
    let cobol = named(
        alloc,
        "cobol",
        "Writes a deck as a COBOL program that displays the same transcript",
        COBOL,
    );
    with_argument(cobol.arg(deck(alloc)), fixed)
}

/// A load with the name of its file, and its text.
fn with_names<'a>(
    alloc: Global,
    load: Result<Command<'a>, AllocError>,
) -> Result<Command<'a>, AllocError>
    ensures { (app : App) → IfOk load.entry (IsApp app) → IfOk result (IsApp (with_file_words app)) }
{
    let file = option(
        alloc,
        "file",
        "NAME",
        "The file, by its name in the deck: the one behind SELECT",
    );
    let text = word(
        alloc,
        "text",
        "TEXT",
        "The file of the lines, or '-' for standard input",
    );
    let begun = with_argument(load, file);
    with_argument(begun, text)
}

/// The options of a load, and its text.
fn with_text<'a>(
    alloc: Global,
    load: Result<Command<'a>, AllocError>,
) -> Result<Command<'a>, AllocError>
    ensures { (app : App) → IfOk load.entry (IsApp app) → IfOk result (IsApp (with_text app)) }
{
    let into = flag(
        alloc,
        "into",
        "Writes them into the file that is there; where it is not given, a new file is made",
    );
    let formed = with_kind(
        alloc,
        with_names(alloc, load),
        "How the lines are written: 'text', 'csv' or 'json'",
        "How their bytes a0 to ff are written: 'ascii', as escapes, or 'utf-8', as the characters of Latin-1",
    );
    with_argument(formed, into)
}

/// A load with the options by which it skips lines, keeps going, and writes those that are rejected.
fn with_rejects<'a>(
    alloc: Global,
    load: Result<Command<'a>, AllocError>,
) -> Result<Command<'a>, AllocError>
    ensures { (app : App) → IfOk load.entry (IsApp app) → IfOk result (IsApp (with_rejects app)) }
{
    let keep_going = flag(
        alloc,
        "keep-going",
        "Tells of a line that is rejected, and goes on behind it",
    );
    let rejects = text(
        alloc,
        "rejects",
        "FILE",
        "With '--keep-going': a new file, in which the lines that are rejected are written",
    );
    let skipping = with_argument(load, skip(alloc));
    let going = with_argument(skipping, keep_going);
    with_argument(going, rejects)
}

/// A load with these, and the options by which it replaces records, fills up values, sorts lines, and takes
/// memory.
fn with_line_options<'a>(
    alloc: Global,
    load: Result<Command<'a>, AllocError>,
) -> Result<Command<'a>, AllocError>
    ensures { (app : App) → IfOk load.entry (IsApp app) → IfOk result (IsApp (with_line_options app)) }
{
    let replace = flag(
        alloc,
        "replace",
        "With '--into': where a record has the prime value of a line already, that line replaces it",
    );
    let pad = flag(
        alloc,
        "pad",
        "Fills up a value that is shorter than its item: spaces behind it, zeros before digits",
    );
    let sort = flag(
        alloc,
        "sort",
        "Sorts the lines by the prime values of their records, and loads the sorted text",
    );
    let replacing = with_argument(with_rejects(alloc, load), replace);
    let padding = with_argument(replacing, pad);
    let sorting = with_argument(padding, sort);
    with_argument(sorting, memory(alloc))
}

/// `load`.
fn load_command<'a>(alloc: Global) -> Result<Command<'a>, AllocError>
    ensures { IfOk result (HasShape load_shape) }
{
    let load = named(
        alloc,
        "load",
        "Writes the lines of a text as records into a file",
        LOADED,
    );
    let written = with_text(alloc, with_files(alloc, Ok(load)));
    let lined = with_line_options(alloc, written);
    with_quiet(alloc, with_limits(alloc, lined, "64"))
}

/// `stat`.
fn stat_command<'a>(alloc: Global) -> Result<Command<'a>, AllocError>
    ensures { IfOk result (HasShape stat_shape) }
{
    let file = word(
        alloc,
        "file",
        "FILE",
        "The file whose pages are counted; it is not changed",
    );
    let stat = named(
        alloc,
        "stat",
        "Counts the pages of a file, its slots, and the levels of its trees",
        COUNTED,
    );
    stat.arg(file)
}

/// The form of a salvage, with places or without.
fn with_salvage_form<'a>(
    alloc: Global,
    salvage: Result<Command<'a>, AllocError>,
) -> Result<Command<'a>, AllocError>
    ensures { (app : App) → IfOk salvage.entry (IsApp app) → IfOk result (IsApp (with_salvage_form app)) }
{
    let places = flag(
        alloc,
        "places",
        "Writes the page and the slot of each record before its line",
    );
    let formed = with_kind(alloc, salvage, KINDS, ENCODINGS);
    with_argument(formed, places)
}

/// `salvage`.
fn salvage_command<'a>(alloc: Global) -> Result<Command<'a>, AllocError>
    ensures { IfOk result (HasShape salvage_shape) }
{
    let file = word(
        alloc,
        "file",
        "FILE",
        "The file whose records are salvaged; it is not changed",
    );
    let salvage = named(
        alloc,
        "salvage",
        "Lists the records that are left in a file that is refused",
        SALVAGED,
    );
    with_deck(
        alloc,
        with_salvage_form(alloc, salvage.arg(file)),
        "Takes the columns of a file of the deck in this file, or '-' for standard input, and, where the first \
         page of FILE is lost, the lengths and the keys",
    )
}

/// `copy`.
fn copy_command<'a>(alloc: Global) -> Result<Command<'a>, AllocError>
    ensures { IfOk result (HasShape copy_shape) }
{
    let file = word(
        alloc,
        "file",
        "FILE",
        "The file that is copied; it is not changed",
    );
    let new = word(
        alloc,
        "new",
        "NEW",
        "The path of the new file; its folder has to be there, and the file must not",
    );
    let copy = named(
        alloc,
        "copy",
        "Copies a file into a new one, in the order of its keys",
        COPIED,
    );
    let named = with_argument(copy.arg(file), new);
    let key = key(
        alloc,
        "The key in whose order the records lie: 0 is the prime key, 1 to 8 the alternate keys",
    );
    with_limits(alloc, with_argument(named, key), "64")
}

/// The program, with its version.
fn versioned<'a>(alloc: Global) -> Command<'a>
    ensures { HasShape versioned_shape result }
{
    Command::new(alloc, "cobix")
        .about("Indexed files of COBOL")
        .version(VERSION)
}

/// The program, before its subcommands.
fn program<'a>(alloc: Global) -> Command<'a>
    ensures { HasShape program_shape result }
{
    versioned(alloc).subcommand_required(true)
}

/// The program with this subcommand too, where memory was there for both.
fn with_added<'a>(
    program: Result<Command<'a>, AllocError>,
    added: Result<Command<'a>, AllocError>,
) -> Result<Command<'a>, AllocError>
    ensures { (app : App) (shape : Shape) → IfOk program.entry (IsApp app) → IfOk added.entry (HasShape shape)
        → IfOk result (IsApp (with_subcommand app shape)) }
{
    let whole = program?;
    let subcommand = added?;
    whole.subcommand(subcommand)
}

/// The program with the subcommands that run and check.
fn with_runs<'a>(alloc: Global) -> Result<Command<'a>, AllocError>
    ensures { IfOk result (IsApp runs_app) }
{
    let run = with_added(Ok(program(alloc)), run_command(alloc));
    with_added(run, check_command(alloc))
}

/// The program with these, and those that serve or tell the schema of a file.
fn with_schemas<'a>(alloc: Global) -> Result<Command<'a>, AllocError>
    ensures { IfOk result (IsApp schemas_app) }
{
    let serve = with_added(with_runs(alloc), serve_command(alloc));
    with_added(serve, schema_command(alloc))
}

/// The program with these, and those that explain a number or list a deck.
fn with_lists<'a>(alloc: Global) -> Result<Command<'a>, AllocError>
    ensures { IfOk result (IsApp lists_app) }
{
    let explain = with_added(with_schemas(alloc), explain_command(alloc));
    with_added(explain, deck_command(alloc))
}

/// The program with these, and those that list records or write a deck in COBOL.
fn with_records<'a>(alloc: Global) -> Result<Command<'a>, AllocError>
    ensures { IfOk result (IsApp records_app) }
{
    let list = with_added(with_lists(alloc), list_command(alloc));
    with_added(list, cobol_command(alloc))
}

/// The program with these, and those that load records or count what a file has.
fn with_loads<'a>(alloc: Global) -> Result<Command<'a>, AllocError>
    ensures { IfOk result (IsApp loads_app) }
{
    let load = with_added(with_records(alloc), load_command(alloc));
    with_added(load, stat_command(alloc))
}

/// The program with these, and the one that salvages records.
fn with_salvages<'a>(alloc: Global) -> Result<Command<'a>, AllocError>
    ensures { IfOk result (IsApp salvages_app) }
{
    with_added(with_loads(alloc), salvage_command(alloc))
}

/// The program with all its subcommands.
pub fn command<'a>(alloc: Global) -> Result<Command<'a>, AllocError>
    ensures { IfOk result (λ command. app_of command ≡ program_app) }
{
    with_added(with_salvages(alloc), copy_command(alloc))
}
