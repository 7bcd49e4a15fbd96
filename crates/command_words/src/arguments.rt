//! The arguments of the subcommands.
ghost use Rattle.std.specs.Prelude.{codes};
ghost use Rattle.command_words.specs.CommandLine.{word_rule, words_rule, option_rule, text_rule, usual_rule};
ghost use Rattle.command_words.specs.CommandLine.{name_rule, flag_rule, number_rule, first_rule, wait_rule, skip_rule};
ghost use Rattle.command_words.specs.CommandLine.{where_rule, key_rule, key_word_rule, memory_rule, encoding_rule};
ghost use Rattle.command_words.specs.Commands.{HasRule};

use clap::builder::ValueParser;
use clap::{Arg, ArgAction};
use std::alloc::Global;

/// An option that is a number within these bounds.
pub fn number<'a>(
    alloc: Global,
    name: &'a str,
    least: u64,
    most: u64,
    default: &'a str,
    help: &'a str,
) -> Arg<'a>
    ensures { HasRule (number_rule name.entry.now least most default.entry.now) result }
{
    usual(alloc, name, "N", default, help).value_parser(ValueParser::unsigned(least, most))
}

/// The option `--key` of a copy: the number of a key.
pub fn key<'a>(alloc: Global, help: &'a str) -> Arg<'a>
    ensures { HasRule key_rule result }
{
    number(alloc, "key", 0, 8, "0", help)
}

/// The option `--key` of a list: the number of a key, or its name.
pub fn key_word<'a>(alloc: Global, help: &'a str) -> Arg<'a>
    ensures { HasRule key_word_rule result }
{
    usual(alloc, "key", "KEY", "0", help)
}

/// The option `--encoding`.
pub fn encoding<'a>(alloc: Global, help: &'a str) -> Arg<'a>
    ensures { HasRule encoding_rule result }
{
    usual(alloc, "encoding", "ENCODING", "ascii", help)
}

/// The option `--first`: the greatest number stands for no bound, so help does not show it.
pub fn first<'a>(alloc: Global) -> Arg<'a>
    ensures { HasRule first_rule result }
{
    let first = number(
        alloc,
        "first",
        0,
        18_446_744_073_709_551_615,
        "18446744073709551615",
        "The most records that are listed; where it is not given, all of them",
    );
    first.hide_default_value(true)
}

/// The option `--where`, which may be given several times.
pub fn conditions<'a>(alloc: Global) -> Arg<'a>
    ensures { HasRule where_rule result }
{
    let condition = text(
        alloc,
        "where",
        "ITEM=VALUE",
        "Lists only records of which this holds; also with '<', '<=', '>' or '>='; may be given several times",
    );
    condition.action(ArgAction::Append)
}

/// The option `--skip`.
pub fn skip<'a>(alloc: Global) -> Arg<'a>
    ensures { HasRule skip_rule result }
{
    number(
        alloc,
        "skip",
        0,
        18_446_744_073_709_551_615,
        "0",
        "How many lines behind the header are passed over, unread",
    )
}

/// The option `--memory`.
pub fn memory<'a>(alloc: Global) -> Arg<'a>
    ensures { HasRule memory_rule result }
{
    let memory = number(
        alloc,
        "memory",
        0,
        65_536,
        "256",
        "How much memory the entries of the keys of a new file may take while they are sorted, from 0 to 65,536 MiB",
    );
    memory.value_name("MIB")
}

/// The option `--wait`.
pub fn wait<'a>(alloc: Global) -> Arg<'a>
    ensures { HasRule wait_rule result }
{
    let wait = number(
        alloc,
        "wait",
        0,
        86_400,
        "0",
        "How many seconds a file that another run has is waited for, from 0 to 86,400",
    );
    wait.value_name("SECONDS")
}

/// A word that has to be given.
pub fn word<'a>(alloc: Global, name: &'a str, value: &'a str, help: &'a str) -> Arg<'a>
    ensures { HasRule (word_rule name.entry.now) result }
{
    Arg::new(alloc, name)
        .value_name(value)
        .required(true)
        .help(help)
}

/// An option that has to be given.
pub fn option<'a>(alloc: Global, name: &'a str, value: &'a str, help: &'a str) -> Arg<'a>
    ensures { HasRule (option_rule name.entry.now) result }
{
    word(alloc, name, value, help).long(name)
}

/// The option of a folder.
pub fn folder<'a>(alloc: Global, help: &'a str) -> Arg<'a>
    ensures { HasRule (option_rule (codes "folder")) result }
{
    option(alloc, "folder", "DIR", help)
}

/// The word of a deck.
pub fn deck<'a>(alloc: Global) -> Arg<'a>
    ensures { HasRule (word_rule (codes "deck")) result }
{
    word(
        alloc,
        "deck",
        "DECK",
        "The file of the deck, of at most 1,048,576 bytes, or '-' for standard input",
    )
}

/// Words of which at least one has to be given.
pub fn words<'a>(alloc: Global, name: &'a str, value: &'a str, help: &'a str) -> Arg<'a>
    ensures { HasRule (words_rule name.entry.now) result }
{
    word(alloc, name, value, help).num_args(1..)
}

/// An option that is a text.
pub fn text<'a>(alloc: Global, name: &'a str, value: &'a str, help: &'a str) -> Arg<'a>
    ensures { HasRule (text_rule name.entry.now) result }
{
    Arg::new(alloc, name)
        .long(name)
        .value_name(value)
        .help(help)
}

/// An option that is a text, and this one where it is not given.
pub fn usual<'a>(
    alloc: Global,
    name: &'a str,
    value: &'a str,
    usual: &'a str,
    help: &'a str,
) -> Arg<'a>
    ensures { HasRule (usual_rule name.entry.now usual.entry.now) result }
{
    text(alloc, name, value, help).default_value(usual)
}

/// The option `--file`, beside a word `file`.
pub fn name<'a>(alloc: Global) -> Arg<'a>
    ensures { HasRule name_rule result }
{
    text(
        alloc,
        "name",
        "NAME",
        "The file, by its name in that deck: the one behind SELECT",
    )
    .long("file")
}

/// An option without a value.
pub fn flag<'a>(alloc: Global, name: &'a str, help: &'a str) -> Arg<'a>
    ensures { HasRule (flag_rule name.entry.now) result }
{
    Arg::new(alloc, name)
        .long(name)
        .action(ArgAction::SetTrue)
        .help(help)
}
