//! The tables of what is explained: in each row the number as it is written, and the text.

use crate::{faults, handler_status, reasons, statuses};

macro_rules! row {
    ([$kind:literal] $name:ident $number:literal [$first:literal $($more:literal)*] $text:literal) => {
        ($number, concat!($kind, " ", $number, "\n", $first, $("\n", $more,)* "\n", $text))
    };
}

macro_rules! rows_and_handler {
    ([$kind:literal] $($name:ident $number:literal [$first:literal $($more:literal)*] $text:literal)*) => {
        [
            $(($number, concat!($kind, " ", $number, "\n", $first, $("\n", $more,)* "\n", $text)),)*
            handler_status!(row $kind)
        ]
    };
}

macro_rules! rows {
    ([$kind:literal] $($name:ident $number:literal [$first:literal $($more:literal)*] $text:literal)*) => {
        [$(($number, concat!($kind, " ", $number, "\n", $first, $("\n", $more,)* "\n", $text))),*]
    };
}

macro_rules! lines {
    ([] $($name:ident $number:literal [$first:literal $($more:literal)*] $text:literal)*) => {
        [$(($number, concat!($first, $(" ", $more,)*))),*]
    };
}

macro_rules! numbers {
    ([$($also:literal)*] $($name:ident $number:literal [$first:literal $($more:literal)*] $text:literal)*) => {
        concat!($(" ", $number,)* $(" ", $also),*)
    };
}

/// The statuses of verbs, by their two digits, and behind them the one of the handler for GnuCOBOL.
pub const STATUSES: [(&str, &str); 24] = statuses!(rows_and_handler "status");

/// The codes of a refused deck.
pub const FAULTS: [(&str, &str); 7] = faults!(rows "fault");

/// The reasons of the check.
pub const REASONS: [(&str, &str); 9] = reasons!(rows "unsound");

/// What each code of a refused deck means, in a line.
pub const FAULT_LINES: [(&str, &str); 7] = faults!(lines);

/// What each reason of the check means, in a line.
pub const REASON_LINES: [(&str, &str); 9] = reasons!(lines);

/// The numbers of each table, with a space before each.
pub const STATUS_NUMBERS: &str = statuses!(numbers "95");

pub const FAULT_NUMBERS: &str = faults!(numbers);

pub const REASON_NUMBERS: &str = reasons!(numbers);
