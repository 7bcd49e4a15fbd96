//! Tests of the file checker over files that an open file or a library on a shelf has made.
//!
//! That a file is Sound only where it stands is proved. Here files that stand are made, also by calls that
//! are drawn, and are found sound; a part of one is not. A second reader, written from the tables of the
//! format, says of each file whether it stands, also where one byte of it is changed; it shares nothing with
//! the checker.
//!
//! Read `second_reader`, then `changed` and `drawn_files`.
#![tactic(auto)]

#[cfg(test)]
mod changed;
#[cfg(test)]
mod checks;
#[cfg(test)]
mod drawn;
#[cfg(test)]
mod drawn_files;
#[cfg(test)]
mod files;
#[cfg(test)]
mod held;
#[cfg(test)]
mod made;
#[cfg(test)]
mod readers;
#[cfg(test)]
mod second_reader;
#[cfg(test)]
mod units;
