//! Reads a deck again and again, and tells how long it takes: the deck of a file, or a short one.

use crate::arguments::number;
use crate::timing::nanoseconds_since;
use deck_reader::read_deck;
use std::env::Args;
use std::fs;
use std::time::Instant;

/// A file, a length item and a statement.
const SHORT: &str = "ENVIRONMENT DIVISION. INPUT-OUTPUT SECTION. FILE-CONTROL.
    SELECT CUST ASSIGN TO 'cust.dat' INDEXED RECORD KEY IS CUST-ID.
DATA DIVISION. FILE SECTION. FD CUST. 01 CUST-ID PIC 9(4).
WORKING-STORAGE SECTION. 77 CUST-LEN PIC 9(2).
PROCEDURE DIVISION. MOVE 1 TO CUST-ID CUST-LEN. STOP RUN.";

/// The statements and the length items of the deck.
fn read(rt: &HostRuntime, bytes: &[u8]) -> anyhow::Result<(usize, usize)> {
    let deck = read_deck(rt.alloc(), bytes)?;
    Ok((
        deck.statements.as_slice().len(),
        deck.items.as_slice().len(),
    ))
}

/// Reads the deck that a word names, or the short one where there is none.
pub fn run(rt: &HostRuntime, words: &mut Args) -> anyhow::Result<()> {
    let Some(path) = words.next() else {
        let (statements, items) = read(rt, SHORT.as_bytes())?;
        println!(rt; "statements {statements} items {items}")?;
        return Ok(());
    };
    let rounds = number::<u32>(words, "ROUNDS")?;
    let bytes = fs::read(rt, path.as_str())?;
    let mut fastest = u128::MAX;
    for _ in 0..rounds {
        let start = Instant::now(rt)?;
        let (statements, items) = read(rt, bytes.as_slice())?;
        let time = nanoseconds_since(rt, start)?;
        println!(rt; "statements {statements} items {items} ns {time}")?;
        fastest = fastest.min(time);
    }
    println!(rt; "fastest {fastest}")?;
    Ok(())
}
