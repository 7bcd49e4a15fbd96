//! The words of the command line behind the name of a benchmark.

use anyhow::Context;
use std::env::Args;
use std::str::FromStr;

/// The next word, a number, which is called so where it is missing or is none.
pub fn number<N: FromStr>(words: &mut Args, what: &'static str) -> anyhow::Result<N>
where
    N::Err: Into<anyhow::Error>,
{
    let word = words.next().context(what)?;
    word.as_str().parse::<N>().context(what)
}
