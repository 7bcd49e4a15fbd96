//! How fast a leaf in a page answers, beside std's binary search over a `Vec` of the same entries.
//!
//! Without a number of steps each is asked a little, and only the sums of the places that it
//! answers are printed. With one, the speed is printed too.

mod entries;
mod leaf;
mod measure;
mod page_leaf;
mod report;
mod vec_leaf;

use crate::arguments::number;
use report::compare;
use std::env::Args;
use tree_node::NodeShape;

const SHORT: NodeShape = NodeShape {
    key: 0,
    width: 8,
    entry: 14,
};

const WIDE: NodeShape = NodeShape {
    key: 0,
    width: 128,
    entry: 134,
};

/// Tells the speed too where a word says how many steps.
pub fn run(rt: &HostRuntime, words: &mut Args) -> anyhow::Result<()> {
    let steps = match words.len() {
        0 => None,
        _ => Some(number(words, "STEPS")?),
    };
    compare::<8, 14>(rt, rt.alloc(), SHORT, steps)?;
    compare::<128, 134>(rt, rt.alloc(), WIDE, steps)?;
    Ok(())
}
