//! A separator on its way up.

use crate::shape::TreeKey;

/// The key that parts two nodes, and the page of the second one.
#[derive(Drop)]
pub struct Separator {
    pub key: TreeKey,
    pub child: u32,
}
