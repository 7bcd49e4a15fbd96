//! What has a name in the description of a deck, which is looked for where a deck is refused.

use deck_entries::{Described, Selected, StorageItem};
use deck_parser::{FirstNamed, ItemPlace, Named, Twice};

/// The files of a deck, as they are selected and described.
#[derive(Clone, Copy)]
pub struct DescribedFiles<'a> {
    pub entries: &'a [Selected],
    pub descriptions: &'a [Described],
}

/// Which of the items of an FD has this name.
fn item_named(described: &Described, name: &[u8]) -> Option<usize> {
    let mut items = described.items().iter();
    items.position(|item| matches!(&item.name, Some(own) if own.as_str().as_bytes() == name))
}

impl<'a> DescribedFiles<'a> {
    /// The place of a file among the SELECT entries.
    fn file(&self, name: &[u8]) -> Option<usize> {
        self.entries
            .iter()
            .position(|selected| selected.name() == name)
    }

    /// The item of a name in the first FD that has one.
    fn item(&self, name: &[u8]) -> Option<ItemPlace> {
        for described in self.descriptions {
            if let Some(item) = item_named(described, name) {
                let file = self.file(described.name())?;
                return Some(ItemPlace { file, item });
            }
        }
        None
    }

    /// What has a name that no 77-level item has. The record of a file is its first item.
    pub fn named(&self, name: &[u8]) -> Named {
        if let Some(file) = self.file(name) {
            return Named::File(file);
        }
        match self.item(name) {
            Some(ItemPlace { file, item: 0 }) => Named::Record(file),
            Some(ItemPlace { file, item: _ }) => Named::Item(file),
            None => Named::Nothing,
        }
    }

    /// The item of a name in the FD of the first of so many files that has one.
    fn item_before(&self, at: usize, name: &[u8]) -> Option<ItemPlace> {
        for (file, selected) in self.entries.iter().take(at).enumerate() {
            let of_file = |described: &&Described| described.name() == selected.name();
            let described = self.descriptions.iter().find(of_file)?;
            if let Some(item) = item_named(described, name) {
                return Some(ItemPlace { file, item });
            }
        }
        None
    }

    /// The first item of a file whose name an item of an earlier file has.
    pub fn item_twice(&self, at: usize, described: &Described) -> Twice {
        for (item, own) in described.items().iter().enumerate() {
            if let Some(name) = &own.name {
                if let Some(first) = self.item_before(at, name.as_str().as_bytes()) {
                    return Twice::Item(first, ItemPlace { file: at, item });
                }
            }
        }
        let whole = ItemPlace { file: at, item: 0 };
        Twice::Item(whole, whole)
    }

    /// What has a name first that a 77-level item has: an item of a file, or the first of the
    /// 77-level items that have it.
    pub fn first_named(&self, storage: &[StorageItem], name: &[u8]) -> FirstNamed {
        if let Some(place) = self.item(name) {
            return FirstNamed::Item(place);
        }
        match storage
            .iter()
            .find(|item| item.name.as_str().as_bytes() == name)
        {
            Some(item) => FirstNamed::LengthItem(item.place.line),
            None => FirstNamed::LengthItem(0),
        }
    }
}
