//! What a deck describes, as far as it was read.

use deck_entries::{
    Described, Divisions, Entries, RecordLength, Selected, StorageItem, read_divisions,
    read_file_control,
};
use deck_parser::{Parser, WordPlace, words};
use std::alloc::{AllocError, Global};

/// What stands before the procedure of a deck: all of it, where that was read; or the SELECT
/// entries; or nothing.
#[derive(Drop)]
pub enum Known {
    All(Divisions),
    Entries(Entries),
    Nothing,
}

/// The names among which one is looked for.
#[derive(Clone, Copy)]
pub enum Among<'a> {
    Files,
    /// The names of FDs.
    Descriptions,
    Records,
    RecordOf(&'a str),
    ItemsOf(&'a str),
    KeysOf(&'a str),
    Storage,
    /// What a MOVE can receive.
    Targets,
}

/// Which of the items of an FD has this name.
fn item_named(described: &Described, name: &str) -> Option<usize> {
    let mut items = described.items().iter();
    items.position(|item| matches!(&item.name, Some(own) if own.as_str() == name))
}

impl Known {
    /// What the bytes describe before the word at which they are refused.
    pub fn of(alloc: Global, bytes: &[u8]) -> Known {
        let Ok(words) = words(bytes) else {
            return Known::Nothing;
        };
        let mut parser = Parser::new(&words);
        if let Ok(divisions) = read_divisions(&mut parser, alloc) {
            return Known::All(divisions);
        }
        let mut parser = Parser::new(&words);
        match read_file_control(&mut parser, alloc) {
            Ok(entries) => Known::Entries(entries),
            Err(_) => Known::Nothing,
        }
    }

    fn entries(&self) -> &[Selected] {
        match self {
            Known::All(divisions) => divisions.entries.as_slice(),
            Known::Entries(entries) => entries.as_slice(),
            Known::Nothing => &[],
        }
    }

    fn descriptions(&self) -> &[Described] {
        match self {
            Known::All(divisions) => divisions.descriptions.as_slice(),
            Known::Entries(_) | Known::Nothing => &[],
        }
    }

    fn storage(&self) -> &[StorageItem] {
        match self {
            Known::All(divisions) => divisions.storage.as_slice(),
            Known::Entries(_) | Known::Nothing => &[],
        }
    }

    /// The entry of a file, by its place among them.
    pub fn entry(&self, file: usize) -> Option<&Selected> {
        self.entries().get(file)
    }

    /// The name of a file, by its place among the SELECT entries.
    pub fn file_name(&self, file: usize) -> &str {
        match self.entry(file) {
            Some(selected) => selected.entry.name.as_str(),
            None => "",
        }
    }

    pub fn description(&self, file: &str) -> Option<&Described> {
        self.descriptions()
            .iter()
            .find(|described| described.name.as_str() == file)
    }

    /// The name of the item on which the length of a file's records depends.
    pub fn length_item(&self, file: &str) -> &str {
        let Some(described) = self.description(file) else {
            return "";
        };
        match &described.lengths {
            Some(RecordLength::Varying(lengths)) => lengths.item.as_str(),
            _ => "",
        }
    }

    /// The first 77 item of a name.
    fn storage_item(&self, name: &str) -> Option<&StorageItem> {
        self.storage()
            .iter()
            .find(|item| item.name.as_str() == name)
    }

    /// Where it stands.
    pub fn storage_place(&self, name: &str) -> Option<WordPlace> {
        Some(self.storage_item(name)?.place)
    }

    /// The name of a key of a file: 0 is the RECORD KEY, and from 1 on there are the alternate keys.
    pub fn key_name(&self, file: usize, key: usize) -> Option<&str> {
        let entry = &self.entry(file)?.entry;
        match key.checked_sub(1) {
            None => Some(entry.record_key.as_str()),
            Some(at) => Some(entry.alternate_keys.as_slice().get(at)?.0.as_str()),
        }
    }

    /// The first FD with an item of this name, and which of its items that is.
    fn item(&self, name: &str) -> Option<(&Described, usize)> {
        for described in self.descriptions() {
            if let Some(at) = item_named(described, name) {
                return Some((described, at));
            }
        }
        None
    }

    /// The picture of the item of a name.
    pub fn picture(&self, name: &str) -> Option<&str> {
        let Some((described, at)) = self.item(name) else {
            return Some(self.storage_item(name)?.picture.as_str());
        };
        match &described.items().get(at)?.picture {
            Some(picture) => Some(picture.as_str()),
            None => None,
        }
    }

    /// The names of a kind, in the order in which the deck has them.
    pub fn names(&self, alloc: Global, among: &Among<'_>) -> Result<Vec<&str>, AllocError> {
        let mut names = Vec::new(alloc);
        for selected in self.entries() {
            add_selected(&mut names, selected, among)?;
        }
        for described in self.descriptions() {
            add_described(&mut names, described, among)?;
        }
        if matches!(among, Among::Storage | Among::Targets) {
            for item in self.storage() {
                names.push(item.name.as_str())?;
            }
        }
        Ok(names)
    }
}

/// Adds the names of a kind that one SELECT entry has.
fn add_selected<'a>(
    names: &mut Vec<&'a str>,
    selected: &'a Selected,
    among: &Among<'_>,
) -> Result<(), AllocError> {
    let own = selected.entry.name.as_str();
    match among {
        Among::Files => names.push(own)?,
        Among::KeysOf(file) if own == *file => {
            names.push(selected.entry.record_key.as_str())?;
            for key in selected.entry.alternate_keys.as_slice() {
                names.push(key.0.as_str())?;
            }
        }
        _ => {}
    }
    Ok(())
}

/// Adds the names of a kind that one FD has.
fn add_described<'a>(
    names: &mut Vec<&'a str>,
    described: &'a Described,
    among: &Among<'_>,
) -> Result<(), AllocError> {
    let own = described.name.as_str();
    let items = described.items();
    let (record, _) = items.split_at(items.len().min(1));
    let items = match among {
        Among::Descriptions => return Ok(names.push(own)?),
        Among::Records => record,
        Among::RecordOf(file) if own == *file => record,
        Among::ItemsOf(file) if own == *file => items,
        Among::Targets => items,
        _ => &[],
    };
    for item in items {
        if let Some(name) = &item.name {
            names.push(name.as_str())?;
        }
    }
    Ok(())
}
