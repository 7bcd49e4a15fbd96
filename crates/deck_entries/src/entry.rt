//! A file control entry: SELECT, ASSIGN, and the clauses of an indexed file.
use deck_parser::WordPlace;
use io_state::{Access, FileName, Name};
use std::alloc::{AllocError, Global};
use std::marker::Model;

/// Alternate keys in the order of their clauses: the item that is the key, and whether records may
/// share a value of it.
#[derive(Drop)]
pub struct AlternateKeys {
    keys: Vec<(Name, bool)>,
}

impl Model for AlternateKeys {
    ghost use Rattle.std.specs.Prelude.{List, map};
    ghost use Rattle.record_layout.specs.SchemaFault.{KeyClause, clause_of};

    ghost Value = { List KeyClause };

    ghost view = { λ k. map clause_of k.keys.items };
}

impl AlternateKeys {
    ghost use Rattle.std.specs.Prelude.{◌≡◌, [], ◌∷◌, ◌++◌, length, map, OnOk};
    ghost use Rattle.record_layout.specs.SchemaFault.{clause_of};

    fn new(alloc: Global) -> Self
        ensures { result ≡ [] }
    {
        AlternateKeys {
            keys: Vec::new(alloc),
        }
    }

    /// The keys themselves.
    pub fn as_slice(&self) -> &[(Name, bool)]
        ensures { map clause_of result.now ≡ self.now }
    {
        self.keys.as_slice()
    }

    pub(crate) fn len(&self) -> usize
        ensures { result ≡ length self.now }
    {
        self.keys.len()
    }

    pub(crate) fn push(&mut self, name: Name, duplicates: bool) -> Result<(), AllocError>
        ensures { OnOk result (self.new ≡ self.old ++ clause_of (name, duplicates) ∷ []) }
    {
        self.keys.push((name, duplicates))?;
        Ok(())
    }
}

/// A file, as its entry describes it: where its word SELECT stands, its name in the program, the name
/// of its file in the folder, and its keys. Contracts see the line of the place, and the names as their
/// bytes.
#[derive(Drop)]
pub struct FileControlEntry {
    pub place: WordPlace,
    pub name: Name,
    pub file_name: FileName,
    pub optional: bool,
    pub access: Access,
    pub record_key: Name,
    pub alternate_keys: AlternateKeys,
}

impl Model for FileControlEntry {
    ghost use Rattle.deck_entries.specs.FileControlEntry.{FileControlEntry as Entry};

    ghost Value = { Entry };

    ghost view = { λ e. record {
      line = e.place.line;
      name = e.name.bytes;
      file_name = e.file_name.bytes;
      optional = e.optional;
      access = e.access;
      record_key = e.record_key.bytes;
      alternate_keys = e.alternate_keys;
    } };
}

/// An entry, and the lines of the file's name and of its literal. Contracts see the entry.
#[derive(Drop)]
pub struct Selected {
    pub name_line: u64,
    pub literal_line: u64,
    pub entry: FileControlEntry,
}

impl Model for Selected {
    ghost use Rattle.deck_entries.specs.FileControlEntry.{FileControlEntry as Entry};

    ghost Value = { Entry };

    ghost view = { λ selected. selected.entry };
}

impl Selected {
    ghost use Rattle.std.specs.Prelude.{◌≡◌};

    /// The name of the file in the program.
    pub fn name(&self) -> &[u8]
        ensures { result.now ≡ self.now.name }
    {
        self.entry.name.as_str().as_bytes()
    }

    /// The name of its file in the folder.
    pub fn file_name(&self) -> &[u8]
        ensures { result.now ≡ self.now.file_name }
    {
        self.entry.file_name.as_str().as_bytes()
    }
}

/// The lines of the clauses that there are.
#[derive(Clone, Copy)]
pub struct ClauseLines {
    pub indexed: u64,
    pub access: u64,
    pub record_key: u64,
    pub status: u64,
}

/// What the clauses of an entry say together, and their lines. Contracts see what they say.
#[derive(Drop)]
pub struct EntryClauses {
    pub indexed: bool,
    pub access: Option<Access>,
    pub record_key: Option<Name>,
    pub alternate_keys: AlternateKeys,
    pub status: bool,
    pub lines: ClauseLines,
}

impl Model for EntryClauses {
    ghost use Rattle.std.specs.Prelude.{option_map};
    ghost use Rattle.deck_entries.specs.FileControlEntry.{EntryClauses as Said};

    ghost Value = { Said };

    ghost view = { λ c. record {
      indexed = c.indexed;
      access = c.access;
      record_key = option_map (λ key. key.bytes) c.record_key;
      alternate_keys = c.alternate_keys;
      status = c.status;
    } };
}

impl EntryClauses {
    ghost use Rattle.std.specs.Prelude.{◌≡◌, true};
    ghost use Rattle.deck_entries.specs.FileControlEntry.{no_clauses, entry_keys_of};

    pub fn new(alloc: Global) -> Self
        ensures { result ≡ no_clauses }
    {
        EntryClauses {
            indexed: false,
            access: None,
            record_key: None,
            alternate_keys: AlternateKeys::new(alloc),
            status: false,
            lines: ClauseLines {
                indexed: 0,
                access: 0,
                record_key: 0,
                status: 0,
            },
        }
    }

    /// What the clauses of a whole entry say, if INDEXED and RECORD KEY stand in it.
    pub fn keys(self) -> Option<EntryKeys>
        requires { self.indexed ≡ true }
        ensures { result ≡ entry_keys_of self }
    {
        let EntryClauses {
            indexed: _,
            access,
            record_key,
            alternate_keys,
            status: _,
            lines: _,
        } = self;
        let Some(record_key) = record_key else {
            return None;
        };
        Some(EntryKeys {
            access: access.unwrap_or(Access::Sequential),
            record_key,
            alternate_keys,
        })
    }
}

/// What the clauses of a whole entry say: the access mode and the keys. Contracts see the key's name
/// as its bytes.
#[derive(Drop)]
pub struct EntryKeys {
    pub access: Access,
    pub record_key: Name,
    pub alternate_keys: AlternateKeys,
}

impl Model for EntryKeys {
    ghost use Rattle.deck_entries.specs.FileControlEntry.{EntryKeys as Said};

    ghost Value = { Said };

    ghost view = { λ keys. record {
      access = keys.access;
      record_key = keys.record_key.bytes;
      alternate_keys = keys.alternate_keys;
    } };
}

impl EntryKeys {
    ghost use Rattle.std.specs.Prelude.{◌≡◌};
    ghost use Rattle.deck_entries.specs.FileControlEntry.{keyed_entry};

    /// The entry of a file with these keys.
    pub fn entry(
        self,
        place: WordPlace,
        optional: bool,
        name: Name,
        file_name: FileName,
    ) -> FileControlEntry
        ensures { result ≡ keyed_entry self place.line optional name.bytes file_name.bytes }
    {
        let EntryKeys {
            access,
            record_key,
            alternate_keys,
        } = self;
        FileControlEntry {
            place,
            name,
            file_name,
            optional,
            access,
            record_key,
            alternate_keys,
        }
    }
}
