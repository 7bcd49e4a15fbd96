//! The data names of a deck.
ghost use Rattle.std.specs.Prelude.{◌≡◌, map, option_map};
ghost use Rattle.std.specs.List.{list_all};
ghost use Rattle.record_layout.specs.Layout.{entry_of_item};
ghost use Rattle.file_control.specs.Checks.{is_new, are_new};

use io_state::Name;
use record_layout::Item;
use std::alloc::{AllocError, Global};
use std::collections::BTreeSet;
use std::marker::Model;

/// Names of data items, which contracts see as a list. They are kept in their order too, so that a
/// name is found by a search.
#[derive(Drop)]
pub struct DataNames<'a> {
    names: Vec<&'a str>,
    in_order: BTreeSet<&'a str>,
}

impl<'a> Model for DataNames<'a> {
    ghost use Rattle.std.specs.Prelude.{List, ℕ, map};
    ghost use Rattle.file_control.specs.InOrder.{AreInOrder};

    ghost Value = { List (List ℕ) };

    ghost view = { λ n. map (λ name. name.now) n.names.items };

    ghost invariant = { λ n. AreInOrder n.in_order (map (λ name. name.now) n.names.items) };
}

impl<'a> DataNames<'a> {
    ghost use Rattle.std.specs.Prelude.{◌≡◌, [], ◌∷◌, ◌++◌, map, option_map, option_to_list, OnOk};
    ghost use Rattle.record_layout.specs.Layout.{entry_of_item};
    ghost use Rattle.file_control.specs.Checks.{is_new};
    ghost use Rattle.file_control.specs.Description.{has_name, with_names};

    pub fn new(alloc: Global) -> Self
        ensures { result ≡ [] }
    {
        DataNames {
            names: Vec::new(alloc),
            in_order: BTreeSet::new(alloc),
        }
    }

    /// Whether this name is there.
    pub fn has(&self, name: &str) -> bool
        ensures { result ≡ has_name self.now name.now }
    {
        self.in_order.contains(name)
    }

    pub fn push(&mut self, name: &'a Name) -> Result<(), AllocError>
        ensures { OnOk result (self.new ≡ self.old ++ name.now.bytes ∷ []) }
    {
        let text = name.as_str();
        self.names.push(text)?;
        match self.in_order.insert(text) {
            Ok(_) => Ok(()),
            Err(_) => {
                self.names.pop();
                Err(AllocError)
            }
        }
    }

    fn add(&mut self, name: &'a Option<Name>) -> Result<(), AllocError>
        ensures { OnOk result (self.new ≡ self.old ++ option_to_list (option_map (λ n. n.bytes) name.now)) }
    {
        match name {
            Some(name) => self.push(name),
            None => Ok(()),
        }
    }

    fn is_new(&self, name: &Option<Name>) -> bool
        ensures { result ≡ is_new self.now (option_map (λ n. n.bytes) name.now) }
    {
        match name {
            Some(name) => !self.has(name.as_str()),
            None => true,
        }
    }

    /// Adds the names of items.
    pub fn add_all(&mut self, items: &'a [Item]) -> Result<(), AllocError>
        ensures { OnOk result (self.new ≡ with_names self.old (map entry_of_item items.now)) }
    {
        let mut rest = items;
        'more: while let Some((item, after)) = rest.split_first() {
            self.add(&item.name)?;
            rest = after;
        }
        Ok(())
    }
}

fn each_is_new(names: &DataNames<'_>, items: &[Item]) -> bool
    ensures { result ≡ list_all (λ item. is_new names.now (entry_of_item item).name) items.now }
{
    items.iter().all(|item| names.is_new(&item.name))
}

/// Whether none of the items has a name that is there.
#[tactic(auto, using(crate::proofs::NameLemmas::all_of_map))]
pub fn are_new(names: &DataNames<'_>, items: &[Item]) -> bool
    ensures { result ≡ are_new names.now (map entry_of_item items.now) }
{
    each_is_new(names, items)
}
