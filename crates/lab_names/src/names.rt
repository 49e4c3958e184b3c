// A table of names.
ghost use Rattle.std.specs.Prelude.{◌≡◌, [], option_map, OnOk, OnErr};
ghost use Rattle.lab_names.specs.Table.{with_name, name_at, at_or_below};

use hart_words::WantOfMemory;
use std::alloc::Global;
use std::collections::BTreeMap;
use std::marker::Model;

/// Names by their addresses: each address has one name at most. It is seen as a list in rising order.
#[derive(Drop)]
pub struct Names {
    alloc: Global,
    table: BTreeMap<u32, Vec<u8>>,
}

impl Model for Names {
    ghost use Rattle.std.specs.Prelude.{List, map};
    ghost use Rattle.lab_names.specs.Name.{NameView};
    ghost use Rattle.lab_names.specs.Table.{name_of_entry};

    ghost Value = { List NameView };

    ghost view = { λ n. map name_of_entry n.table.entries };
}

impl Names {
    /// No name yet.
    pub fn new(alloc: Global) -> Names
        ensures { result ≡ [] }
    {
        Names {
            alloc,
            table: BTreeMap::new(alloc),
        }
    }

    /// Gives an address a name, in place of one that it had.
    pub fn put(&mut self, address: u32, name: &[u8]) -> Result<(), WantOfMemory>
        ensures ok { OnOk result (self.new ≡ with_name (record { address = address; name = name.now }) self.old) }
        ensures err { OnErr result (self.new ≡ self.old) }
    {
        let bytes = Vec::from_slice(self.alloc, name)?;
        self.table.insert(address, bytes)?;
        Ok(())
    }

    /// The name of an address.
    pub fn at(&self, address: u32) -> Option<&[u8]>
        ensures { option_map (λ name. name.now) result ≡ name_at address self.now }
    {
        match self.table.get(&address) {
            Some(name) => Some(name),
            None => None,
        }
    }

    /// The name that stands nearest at or below an address, and how far below.
    pub fn at_or_below(&self, address: u32) -> Option<(&[u8], u32)>
        ensures { option_map (λ found. (found.0.now, found.1)) result ≡ at_or_below address self.now }
    {
        match self.table.range(..=address).next_back() {
            Some((at, name)) => Some((name, address - *at)),
            None => None,
        }
    }
}
