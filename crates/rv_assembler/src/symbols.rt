// Labels with their addresses.
ghost use Rattle.std.specs.Prelude.{◌≡◌, ◌++◌, ◌∷◌, ◌<◌, [], None, Some, length, slice_get, option_map, OnOk, OnErr, string_bytes};
ghost use Rattle.rv_assembler.specs.Symbols.{address_of, symbol_of};

use hart_words::WantOfMemory;
use indexmap::IndexMap;
use std::alloc::Global;
use std::marker::Model;

/// The labels of a source with their addresses, in the order of their definition.
#[derive(Drop)]
pub struct Symbols {
    table: IndexMap<String, u32>,
}

impl Model for Symbols {
    ghost use Rattle.std.specs.Prelude.{List, map};
    ghost use Rattle.rv_assembler.specs.Symbols.{Symbol, symbol_of};

    ghost Value = { List Symbol };

    ghost view = { λ s. map symbol_of s.table.entries };
}

impl Symbols {
    pub(crate) fn new(alloc: Global) -> Symbols
        ensures { result ≡ [] }
    {
        Symbols {
            table: IndexMap::new(alloc),
        }
    }

    /// How many labels there are.
    pub fn len(&self) -> usize
        ensures { result ≡ length self.now }
    {
        self.table.len()
    }

    /// The name of a label, by the order of definition from 0 on.
    pub fn name(&self, i: usize) -> &str
        requires { i < length self.now }
        ensures { option_map (λ s. s.name) (slice_get self.now i) ≡ Some result.now }
    {
        match self.table.get_index(i) {
            Some((name, _)) => name.as_str(),
            None => "",
        }
    }

    /// The address of a label, by the order of definition from 0 on.
    pub fn address(&self, i: usize) -> u32
        requires { i < length self.now }
        ensures { option_map (λ s. s.address) (slice_get self.now i) ≡ Some result }
    {
        match self.table.get_index(i) {
            Some((_, address)) => *address,
            None => 0,
        }
    }

    pub(crate) fn address_of(&self, name: &str) -> Option<u32>
        ensures { result ≡ address_of self.now name.now }
    {
        self.table.get(name).copied()
    }

    pub(crate) fn define(&mut self, name: String, address: u32) -> Result<(), WantOfMemory>
        requires { address_of self.old (string_bytes name) ≡ None }
        ensures ok { OnOk result (self.new ≡ self.old ++ record { name = string_bytes name; address = address } ∷ []) }
        ensures err { OnErr result (self.new ≡ self.old) }
    {
        self.table.insert(name, address)?;
        Ok(())
    }
}
