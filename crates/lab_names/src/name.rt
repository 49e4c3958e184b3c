// A name.
ghost use Rattle.std.specs.Prelude.{◌≡◌, IfOk};

use hart_words::WantOfMemory;
use std::alloc::Global;
use std::marker::Model;

/// A name with its address.
#[derive(Drop)]
pub struct Name {
    address: u32,
    bytes: Vec<u8>,
}

impl Model for Name {
    ghost use Rattle.lab_names.specs.Name.{NameView};

    ghost Value = { NameView };

    ghost view = { λ n. record { address = n.address; name = n.bytes.items } };
}

impl Name {
    pub fn new(alloc: Global, address: u32, name: &[u8]) -> Result<Name, WantOfMemory>
        ensures { IfOk result (λ n. n ≡ record { address = address; name = name.now }) }
    {
        let bytes = Vec::from_slice(alloc, name)?;
        Ok(Name { address, bytes })
    }

    pub fn address(&self) -> u32
        ensures { result ≡ self.now.address }
    {
        self.address
    }

    /// The bytes of the name.
    pub fn bytes(&self) -> &[u8]
        ensures { result.now ≡ self.now.name }
    {
        &self.bytes
    }
}
