ghost use Rattle.std.specs.Prelude.{◌≡◌, IfOk};

use sqlite_items::Items;
use std::alloc::{AllocError, Global};
use std::marker::Model;

/// A name, as the bytes that spell it. Contracts see it as the list of these bytes.
#[derive(Drop)]
pub struct Name {
    bytes: Vec<u8>,
}

impl Model for Name {
    ghost use Rattle.std.specs.Prelude.{List, ℕ};
    ghost use Rattle.std.specs.Coded.{coded_list, coded_ℕ};

    ghost Value = { List ℕ };

    ghost coded = { coded_list coded_ℕ };

    ghost view = { λ name. name.bytes.items };
}

impl Name {
    /// The name that a text spells: a copy of its bytes.
    pub fn new(alloc: Global, text: &str) -> Result<Name, AllocError>
        ensures { IfOk result (λ name. name ≡ text.now) }
    {
        Ok(Name {
            bytes: Vec::from_slice(alloc, text.as_bytes())?,
        })
    }

    /// The name that these bytes spell. It takes no memory.
    pub fn from_bytes(bytes: Vec<u8>) -> Name
        ensures { result ≡ bytes.items }
    {
        Name { bytes }
    }

    /// Gives the bytes back. It takes no memory.
    pub fn into_bytes(self) -> Vec<u8>
        ensures { result.items ≡ self }
    {
        let Name { bytes } = self;
        bytes
    }

    /// The same name, as a copy of its bytes.
    ///
    /// # Errors
    ///
    /// Only where memory runs out.
    pub fn copy(&self, alloc: Global) -> Result<Name, AllocError>
        ensures { IfOk result (λ copy. copy ≡ self.now) }
    {
        Ok(Name {
            bytes: Vec::from_slice(alloc, self.as_bytes())?,
        })
    }

    /// Lends the bytes.
    pub fn as_bytes(&self) -> &[u8]
        ensures { result.now ≡ self.now }
    {
        self.bytes.as_slice()
    }
}

/// The full names of a model's processes and channels, each in the order of its numbers.
#[derive(Drop)]
pub struct Names {
    /// Process `p`'s name at place `p`.
    pub processes: Items<Name>,
    /// Channel `c`'s name at place `c`.
    pub channels: Items<Name>,
}
