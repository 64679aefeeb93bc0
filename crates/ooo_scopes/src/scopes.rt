ghost use Rattle.std.specs.Prelude.{◌≡◌, [], OnOk, OnErr};
ghost use Rattle.ooo_checked.specs.Scopes.{declared, entered, left, meaning_of, is_declared_here, size_of};

use crate::names::Names;
use ooo_checked::Denotation;
use std::alloc::{AllocError, Global};
use std::marker::Model;

/// The blocks that a place of a text stands in, the innermost first, and the names that each declares, the latest first.
#[derive(Drop)]
pub struct Scopes {
    names: Names,
    counts: Vec<usize>,
}

impl Model for Scopes {
    ghost use Rattle.ooo_checked.specs.Scopes.{Scope};

    ghost Value = { Scope };

    ghost use Rattle.ooo_scopes.specs.Blocks.{blocks_of, AllInBlocks};

    ghost view = { blocks_of };

    ghost invariant = { AllInBlocks };
}

impl Scopes {
    /// No block, outside of which nothing is known.
    pub fn new(alloc: Global) -> Scopes
        ensures { result ≡ [] }
    {
        Scopes {
            names: Names::new(alloc),
            counts: Vec::new(alloc),
        }
    }

    /// A block begins. If memory runs out, the blocks stay as they were.
    pub fn enter(&mut self) -> Result<(), AllocError>
        ensures ok { OnOk result (self.new ≡ entered self.old) }
        ensures err { OnErr result (self.new ≡ self.old) }
    {
        self.counts.push(0)?;
        Ok(())
    }

    /// The innermost block ends, and each name that it declared denotes again what it denoted outside. Where there is
    /// no block this does nothing. It takes no memory.
    pub fn leave(&mut self)
        ensures { self.new ≡ left self.old }
    {
        if let Some(count) = self.counts.pop() {
            for _forgotten in 0..count {
                self.names.pop();
            }
        }
    }

    /// The innermost block declares a name, which hides what the name denoted before. Where there is no block, one
    /// begins. If memory runs out, the blocks stay as they were.
    pub fn declare(&mut self, name: &[u8], denotes: Denotation) -> Result<(), AllocError>
        ensures ok { OnOk result (self.new ≡ declared self.old name.now denotes) }
        ensures err { OnErr result (self.new ≡ self.old) }
    {
        self.counts.reserve(1)?;
        self.names.push(name, denotes)?;
        let count = self.counts.pop().unwrap_or(0);
        self.counts.push(count + 1)?;
        Ok(())
    }

    /// What a name denotes here: [`ooo_checked::Thing::Nothing`] if it is not known.
    pub fn denotes(&self, name: &[u8]) -> Denotation
        ensures { result ≡ meaning_of self.now name.now }
    {
        self.names.denotes(name)
    }

    /// What a name denotes outside the innermost block: [`ooo_checked::Thing::Nothing`] if it is not known there.
    pub fn denotes_outside(&self, name: &[u8]) -> Denotation
        ensures { result ≡ meaning_of (left self.now) name.now }
    {
        match self.counts.last() {
            Some(count) => self.names.denotes_before(*count, name),
            None => self.names.denotes_before(0, name),
        }
    }

    /// Whether the innermost block declares a name.
    pub fn is_declared_here(&self, name: &[u8]) -> bool
        ensures { result ≡ is_declared_here self.now name.now }
    {
        match self.counts.last() {
            Some(count) => match self.names.place(name) {
                Some(place) => self.names.len() - *count <= place,
                None => false,
            },
            None => false,
        }
    }

    /// How many names the blocks declare.
    pub fn size(&self) -> usize
        ensures { result ≡ size_of self.now }
    {
        self.names.len()
    }
}
