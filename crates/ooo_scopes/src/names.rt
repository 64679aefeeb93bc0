ghost use Rattle.std.specs.Prelude.{◌≡◌, ◌∷◌, [], ◌<◌, ◌-◌, ◌^◌, length, drop, OnOk, OnErr};
ghost use Rattle.std.specs.Option.{unwrap_or};
ghost use Rattle.ooo_checked.specs.Scopes.{found_in, unknown};
ghost use Rattle.ooo_scopes.specs.Names.{place_in};

use crate::places;
use crate::places::Places;
use ooo_checked::{Denotation, Thing};
use std::alloc::{AllocError, Global};
use std::marker::Model;

/// What a name denotes that is not known.
const UNKNOWN: Denotation = Denotation {
    thing: Thing::Nothing,
    number: 0,
};

/// A declaration of a name: where its bytes begin, what it denotes, and the place of the declaration that it hides.
#[derive(Clone, Copy)]
struct Declared {
    from: usize,
    denotes: Denotation,
    hides: Option<usize>,
}

/// The names that are known with what they denote, the latest first.
///
/// The bytes of the names stand one after another, and a map has the place of the latest declaration of each name.
#[derive(Drop)]
pub(crate) struct Names {
    alloc: Global,
    places: Places,
    text: Vec<u8>,
    declared: Vec<Declared>,
}

impl Model for Names {
    ghost use Rattle.std.specs.Prelude.{List};
    ghost use Rattle.ooo_checked.specs.Scopes.{Binding};

    ghost Value = { List Binding };

    ghost use Rattle.ooo_scopes.specs.Names.{bindings_of, FieldsAreExact};

    ghost view = { bindings_of };

    ghost invariant = { FieldsAreExact };
}

impl Names {
    /// No name is known.
    pub(crate) fn new(alloc: Global) -> Names
        ensures { result ≡ [] }
    {
        Names {
            alloc,
            places: Places::new(alloc),
            text: Vec::new(alloc),
            declared: Vec::new(alloc),
        }
    }

    /// How many names are known.
    pub(crate) fn len(&self) -> usize
        ensures { result ≡ length self.now }
    {
        self.declared.len()
    }

    /// The place of the latest declaration of a name, counted from the earliest of all.
    pub(crate) fn place(&self, name: &[u8]) -> Option<usize>
        ensures { result ≡ place_in self.now name.now }
    {
        places::place(&self.places, name)
    }

    /// What the latest declaration of a name says that it denotes.
    pub(crate) fn denotes(&self, name: &[u8]) -> Denotation
        ensures { result ≡ unwrap_or (found_in self.now name.now) unknown }
    {
        match places::place(&self.places, name) {
            Some(place) => match self.declared.get(place) {
                Some(latest) => latest.denotes,
                None => UNKNOWN,
            },
            None => UNKNOWN,
        }
    }

    // The place of the latest declaration of a name among the earliest ones, of which there are this many.
    fn place_among(&self, kept: usize, name: &[u8]) -> Option<usize>
        ensures { result ≡ place_in (drop (length self.now - kept) self.now) name.now }
    {
        let mut place = places::place(&self.places, name);
        'hidden: while let Some(at) = place {
            if at < kept {
                return place;
            }
            place = match self.declared.get(at) {
                Some(hiding) => hiding.hides,
                None => None,
            };
        }
        None
    }

    /// What a name denoted before the latest declarations, of which there are this many.
    pub(crate) fn denotes_before(&self, latest: usize, name: &[u8]) -> Denotation
        ensures { result ≡ unwrap_or (found_in (drop latest self.now) name.now) unknown }
    {
        let kept = self.len().saturating_sub(latest);
        match self.place_among(kept, name) {
            Some(place) => match self.declared.get(place) {
                Some(found) => found.denotes,
                None => UNKNOWN,
            },
            None => UNKNOWN,
        }
    }

    /// Declares a name.
    pub(crate) fn push(&mut self, name: &[u8], denotes: Denotation) -> Result<(), AllocError>
        ensures ok { OnOk result
            (self.new ≡ record { name = name.now; denotes = denotes } ∷ self.old) }
        ensures err { OnErr result (self.new ≡ self.old) }
        ensures small { OnOk result (length self.new < 2 ^ 64) }
    {
        self.text.reserve(name.len())?;
        self.declared.reserve(1)?;
        let place = self.declared.len();
        let hides = places::put(&mut self.places, self.alloc, name, place)?;
        let from = self.text.len();
        self.text.extend_from_slice(name)?;
        self.declared.push(Declared {
            from,
            denotes,
            hides,
        })?;
        Ok(())
    }

    /// Forgets the latest declaration, so that its name denotes again what it denoted before.
    pub(crate) fn pop(&mut self)
        ensures { self.new ≡ drop 1 self.old }
    {
        if let Some(latest) = self.declared.pop() {
            let name = &self.text[latest.from..];
            match latest.hides {
                Some(place) => places::replace(&mut self.places, name, place),
                None => places::remove(&mut self.places, name),
            }
            self.text.truncate(latest.from);
        }
    }
}
