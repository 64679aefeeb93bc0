ghost use Rattle.std.specs.Prelude.{◌≡◌, Some, None, IfOk, IsSome, OnOk, OnErr};
ghost use Rattle.ooo_scopes.specs.Places.{place_of, HasPlace, HasSamePlaces};

use std::alloc::{AllocError, Global};
use std::collections::BTreeMap;

/// The place of the latest declaration of each name that is known.
pub(crate) type Places = BTreeMap<Vec<u8>, usize>;

/// The place at a name.
pub(crate) fn place(places: &Places, name: &[u8]) -> Option<usize>
    ensures { result ≡ place_of places.now name.now }
{
    places.get(name).copied()
}

/// Gives a name a place, and says the one that it had.
pub(crate) fn put(
    places: &mut Places,
    alloc: Global,
    name: &[u8],
    place: usize,
) -> Result<Option<usize>, AllocError>
    ensures had { IfOk result (λ had. had ≡ place_of places.old name.now) }
    ensures ok { OnOk result (HasPlace places.old places.new name.now (Some place)) }
    ensures err { OnErr result (HasSamePlaces places.old places.new) }
{
    let key = Vec::from_slice(alloc, name)?;
    let had = places.insert(key, place)?;
    Ok(had)
}

/// Gives a name that has a place another one.
pub(crate) fn replace(places: &mut Places, name: &[u8], place: usize)
    requires { IsSome (place_of places.old name.now) }
    ensures { HasPlace places.old places.new name.now (Some place) }
{
    if let Some(shown) = places.get_mut(name) {
        *shown = place;
    }
}

/// Takes the place of a name away.
pub(crate) fn remove(places: &mut Places, name: &[u8])
    ensures { HasPlace places.old places.new name.now None }
{
    let _ = places.remove(name);
}
