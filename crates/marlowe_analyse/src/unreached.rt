//! Parts of a contract to which no run comes, as they are told.
ghost use Rattle.std.specs.Prelude.{◌≡◌, [], ◌∷◌, ◌++◌, map, All, IfOk, OnOk};
ghost use Rattle.std.specs.List.Sorted.{IsSortedByKey};
ghost use Rattle.places.specs.Places.{path_keys};
ghost use Rattle.marlowe_analyse.specs.Order.{key_cmp};
ghost use Rattle.marlowe_analyse.specs.RunsSupport.{TellPlaces, IsSpotOf, lies_below, kept};

use crate::order::put_steps;
use analysis_spec::PathStep;
use contract::{Items, Memory};
use places::{Key, path_keys};
use std::alloc::Global;

/// A place, with the numbers by which it stands before others.
#[derive(Drop)]
#[derive_where(PartialEq, Eq, PartialOrd, Ord)]
pub(crate) struct Spot<'a> {
    key: Vec<usize>,
    #[derive_where(skip)]
    pub(crate) place: &'a Items<PathStep>,
}

/// The keys of places, in the order of the contract; of those that lie below another none.
pub(crate) fn told_places(
    alloc: Global,
    places: &[Items<PathStep>],
) -> Result<Items<Items<Key>>, Memory>
    ensures { IfOk result (TellPlaces places.now) }
{
    let spots = in_place_order(alloc, places)?;
    let told = keys_of(alloc, &spots)?;
    Ok(told)
}

fn in_place_order<'a>(alloc: Global, places: &'a [Items<PathStep>]) -> Result<Vec<Spot<'a>>, Memory>
    ensures spots { IfOk result (λ all. All (IsSpotOf places.now) all.items) }
    ensures sorted { IfOk result (λ all. IsSortedByKey (λ s. s.key.items) key_cmp all.items) }
{
    let mut spots = spots_of(alloc, places)?;
    spots.sort()?;
    Ok(spots)
}

fn spots_of<'a>(alloc: Global, places: &'a [Items<PathStep>]) -> Result<Vec<Spot<'a>>, Memory>
    ensures { IfOk result (λ all. All (IsSpotOf places.now) all.items) }
{
    let mut spots = Vec::new(alloc);
    for place in places {
        let mut key = Vec::new(alloc);
        put_steps(&mut key, place.as_slice())?;
        spots.push(Spot { key, place })?;
    }
    Ok(spots)
}

// The keys of each place that doesn't lie below one that is told before it.
fn keys_of(alloc: Global, spots: &[Spot<'_>]) -> Result<Items<Items<Key>>, Memory>
    ensures { IfOk result (λ told. told ≡ map (λ s. path_keys s.place.now) (kept spots.now)) }
{
    let mut told = Items::new(alloc);
    if spots.is_empty() {
        return Ok(told);
    }
    put_keys(alloc, &mut told, &spots[0])?;
    let mut last = &spots[0];
    for spot in &spots[1..] {
        if !lies_below(last, spot) {
            put_keys(alloc, &mut told, spot)?;
            last = spot;
        }
    }
    Ok(told)
}

fn put_keys(alloc: Global, told: &mut Items<Items<Key>>, spot: &Spot<'_>) -> Result<(), Memory>
    ensures { OnOk result (told.new ≡ told.old ++ path_keys spot.now.place.now ∷ []) }
{
    let keys = path_keys(alloc, spot.place.as_slice())?;
    told.push(Items::from_vec(keys))?;
    Ok(())
}

// Whether a place lies below another, or is that one.
fn lies_below(above: &Spot<'_>, spot: &Spot<'_>) -> bool
    ensures { result ≡ lies_below above.now spot.now }
{
    spot.key.starts_with(&above.key)
}
