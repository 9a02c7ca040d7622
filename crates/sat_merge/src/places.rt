//! Where the clauses that hints name by their ids stand in a log.

ghost use Rattle.std.specs.Prelude.{◌≡◌, ◌≤◌, ℤ, pos, IfOk, IfSome, IfNone};
ghost use Rattle.sat_merge.specs.Proofs.{AreIdPlaces, Ascend, IsNoId, IsPlaceOf};

use ep_base::Memory;
use std::alloc::Global;

/// The place of the event with an id, where the ids of the events ascend.
fn place_of(ids: &[u64], hint: i64) -> Option<u64>
    requires { Ascend ids.now }
    ensures some { IfSome result (λ place. IsPlaceOf ids.now hint place) }
    ensures none { IfNone result (IsNoId ids.now hint) }
{
    if hint < 0 {
        return None;
    }
    let id = hint as u64;
    match ids.binary_search(&id) {
        Ok(place) => Some(place as u64),
        Err(_) => None,
    }
}

/// The places of the events that hints name, up to the first hint that names none.
pub fn places_of(alloc: Global, ids: &[u64], hints: &[i64]) -> Result<Vec<u64>, Memory>
    requires { Ascend ids.now }
    ensures { IfOk result (λ places. AreIdPlaces ids.now hints.now places.items) }
{
    let mut places = Vec::new(alloc);
    for hint in hints {
        let Some(place) = place_of(ids, *hint) else {
            return Ok(places);
        };
        places.push(place)?;
    }
    Ok(places)
}
