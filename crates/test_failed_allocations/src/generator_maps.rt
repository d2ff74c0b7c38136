//! Calls of `GenMap` that may return out of memory.
use crate::outcome::Outcome;
use generators::GenMap;
use std::alloc::Global;

// Operators and amounts in the order in which they are set, and in canonical order.
static SETTINGS: [(u16, u16); 6] = [(17, 1), (58, 2), (43, 3), (5, 4), (44, 5), (48, 6)];

static ENTRIES: [(u16, u16); 6] = [(43, 3), (44, 5), (5, 4), (17, 1), (48, 6), (58, 2)];

pub(crate) fn generators_set(alloc: Global) -> Outcome {
    let (gens, outcome) = all_set(alloc);
    outcome.and(Outcome::done(gens.entries() == ENTRIES.as_slice()))
}

pub(crate) fn generators_copy(alloc: Global) -> Outcome {
    let (gens, outcome) = all_set(alloc);
    let again = match gens.copy(alloc) {
        Ok(copy) => return outcome.and(Outcome::done(copy.entries() == gens.entries())),
        Err(_) => gens.copy(alloc),
    };
    match again {
        Ok(copy) => Outcome::refused(
            copy.entries() == ENTRIES.as_slice() && gens.entries() == ENTRIES.as_slice(),
        ),
        Err(_) => Outcome::Wrong,
    }
}

// A map of all settings. A call that fails leaves the map as it was and is made again.
fn all_set(alloc: Global) -> (GenMap, Outcome) {
    let mut gens = GenMap::new(alloc);
    let mut outcome = Outcome::Done;
    for (operator, amount) in SETTINGS {
        let len = gens.len();
        if gens.set(operator, amount).is_ok() {
            continue;
        }
        let unchanged = gens.len() == len && gens.get(operator).is_none();
        outcome = outcome.and(Outcome::refused(unchanged && gens.set(operator, amount).is_ok()));
    }
    (gens, outcome)
}
