//! What an arena keeps of the slots that it gave.
ghost use Rattle.std.specs.Prelude.{◌≡◌, ◌+◌, ◌-◌, ◌^◌, ◌<◌, ◌≤◌, length, min, take, Some, IfOk, IfErr, OnOk, IsOk, vec_len, vec_capacity};
ghost use Rattle.gen_arena.specs.Store.{greatest, put_at};
ghost use Rattle.gen_arena.specs.Places.{IsGoneAt, keyed, next_of, place_at, slots_left};

use crate::handle::{Gone, Handle};
use std::alloc::AllocError;

/// What is kept of a slot: its last generation, and while that one is live the key of its value.
#[derive(Clone, Copy)]
pub(crate) struct Place {
    pub(crate) generation: u64,
    pub(crate) key: Option<usize>,
}

/// A slot that was never given.
const UNPLACED: Place = Place {
    generation: 0,
    key: None,
};

/// What is kept of the slot.
pub(crate) fn place_of(places: &[Place], slot: u32) -> Place
    ensures { result ≡ place_at places.now slot }
{
    match places.get(slot as usize) {
        Some(place) => *place,
        None => UNPLACED,
    }
}

/// The key of the value that the handle names, or why it names none.
pub(crate) fn key_of(places: &[Place], h: Handle) -> Result<usize, Gone>
    ensures found { IfOk result (λ key. place_at places.now h.slot ≡ keyed h.generation key) }
    ensures gone { IfErr result (IsGoneAt (place_at places.now h.slot) h) }
{
    let place = place_of(places, h.slot);
    if h.generation == 0 || place.generation < h.generation {
        return Err(Gone::Never);
    }
    match place.key {
        Some(key) if h.generation == place.generation => Ok(key),
        _ => Err(Gone::Dropped(place.generation)),
    }
}

/// Makes room for so many more values to be given slots, and for all slots to be freed.
pub(crate) fn reserve_slots(
    places: &mut Vec<Place>,
    freed: &mut Vec<u32>,
    values: u32,
) -> Result<(), AllocError>
    requires freed { vec_len freed.old ≤ vec_len places.old }
    requires few { vec_len places.old < 2 ^ 32 }
    ensures ok { OnOk result (values ≤ slots_left places.old.items freed.old.items (min (vec_capacity places.new) (vec_capacity freed.new))) }
    ensures succeeds { values ≤ slots_left places.old.items freed.old.items (min (vec_capacity places.old) (vec_capacity freed.old)) → IsOk result }
    ensures places { places.new.items ≡ places.old.items }
    ensures freed { freed.new.items ≡ freed.old.items }
    ensures places_capacity { vec_capacity places.old ≤ vec_capacity places.new }
    ensures freed_capacity { vec_capacity freed.old ≤ vec_capacity freed.new }
{
    let new = (values as usize).saturating_sub(freed.len());
    if new == 0 {
        return Ok(());
    }
    places.reserve(new)?;
    freed.reserve(places.len() - freed.len() + new)
}

/// Takes the slot that is given next: the last one that was freed, else the next new one.
fn take_next(places: &[Place], freed: &mut Vec<u32>) -> u32
    requires { length places.now < 2 ^ 32 }
    ensures slot { result ≡ next_of places.now freed.old.items }
    ensures freed { freed.new.items ≡ take (length freed.old.items - 1) freed.old.items }
    ensures capacity { vec_capacity freed.new ≡ vec_capacity freed.old }
{
    match freed.pop() {
        Some(slot) => slot,
        None => places.len() as u32,
    }
}

/// Puts this into the slot, which is one of those that were given or the next new one.
pub(crate) fn put(places: &mut Vec<Place>, slot: u32, place: Place)
    requires within { slot ≤ vec_len places.old }
    requires room { vec_len places.old ≤ slot → vec_len places.old < vec_capacity places.old }
    ensures places { places.new.items ≡ put_at places.old.items slot place }
    ensures capacity { vec_capacity places.new ≡ vec_capacity places.old }
{
    if (slot as usize) < places.len() {
        places[slot as usize] = place;
    } else {
        places.push_reserved(place);
    }
}

/// Gives the next handle, whose value is under the key.
pub(crate) fn give(places: &mut Vec<Place>, freed: &mut Vec<u32>, key: usize) -> Handle
    requires few { vec_len places.old < 2 ^ 32 }
    requires within { next_of places.old.items freed.old.items ≤ vec_len places.old }
    requires room { vec_len places.old ≤ next_of places.old.items freed.old.items → vec_len places.old < vec_capacity places.old }
    requires again { (place_at places.old.items (next_of places.old.items freed.old.items)).generation < greatest }
    ensures slot { result.slot ≡ next_of places.old.items freed.old.items }
    ensures generation { result.generation ≡ (place_at places.old.items result.slot).generation + 1 }
    ensures places { places.new.items ≡ put_at places.old.items result.slot (keyed result.generation key) }
    ensures freed { freed.new.items ≡ take (length freed.old.items - 1) freed.old.items }
    ensures places_capacity { vec_capacity places.new ≡ vec_capacity places.old }
    ensures freed_capacity { vec_capacity freed.new ≡ vec_capacity freed.old }
{
    let slot = take_next(places, freed);
    let generation = place_of(places, slot).generation + 1;
    put(
        places,
        slot,
        Place {
            generation,
            key: Some(key),
        },
    );
    Handle { slot, generation }
}
