//! The arena.
ghost use Rattle.std.specs.Prelude.{◌≡◌, ◌+◌, ◌≤◌, IfOk, IfErr, OnOk, OnErr, IsOk};
ghost use Rattle.std.specs.Borrow.{sem};
ghost use Rattle.gen_arena.specs.Store.{IsGone, IsHandleStore, Names, empty_store, next_handle, room_of, with_value, without};

use crate::handle::{Gone, Handle};
use crate::places::{Place, give, key_of, put, reserve_slots};
use slab::Slab;
use std::alloc::{AllocError, Global};
use std::marker::Model;

/// Values behind handles. Each value has a slot, and a slot that is free again is given once more with the next generation, so
/// that a handle never names another value than its own. Contracts see it as a handle store, and how many more values surely
/// find memory. Each call takes constant time, and one that takes memory does so on average.
#[derive(Drop)]
pub struct Arena<T> {
    limit: u32,
    places: Vec<Place>,
    freed: Vec<u32>,
    values: Slab<T>,
}

impl<T> Model for Arena<T> {
    ghost use Rattle.std.specs.Prelude.{◌≤◌, length, min, vec_capacity};
    ghost use Rattle.gen_arena.specs.Store.{ReservedStore, reserved_code};

    ghost Value = { ReservedStore T };

    ghost coded = { reserved_code T.code };

    ghost use Rattle.gen_arena.specs.Places.{IsArranged, spare_of, store_of};

    ghost view = { λ a. record {
      store = store_of a.limit a.places.items a.freed.items a.values;
      spare = spare_of a.places.items a.freed.items a.values (min (vec_capacity a.places) (vec_capacity a.freed));
    } };

    ghost invariant = { λ a. IsArranged a.limit a.places.items a.freed.items a.values × (length a.places.items ≤ vec_capacity a.freed) };
}

impl<T> Arena<T> {
    ghost use Rattle.gen_arena.specs.Lends.{lends_value};

    /// An arena that gives at most so many slots, none of which is given. It takes no memory.
    pub fn new(alloc: Global, limit: u32) -> Arena<T>
        ensures { result.store ≡ empty_store limit }
    {
        Arena {
            limit,
            places: Vec::new(alloc),
            freed: Vec::new(alloc),
            values: Slab::new(alloc),
        }
    }

    /// How many more values find a slot: the freed slots, and those that were never given.
    pub fn room(&self) -> u32
        ensures room { result ≡ room_of self.now.store }
        ensures store { IsHandleStore self.now.store }
    {
        self.limit - self.places.len() as u32 + self.freed.len() as u32
    }

    /// Takes memory for so many more values, which are then inserted without refusal. After `AllocError` the values and handles
    /// are as before, and no memory is given back.
    pub fn reserve(&mut self, n: u32) -> Result<(), AllocError>
        requires { n ≤ room_of self.old.store }
        ensures ok { OnOk result (n ≤ self.new.spare) }
        ensures succeeds { 1 ≤ n → n ≤ self.old.spare → IsOk result }
        ensures store { self.new.store ≡ self.old.store }
        ensures spare { self.old.spare ≤ self.new.spare }
    {
        reserve_slots(&mut self.places, &mut self.freed, n)?;
        self.values.reserve(n as usize)
    }

    /// Inserts the value, and gives the handle that names it from now on. The value comes back where memory runs out, which it
    /// doesn't where memory is reserved; the values and handles are then as before.
    pub fn insert(&mut self, value: T) -> Result<Handle, (AllocError, T)>
        requires { 1 ≤ room_of self.old.store }
        ensures handle { IfOk result (λ h. h ≡ next_handle self.old.store) }
        ensures ok { OnOk result (self.new.store ≡ with_value value self.old.store) }
        ensures err { OnErr result (self.new.store ≡ self.old.store) }
        ensures returned { IfErr result (λ e. e.1 ≡ value) }
        ensures succeeds { 1 ≤ self.old.spare → IsOk result }
        ensures spare { self.old.spare ≤ self.new.spare + 1 }
    {
        if reserve_slots(&mut self.places, &mut self.freed, 1).is_err() {
            return Err((AllocError, value));
        }
        match self.values.insert(value) {
            Ok(key) => Ok(give(&mut self.places, &mut self.freed, key)),
            Err(failed) => Err((AllocError, failed.value)),
        }
    }

    /// The value that the handle names, or why it names none. It takes no memory, nor do the calls below.
    pub fn get(&self, h: Handle) -> Result<&T, Gone>
        ensures found { IfOk result (λ v. Names self.now.store h v.now) }
        ensures gone { IfErr result (IsGone self.now.store h) }
    {
        Ok(&self.values[key_of(self.places.as_slice(), h)?])
    }

    /// The value that the handle names, for writing, or why it names none. A write changes what this handle names and nothing
    /// else.
    pub fn get_mut(&mut self, h: Handle) -> Result<&mut T, Gone>
        ensures* writes_back { sem 𝓛 (lends_value T.row self.entry h result) }
        ensures found { IfOk result (λ v. Names self.old.store h v.now) }
        ensures gone { IfErr result (IsGone self.old.store h) }
    {
        let key = key_of(self.places.as_slice(), h)?;
        Ok(&mut self.values[key])
    }

    /// Removes the value that the handle names and hands it out, or tells why it names none. From then on the handle is a dropped
    /// one, and its slot is given again, unless its generation is the greatest.
    pub fn remove(&mut self, h: Handle) -> Result<T, Gone>
        ensures found { IfOk result (Names self.old.store h) }
        ensures ok { OnOk result (self.new.store ≡ without h self.old.store) }
        ensures gone { IfErr result (IsGone self.old.store h) }
        ensures err { OnErr result (self.new ≡ self.old) }
        ensures spare { self.old.spare ≤ self.new.spare }
    {
        let key = key_of(self.places.as_slice(), h)?;
        let value = self.values.remove(key);
        put(
            &mut self.places,
            h.slot,
            Place {
                generation: h.generation,
                key: None,
            },
        );
        if h.generation < u64::MAX {
            self.freed.push_reserved(h.slot);
        }
        Ok(value)
    }
}
