//! The book of witnesses.
ghost use Rattle.std.specs.Prelude.{◌≡◌, ◌<◌, ◌≤◌, ◌↔◌, IfOk, IfSome, IsNone, IsTrue, MatchOption};
ghost use Rattle.dl_base.specs.Sets.{HasRole};
ghost use Rattle.dl_base.specs.declared.concept.Role.{Role as AnyRole};
ghost use Rattle.witness_book.specs.Witnesses.{IsCounted, IsCurrent, IsUnused, SetsLive, current_witness};

use crate::generations::{Generations, raise};
use dl_base::{Role, RoleSet, Witness};
use std::alloc::{AllocError, Global};
use std::marker::Model;

/// Which roles are live, and how often each has become live. Contracts see it as this, with how many role names it is for
/// and how often the live roles were set.
#[derive(Drop)]
pub struct WitnessBook {
    roles: u32,
    calls: u32,
    live: RoleSet,
    generations: Vec<Generations>,
}

impl Model for WitnessBook {
    ghost use Rattle.witness_book.specs.Witnesses.{Witnesses, IsWitnessBook};

    ghost Value = { Witnesses };

    ghost view = { λ b. record { roles = b.roles; calls = b.calls; live = b.live; generations = b.generations.items } };

    ghost invariant = { λ b. IsWitnessBook (record { roles = b.roles; calls = b.calls; live = b.live; generations = b.generations.items }) };
}

impl WitnessBook {
    /// The book for so many role names, none of which has been live, nor its inverse. No role past the first 256 names can
    /// become live, so it takes memory for these alone.
    pub fn new(alloc: Global, roles: u32) -> Result<WitnessBook, AllocError>
        ensures { IfOk result (IsUnused roles) }
    {
        let never = Generations {
            direct: 0,
            inverse: 0,
        };
        Ok(WitnessBook {
            roles,
            calls: 0,
            live: RoleSet::new(),
            generations: vec![in alloc; never; roles.min(256) as usize]?,
        })
    }

    /// The same book once more.
    pub fn copy(&self, alloc: Global) -> Result<WitnessBook, AllocError>
        ensures { IfOk result (λ b. b ≡ self.now) }
    {
        Ok(WitnessBook {
            roles: self.roles,
            calls: self.calls,
            live: self.live,
            generations: Vec::from_slice(alloc, self.generations.as_slice())?,
        })
    }

    /// Makes these the live roles, and raises by one the generation of each that was not live before. It takes no memory,
    /// nor do the calls below.
    pub fn set_live(&mut self, live: &RoleSet)
        requires calls { self.old.calls < 4000000000 }
        requires within { (r : AnyRole) → HasRole live.now r → r.name < self.old.roles }
        ensures { SetsLive self.old live.now self.new }
    {
        raise(self.generations.as_mut_slice(), &self.live, live);
        self.live = *live;
        self.calls += 1;
    }

    /// The witness that the role has now, or `None` exactly where it is not live. A role whose name has no place below the
    /// book's number of names is never live.
    pub fn current(&self, r: Role) -> Option<Witness>
        ensures current { MatchOption result (HasRole self.now.live r → ⊥) (λ w. HasRole self.now.live r × (w ≡ current_witness self.now r)) }
        ensures past { self.now.roles ≤ r.name → IsNone result }
        ensures counted { IfSome result (IsCounted self.now) }
    {
        if r.name >= 256 || !self.live.has(r) {
            return None;
        }
        let generation = self.generations[r.name as usize].of(r.inverse);
        Some(Witness {
            role: r,
            generation,
        })
    }

    /// Whether the witness is the one that its role has now.
    pub fn is_current(&self, w: Witness) -> bool
        ensures { IsTrue result ↔ IsCurrent self.now w }
    {
        match self.current(w.role) {
            Some(current) => current.generation == w.generation,
            None => false,
        }
    }

    /// How often the live roles were set.
    pub fn calls(&self) -> u32
        ensures { result ≡ self.now.calls }
    {
        self.calls
    }
}
