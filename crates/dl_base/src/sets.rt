//! Fixed sets of roles and of basic concepts, a bit for each.
ghost use Rattle.std.specs.Prelude.{◌≡◌, ◌≢◌, ◌<◌, ◌≤◌, ◌+◌, ◌*◌, ◌/◌, ◌%◌, ◌⊎◌, ◌↔◌, ℕ, IsTrue, length};
ghost use Rattle.dl_base.specs.Ontology.{IsPlaced};
ghost use Rattle.dl_base.specs.Sets.{HasBit, role_place, place_of, HasRole, HasBasic};
ghost use Rattle.dl_base.specs.declared.concept.Role.{Role as RoleByPlace};
ghost use Rattle.dl_base.specs.declared.concept.Basic.{Basic as BasicConcept};

use crate::{Basic, Role};
use std::marker::Model;

/// How many concept names an ontology may have.
pub const CONCEPTS: usize = 512;

/// How many places there are for basic concepts: one for each concept name, and two for each role name.
pub const PLACES: usize = 1024;

/// A set of roles whose names have places below 256. It takes no memory.
#[derive(Clone, Copy)]
pub struct RoleSet {
    words: [u64; 8],
}

impl Model for RoleSet {
    ghost use Rattle.std.specs.Prelude.{List, ℕ};

    ghost Value = { List ℕ };

    ghost view = { λ s. s.words };

    ghost inverse = { λ v. record { words = v } };
}

impl RoleSet {
    /// The empty set.
    pub fn new() -> RoleSet
        ensures { (r : RoleByPlace) → HasRole result r → ⊥ }
    {
        RoleSet { words: [0; 8] }
    }

    /// Adds one role.
    pub fn add(&mut self, r: Role)
        requires { r.name < 256 }
        ensures { (s : RoleByPlace) → HasRole self.new s ↔ ((s ≡ r) ⊎ HasRole self.old s) }
    {
        set_bit(&mut self.words, role_place(r));
    }

    /// Whether the role is there.
    pub fn has(&self, r: Role) -> bool
        requires { r.name < 256 }
        ensures { IsTrue result ↔ HasRole self.now r }
    {
        has_bit(&self.words, role_place(r))
    }
}

/// A set of basic concepts: concepts with places below 512, and roles whose names have places below 256. It takes
/// no memory.
#[derive(Clone, Copy)]
pub struct BasicSet {
    words: [u64; 16],
}

impl Model for BasicSet {
    ghost use Rattle.std.specs.Prelude.{List, ℕ};

    ghost Value = { List ℕ };

    ghost view = { λ s. s.words };

    ghost inverse = { λ v. record { words = v } };
}

impl BasicSet {
    /// The empty set.
    pub fn new() -> BasicSet
        ensures { (b : BasicConcept) → HasBasic result b → ⊥ }
    {
        BasicSet { words: [0; 16] }
    }

    /// Adds one basic concept.
    pub fn add(&mut self, b: Basic)
        requires { IsPlaced 512 256 b }
        ensures { (c : BasicConcept) → HasBasic self.new c ↔ ((c ≡ b) ⊎ HasBasic self.old c) }
    {
        set_bit(&mut self.words, place(b));
    }

    /// Whether the basic concept is there.
    pub fn has(&self, b: Basic) -> bool
        requires { IsPlaced 512 256 b }
        ensures { IsTrue result ↔ HasBasic self.now b }
    {
        has_bit(&self.words, place(b))
    }

    /// The bits, 64 to a word: that of a basic concept stands at its place.
    pub fn words(&self) -> &[u64]
        ensures words { result.now ≡ self.now }
        ensures all { length result.now ≡ 16 }
    {
        &self.words
    }
}

/// The place of a basic concept among all: concepts first, then each role name and its inverse.
pub fn place(b: Basic) -> usize
    requires { IsPlaced 512 256 b }
    ensures place { result ≡ place_of b }
    ensures below { result < 1024 }
{
    match b {
        Basic::Concept(c) => c as usize,
        Basic::Exists(r) => CONCEPTS + role_place(r),
    }
}

fn role_place(r: Role) -> usize
    requires { r.name < 256 }
    ensures place { result ≡ role_place r }
    ensures below { result < 512 }
{
    2 * r.name as usize + usize::from(r.inverse)
}

fn set_bit(words: &mut [u64], at: usize)
    requires { at < 64 * length words.old }
    ensures { (p : ℕ) → HasBit words.new p ↔ ((p ≡ at) ⊎ HasBit words.old p) }
{
    words[at / 64] |= 1 << (at % 64);
}

fn has_bit(words: &[u64], at: usize) -> bool
    requires { at < 64 * length words.now }
    ensures { IsTrue result ↔ HasBit words.now at }
{
    words[at / 64] >> (at % 64) & 1 == 1
}
