//! What was derived.
ghost use Rattle.std.specs.Prelude.{◌≡◌, ◌<◌, ◌↔◌, IsTrue};
ghost use Rattle.dl_base.specs.Ontology.{IsPlaced};
ghost use Rattle.dl_base.specs.Sets.{HasBasic};

use dl_base::{Basic, BasicSet};
use std::marker::Model;

/// What was derived from a set of basic concepts, and the first inclusion to nothing that is violated. Only
/// `Rules::close` makes one. It takes no memory beside itself: a bit for each basic concept, and a number.
#[derive(Drop)]
pub struct Closed {
    pub(crate) derived: BasicSet,
    pub(crate) violated: Option<u32>,
}

impl Model for Closed {
    ghost use Rattle.horn_closure.specs.Closure.{ClosedSet};

    ghost Value = { ClosedSet };

    ghost view = { λ c. record { derived = c.derived; violated = c.violated } };
}

impl Closed {
    /// Whether the basic concept was derived; one whose name has a place past those of every ontology never is.
    pub fn has(&self, b: Basic) -> bool
        ensures { IsTrue result ↔ HasBasic self.now.derived b }
    {
        is_placed(b) && self.derived.has(b)
    }

    /// The number, counted from 1, of the first inclusion to nothing each of whose body members was derived.
    pub fn violated(&self) -> Option<u32>
        ensures { result ≡ self.now.violated }
    {
        self.violated
    }
}

/// Whether a set has a bit for it.
fn is_placed(b: Basic) -> bool
    ensures { IsTrue result ↔ IsPlaced 512 256 b }
{
    match b {
        Basic::Concept(c) => c < 512,
        Basic::Exists(r) => r.name < 256,
    }
}
