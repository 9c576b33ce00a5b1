//! Ontologies whose lists were made elsewhere.
ghost use Rattle.std.specs.Prelude.{◌≡◌};
ghost use Rattle.dl_base.specs.Ontology.{IsTerminology};

use super::Ontology;
use crate::{Inclusion, NameBook};
use plain_list::Items;

impl Ontology {
    /// The ontology of these three lists, which are within the limits. It takes no memory.
    pub fn from_parts(concepts: NameBook, roles: NameBook, inclusions: Items<Inclusion>) -> Ontology
        requires { IsTerminology (record { concepts = concepts; roles = roles; inclusions = inclusions }) }
        ensures { result ≡ record { concepts = concepts; roles = roles; inclusions = inclusions } }
    {
        Ontology {
            concepts,
            roles,
            inclusions,
        }
    }
}
