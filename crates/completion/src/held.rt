//! What an individual holds by asserted rows.
ghost use Rattle.std.specs.Prelude.{◌≡◌, ◌⊎◌, ◌↔◌, ℕ, All};
ghost use Rattle.completion.specs.Numbered.{GivesBasic, HoldsBy, IsRowWithin};
ghost use Rattle.dl_base.specs.Sets.{HasBasic};
ghost use Rattle.dl_base.specs.declared.concept.Basic.{Basic as AnyBasic};

use assert_tables::Assertions;
use dl_base::{Basic, BasicSet, Role, Row};

/// What the individual of this number holds by the rows.
pub(crate) fn held_by(rows: &Assertions, individual: u32) -> BasicSet
    requires { All (IsRowWithin 512 256) rows.now }
    ensures { (b : AnyBasic) → HasBasic result b ↔ HoldsBy rows.now individual b }
{
    let mut held = BasicSet::new();
    for row in rows.rows_naming(individual) {
        hold(&mut held, row, individual);
    }
    held
}

/// Adds what the individual holds by the row.
fn hold(held: &mut BasicSet, row: Row, individual: u32)
    requires { IsRowWithin 512 256 row }
    ensures { (b : AnyBasic) → HasBasic held.new b ↔ (GivesBasic row individual b ⊎ HasBasic held.old b) }
{
    match row {
        Row::Concept {
            concept,
            individual: a,
        } => {
            if a == individual {
                held.add(Basic::Concept(concept));
            }
        }
        Row::Role { role, from, to } => {
            let direct = Role {
                name: role,
                inverse: false,
            };
            if from == individual {
                held.add(Basic::Exists(direct));
            }
            if to == individual {
                held.add(Basic::Exists(direct.inverted()));
            }
        }
    }
}
