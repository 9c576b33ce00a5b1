//! Changes made on rows.
ghost use Rattle.std.specs.Prelude.{◌≡◌, ◌≢◌, ◌≤◌, ◌+◌, ◌*◌, ◌++◌, List, All, AllPairs, IfOk, OnOk, length};
ghost use Rattle.base_store.specs.Loading.{FollowsChange, FollowsChanges};
ghost use Rattle.dl_base.specs.Numbers.{IsNamedBy, IsPlaceOf};
ghost use Rattle.dl_base.specs.Ontology.{IsTerminology};
ghost use Rattle.dl_base.specs.declared.row.Row.{Row as AnyRow};
ghost use Rattle.row_changes.specs.Difference.{IsDifference};

use crate::difference::Difference;
use crate::numbers::{known, number};
use assert_tables::Assertions;
use dl_base::{NameBook, NamedChange, Ontology};
use std::alloc::{AllocError, Global};

/// What changes made of rows.
#[derive(Drop)]
pub struct Made {
    /// The individuals that the book lacks, in the order of their numbers, which go on behind the book's.
    pub newcomers: NameBook,
    /// How the rows differ from what they were.
    pub difference: Difference,
}

/// Makes the changes in order on the rows. Individuals that the book lacks get the numbers behind it. After `AllocError`
/// some changes are made.
pub fn make_changes(
    alloc: Global,
    ontology: &Ontology,
    individuals: &NameBook,
    rows: &mut Assertions,
    changes: &[NamedChange],
) -> Result<Made, AllocError>
    requires few { length changes.now ≤ 10000 }
    requires names { length individuals.now ≤ 3000000000 }
    requires named { All (λ c. IsNamedBy ontology.now c.row) changes.now }
    ensures within { IsTerminology ontology.now }
    ensures follows { IfOk result (λ made. FollowsChanges ontology.now changes.now individuals.now rows.old (individuals.now ++ made.newcomers) rows.new) }
    ensures differ { IfOk result (λ made. IsDifference rows.old rows.new made.difference) }
    ensures few { IfOk result (λ made. length made.newcomers ≤ 2 * length changes.now) }
    ensures distinct { IfOk result (λ made. AllPairs (λ x y. x ≢ y) (individuals.now ++ made.newcomers)) }
{
    let _ = individuals.len();
    let _ = ontology.concepts();
    let mut made = Made {
        newcomers: NameBook::new(alloc),
        difference: Difference::new(alloc),
    };
    for change in changes {
        make_change(ontology, individuals, rows, change, &mut made)?;
    }
    Ok(made)
}

/// Makes one change more.
fn make_change(
    ontology: &Ontology,
    individuals: &NameBook,
    rows: &mut Assertions,
    change: &NamedChange,
    made: &mut Made,
) -> Result<(), AllocError>
    requires room { length individuals.now + length made.old.newcomers ≤ 3900000000 }
    requires distinct { AllPairs (λ x y. x ≢ y) (individuals.now ++ made.old.newcomers) }
    requires named { IsNamedBy ontology.now change.now.row }
    ensures follows { OnOk result (FollowsChange ontology.now change.now (individuals.now ++ made.old.newcomers) rows.old (individuals.now ++ made.new.newcomers) rows.new) }
    ensures differ { (first : List AnyRow) → IsDifference first rows.old made.old.difference → OnOk result (IsDifference first rows.new made.new.difference) }
    ensures few { OnOk result (length made.new.newcomers ≤ 2 + length made.old.newcomers) }
    ensures distinct { OnOk result (AllPairs (λ x y. x ≢ y) (individuals.now ++ made.new.newcomers)) }
{
    let Some(place) = ontology.place_of(&change.row) else {
        unreachable!();
    };
    if change.add {
        let row = number(place, individuals, &mut made.newcomers, &change.row)?;
        made.difference.add(rows, row)?;
    } else if let Some(row) = known(place, individuals, &made.newcomers, &change.row) {
        made.difference.del(rows, row)?;
    }
    Ok(())
}
