// What the entries of a log come to while they are read.
ghost use Rattle.std.specs.Prelude.{◌≡◌, ◌<◌, ◌≤◌, ◌+◌, ◌*◌, ◌↔◌, ℕ, [], true, false, List, All, IfOk, IsTrue, MatchBool, MatchOption, OnOk, length};
ghost use Rattle.assert_tables.specs.Rows.{AreRisingRows};
ghost use Rattle.dl_base.specs.Axiom.{with_names};
ghost use Rattle.dl_base.specs.Book.{Interns};
ghost use Rattle.dl_base.specs.Numbers.{IsNamedBy, IsPlaceOf, NumbersRow, names_in};
ghost use Rattle.dl_base.specs.Ontology.{Terminology, IsTerminology};
ghost use Rattle.dl_base.specs.declared.row.NamedChange.{NamedChange as AnyChange};
ghost use Rattle.dl_base.specs.declared.row.Row.{Row as AnyRow};
ghost use Rattle.txn_codec.specs.Changes.{changes_payload};
ghost use Rattle.txn_codec.specs.ChangeView.{change_viewed, row_viewed};
ghost use Rattle.base_store.specs.History.{Empty, History, Over, used};
ghost use Rattle.base_store.specs.Legal.{Continues, IsNextTransaction};
ghost use Rattle.base_store.specs.Loaded.{HasRows};
ghost use Rattle.base_store.specs.Loading.{AreFew, FollowsChange, FollowsChanges, FollowsNext, IsLoadingOf, KeepsNext, TakesPayload};

use assert_tables::GatheredRows;
use dl_base::{NameBook, NamedRow, Ontology, Row};
use std::alloc::{AllocError, Global};
use txn_codec::{
    ChangeReader, ChangeView, CodecError, NameSlice, RowView, count_of_changes, read_ontology,
};

/// The ontology, the rows by number, the book of their individuals and the number of transactions, behind the entries that
/// were taken.
#[derive(Drop)]
pub struct Loading {
    pub ontology: Option<Ontology>,
    pub individuals: NameBook,
    pub rows: GatheredRows,
    pub transactions: u64,
}

impl Loading {
    /// Before the first entry. It takes no memory.
    pub(crate) fn new(alloc: Global) -> Loading
        ensures { IsLoadingOf result Empty }
    {
        Loading {
            ontology: None,
            individuals: NameBook::new(alloc),
            rows: GatheredRows::new(alloc),
            transactions: 0,
        }
    }

    /// Takes the next entry, and answers whether it is a legal one; where it isn't, or at `AllocError`, what was taken is
    /// given up.
    pub(crate) fn take(
        &mut self,
        alloc: Global,
        kind: u8,
        payload: &[u8],
    ) -> Result<bool, AllocError>
        requires { (h : History) × IsLoadingOf self.old h × (used h ≤ 1073741824) }
        ensures { (h : History) → IsLoadingOf self.old h → IfOk result (λ legal. MatchBool legal
            (KeepsNext h (record { kind = kind; payload = payload.now }) self.new)
            ((next : History) → Continues h (record { kind = kind; payload = payload.now }) next → ⊥)) }
    {
        match &self.ontology {
            None if kind == 1 => match read_ontology(alloc, payload) {
                Ok(ontology) => {
                    self.ontology = Some(ontology);
                    Ok(true)
                }
                Err(CodecError::Bad(_)) => Ok(false),
                Err(CodecError::NoMemory) => Err(AllocError),
            },
            Some(ontology) if kind == 2 => {
                let legal = take_transaction(
                    alloc,
                    ontology,
                    &mut self.individuals,
                    &mut self.rows,
                    payload,
                )?;
                self.transactions += 1;
                Ok(legal)
            }
            _ => Ok(false),
        }
    }
}

/// Makes the changes of a transaction, and answers whether it is a legal one.
fn take_transaction(
    alloc: Global,
    ontology: &Ontology,
    individuals: &mut NameBook,
    rows: &mut GatheredRows,
    payload: &[u8],
) -> Result<bool, AllocError>
    requires { length individuals.old ≤ 3000000000 }
    ensures { (before : List (List AnyChange)) → HasRows (Over ontology.now before) individuals.old rows.old
        → IfOk result (λ legal. MatchBool legal
        (TakesPayload payload.now ontology.now before individuals.old individuals.new rows.new)
        ((changes : List AnyChange) → changes_payload payload.now changes → IsNextTransaction ontology.now before changes → ⊥)) }
{
    if !is_short(payload) {
        return Ok(false);
    }
    match ChangeReader::new(payload) {
        Ok(changes) => take_changes(alloc, ontology, individuals, rows, changes),
        Err(_) => Ok(false),
    }
}

/// Whether bytes that are the payload of changes have at most 10,000 of them. They aren't read.
fn is_short(payload: &[u8]) -> bool
    ensures { MatchBool result
        ((changes : List AnyChange) → changes_payload payload.now changes → length changes ≤ 10000)
        ((changes : List AnyChange) → changes_payload payload.now changes → length changes ≤ 10000 → ⊥) }
{
    match count_of_changes(payload) {
        Some(count) => count <= 10_000,
        None => false,
    }
}

/// Makes so few changes, and answers whether they are legal behind the transactions before.
fn take_changes(
    alloc: Global,
    ontology: &Ontology,
    individuals: &mut NameBook,
    rows: &mut GatheredRows,
    changes: ChangeReader<'_>,
) -> Result<bool, AllocError>
    requires few { length changes ≤ 10000 }
    requires names { length individuals.old ≤ 3000000000 }
    ensures names { IfOk result (λ legal. length individuals.new ≤ length individuals.old + 2 * length changes.entry) }
    ensures taken { (before : List (List AnyChange)) → HasRows (Over ontology.now before) individuals.old rows.old
        → IfOk result (λ legal. MatchBool legal
        (FollowsNext ontology.now before changes.entry individuals.new rows.new)
        (IsNextTransaction ontology.now before changes.entry → ⊥)) }
{
    if !make_all(alloc, ontology, individuals, rows, changes)? {
        return Ok(false);
    }
    // An ontology says of itself that its names are distinct.
    let _ = ontology.concepts();
    are_few(rows)
}

/// Whether the rows are within the limits.
fn are_few(rows: &mut GatheredRows) -> Result<bool, AllocError>
    ensures few { IfOk result (λ few. IsTrue few ↔ AreFew rows.old) }
    ensures rows { OnOk result (rows.new ≡ rows.old) }
    ensures rising { OnOk result (AreRisingRows rows.new) }
{
    if !rows.has_at_most(1_000_000)? {
        return Ok(false);
    }
    rows.name_at_most(65_536)
}

/// Makes the changes in order, and answers whether the ontology has the concept or the role of each. The first one of
/// which it hasn't ends them.
fn make_all(
    alloc: Global,
    ontology: &Ontology,
    individuals: &mut NameBook,
    rows: &mut GatheredRows,
    changes: ChangeReader<'_>,
) -> Result<bool, AllocError>
    requires few { length changes ≤ 10000 }
    requires names { length individuals.old ≤ 3000000000 }
    ensures names { IfOk result (λ named. length individuals.new ≤ length individuals.old + 2 * length changes.entry) }
    ensures made { IfOk result (λ named. MatchBool named
        (FollowsChanges ontology.now changes.entry individuals.old rows.old individuals.new rows.new)
        (All (λ c. IsNamedBy ontology.now c.row) changes.entry → ⊥)) }
    ensures named { IfOk result (λ named. IsTrue named → All (λ c. IsNamedBy ontology.now c.row) changes.entry) }
{
    for change in changes {
        if !make(alloc, ontology, individuals, rows, &change)? {
            return Ok(false);
        }
    }
    Ok(true)
}

/// Makes a change, and answers whether the ontology has its concept or role.
fn make(
    alloc: Global,
    ontology: &Ontology,
    individuals: &mut NameBook,
    rows: &mut GatheredRows,
    change: &ChangeView<'_>,
) -> Result<bool, AllocError>
    requires { length individuals.old ≤ 3900000000 }
    ensures names { OnOk result (length individuals.new ≤ 2 + length individuals.old) }
    ensures made { IfOk result (λ named. MatchBool named
        (IsNamedBy ontology.now (row_viewed change.now.row))
        (IsNamedBy ontology.now (row_viewed change.now.row) → ⊥)) }
    ensures follows { IfOk result (λ named. IsTrue named
        → FollowsChange ontology.now (change_viewed change.now) individuals.old rows.old individuals.new rows.new) }
{
    let Some(place) = place_in(ontology, &change.row) else {
        return Ok(false);
    };
    if change.add {
        add_row(alloc, place, individuals, rows, &change.row)?;
    } else {
        remove_row(place, individuals, rows, &change.row)?;
    }
    Ok(true)
}

/// The place of the concept or role of a row whose names stand in a payload.
fn place_in(ontology: &Ontology, row: &RowView<'_>) -> Option<u32>
    ensures is { MatchOption result (IsNamedBy ontology.now (row_viewed row.now) → ⊥) (λ place. IsPlaceOf ontology.now (row_viewed row.now) place) }
    ensures within { IsTerminology ontology.now }
{
    match row {
        RowView::Concept { concept, .. } => ontology.concepts().find(concept.bytes()),
        RowView::Role { role, .. } => ontology.roles().find(role.bytes()),
    }
}

/// Adds the row, whose concept or role has this place.
fn add_row(
    alloc: Global,
    place: u32,
    individuals: &mut NameBook,
    rows: &mut GatheredRows,
    row: &RowView<'_>,
) -> Result<(), AllocError>
    requires { length individuals.old ≤ 3900000000 }
    ensures names { OnOk result (length individuals.new ≤ 2 + length individuals.old) }
    ensures added { (o : Terminology) → IsPlaceOf o (row_viewed row.now) place
        → OnOk result (FollowsChange o (record { add = true; row = row_viewed row.now }) individuals.old rows.old individuals.new rows.new) }
{
    let row = number(alloc, place, individuals, row)?;
    rows.add(row)?;
    let _ = individuals.len();
    Ok(())
}

/// Removes the row, whose concept or role has this place, where it is there.
fn remove_row(
    place: u32,
    individuals: &NameBook,
    rows: &mut GatheredRows,
    row: &RowView<'_>,
) -> Result<(), AllocError>
    ensures { (o : Terminology) → IsTerminology o → IsPlaceOf o (row_viewed row.now) place
        → OnOk result (FollowsChange o (record { add = false; row = row_viewed row.now }) individuals.now rows.old individuals.now rows.new) }
{
    match known(place, individuals, row) {
        Some(row) => rows.del(row),
        None => Ok(()),
    }
}

/// The row by numbers, of which new individuals get the next ones.
fn number(
    alloc: Global,
    place: u32,
    individuals: &mut NameBook,
    row: &RowView<'_>,
) -> Result<Row, AllocError>
    requires { length individuals.old ≤ 3900000000 }
    ensures names { OnOk result (individuals.new ≡ with_names individuals.old (names_in (row_viewed row.now))) }
    ensures few { OnOk result (length individuals.new ≤ 2 + length individuals.old) }
    ensures numbers { (o : Terminology) → IsPlaceOf o (row_viewed row.now) place → IfOk result (NumbersRow o individuals.new (row_viewed row.now)) }
{
    match row {
        RowView::Concept { individual, .. } => Ok(Row::Concept {
            concept: place,
            individual: intern(alloc, individuals, individual)?,
        }),
        RowView::Role { from, to, .. } => Ok(Row::Role {
            role: place,
            from: intern(alloc, individuals, from)?,
            to: intern(alloc, individuals, to)?,
        }),
    }
}

/// The place of the individual in the book, where a new one goes last. Only a new one takes memory.
fn intern(
    alloc: Global,
    individuals: &mut NameBook,
    name: &NameSlice<'_>,
) -> Result<u32, AllocError>
    requires { length individuals.old < 4000000000 }
    ensures { IfOk result (Interns individuals.old name.now individuals.new) }
{
    if let Some(place) = individuals.find(name.bytes()) {
        return Ok(place);
    }
    let name = name.to_name(alloc)?;
    individuals.intern(&name)
}

/// The row by numbers, where the book has its individuals.
fn known(place: u32, individuals: &NameBook, row: &RowView<'_>) -> Option<Row>
    ensures { (o : Terminology) → IsPlaceOf o (row_viewed row.now) place → MatchOption result
        ((n : AnyRow) → NumbersRow o individuals.now (row_viewed row.now) n → ⊥)
        (λ n. NumbersRow o individuals.now (row_viewed row.now) n) }
{
    match row {
        RowView::Concept { individual, .. } => Some(Row::Concept {
            concept: place,
            individual: individuals.find(individual.bytes())?,
        }),
        RowView::Role { from, to, .. } => Some(Row::Role {
            role: place,
            from: individuals.find(from.bytes())?,
            to: individuals.find(to.bytes())?,
        }),
    }
}
