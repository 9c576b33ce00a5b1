//! What a base holds in memory, and how the changes of a session are made on it.
ghost use Rattle.std.specs.Prelude.{◌≡◌, ◌<◌, ◌≤◌, [], All, IfOk, MatchOption, None, Some, length};
ghost use Rattle.assert_tables.specs.Rows.{AreRisingRows};
ghost use Rattle.dl_base.specs.Numbers.{IsNamedBy};
ghost use Rattle.base_store.specs.Loading.{AreFew};
ghost use Rattle.base_store.specs.Store.{StoreState};
ghost use Rattle.kept_base.specs.Base.{IsSoundBase, base_of, ontology_in};
ghost use Rattle.kept_base.specs.Blocks.{TakesFirst, with_tables};
ghost use Rattle.kept_base.specs.Committing.{CanRenew, IsLimit, IsMade, IsOpenIn, JudgesChanges, TakesMade, end_of};
ghost use Rattle.kept_base.specs.Opening.{IsReasonerOf};

use crate::opening::counted;
use crate::sessions::Sessions;
use assert_tables::Assertions;
use base_reasoner::Reasoner;
use base_store::Store;
use dl_base::{Changes, NameBook, NamedChange, Ontology, Query};
use gen_arena::Arena;
use horn_closure::Steps;
use reply_text::Refusal;
use row_changes::{Made, make_changes, take_newcomers};
use std::alloc::{AllocError, Global};
use std::marker::Brand;
use std::sync::ledger::{Blank, Ledger};
use txn_codec::changes_len;

/// The most names that a book of individuals has before a commit. More are want of memory.
const NAMES: usize = 3_000_000_000;

/// The most rows of a base.
const ROWS: u64 = 1_000_000;

/// The most individuals that the rows of a base name.
const INDIVIDUALS: u64 = 65_536;

/// What a base holds in memory: what it derives by its ontology, where it has one; its individuals and its rows by number; its
/// sessions; its prepared queries; and how many commands changed it since it was loaded.
#[derive(Drop)]
pub(crate) struct Contents {
    pub(crate) reasoner: Option<Reasoner>,
    pub(crate) individuals: NameBook,
    pub(crate) rows: Assertions,
    pub(crate) sessions: Sessions,
    pub(crate) handles: Arena<Query>,
    pub(crate) steps: u32,
}

/// What making the changes of a session comes to.
#[derive(Drop)]
pub(crate) enum Outcome {
    /// They are refused.
    Refused(Refusal),
    /// They are made, and the session is closed. So many rows came, and so many went.
    Made {
        changes: Changes,
        added: u64,
        removed: u64,
    },
}

/// Changes that were tried on rows.
#[derive(Drop)]
pub(crate) enum Judged {
    /// They pass a limit.
    Refused(Refusal),
    /// They are made on the rows.
    Fit(Made),
}

impl Contents {
    /// Makes the changes of a session, and the tables that they lead to. Where they are refused all is as it was.
    pub(crate) fn make<L: Ledger>(
        &mut self,
        alloc: Global,
        store: &Store,
        session: u8,
        steps: &mut Steps<L>,
    ) -> Result<Outcome, AllocError>
        requires session { session ≤ 15 }
        requires few { self.old.steps < 100000000 }
        requires sound { IsSoundBase (base_of self.old store.now) }
        requires open { IsOpenIn (base_of self.old store.now) session }
        ensures made { IfOk result (λ outcome. IsMade (base_of self.old store.now) session outcome (base_of self.new store.now)) }
        ensures counted { steps.old ≤ steps.new }
    {
        let (Some(reasoner), Some(changes)) = (&self.reasoner, self.sessions.changes(session))
        else {
            unreachable!();
        };
        let ontology = reasoner.ontology();
        match judge(
            alloc,
            ontology,
            &self.individuals,
            &mut self.rows,
            store,
            changes,
        )? {
            Judged::Refused(refusal) => Ok(Outcome::Refused(refusal)),
            Judged::Fit(made) => self.take(alloc, session, &made, steps),
        }
    }

    /// The ontology, where there is one. It takes no memory.
    pub(crate) fn ontology(&self) -> Option<&Ontology>
        ensures { MatchOption result (ontology_in self.now.reasoner ≡ None) (λ o. ontology_in self.now.reasoner ≡ Some o.now) }
    {
        match &self.reasoner {
            Some(reasoner) => Some(reasoner.ontology()),
            None => None,
        }
    }

    /// The same with a first ontology: what it derives from no rows, and no individuals.
    pub(crate) fn first(self, alloc: Global, ontology: Ontology) -> Result<Contents, AllocError>
        requires { self.steps < 100000000 }
        ensures { IfOk result (TakesFirst ontology self) }
    {
        let reasoner = first_reasoner(alloc, ontology)?;
        Ok(self.with_reasoner(alloc, reasoner))
    }

    /// The first tables of an ontology, with no individuals and no rows.
    fn with_reasoner(self, alloc: Global, reasoner: Reasoner) -> Contents
        requires few { self.steps < 100000000 }
        ensures { (store : StoreState) → base_of result store ≡ with_tables (base_of self store) reasoner }
    {
        Contents {
            reasoner: Some(reasoner),
            individuals: NameBook::new(alloc),
            rows: Assertions::new(alloc),
            sessions: self.sessions,
            handles: self.handles,
            steps: self.steps + 1,
        }
    }

    /// Takes the newcomers, the tables and the closed session of changes that are made on the rows.
    fn take<L: Ledger>(
        &mut self,
        alloc: Global,
        session: u8,
        made: &Made,
        steps: &mut Steps<L>,
    ) -> Result<Outcome, AllocError>
        requires session { session ≤ 15 }
        requires few { self.old.steps < 100000000 }
        requires can { CanRenew self.old session made.now }
        ensures takes { IfOk result (λ outcome. TakesMade self.old session made.now outcome self.new) }
        ensures counted { steps.old ≤ steps.new }
    {
        take_newcomers(&mut self.individuals, &made.newcomers)?;
        let Some(reasoner) = &mut self.reasoner else {
            unreachable!();
        };
        reasoner.renew(alloc, &self.rows, steps)?;
        let Some(changes) = self.sessions.take(session) else {
            unreachable!();
        };
        self.steps += 1;
        Ok(Outcome::Made {
            changes,
            added: made.difference.come.rows(),
            removed: made.difference.gone.rows(),
        })
    }
}

/// Makes the changes on the rows, and undoes them where they pass a limit.
fn judge(
    alloc: Global,
    ontology: &Ontology,
    individuals: &NameBook,
    rows: &mut Assertions,
    store: &Store,
    changes: &[NamedChange],
) -> Result<Judged, AllocError>
    requires few { length changes.now ≤ 10000 }
    requires named { All (λ c. IsNamedBy ontology.now c.row) changes.now }
    ensures { IfOk result (JudgesChanges ontology.now individuals.now store.now changes.now rows.old rows.new) }
{
    if individuals.len() > NAMES {
        return Err(AllocError);
    }
    let _ = rows.rows();
    let made = make_changes(alloc, ontology, individuals, rows, changes)?;
    match limit(rows, store, changes) {
        Some(refusal) => {
            made.difference.undo(alloc, rows)?;
            Ok(Judged::Refused(refusal))
        }
        None => Ok(Judged::Fit(made)),
    }
}

/// Which limit the changes pass: that on rows and individuals, else that of the log. It takes no memory.
fn limit(rows: &Assertions, store: &Store, changes: &[NamedChange]) -> Option<Refusal>
    requires { length changes.now ≤ 10000 }
    ensures within { MatchOption result (AreFew rows.now × (end_of store.now changes.now ≤ 1073741824)) (IsLimit rows.now (end_of store.now changes.now)) }
    ensures rising { AreRisingRows rows.now }
{
    if rows.rows() > ROWS || rows.individuals() > INDIVIDUALS {
        return Some(Refusal::Crowded);
    }
    if store.fits(changes_len(changes)) {
        None
    } else {
        Some(Refusal::LogFull)
    }
}

/// What an ontology derives from no rows.
fn first_reasoner(alloc: Global, ontology: Ontology) -> Result<Reasoner, AllocError>
    ensures { IfOk result (IsReasonerOf ontology []) }
{
    let rows = Assertions::new(alloc);
    counted::<Brand>(alloc, ontology, &rows, Blank::new(1))
}
