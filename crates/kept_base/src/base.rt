//! A base.
ghost use Rattle.std.specs.Prelude.{◌≡◌, ◌<◌, ◌≤◌, ◌+◌, ℕ, List, None, Some, IfOk, OnOk, OnErr, MatchOption, MatchBool};
ghost use Rattle.dl_base.specs.Ontology.{Terminology as AnyTerminology};
ghost use Rattle.dl_base.specs.declared.row.NamedChange.{NamedChange as AnyChange};
ghost use Rattle.kept_base.specs.Base.{AreSoundChanges, HasCompletedTables, IsSoundBase, ontology_in};
ghost use Rattle.kept_base.specs.Doing.{CanAppend, PutsInBase};
ghost use Rattle.kept_base.specs.Sessions.{session_in};
ghost use Rattle.base_engine.specs.Steps.{appended};

use crate::contents::Contents;
use base_store::Store;
use dl_base::{Changes, NamedChange, Ontology};
use std::alloc::{AllocError, Global};
use std::marker::Model;

/// A base that does requests, over the first area of a host.
///
/// Contracts see its ontology with the completed tables, its rows, its store's numbers, its sessions, its prepared queries and how many
/// commands changed it; `StandsForState` says which states of the machine it stands for.
#[derive(Drop)]
pub struct Base {
    pub(crate) contents: Contents,
    pub(crate) store: Store,
}

impl Model for Base {
    ghost use Rattle.kept_base.specs.Base.{BaseState, IsSoundBase, base_of};

    ghost Value = { BaseState };

    ghost view = { λ b. base_of b.contents b.store };

    ghost invariant = { λ b. IsSoundBase (base_of b.contents b.store) };
}

impl Base {
    /// The ontology, where there is one. It takes no memory.
    pub(crate) fn ontology(&self) -> Option<&Ontology>
        ensures { MatchOption result (ontology_in self.now.reasoned ≡ None) (λ o. ontology_in self.now.reasoned ≡ Some o.now) }
    {
        self.contents.ontology()
    }

    /// The changes of the session, where it is open. It takes no memory.
    pub(crate) fn changes(&self, session: u8) -> Option<&[NamedChange]>
        ensures { MatchOption result (session_in self.now.sessions session ≡ None) (λ changes. session_in self.now.sessions session ≡ Some changes.now) }
    {
        self.contents.sessions.changes(session)
    }

    /// How many transactions its history has. It takes no memory.
    pub(crate) fn transactions(&self) -> u64
        ensures { result ≡ self.now.store.transactions }
    {
        self.store.transactions()
    }

    /// How many commands changed it since it was loaded.
    pub(crate) fn steps(&self) -> u32
        ensures { result ≡ self.now.steps }
    {
        self.contents.steps
    }

    /// Closes the session, or opens it without changes. It takes no memory.
    pub(crate) fn put(&mut self, session: u8, changes: Option<Changes>)
        requires session { session ≤ 15 }
        requires few { self.old.steps < 100000000 }
        requires sound { (these : List AnyChange) → changes ≡ Some these → AreSoundChanges self.old these }
        ensures { PutsInBase session changes self.old self.new }
    {
        self.contents.sessions.put(session, changes);
        self.contents.steps += 1;
    }

    /// Appends a change to the session. At `AllocError` all is as it was.
    pub(crate) fn append(&mut self, session: u8, change: NamedChange) -> Result<(), AllocError>
        requires session { session ≤ 15 }
        requires few { self.old.steps < 100000000 }
        requires room { (these : List AnyChange) × CanAppend self.old session change.row these }
        ensures ok { (these : List AnyChange) → session_in self.old.sessions session ≡ Some these → OnOk result (PutsInBase session (Some (appended these change)) self.old self.new) }
        ensures err { OnErr result (self.new ≡ self.old) }
    {
        self.contents.sessions.append(session, change)?;
        self.contents.steps += 1;
        Ok(())
    }

    /// What is so of each base.
    pub(crate) fn tell(&self)
        ensures sound { IsSoundBase self.now }
        ensures completed { HasCompletedTables self.now }
    {
        let _ = &self.contents.steps;
    }
}
