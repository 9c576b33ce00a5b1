//! The commands about sessions.
ghost use Rattle.std.specs.Prelude.{◌≡◌, ◌<◌, ◌≤◌, ◌+◌, ℕ, List, None, Some, IfOk, OnErr, MatchOption};
ghost use Rattle.dl_base.specs.Numbers.{IsNamedBy};
ghost use Rattle.dl_base.specs.Ontology.{Terminology as AnyTerminology};
ghost use Rattle.dl_base.specs.declared.row.NamedChange.{NamedChange as AnyChange};
ghost use Rattle.script_reader.specs.declared.command.Command.{Command as AnyCommand};
ghost use Rattle.script_reader.specs.declared.command.Command.TheVariants as command;
ghost use Rattle.script_reader.specs.declared.request.Request.TheVariants as request;
ghost use Rattle.kept_base.specs.Base.{HasCompletedTables, ontology_in};
ghost use Rattle.kept_base.specs.Doing.{BaseSteps, CanAppend, DecidesRefusal, command_of_change};
ghost use Rattle.base_engine.specs.Refusals.{AppendsChange, LacksNameOf};

use crate::base::Base;
use dl_base::{Items, NamedChange, NamedRow, Ontology};
use reply_text::{Refusal, Reply};
use std::alloc::{AllocError, Global};

/// The most changes of a session.
const PENDING: usize = 10_000;

impl Base {
    /// `begin`: opens a session without changes. It takes no memory.
    pub fn begin(&mut self, alloc: Global, session: u8) -> Reply
        requires session { session ≤ 15 }
        requires few { self.old.steps < 100000000 }
        ensures step { BaseSteps self.old (request.Plain (command.Begin session)) result self.new }
        ensures one { self.new.steps ≤ self.old.steps + 1 }
        ensures completed { HasCompletedTables self.new }
    {
        if let Some(refusal) = self.begin_refusal(session) {
            self.tell();
            return Reply::Error(refusal);
        }
        self.put(session, Some(Items::new(alloc)));
        self.tell();
        Reply::Done
    }

    /// `add`: appends the adding of a row to a session. At `AllocError` all is as it was.
    pub fn add(&mut self, alloc: Global, session: u8, row: NamedRow) -> Result<Reply, AllocError>
        requires session { session ≤ 15 }
        requires few { self.old.steps < 100000000 }
        ensures step { IfOk result (λ reply. BaseSteps self.old (request.Plain (command.Add session row)) reply self.new) }
        ensures one { self.new.steps ≤ self.old.steps + 1 }
        ensures completed { HasCompletedTables self.new }
        ensures err { OnErr result (self.new ≡ self.old) }
    {
        self.change(alloc, session, NamedChange { add: true, row })
    }

    /// `del`: appends the removing of a row to a session. At `AllocError` all is as it was.
    pub fn del(&mut self, alloc: Global, session: u8, row: NamedRow) -> Result<Reply, AllocError>
        requires session { session ≤ 15 }
        requires few { self.old.steps < 100000000 }
        ensures step { IfOk result (λ reply. BaseSteps self.old (request.Plain (command.Del session row)) reply self.new) }
        ensures one { self.new.steps ≤ self.old.steps + 1 }
        ensures completed { HasCompletedTables self.new }
        ensures err { OnErr result (self.new ≡ self.old) }
    {
        self.change(alloc, session, NamedChange { add: false, row })
    }

    /// `abort`: closes a session. It takes no memory.
    pub fn abort(&mut self, session: u8) -> Reply
        requires session { session ≤ 15 }
        requires few { self.old.steps < 100000000 }
        ensures step { BaseSteps self.old (request.Plain (command.Abort session)) result self.new }
        ensures one { self.new.steps ≤ self.old.steps + 1 }
        ensures completed { HasCompletedTables self.new }
    {
        if let Some(refusal) = self.abort_refusal(session) {
            self.tell();
            return Reply::Error(refusal);
        }
        self.put(session, None);
        self.tell();
        Reply::Done
    }

    /// `tidy`: nothing is there to be tidied.
    pub fn tidy(&mut self) -> Reply
        ensures step { BaseSteps self.old (request.Plain command.Tidy) result self.new }
        ensures stays { self.new ≡ self.old }
        ensures completed { HasCompletedTables self.new }
    {
        self.tell();
        Reply::Done
    }

    /// Appends a change to a session. At `AllocError` all is as it was.
    fn change(
        &mut self,
        alloc: Global,
        session: u8,
        change: NamedChange,
    ) -> Result<Reply, AllocError>
        requires session { session ≤ 15 }
        requires few { self.old.steps < 100000000 }
        ensures step { IfOk result (λ reply. BaseSteps self.old (request.Plain (command_of_change session change)) reply self.new) }
        ensures one { self.new.steps ≤ self.old.steps + 1 }
        ensures completed { HasCompletedTables self.new }
        ensures err { OnErr result (self.new ≡ self.old) }
    {
        self.tell();
        if let Some(refusal) = self.change_refusal(alloc, session, &change.row)? {
            return Ok(Reply::Error(refusal));
        }
        self.append(session, change)?;
        self.tell();
        Ok(Reply::Done)
    }

    /// Why `begin` is refused.
    fn begin_refusal(&self, session: u8) -> Option<Refusal>
        ensures decides { DecidesRefusal self.now (request.Plain (command.Begin session)) result }
        ensures there { result ≡ None → (o : AnyTerminology) × (ontology_in self.now.reasoned ≡ Some o) }
    {
        let Some(_) = self.ontology() else {
            return Some(Refusal::NoOntology);
        };
        match self.changes(session) {
            Some(_) => Some(Refusal::AlreadyOpen),
            None => None,
        }
    }

    /// Why `abort` is refused.
    fn abort_refusal(&self, session: u8) -> Option<Refusal>
        ensures { DecidesRefusal self.now (request.Plain (command.Abort session)) result }
    {
        let Some(_) = self.ontology() else {
            return Some(Refusal::NoOntology);
        };
        match self.changes(session) {
            Some(_) => None,
            None => Some(Refusal::NotOpen),
        }
    }

    /// Why `add` or `del` is refused.
    fn change_refusal(
        &self,
        alloc: Global,
        session: u8,
        row: &NamedRow,
    ) -> Result<Option<Refusal>, AllocError>
        ensures decides { IfOk result (λ found. (c : AnyCommand) → AppendsChange c session row.now → DecidesRefusal self.now (request.Plain c) found) }
        ensures room { IfOk result (λ found. found ≡ None → (changes : List AnyChange) × CanAppend self.now session row.now changes) }
    {
        let Some(ontology) = self.ontology() else {
            return Ok(Some(Refusal::NoOntology));
        };
        let Some(changes) = self.changes(session) else {
            return Ok(Some(Refusal::NotOpen));
        };
        match unknown_name(alloc, ontology, row)? {
            Some(refusal) => Ok(Some(refusal)),
            None if changes.len() < PENDING => Ok(None),
            None => Ok(Some(Refusal::Pending)),
        }
    }
}

/// The refusal of a row whose concept, or role, the ontology lacks.
fn unknown_name(
    alloc: Global,
    ontology: &Ontology,
    row: &NamedRow,
) -> Result<Option<Refusal>, AllocError>
    ensures { IfOk result (λ found. MatchOption found (IsNamedBy ontology.now row.now) (λ e. LacksNameOf ontology.now row.now e)) }
{
    match row {
        NamedRow::Concept { concept, .. } => match ontology.concepts().find(concept.bytes()) {
            Some(_) => Ok(None),
            None => Ok(Some(Refusal::UnknownConcept(concept.copy(alloc)?))),
        },
        NamedRow::Role { role, .. } => match ontology.roles().find(role.bytes()) {
            Some(_) => Ok(None),
            None => Ok(Some(Refusal::UnknownRole(role.copy(alloc)?))),
        },
    }
}
