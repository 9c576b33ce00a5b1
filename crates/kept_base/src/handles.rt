//! Prepared queries.
ghost use Rattle.std.specs.Prelude.{◌≡◌, ◌<◌, ◌≤◌, ◌+◌, None, IfErr, IfOk, OnErr, OnOk};
ghost use Rattle.gen_arena.specs.Store.{IsGone, IsLive, next_handle, room_of, with_value, without};
ghost use Rattle.script_reader.specs.declared.command.Command.TheVariants as command;
ghost use Rattle.script_reader.specs.declared.request.Request.TheVariants as request;
ghost use Rattle.kept_base.specs.Base.{HasCompletedTables, IsKnownIn};
ghost use Rattle.kept_base.specs.Doing.{BaseSteps, ChangesHandles, DecidesRefusal, refusal_of_gone};

use crate::base::Base;
use dl_base::Query;
use gen_arena::{Gone, Handle};
use reply_text::{Refusal, Reply};
use std::alloc::{AllocError, Global};

impl Base {
    /// `prepare`: keeps the query under a handle. At `AllocError` all is as it was.
    pub fn prepare(&mut self, alloc: Global, query: Query) -> Result<Reply, AllocError>
        requires few { self.old.steps < 100000000 }
        ensures step { IfOk result (λ reply. BaseSteps self.old (request.Plain (command.Prepare query)) reply self.new) }
        ensures one { self.new.steps ≤ self.old.steps + 1 }
        ensures completed { HasCompletedTables self.new }
        ensures err { OnErr result (self.new ≡ self.old) }
    {
        self.tell();
        if let Some(refusal) = self.prepare_refusal(alloc, &query)? {
            return Ok(Reply::Error(refusal));
        }
        let handle = self.keep(query)?;
        self.tell();
        Ok(Reply::Prepared(handle))
    }

    /// `run`: the reply to the query that is kept under the handle, over the rows as they are now.
    pub fn run_query(&mut self, alloc: Global, handle: Handle) -> Result<Reply, AllocError>
        ensures step { IfOk result (λ reply. BaseSteps self.old (request.Plain (command.Run handle)) reply self.new) }
        ensures stays { self.new ≡ self.old }
        ensures completed { HasCompletedTables self.new }
    {
        self.tell();
        let Some(reasoner) = &self.contents.reasoner else {
            return Ok(Reply::Error(Refusal::NoOntology));
        };
        match self.contents.handles.get(handle) {
            Ok(query) => reasoner.ask(alloc, &self.contents.individuals, query),
            Err(gone) => Ok(Reply::Error(refusal_of(gone))),
        }
    }

    /// `drop`: forgets the query that is kept under the handle. It takes no memory.
    pub fn drop_query(&mut self, handle: Handle) -> Reply
        requires few { self.old.steps < 100000000 }
        ensures step { BaseSteps self.old (request.Plain (command.Drop handle)) result self.new }
        ensures one { self.new.steps ≤ self.old.steps + 1 }
        ensures completed { HasCompletedTables self.new }
    {
        self.tell();
        let Some(_) = self.ontology() else {
            return Reply::Error(Refusal::NoOntology);
        };
        match self.forget(handle) {
            Ok(()) => {
                self.tell();
                Reply::Done
            }
            Err(gone) => Reply::Error(refusal_of(gone)),
        }
    }

    /// Why `prepare` is refused.
    fn prepare_refusal(&self, alloc: Global, query: &Query) -> Result<Option<Refusal>, AllocError>
        ensures decides { IfOk result (DecidesRefusal self.now (request.Plain (command.Prepare query.now))) }
        ensures known { IfOk result (λ found. found ≡ None → IsKnownIn self.now.reasoned query.now) }
        ensures room { IfOk result (λ found. found ≡ None → 1 ≤ room_of self.now.handles) }
    {
        let Some(reasoner) = &self.contents.reasoner else {
            return Ok(Some(Refusal::NoOntology));
        };
        match reasoner.unknown_name(alloc, query)? {
            Some(refusal) => Ok(Some(refusal)),
            None if self.contents.handles.room() == 0 => Ok(Some(Refusal::NoSlot)),
            None => Ok(None),
        }
    }

    /// Keeps the query under the next handle. At `AllocError` all is as it was.
    fn keep(&mut self, query: Query) -> Result<Handle, AllocError>
        requires few { self.old.steps < 100000000 }
        requires room { 1 ≤ room_of self.old.handles }
        requires known { IsKnownIn self.old.reasoned query }
        ensures handle { IfOk result (λ handle. handle ≡ next_handle self.old.handles) }
        ensures ok { OnOk result (ChangesHandles (with_value query self.old.handles) self.old self.new) }
        ensures err { OnErr result (self.new ≡ self.old) }
    {
        match self.contents.handles.insert(query) {
            Ok(handle) => {
                self.contents.steps += 1;
                Ok(handle)
            }
            Err((error, _)) => Err(error),
        }
    }

    /// Forgets the query that is kept under the handle, or tells why there is none. It takes no memory.
    fn forget(&mut self, handle: Handle) -> Result<(), Gone>
        requires few { self.old.steps < 100000000 }
        ensures live { OnOk result (IsLive self.old.handles handle) }
        ensures ok { OnOk result (ChangesHandles (without handle self.old.handles) self.old self.new) }
        ensures gone { IfErr result (IsGone self.old.handles handle) }
        ensures err { OnErr result (self.new ≡ self.old) }
    {
        let _ = self.contents.handles.remove(handle)?;
        self.contents.steps += 1;
        Ok(())
    }
}

/// The refusal of a handle that names nothing.
fn refusal_of(gone: Gone) -> Refusal
    ensures { result ≡ refusal_of_gone gone }
{
    match gone {
        Gone::Never => Refusal::NeverGiven,
        Gone::Dropped(last) => Refusal::Dropped(last),
    }
}
