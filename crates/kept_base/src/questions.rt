//! The questions about a base.
ghost use Rattle.std.specs.Prelude.{◌≡◌, IfOk};
ghost use Rattle.script_reader.specs.declared.command.Command.TheVariants as command;
ghost use Rattle.script_reader.specs.declared.request.Request.TheVariants as request;
ghost use Rattle.kept_base.specs.Base.{HasCompletedTables};
ghost use Rattle.kept_base.specs.Doing.{BaseSteps};

use crate::base::Base;
use dl_base::Query;
use reply_text::{Refusal, Reply};
use std::alloc::{AllocError, Global};

impl Base {
    /// `ask`: the first clash where there is one, else the certain answers to the query, in order.
    pub fn ask(&mut self, alloc: Global, q: &Query) -> Result<Reply, AllocError>
        ensures step { IfOk result (λ reply. BaseSteps self.old (request.Plain (command.Ask q.now)) reply self.new) }
        ensures stays { self.new ≡ self.old }
        ensures completed { HasCompletedTables self.new }
    {
        self.tell();
        match &self.contents.reasoner {
            Some(reasoner) => reasoner.ask(alloc, &self.contents.individuals, q),
            None => Ok(Reply::Error(Refusal::NoOntology)),
        }
    }

    /// `tables`: the lines of the completed tables, each witness with its generation.
    pub fn tables(&self, alloc: Global) -> Result<Reply, AllocError>
        ensures step { IfOk result (λ reply. BaseSteps self.now (request.Plain command.Tables) reply self.now) }
        ensures completed { HasCompletedTables self.now }
    {
        self.tell();
        match &self.contents.reasoner {
            Some(reasoner) => {
                let lines = reasoner.lines(alloc, &self.contents.individuals)?;
                Ok(Reply::Table(lines))
            }
            None => Ok(Reply::Error(Refusal::NoOntology)),
        }
    }

    /// `check`: the first clash, or that there is none.
    pub fn check(&self, alloc: Global) -> Result<Reply, AllocError>
        ensures step { IfOk result (λ reply. BaseSteps self.now (request.Plain command.Check) reply self.now) }
        ensures completed { HasCompletedTables self.now }
    {
        self.tell();
        match &self.contents.reasoner {
            Some(reasoner) => reasoner.check(alloc, &self.contents.individuals),
            None => Ok(Reply::Error(Refusal::NoOntology)),
        }
    }
}
