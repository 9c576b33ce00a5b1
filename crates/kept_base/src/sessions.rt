//! The sessions of a base.
ghost use Rattle.std.specs.Prelude.{◌≡◌, ◌≤◌, ◌++◌, ◌∷◌, [], ℕ, List, None, Some, All, IfOk, OnOk, OnErr, MatchOption, length};
ghost use Rattle.dl_base.specs.declared.row.NamedChange.{NamedChange as AnyChange};
ghost use Rattle.kept_base.specs.Sessions.{PutsSession, session_in};
ghost use Rattle.base_engine.specs.Steps.{appended};

use dl_base::{Changes, NamedChange};
use std::alloc::{AllocError, Global};
use std::marker::Model;

/// How many sessions there are.
const SESSIONS: usize = 16;

/// For each session, from 0 to 15, that it is closed, or open with changes. Contracts see it as the list of these.
#[derive(Drop)]
pub(crate) struct Sessions {
    list: Vec<Option<Changes>>,
}

impl Model for Sessions {
    ghost use Rattle.std.specs.Prelude.{◌≡◌, List, Option, length};
    ghost use Rattle.dl_base.specs.declared.row.NamedChange.{NamedChange as AnyChange};

    ghost Value = { List (Option (List AnyChange)) };

    ghost view = { λ s. s.list.items };

    ghost invariant = { λ s. length s.list.items ≡ 16 };
}

impl Sessions {
    /// All sessions, closed.
    pub(crate) fn new(alloc: Global) -> Result<Sessions, AllocError>
        ensures { IfOk result (λ s. (k : ℕ) → session_in s k ≡ None) }
    {
        Ok(Sessions {
            list: closed(alloc)?,
        })
    }

    /// The changes of the session, where it is open.
    pub(crate) fn changes(&self, session: u8) -> Option<&[NamedChange]>
        ensures { MatchOption result (session_in self.now session ≡ None) (λ changes. session_in self.now session ≡ Some changes.now) }
    {
        match self.list.get(session as usize) {
            Some(Some(changes)) => Some(changes.items()),
            _ => None,
        }
    }

    /// Closes the session, or opens it with changes. It takes no memory.
    pub(crate) fn put(&mut self, session: u8, changes: Option<Changes>)
        requires { session ≤ 15 }
        ensures { PutsSession session changes self.old self.new }
    {
        self.list[session as usize] = changes;
    }

    /// Closes the session, and hands out the changes that it had where it was open. It takes no memory.
    pub(crate) fn take(&mut self, session: u8) -> Option<Changes>
        requires { session ≤ 15 }
        ensures taken { result ≡ session_in self.old session }
        ensures closed { PutsSession session None self.old self.new }
    {
        self.list[session as usize].take()
    }

    /// Appends a change to the session, which is open. At `AllocError` all is as it was.
    pub(crate) fn append(&mut self, session: u8, change: NamedChange) -> Result<(), AllocError>
        requires { session ≤ 15 }
        ensures ok { (changes : List AnyChange) → session_in self.old session ≡ Some changes → OnOk result (PutsSession session (Some (appended changes change)) self.old self.new) }
        ensures err { OnErr result (self.new ≡ self.old) }
    {
        let changes = &mut self.list[session as usize];
        append_to(changes, change)
    }
}

/// A closed session for each number.
fn closed(alloc: Global) -> Result<Vec<Option<Changes>>, AllocError>
    ensures all { IfOk result (λ v. length v.items ≡ 16) }
    ensures closed { IfOk result (λ v. All (λ session. session ≡ None) v.items) }
{
    let mut list = Vec::with_capacity(alloc, SESSIONS)?;
    for _ in 0..SESSIONS {
        list.push(None)?;
    }
    Ok(list)
}

/// Appends a change where the session is open.
fn append_to(session: &mut Option<Changes>, change: NamedChange) -> Result<(), AllocError>
    ensures ok { (changes : List AnyChange) → session.old ≡ Some changes → OnOk result (session.new ≡ Some (appended changes change)) }
    ensures err { OnErr result (session.new ≡ session.old) }
{
    if let Some(changes) = session {
        changes.push(change)?;
    }
    Ok(())
}
