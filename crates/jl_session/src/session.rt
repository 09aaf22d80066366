//! Commands, a line each, on one core.

ghost use Rattle.std.specs.Prelude.{◌≡◌, ◌≤◌, IfOk, IfErr, OnErr};
ghost use Rattle.serde_json.specs.View.{view};
ghost use Rattle.jl_relink.specs.Preparations.{IsFault};
ghost use Rattle.jl_core.specs.State.{world_of, IsApplied};
ghost use Rattle.jl_core.specs.Installs.{HasInstalled};
ghost use Rattle.jl_json.specs.Commands.{command_of};
ghost use Rattle.jl_session.specs.Jsons.{IsReadAs, IsTextOf};
ghost use Rattle.jl_session.specs.Obeying.{IsEventData, LacksAnswer};
ghost use Rattle.jl_session.specs.Sessions.{session_of, session_over, new_session, IsEventAnswer, IsInstallAnswer, IsPrepareAnswer};
ghost use Rattle.jl_session.specs.Sessions.{IsCommandAnswer, IsSessionAnswer};

use crate::json_line::{bad_command, json_in, text_of};
use crate::obeying::{Obey, obey_event};
use jl_core::Core;
use jl_json::{
    Command, answer_value, event_refusal_value, links_value, prepare_refusal_value, prepared_value,
    read_command, reply_value,
};
use jl_names::Seq;
use jl_types::{Event, Link, PrepareFault, Refusal, Reply, SiteNo};
use serde_json::Value;
use std::alloc::{AllocError, Global};
use std::marker::Model;

/// The most places that may be requested.
const MOST_SITES: u32 = 65_536;

/// One core, and the batches of links that were prepared, by number: what commands, a line each, are answered by.
pub struct Session {
    core: Core,
    batches: Vec<Seq<(SiteNo, Link)>>,
}

/// Written out, so that what drops one makes one call of it and doesn't take apart what it holds.
impl Drop for Session {
    fn drop(self) {
        let Session {
            core: _core,
            batches: _batches,
        } = self;
    }
}

impl Model for Session {
    ghost use Rattle.std.specs.Coded.{codes};
    ghost use Rattle.jl_types.specs.ForProofs.TargetCode.{target_code};
    ghost use Rattle.jl_session.specs.Sessions.{Session};

    ghost Value = { Session };

    ghost coded = { Prim.hlevel (codes, target_code) };

    ghost view = { λ s. record { core = s.core; batches = s.batches.items } };
}

/// The command that the line's JSON is, if it is one.
pub fn command_in(alloc: Global, line: &[u8]) -> Result<Option<Command>, AllocError>
    ensures { IfOk result (IsReadAs command_of line.now) }
{
    match json_in(alloc, line)? {
        Some(value) => read_command(alloc, &value),
        None => Ok(None),
    }
}

/// The answer to an event that came to this.
fn event_value(alloc: Global, outcome: &Result<Reply, Refusal>) -> Result<Value, AllocError>
    ensures { IfOk result (λ v. IsEventData outcome.now (view v)) }
{
    match outcome {
        Ok(reply) => reply_value(alloc, reply),
        Err(refusal) => event_refusal_value(alloc, refusal),
    }
}

impl Session {
    /// A core in which nothing happened yet.
    pub fn new(alloc: Global) -> Result<Self, AllocError>
        ensures { IfOk result (λ session. session ≡ new_session) }
    {
        Session::with_sites(alloc, MOST_SITES)
    }

    /// A core in which nothing happened yet, and in which so many places may be requested.
    pub fn with_sites(alloc: Global, max_sites: u32) -> Result<Self, AllocError>
        requires { 1 ≤ max_sites }
        ensures { IfOk result (λ session. session ≡ session_of max_sites) }
    {
        Ok(Session {
            core: Core::new(alloc, max_sites)?,
            batches: Vec::new(alloc),
        })
    }

    /// A session over this core, without prepared batches.
    pub fn of(alloc: Global, core: Core) -> Session
        ensures { result ≡ session_over core }
    {
        Session {
            core,
            batches: Vec::new(alloc),
        }
    }

    /// The core that commands are obeyed on.
    pub fn core(&self) -> &Core
        ensures { result.now ≡ self.now.core }
    {
        &self.core
    }

    /// Lets the core [forget](Core::forget) what is past. No clause sees a change. Takes no memory.
    pub fn forget(&mut self)
        ensures { self.new ≡ self.old }
    {
        self.core.forget();
    }

    /// Lets the core [catch up](Core::catch_up), so that the next event doesn't pay for the one before. No clause sees a change.
    pub fn catch_up(&mut self, alloc: Global) -> Result<(), AllocError>
        ensures { self.new ≡ self.old }
    {
        self.core.catch_up(alloc)
    }

    /// Applies an event, as a command that asks for it does. The batches stay.
    ///
    /// # Errors
    ///
    /// The first refusal, or want of memory if there is none. Nothing has changed then.
    pub fn submit(&mut self, alloc: Global, event: Event) -> Result<Reply, Refusal>
        ensures applied { IsApplied self.old.core event result self.new.core }
        ensures batches { self.new.batches ≡ self.old.batches }
    {
        self.core.apply(alloc, event)
    }

    /// Prepares the links of the sites in the core as it is, and [installs](Core::install) them. The batches stay.
    ///
    /// # Errors
    ///
    /// Those of a preparation. Nothing has changed then.
    pub fn install(&mut self, alloc: Global, sites: &[SiteNo]) -> Result<Reply, PrepareFault>
        ensures installed { IfOk result (HasInstalled self.old.core sites.now self.new.core) }
        ensures refused { IfErr result (IsFault (world_of self.old.core) sites.now) }
        ensures unchanged { OnErr result (self.new ≡ self.old) }
        ensures batches { self.new.batches ≡ self.old.batches }
    {
        self.core.install(alloc, sites)
    }

    /// The answer to a line: a command in JSON, or none.
    ///
    /// # Errors
    ///
    /// Want of memory for the line or its answer. The command was obeyed, or the session stays.
    pub fn answer(&mut self, alloc: Global, line: &[u8]) -> Result<Value, AllocError>
        ensures ok { IfOk result (λ v. IsSessionAnswer self.old line.now (view v) self.new) }
        ensures lacks { OnErr result (LacksAnswer self.old (λ answer. IsSessionAnswer self.old line.now answer self.new) self.new) }
    {
        match command_in(alloc, line)? {
            Some(asked) => self.obey(alloc, asked),
            None => bad_command(alloc),
        }
    }

    /// The text of the answer to a line.
    pub fn answer_text(&mut self, alloc: Global, line: &[u8]) -> Result<Vec<u8>, AllocError>
        ensures ok { IfOk result (λ text. IsTextOf (λ answer. IsSessionAnswer self.old line.now answer self.new) text.items) }
        ensures lacks { OnErr result (LacksAnswer self.old (λ answer. IsSessionAnswer self.old line.now answer self.new) self.new) }
    {
        let answer = self.answer(alloc, line)?;
        text_of(alloc, &answer)
    }

    /// The answer to a command.
    fn obey(&mut self, alloc: Global, asked: Command) -> Result<Value, AllocError>
        ensures ok { IfOk result (λ v. IsCommandAnswer self.old asked (view v) self.new) }
        ensures lacks { OnErr result (LacksAnswer self.old (λ answer. IsCommandAnswer self.old asked answer self.new) self.new) }
    {
        match asked {
            Command::Apply(asked) => obey_event(&OnSession, alloc, self, asked),
            Command::Prepare(sites) => self.prepare(alloc, sites.as_slice()),
            Command::Call(site, recv) => answer_value(alloc, self.core.call(site, recv)),
            Command::Links => {
                let links = self.core.list_links(alloc)?;
                links_value(alloc, links.as_slice())
            }
        }
    }

    /// The answer to a preparation. The batch is kept.
    fn prepare(&mut self, alloc: Global, sites: &[SiteNo]) -> Result<Value, AllocError>
        ensures ok { IfOk result (λ v. IsPrepareAnswer self.old sites.now (view v) self.new) }
        ensures stays { OnErr result (self.new ≡ self.old) }
    {
        match self.core.prepare(alloc, sites) {
            Ok(prepared) => {
                // More batches than numbers want memory.
                let Ok(number) = u32::try_from(self.batches.as_slice().len()) else {
                    return Err(AllocError);
                };
                let answer = prepared_value(alloc, number, prepared.rows.as_slice())?;
                self.batches.push(prepared.rows)?;
                Ok(answer)
            }
            Err(fault) => prepare_refusal_value(alloc, fault),
        }
    }
}

/// Obeys commands on a session.
#[derive(Drop)]
struct OnSession;

impl Obey<Session> for OnSession {
    ghost applies = { IsEventAnswer };

    ghost installs = { IsInstallAnswer };

    fn apply(&self, alloc: Global, on: &mut Session, event: Event) -> Result<Value, AllocError> {
        let outcome = on.submit(alloc, event);
        event_value(alloc, &outcome)
    }

    fn install(&self, alloc: Global, on: &mut Session, batch: u32) -> Result<Value, AllocError> {
        let Some(rows) = on.batches.as_slice().get(batch as usize) else {
            return bad_command(alloc);
        };
        let rows = Seq::of(rows.as_slice().to_vec(alloc)?);
        self.apply(alloc, on, Event::Install(rows))
    }
}
