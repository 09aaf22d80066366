//! Commands, a line each, on a link server.

ghost use Rattle.std.specs.Prelude.{IfOk, OnErr};
ghost use Rattle.serde_json.specs.View.{view};
ghost use Rattle.jl_session.specs.Obeying.{LacksAnswer};
ghost use Rattle.jl_cli.specs.Farms.{IsServed, IsNoInstall, IsLineServed, IsFarmAnswer};

use jl_json::{Command, event_refusal_value, reply_value};
use jl_lines::{Answer, add_answer};
use jl_server::{Caller, LinkServer, Name};
use jl_session::{Obey, bad_command, command_in, obey_event, text_of};
use jl_types::Event;
use serde_json::Value;
use std::alloc::{AllocError, Global};
use std::sync::Wait;

/// A link server, to which commands are handed by a caller. Preparations, installs, calls and lists of links are none here.
#[derive(Drop)]
pub(crate) struct ServerCommands<'a, K: Name, H: Wait, S: Wait + Drop> {
    pub(crate) rt: &'a H,
    pub(crate) alloc: Global,
    pub(crate) server: &'a LinkServer<K, S>,
}

impl<'a, K: Name, H: Wait, S: Wait + Drop> ServerCommands<'a, K, H, S> {
    /// These commands once more, on the server that they are for.
    pub(crate) fn again(&self) -> ServerCommands<'a, K, H, S> {
        ServerCommands {
            rt: self.rt,
            alloc: self.alloc,
            server: self.server,
        }
    }

    /// The answer to a line: a command in JSON, or none.
    fn answer_value(&self, caller: &mut Caller<K>, line: &[u8]) -> Result<Value, AllocError>
        ensures ok { IfOk result (λ v. IsLineServed K.limits caller.old line.now (view v) caller.new) }
        ensures lacks { OnErr result (LacksAnswer caller.old
            (λ answer. IsLineServed K.limits caller.old line.now answer caller.new) caller.new) }
    {
        match command_in(self.alloc, line)? {
            Some(Command::Apply(asked)) => obey_event(self, self.alloc, caller, asked),
            Some(Command::Prepare(_)) => bad_command(self.alloc),
            Some(Command::Call(_, _)) => bad_command(self.alloc),
            Some(Command::Links) => bad_command(self.alloc),
            None => bad_command(self.alloc),
        }
    }

    /// The text of the answer to a line.
    fn answer_text(&self, caller: &mut Caller<K>, line: &[u8]) -> Result<Vec<u8>, AllocError>
        ensures ok { IfOk result (λ text. IsFarmAnswer K.limits caller.old line.now text.items caller.new) }
        ensures lacks { OnErr result (LacksAnswer caller.old
            (λ answer. IsLineServed K.limits caller.old line.now answer caller.new) caller.new) }
    {
        let answer = self.answer_value(caller, line)?;
        text_of(self.alloc, &answer)
    }
}

impl<'a, K: Name, H: Wait, S: Wait + Drop> Obey<Caller<K>> for ServerCommands<'a, K, H, S> {
    ghost applies = { IsServed K.limits };

    ghost installs = { IsNoInstall };

    fn apply(&self, alloc: Global, on: &mut Caller<K>, event: Event) -> Result<Value, AllocError> {
        match on.apply(self.rt, alloc, self.server, event) {
            Ok(receipt) => reply_value(alloc, &receipt.reply),
            Err(denied) => event_refusal_value(alloc, &denied.refusal),
        }
    }

    fn install(
        &self,
        alloc: Global,
        _on: &mut Caller<K>,
        _batch: u32,
    ) -> Result<Value, AllocError> {
        bad_command(alloc)
    }
}

impl<'a, K: Name, H: Wait, S: Wait + Drop> Answer<Caller<K>> for ServerCommands<'a, K, H, S> {
    ghost says = { IsFarmAnswer K.limits };

    fn answer(
        &mut self,
        caller: &mut Caller<K>,
        line: &[u8],
        output: &mut Vec<u8>,
    ) -> Result<(), AllocError> {
        let text = self.answer_text(caller, line)?;
        add_answer(text, output)
    }
}
