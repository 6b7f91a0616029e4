//! What an agent makes of a reply.

ghost use Rattle.std.specs.Prelude.{◌≡◌, ◌&&◌, if◌then◌else◌, true, false, not, Some, is_some, IfOk, IfErr, OnOk};
ghost use Rattle.agent_rules.specs.Half.{AgentHalf, kept_part, target};
ghost use Rattle.agent_rules.specs.Keeping.{TakeReply, kept, kept_by, fits, heard_in, taught, fits_room};
ghost use Rattle.agent_rules.specs.Calls.{call_after};
ghost use Rattle.agent_rules.specs.Offers.{next_of, asked_after};
ghost use Rattle.agent_state.specs.View.{FitsDisk, IsOneSave, CallRefusal};
ghost use Rattle.agent_state.specs.Refusals.{ReplyRefusal};

use crate::agent::Agent;
use crate::changes::Change;
use crate::learning::{is_to, next_by};
use crate::offers::{heard_in, is_restart, next_alone};
use agent_rules::{AgentFail, Heard, Next, REPORT_AVAILABLE_COMPONENTS, Saved};
use edge_devices::Disk;
use message_values::ServerToAgent;
use plain_values::{NoMemory, Plain};

impl Agent {
    /// Takes the reply to the awaited report, and tells what it asks of the caller.
    pub fn on_reply<D: Disk>(
        &mut self,
        disk: &mut D,
        reply: &ServerToAgent,
    ) -> Result<Next, AgentFail>
        requires awaiting { self.old.half.awaits ≡ true }
        requires fits { FitsDisk (D.state disk.old) self.old.store (kept_part self.old.half) }
        ensures to_it { OnOk result (reply.now.instance_uid ≡ self.old.half.saved.uid) }
        ensures told { OnOk result (self.new.half ≡ call_after self.old.half (TakeReply reply.now)) }
        ensures next { IfOk result (λ next. next ≡ next_of reply.now self.old.half) }
        ensures room { OnOk result (fits self.old.half (TakeReply reply.now) ≡ true) }
        ensures one_save { IsOneSave (D.state disk.old) (D.state disk.new) (D.countdown disk.old) (D.countdown disk.new) self.old self.new (TakeReply reply.now) result }
        ensures refused { IfErr result (ReplyRefusal self.old reply.now) }
    {
        if !is_to(reply, &self.saved) {
            return Err(AgentFail::WrongUid);
        }
        match heard_in(reply) {
            Heard::Commanded => {
                self.prove_nothing(true);
                Ok(next_alone(None, is_restart(&reply.command)))
            }
            Heard::Failed => {
                let error = match reply.error_response.copy(self.alloc) {
                    Ok(error) => error,
                    Err(NoMemory) => return Err(AgentFail::NoMemory),
                };
                self.prove_nothing(self.linked);
                Ok(next_alone(error, false))
            }
            Heard::Asked => self.asked(disk, reply),
            Heard::Plain => self.answered(disk, reply),
        }
    }

    // The awaited reply came, and is no answer: it proves no trial.
    fn prove_nothing(&mut self, linked: bool)
        ensures heard { self.new.half ≡ record (self.old.half) { awaits = false; linked = linked; proved = false } }
        ensures store { self.new.store ≡ self.old.store }
    {
        self.awaits = false;
        self.proved = false;
        self.linked = linked;
    }

    // Takes a reply that asks for the full state.
    fn asked<D: Disk>(&mut self, disk: &mut D, reply: &ServerToAgent) -> Result<Next, AgentFail>
        requires heard { heard_in reply.now ≡ Heard.Asked }
        requires one_room { self.old.half.room ≡ self.old.store.layout.room }
        requires fits { FitsDisk (D.state disk.old) self.old.store (kept_part self.old.half) }
        ensures told { OnOk result (self.new.half ≡ call_after self.old.half (TakeReply reply.now)) }
        ensures next { IfOk result (λ next. next ≡ next_of reply.now self.old.half) }
        ensures room { OnOk result (fits self.old.half (TakeReply reply.now) ≡ true) }
        ensures one_save { IsOneSave (D.state disk.old) (D.state disk.new) (D.countdown disk.old) (D.countdown disk.new) self.old self.new (TakeReply reply.now) result }
        ensures refused { IfErr result (CallRefusal self.old (TakeReply reply.now)) }
    {
        let (lesson, next) = match self.heeded(reply, false) {
            Ok(heeded) => heeded,
            Err(NoMemory) => return Err(AgentFail::NoMemory),
        };
        match self.learn(disk, lesson, reply) {
            Ok(()) => {}
            Err(fail) => return Err(fail),
        }
        self.prove_nothing(self.linked);
        Ok(next)
    }

    // Takes an answer.
    fn answered<D: Disk>(&mut self, disk: &mut D, reply: &ServerToAgent) -> Result<Next, AgentFail>
        requires heard { heard_in reply.now ≡ Heard.Plain }
        requires fits { FitsDisk (D.state disk.old) self.old.store (kept_part self.old.half) }
        ensures told { OnOk result (self.new.half ≡ call_after self.old.half (TakeReply reply.now)) }
        ensures next { IfOk result (λ next. next ≡ next_of reply.now self.old.half) }
        ensures room { OnOk result (fits self.old.half (TakeReply reply.now) ≡ true) }
        ensures one_save { IsOneSave (D.state disk.old) (D.state disk.new) (D.countdown disk.old) (D.countdown disk.new) self.old self.new (TakeReply reply.now) result }
        ensures refused { IfErr result (CallRefusal self.old (TakeReply reply.now)) }
    {
        let (lesson, next) = match self.heeded(reply, true) {
            Ok(heeded) => heeded,
            Err(NoMemory) => return Err(AgentFail::NoMemory),
        };
        let proved = self.trial.is_some();
        let same_uid = self.keeps_uid(reply);
        match self.learn(disk, lesson, reply) {
            Ok(()) => {}
            Err(fail) => return Err(fail),
        }
        self.awaits = false;
        self.linked = same_uid;
        self.wants_details = reply.flags & REPORT_AVAILABLE_COMPONENTS != 0;
        self.proved = proved;
        Ok(next)
    }

    // What is kept of the reply, if anything, and what it then asks: an answer proves a trial, and a wish for the full state does not.
    fn heeded(
        &self,
        reply: &ServerToAgent,
        answered: bool,
    ) -> Result<(Option<Saved>, Next), NoMemory>
        requires heard { heard_in reply.now ≡ (if answered then Heard.Plain else Heard.Asked) }
        ensures lesson { IfOk result (λ heeded. heeded.0 ≡ kept_by self.now.half (TakeReply reply.now)) }
        ensures next { IfOk result (λ heeded. heeded.1 ≡ next_of reply.now self.now.half) }
    {
        let mut lesson = self.lesson(reply, answered)?;
        let proved = answered && self.trial.is_some();
        let wins = self.wins(&mut lesson, proved)?;
        let next = self.next_after(self.in_use(&lesson), reply, answered, proved, wins)?;
        Ok((lesson, next))
    }

    // What is asked of the agent once this is in use, whether a trial then has its proof, and whether its settings are kept.
    fn next_after(
        &self,
        saved: &Saved,
        reply: &ServerToAgent,
        answered: bool,
        proved: bool,
        wins: bool,
    ) -> Result<Next, NoMemory>
        requires saved { saved.now ≡ taught self.now.half reply.now answered }
        requires proved { proved ≡ (answered && is_some self.now.half.trial) }
        requires wins { wins ≡ (proved && fits_room self.now.half.room (Some (record (saved.now) { settings = target self.now.half }))) }
        ensures next { IfOk result (λ next. (a : AgentHalf) → a ≡ record (self.now.half) { saved = saved.now; proved = proved } → next ≡ asked_after reply.now (not answered) a) }
    {
        let (active, abandoned) = match &self.trial {
            Some(tried) => {
                if wins {
                    (tried, self.abandoned.as_ref())
                } else {
                    (&saved.settings, Some(&tried.hash))
                }
            }
            None => (&saved.settings, self.abandoned.as_ref()),
        };
        next_by(
            self.alloc,
            &self.local,
            saved,
            reply,
            active,
            abandoned,
            !answered,
            proved,
        )
    }

    // Keeps what a reply taught, where that is anything.
    fn learn<D: Disk>(
        &mut self,
        disk: &mut D,
        lesson: Option<Saved>,
        reply: &ServerToAgent,
    ) -> Result<(), AgentFail>
        requires lesson { lesson ≡ kept_by self.old.half (TakeReply reply.now) }
        requires one_room { self.old.half.room ≡ self.old.store.layout.room }
        requires fits { FitsDisk (D.state disk.old) self.old.store (kept_part self.old.half) }
        ensures kept { OnOk result (self.new.half ≡ kept self.old.half (TakeReply reply.now)) }
        ensures room { OnOk result (fits self.old.half (TakeReply reply.now) ≡ true) }
        ensures one_save { IsOneSave (D.state disk.old) (D.state disk.new) (D.countdown disk.old) (D.countdown disk.new) self.old self.new (TakeReply reply.now) result }
        ensures refused { IfErr result (CallRefusal self.old (TakeReply reply.now)) }
    {
        match lesson {
            Some(taught) => self.keep_changed(disk, Change::Whole(taught)),
            None => Ok(()),
        }
    }
}
