//! How an agent reports.

ghost use Rattle.std.specs.Prelude.{◌+◌, ◌≡◌, ◌≤◌, true, false, Some, None, Option, IfOk, IfErr, OnOk, IsErrOf};
ghost use Rattle.std.specs.Option.{option_copied};
ghost use Rattle.message_values.specs.declared.custom.CustomMessage.{CustomMessage as CustomMessageOf};
ghost use Rattle.message_reports.specs.Reports.{canonical_report, MeansReport};
ghost use Rattle.agent_rules.specs.Reports.{message_of, report_on, fits_bytes, fits_message};
ghost use Rattle.agent_rules.specs.Half.{kept_part, state_now, due_details, entry_of, entry_with};
ghost use Rattle.agent_rules.specs.Keeping.{Report, kept, fits};
ghost use Rattle.agent_rules.specs.Calls.{call_after, has_number, may_report};
ghost use Rattle.agent_state.specs.View.{FitsDisk, IsOneSave};
ghost use Rattle.agent_state.specs.Refusals.{IsPrepared, EncodingRefusal, NumberRefusal, ReportRefusal};

use crate::agent::Agent;
use crate::changes::Change;
use crate::reporting::{basis_for, encoded, is_news, state_of_agent};
use agent_rules::{AgentFail, LAST_LIMIT, Prepared, REQUEST_INSTANCE_UID, RESERVED_BLOCK};
use edge_devices::Disk;
use message_codec::writer::encoding::WriteFail;
use message_deltas::{REPORTS_AVAILABLE_COMPONENTS, delta, full};
use message_values::{AgentToServer, CustomMessage, State};
use plain_values::{Blob, NoMemory, Plain};
use std::alloc::Global;

impl Agent {
    /// The next report, in canonical form, whose answer the agent then awaits.
    ///
    /// It is made and measured first, with all the memory that the call takes, and then its number is reserved.
    pub fn report<D: Disk>(&mut self, disk: &mut D) -> Result<Prepared, AgentFail>
        requires idle { self.old.half.awaits ≡ false }
        requires fits { FitsDisk (D.state disk.old) self.old.store (kept_part self.old.half) }
        ensures prepared { IfOk result (IsPrepared self.old.half) }
        ensures due { OnOk result (may_report self.old.half ≡ true) }
        ensures reported { OnOk result (self.new.half ≡ call_after self.old.half Report) }
        ensures one_save { IsOneSave (D.state disk.old) (D.state disk.new) (D.countdown disk.old) (D.countdown disk.new) self.old self.new Report result }
        ensures fault_due { IsErrOf result AgentFail.StoreFault → may_report self.old.half ≡ true }
        ensures refused { IfErr result (ReportRefusal self.old) }
    {
        let detailed = self.due_details();
        let (state, prepared) = match self.made(self.alloc, detailed) {
            Ok(made) => made,
            Err(fail) => return Err(fail),
        };
        let next = match self.reserve(disk) {
            Ok(next) => next,
            Err(fail) => return Err(fail),
        };
        self.await_answer(next, state, detailed);
        Ok(prepared)
    }

    // The report of this state was made, and that number is the next one's: its answer is awaited, and no custom message waits.
    fn await_answer(&mut self, next: u64, state: State, detailed: bool)
        requires reserved { next ≤ self.old.half.saved.limit }
        ensures awaits { self.new.half ≡ record (self.old.half) { next = next; awaits = true; last = Some state; detailed = detailed; linked = false; wants_details = false; message = None } }
        ensures store { self.new.store ≡ self.old.store }
    {
        self.next = next;
        self.awaits = true;
        self.last = Some(state);
        self.detailed = detailed;
        self.linked = false;
        self.wants_details = false;
        self.message = None;
    }

    // The agent's state, and the report of it.
    fn made(&self, alloc: Global, detailed: bool) -> Result<(State, Prepared), AgentFail>
        requires due { detailed ≡ due_details self.now.half }
        ensures state { IfOk result (λ made. made.0 ≡ state_now self.now.half) }
        ensures prepared { IfOk result (λ made. IsPrepared self.now.half made.1) }
        ensures fits { OnOk result (fits_message (message_of (entry_of self.now.half)) ≡ true) }
        ensures refused { IfErr result (EncodingRefusal (message_of (entry_of self.now.half))) }
        ensures no_fault { IsErrOf result AgentFail.StoreFault → ⊥ }
    {
        let state = state_of_agent(alloc, &self.local, &self.saved)?;
        let prepared = self.prepare(&state, detailed)?;
        Ok((state, prepared))
    }

    // Whether the next report carries the details of the components.
    fn due_details(&self) -> bool
        ensures due { result ≡ due_details self.now.half }
    {
        self.local.capabilities & REPORTS_AVAILABLE_COMPONENTS != 0
            && self.local.components.components.len() != 0
            && (self.wants_details
                || self.last.is_none()
                    && is_news(&self.saved.components_hash, &self.local.components.hash))
    }

    // The report of this state, which is the agent's.
    fn prepare(&self, state: &State, detailed: bool) -> Result<Prepared, AgentFail>
        requires now { state.now ≡ state_now self.now.half }
        requires due { detailed ≡ due_details self.now.half }
        ensures prepared { IfOk result (IsPrepared self.now.half) }
        ensures fits { OnOk result (fits_message (message_of (entry_of self.now.half)) ≡ true) }
        ensures refused { IfErr result (EncodingRefusal (message_of (entry_of self.now.half))) }
        ensures no_fault { IsErrOf result AgentFail.StoreFault → ⊥ }
    {
        let basis = basis_for(self.linked, &self.last, state, detailed);
        let whole = basis.is_none();
        match self.fitting(state, basis, detailed) {
            Ok(bytes) => Ok(Prepared {
                number: self.next,
                whole,
                bytes,
            }),
            Err(WriteFail::NoMemory) => Err(AgentFail::NoMemory),
            Err(_) => Err(AgentFail::TooLarge),
        }
    }

    // The canonical bytes of the report that is due: the waiting message is left out where the report would be too long with it.
    fn fitting(
        &self,
        state: &State,
        basis: Option<&State>,
        detailed: bool,
    ) -> Result<Blob, WriteFail>
        requires now { state.now ≡ state_now self.now.half }
        requires due { detailed ≡ due_details self.now.half }
        requires basis { option_copied basis ≡ (entry_with self.now.half None).basis }
        ensures bytes { IfOk result (λ bytes. bytes ≡ canonical_report (message_of (entry_of self.now.half))) }
        ensures means { IfOk result (λ bytes. MeansReport bytes (message_of (entry_of self.now.half))) }
        ensures fits { OnOk result (fits_message (message_of (entry_of self.now.half)) ≡ true) }
        ensures too_large { IsErrOf result WriteFail.TooLarge → fits_message (message_of (entry_of self.now.half)) ≡ false }
        ensures too_deep { IsErrOf result WriteFail.TooDeep → fits_message (message_of (entry_of self.now.half)) ≡ false }
    {
        match self.written(state, basis, detailed, &self.message) {
            Ok(bytes) => Ok(bytes),
            Err(WriteFail::TooLarge) => self.written(state, basis, detailed, &None),
            Err(fail) => Err(fail),
        }
    }

    // The canonical bytes of the report of this state, which stands on that one, with this custom message.
    fn written(
        &self,
        state: &State,
        basis: Option<&State>,
        detailed: bool,
        message: &Option<CustomMessage>,
    ) -> Result<Blob, WriteFail>
        requires now { state.now ≡ state_now self.now.half }
        requires due { detailed ≡ due_details self.now.half }
        requires basis { option_copied basis ≡ (entry_with self.now.half None).basis }
        ensures bytes { IfOk result (λ bytes. bytes ≡ canonical_report (message_of (entry_with self.now.half message.now))) }
        ensures means { IfOk result (λ bytes. MeansReport bytes (message_of (entry_with self.now.half message.now))) }
        ensures small { OnOk result (fits_bytes (message_of (entry_with self.now.half message.now)) ≡ true) }
        ensures fits { OnOk result (fits_message (message_of (entry_with self.now.half message.now)) ≡ true) }
        ensures large { IsErrOf result WriteFail.TooLarge → fits_bytes (message_of (entry_with self.now.half message.now)) ≡ false }
        ensures too_large { IsErrOf result WriteFail.TooLarge → fits_message (message_of (entry_with self.now.half message.now)) ≡ false }
        ensures short { IsErrOf result WriteFail.TooDeep → fits_bytes (message_of (entry_with self.now.half message.now)) ≡ true }
        ensures deep { IsErrOf result WriteFail.TooDeep → fits_message (message_of (entry_with self.now.half message.now)) ≡ false }
    {
        match self.message_with(state, basis, detailed, message) {
            Ok(report) => encoded(self.alloc, &report),
            Err(NoMemory) => Err(WriteFail::NoMemory),
        }
    }

    // The message of the report of this state, which stands on that one, with this custom message.
    fn message_with(
        &self,
        state: &State,
        basis: Option<&State>,
        detailed: bool,
        message: &Option<CustomMessage>,
    ) -> Result<AgentToServer, NoMemory>
        requires now { state.now ≡ state_now self.now.half }
        requires due { detailed ≡ due_details self.now.half }
        requires basis { option_copied basis ≡ (entry_with self.now.half None).basis }
        ensures report { IfOk result (λ report. report ≡ message_of (entry_with self.now.half message.now)) }
    {
        // The copy comes first, so that no report is dropped where it fails.
        let message = message.copy(self.alloc)?;
        let mut report = self.report_on(state, basis, detailed)?;
        report.flags = if self.asks_uid && !self.saved.uid_given {
            REQUEST_INSTANCE_UID
        } else {
            0
        };
        report.custom_message = message;
        Ok(report)
    }

    // All of this state, or what differs from the state that it stands on.
    fn report_on(
        &self,
        state: &State,
        basis: Option<&State>,
        detailed: bool,
    ) -> Result<AgentToServer, NoMemory>
        requires now { state.now ≡ state_now self.now.half }
        requires due { detailed ≡ due_details self.now.half }
        requires basis { option_copied basis ≡ (entry_with self.now.half None).basis }
        ensures report { (message : Option CustomMessageOf) → IfOk result (λ report. report ≡ report_on (entry_with self.now.half message).basis (entry_with self.now.half message)) }
    {
        let details = if detailed {
            Some(&self.local.components.components)
        } else {
            None
        };
        match basis {
            Some(before) => delta(
                self.alloc,
                &self.saved.uid,
                self.next,
                before,
                state,
                details,
            ),
            None => full(self.alloc, &self.saved.uid, self.next, state, details),
        }
    }

    // Reserves the number of the next report, where it isn't reserved, and gives the number after it. Takes no memory.
    fn reserve<D: Disk>(&mut self, disk: &mut D) -> Result<u64, AgentFail>
        requires fits { FitsDisk (D.state disk.old) self.old.store (kept_part self.old.half) }
        ensures kept { OnOk result (self.new.half ≡ kept self.old.half Report) }
        ensures number { OnOk result (has_number self.old.half ≡ true) }
        ensures after { IfOk result (λ after. after ≡ self.old.half.next + 1) }
        ensures below { IfOk result (λ after. after ≤ self.new.half.saved.limit) }
        ensures room { OnOk result (fits self.old.half Report ≡ true) }
        ensures fault_number { IsErrOf result AgentFail.StoreFault → has_number self.old.half ≡ true }
        ensures fault_room { IsErrOf result AgentFail.StoreFault → fits self.old.half Report ≡ true }
        ensures one_save { IsOneSave (D.state disk.old) (D.state disk.new) (D.countdown disk.old) (D.countdown disk.new) self.old self.new Report result }
        ensures refused { IfErr result (NumberRefusal self.old) }
    {
        if self.next != self.saved.limit {
            return Ok(self.next + 1);
        }
        if self.saved.limit > LAST_LIMIT {
            return Err(AgentFail::NumbersSpent);
        }
        let after = self.next + 1;
        let change = Change::Limit(self.saved.limit + RESERVED_BLOCK);
        match self.keep_changed(disk, change) {
            Ok(()) => Ok(after),
            Err(fail) => Err(fail),
        }
    }
}
