//! A session's turn: what it is and what it gives, PDU by PDU.
ghost use Rattle.std.specs.Prelude.{◌≡◌, ◌≤◌, length, drop, OnOk, IfOk, []};
ghost use Rattle.smpp_pdu.specs.Writing.{IsWritable};
ghost use Rattle.smpp_pdu.specs.declared.body.Body.TheVariants.{GenericNack};
ghost use Rattle.smpp_pdu.specs.PduReading.{pdu_at};
ghost use Rattle.smpp_session.specs.declared.action.Action.TheVariants.{Bound, Send};
ghost use Rattle.smpp_session.specs.SessionTable.{judged, response, sent, given, bind_taken, delivered, taken, refused, read, judging, treated, bad_length};
ghost use Rattle.smpp_session.specs.SessionTable.{accepting_bind, bind_refused, bound_turn, broken, kind_of_command, left, name_in as name_in_body, name_of};
ghost use Rattle.smpp_session.specs.SessionTable.{passed_up, refused_as, unbound, without_bind_resp};
ghost use Rattle.smpp_session.specs.SessionRun.{stream};
ghost use Rattle.smpp_session.specs.declared.table.Judgement.TheVariants.{Read};

use crate::accepting::accepting_bind;
use crate::account::{Accounts, Login};
use crate::action::{Action, Actions, BindKind};
use crate::conversation::Conversation;
use crate::front::{Front, front_of, header_of};
use crate::table::{
    Judgement, UNBIND_NUMBER, bind_refusal, judge, judge_fault, priority_of, refusal_of, state_of,
};
use smpp_pdu::{Bind, Body, CommandId, CommandStatus, Pdu};
use sms_base::Octets;
use std::alloc::{AllocError, Global};

// What a bind binds as; nothing of another command.
fn kind_of(command: CommandId) -> Option<BindKind>
    ensures { result ≡ kind_of_command command }
{
    match command {
        CommandId::BindReceiver => Some(BindKind::Receiver),
        CommandId::BindTransmitter => Some(BindKind::Transmitter),
        CommandId::BindTransceiver => Some(BindKind::Transceiver),
        _ => None,
    }
}

// The system_id of a bind; without octets where it can't be read.
fn name_in(alloc: Global, octets: &[u8]) -> Result<Octets, AllocError>
    ensures { IfOk result (λ name. name ≡ name_of (pdu_at octets.now)) }
{
    match Pdu::read(octets) {
        Ok(pdu) => name_of_body(alloc, &pdu.body),
        Err(_) => Ok(Octets::new(alloc)),
    }
}

fn name_of_body(alloc: Global, body: &Body<'_>) -> Result<Octets, AllocError>
    ensures { IfOk result (λ name. name ≡ name_in_body body.now) }
{
    match body {
        Body::BindReceiver(bind) => Octets::copy_of(alloc, bind.system_id.as_slice()),
        Body::BindTransmitter(bind) => Octets::copy_of(alloc, bind.system_id.as_slice()),
        Body::BindTransceiver(bind) => Octets::copy_of(alloc, bind.system_id.as_slice()),
        _ => Ok(Octets::new(alloc)),
    }
}

// What a session is, and what it has given so far.
#[derive(Drop)]
pub(crate) struct SessionStep {
    pub conversation: Conversation,
    pub actions: Actions,
}

impl SessionStep {
    // Gives an action.
    fn give(&mut self, action: Action) -> Result<(), AllocError>
        ensures { OnOk result (self.new ≡ given action self.old) }
    {
        self.actions.push(action)?;
        Ok(())
    }

    // Sends a PDU.
    #[tactic(auto, unfolding(crate::specs::SessionTable::sent))]
    fn send(
        &mut self,
        alloc: Global,
        body: Body<'_>,
        status: CommandStatus,
        number: u32,
    ) -> Result<(), AllocError>
        requires { IsWritable (response body status number) }
        ensures { OnOk result (self.new ≡ sent body.entry status number self.old) }
    {
        let pdu = Pdu {
            command_status: status.number(),
            sequence_number: number,
            body,
        };
        let octets = pdu.write(alloc)?;
        self.give(Action::Send(octets))?;
        Ok(())
    }

    // Sends a generic_nack.
    fn nack(&mut self, alloc: Global, status: CommandStatus, number: u32) -> Result<(), AllocError>
        ensures { OnOk result (self.new ≡ sent GenericNack status number self.old) }
    {
        self.send(alloc, Body::GenericNack, status, number)?;
        Ok(())
    }

    // Refuses a bind, which gave this name.
    fn refuse_bind(
        &mut self,
        alloc: Global,
        kind: BindKind,
        status: CommandStatus,
        number: u32,
        name: &[u8],
    ) -> Result<(), AllocError>
        ensures { OnOk result (self.new ≡ bind_refused (without_bind_resp kind) status number name.now self.old) }
    {
        let name = Octets::copy_of(alloc, name)?;
        self.send(alloc, bind_refusal(kind), status, number)?;
        self.give(Action::BindRefused(status, name))
    }

    // Refuses a command. The octets are those of its PDU.
    fn refuse_with(
        &mut self,
        alloc: Global,
        octets: &[u8],
        command: CommandId,
        number: u32,
        status: CommandStatus,
    ) -> Result<(), AllocError>
        ensures { OnOk result (self.new ≡ refused_as command status number (name_of (pdu_at octets.now)) self.old) }
    {
        match kind_of(command) {
            Some(kind) => {
                let name = name_in(alloc, octets)?;
                self.refuse_bind(alloc, kind, status, number, name.as_slice())
            }
            None => self.send(alloc, refusal_of(command), status, number),
        }
    }

    // Refuses a command, unless it is ignored.
    fn refuse(
        &mut self,
        alloc: Global,
        octets: &[u8],
        command: CommandId,
        number: u32,
        judgement: Judgement,
    ) -> Result<(), AllocError>
        ensures { OnOk result (self.new ≡ refused octets.now command number judgement self.old) }
    {
        match judgement {
            Judgement::Refused(status) => self.refuse_with(alloc, octets, command, number, status),
            _ => Ok(()),
        }
    }

    // An account is bound.
    fn log_in(
        &mut self,
        alloc: Global,
        place: usize,
        kind: BindKind,
        number: u32,
        version: u8,
    ) -> Result<(), AllocError>
        ensures { OnOk result (self.new
            ≡ bound_turn kind version (given (Bound place kind) (given (Send (accepting_bind kind version number)) self.old))) }
    {
        let octets = accepting_bind(alloc, kind, version, number)?;
        self.give(Action::Send(octets))?;
        self.give(Action::Bound(place, kind))?;
        self.conversation.state = state_of(kind);
        self.conversation.interface_version = version;
        Ok(())
    }

    // Takes a bind.
    fn bind(
        &mut self,
        alloc: Global,
        accounts: &Accounts,
        kind: BindKind,
        number: u32,
        bind: &Bind<'_>,
    ) -> Result<(), AllocError>
        ensures { OnOk result (self.new ≡ bind_taken accounts.now kind number bind.now self.old) }
    {
        let name = bind.system_id.as_slice();
        let login = accounts.login(name, bind.password.as_slice());
        match login.admitted(&self.conversation.full) {
            Login::Known(place) => self.log_in(alloc, place, kind, number, bind.interface_version),
            Login::UnknownName => {
                self.refuse_bind(alloc, kind, CommandStatus::ESME_RINVSYSID, number, name)
            }
            Login::WrongPassword => {
                self.refuse_bind(alloc, kind, CommandStatus::ESME_RINVPASWD, number, name)
            }
            Login::Full => {
                self.refuse_bind(alloc, kind, CommandStatus::ESME_RBINDFAIL, number, name)
            }
        }
    }

    // Passes a request up, which is owed its answer.
    fn pass_up(&mut self, action: Action, number: u32) -> Result<(), AllocError>
        ensures { OnOk result (self.new ≡ passed_up action number self.old) }
    {
        self.conversation.owed.push(number)?;
        self.give(action)
    }

    // Takes an unbind. Its answer follows those that are owed.
    fn unbind(&mut self, alloc: Global, number: u32) -> Result<(), AllocError>
        ensures { OnOk result (self.new ≡ unbound number self.old) }
    {
        let is_settled = self.conversation.owed.is_empty();
        if is_settled {
            self.send(alloc, Body::UnbindResp, CommandStatus::ESME_ROK, number)?;
            self.give(Action::Unbound)?;
            self.conversation.close();
        } else {
            self.give(Action::Unbound)?;
            self.conversation.finish(Some(number));
        }
        Ok(())
    }

    // Takes an unbind_resp.
    fn leave(&mut self, number: u32) -> Result<(), AllocError>
        ensures { OnOk result (self.new ≡ left number self.old) }
    {
        if number != UNBIND_NUMBER {
            return Ok(());
        }
        self.give(Action::Unbound)?;
        if self.conversation.owed.is_empty() {
            self.conversation.close();
        } else {
            self.conversation.finish(None);
        }
        Ok(())
    }

    // Takes the answer to a deliver_sm.
    fn delivered(&mut self, number: u32, accepted: bool) -> Result<(), AllocError>
        ensures { OnOk result (self.new ≡ delivered number accepted self.old) }
    {
        if self.conversation.unanswered.take(number) {
            self.give(Action::DeliverAnswered(number, accepted))?;
        }
        Ok(())
    }

    // Takes a PDU that can be read.
    fn take(
        &mut self,
        alloc: Global,
        accounts: &Accounts,
        octets: &[u8],
        number: u32,
        pdu: Pdu<'_>,
    ) -> Result<(), AllocError>
        ensures { OnOk result (self.new ≡ taken accounts.now octets.now number pdu.entry pdu.entry.body self.old) }
    {
        match pdu.body {
            Body::BindTransmitter(bind) => {
                self.bind(alloc, accounts, BindKind::Transmitter, number, &bind)
            }
            Body::BindReceiver(bind) => {
                self.bind(alloc, accounts, BindKind::Receiver, number, &bind)
            }
            Body::BindTransceiver(bind) => {
                self.bind(alloc, accounts, BindKind::Transceiver, number, &bind)
            }
            Body::SubmitSm(message) => {
                let octets = Octets::copy_of(alloc, octets)?;
                let priority = priority_of(message.priority_flag);
                self.pass_up(Action::Submit(octets, priority), number)
            }
            Body::QuerySm(_) => {
                let octets = Octets::copy_of(alloc, octets)?;
                self.pass_up(Action::Query(octets), number)
            }
            Body::CancelSm(_) => {
                let octets = Octets::copy_of(alloc, octets)?;
                self.pass_up(Action::Cancel(octets), number)
            }
            Body::Unbind => self.unbind(alloc, number),
            Body::UnbindResp => self.leave(number),
            Body::EnquireLink => self.send(
                alloc,
                Body::EnquireLinkResp,
                CommandStatus::ESME_ROK,
                number,
            ),
            Body::DeliverSmResp(_) => self.delivered(number, pdu.command_status == 0),
            Body::GenericNack => self.delivered(number, false),
            _ => Ok(()),
        }
    }

    // Reads a PDU and takes it.
    fn read(
        &mut self,
        alloc: Global,
        accounts: &Accounts,
        octets: &[u8],
        command: CommandId,
        number: u32,
    ) -> Result<(), AllocError>
        ensures { OnOk result (self.new ≡ judging accounts.now octets.now command number Read self.old) }
    {
        match Pdu::read(octets) {
            Ok(pdu) => {
                self.take(alloc, accounts, octets, number, pdu)?;
                Ok(())
            }
            Err(fault) => {
                self.refuse(alloc, octets, command, number, judge_fault(command, fault))?;
                Ok(())
            }
        }
    }

    // Treats a command by the table.
    fn command(
        &mut self,
        alloc: Global,
        accounts: &Accounts,
        octets: &[u8],
        command: CommandId,
        number: u32,
    ) -> Result<(), AllocError>
        ensures { OnOk result (self.new ≡ judging accounts.now octets.now command number (judged command self.old.conversation.state) self.old) }
    {
        match judge(command, self.conversation.state) {
            Judgement::Read => {
                self.read(alloc, accounts, octets, command, number)?;
                Ok(())
            }
            judgement => {
                self.refuse(alloc, octets, command, number, judgement)?;
                Ok(())
            }
        }
    }

    // Treats a whole PDU.
    #[tactic(auto, unfolding(crate::specs::SessionTable::treated))]
    fn treat(&mut self, alloc: Global, accounts: &Accounts, octets: &[u8]) -> Result<(), AllocError>
        requires { 16 ≤ length octets.now }
        ensures { OnOk result (self.new ≡ treated accounts.now octets.now self.old) }
    {
        let Some(header) = header_of(octets) else {
            return Ok(());
        };
        let number = header.sequence_number;
        match CommandId::of(header.command_id) {
            Some(command) => {
                self.command(alloc, accounts, octets, command, number)?;
                Ok(())
            }
            None => {
                if header.command_id < 0x8000_0000 {
                    self.nack(alloc, CommandStatus::ESME_RINVCMDID, number)?;
                }
                Ok(())
            }
        }
    }

    // The octets are no PDUs any more. The session is at its end once it owes no answer.
    fn break_off(&mut self)
        ensures { self.new ≡ broken self.old }
    {
        if self.conversation.owed.is_empty() {
            self.conversation.close();
        } else {
            self.conversation.break_off();
        }
    }

    // Treats a header that states no good length.
    #[tactic(auto, unfolding(crate::specs::SessionTable::bad_length))]
    fn end(&mut self, alloc: Global, octets: &[u8]) -> Result<(), AllocError>
        requires { 16 ≤ length octets.now }
        ensures { OnOk result (self.new ≡ bad_length octets.now self.old) }
    {
        let Some(header) = header_of(octets) else {
            return Ok(());
        };
        let number = header.sequence_number;
        self.nack(alloc, CommandStatus::ESME_RINVCMDLEN, number)?;
        self.break_off();
        Ok(())
    }

    // Treats the octets from the left, and answers how many of them are done with.
    pub(crate) fn walk(
        &mut self,
        alloc: Global,
        accounts: &Accounts,
        octets: &[u8],
    ) -> Result<usize, AllocError>
        ensures within { IfOk result (λ done. done ≤ length octets.now) }
        ensures stream { IfOk result (λ done. stream accounts.now (self.old, []) octets.now ≡ (self.new, drop done octets.now)) }
    {
        let mut done = 0;
        loop {
            let (_, rest) = octets.split_at(done);
            match front_of(self.conversation.state, rest) {
                Front::Waiting => return Ok(done),
                Front::Dropped => return Ok(octets.len()),
                Front::BadLength => {
                    self.end(alloc, rest)?;
                    return Ok(octets.len());
                }
                Front::Whole(len) => {
                    let (piece, _) = rest.split_at(len);
                    self.treat(alloc, accounts, piece)?;
                    done += len;
                }
            }
        }
    }
}
