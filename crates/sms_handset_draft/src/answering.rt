//! Answers in the transactions that the centre begins, and what its status reports say of the outbox.
ghost use Rattle.std.specs.Prelude.{◌≡◌, OnOk, option_copied};
ghost use Rattle.sms_relay.specs.Cause.{IsRpCause};
ghost use Rattle.sms_handset_draft.specs.Receiving.{acknowledge as acknowledge_of, note as note_of, refuse as refuse_of, reject as reject_of};

use crate::draft::Draft;
use crate::no_memory::NoMemory;
use sms_base::{Holder, Kind, OctetView};
use sms_handset_rows::outbox::OutEntry;
use sms_relay::{Rp, RpCause, write_up};

impl<'a> Draft<'a> {
    /// RP-ACK with a DELIVER-REPORT that says nothing.
    pub fn acknowledge(&mut self, reference: u8, tag: Holder) -> Result<(), NoMemory>
        ensures { OnOk result (self.new ≡ acknowledge_of reference tag self.old) }
    {
        let rp = Rp::AckUnit {
            reference,
            unit: Some(OctetView::of(&[0, 0])),
        };
        let unit = write_up(self.alloc, &rp)?;
        self.reply(Kind::Ack, reference, tag, unit.as_slice())
    }

    /// RP-ERROR with a DELIVER-REPORT that has the cause of failure (TP-FCS, one octet).
    pub fn refuse(
        &mut self,
        reference: u8,
        tag: Holder,
        cause: RpCause,
        failure: u8,
    ) -> Result<(), NoMemory>
        requires named { IsRpCause cause }
        ensures { OnOk result (self.new ≡ refuse_of reference tag cause failure self.old) }
    {
        let report = [0, failure, 0];
        let rp = Rp::ErrorUnit {
            reference,
            cause,
            unit: Some(OctetView::of(&report)),
        };
        let unit = write_up(self.alloc, &rp)?;
        self.reply(Kind::Error, reference, tag, unit.as_slice())
    }

    /// RP-ERROR alone.
    pub fn reject(&mut self, reference: u8, tag: Holder, cause: RpCause) -> Result<(), NoMemory>
        requires named { IsRpCause cause }
        ensures { OnOk result (self.new ≡ reject_of reference tag cause self.old) }
    {
        let rp = Rp::ErrorUnit {
            reference,
            cause,
            unit: None,
        };
        let unit = write_up(self.alloc, &rp)?;
        self.reply(Kind::Error, reference, tag, unit.as_slice())
    }

    /// What a status report says of the newest entry that it is about, if there is one.
    pub fn note(&mut self, status: u8, entry: Option<&OutEntry>) -> Result<(), NoMemory>
        ensures { OnOk result (self.new ≡ note_of status (option_copied entry.entry) self.old) }
    {
        if let Some(entry) = entry {
            let mut noted = entry.copy(self.alloc)?;
            noted.status = Some(status);
            self.put_out(noted)?;
        }
        Ok(())
    }
}
