//! Memory available: RP-SMMA once a slot has become free (3GPP TS 23.040 10.3, 3GPP TS 24.011 6.3.3).
ghost use Rattle.std.specs.Prelude.{◌≡◌, ◌<◌, OnOk};
ghost use Rattle.sms_rows.specs.table.Table.{row_at};
ghost use Rattle.sms_handset_rows.specs.outbox.Keys.{notice_key};
ghost use Rattle.sms_handset_draft.specs.MemoryAvailable.{first_notice as first_notice_of, notice_concluded as notice_concluded_of};
ghost use Rattle.sms_handset_draft.specs.MemoryAvailable.{notice_failed as notice_failed_of, put_notice as put_notice_of, remove_notice as remove_notice_of};
ghost use Rattle.sms_handset_draft.specs.MemoryAvailable.{send_notice as send_notice_of};

use crate::counters::Counters;
use crate::draft::Draft;
use crate::no_memory::NoMemory;
use sms_base::Holder;
use sms_handset_rows::outbox::{Notice, following, smma};
use sms_link::{Ending, TRAM};
use sms_rows::table::Key;

impl<'a> Draft<'a> {
    fn put_notice(&mut self, notice: Notice) -> Result<(), NoMemory>
        ensures { OnOk result (self.new ≡ put_notice_of notice self.old) }
    {
        self.notices.put(notice)?;
        Ok(())
    }

    fn remove_notice(&mut self, number: u32)
        ensures { self.new ≡ remove_notice_of number self.old }
    {
        self.notices.remove(Key::of(u64::from(number)));
    }

    /// Sends an RP-SMMA.
    pub(crate) fn send_notice(&mut self, notice: Notice) -> Result<(), NoMemory>
        ensures { OnOk result (self.new ≡ send_notice_of notice self.old) }
    {
        let unit = smma(self.alloc, notice.reference)?;
        self.put_notice(Notice {
            due: None,
            ..notice
        })?;
        self.begin(
            notice.reference,
            Holder::Memory(notice.number),
            unit.as_slice(),
        )
    }

    /// Sends an RP-SMMA for the first time, under a number and a reference that it takes.
    pub(crate) fn first_notice(&mut self, number: u32, reference: u8) -> Result<(), NoMemory>
        requires { number < 4294967295 }
        ensures { OnOk result (self.new ≡ first_notice_of number reference self.old) }
    {
        let counters = self.counters();
        self.notices_wanted = self.notices_wanted.saturating_sub(1);
        self.put_counters(Counters {
            notice: number + 1,
            reference: following(reference),
            ..counters
        });
        self.send_notice(Notice {
            number,
            reference,
            is_second: false,
            due: None,
        })
    }

    // The transaction of an RP-SMMA ended without its RP-ACK: it is sent twice in all.
    fn notice_failed(&mut self, notice: Notice) -> Result<(), NoMemory>
        ensures { OnOk result (self.new ≡ notice_failed_of notice self.old) }
    {
        if notice.is_second {
            self.remove_notice(notice.number);
            return Ok(());
        }
        self.put_notice(Notice {
            is_second: true,
            due: Some(self.moment.plus(TRAM)),
            ..notice
        })
    }

    // The RP-SMMA of that number, if it has not ended.
    fn notice_at(&self, number: u32) -> Option<Notice>
        ensures { result ≡ row_at notice_key number self.now.notices }
    {
        match self.notices.find(Key::of(u64::from(number))) {
            Some(notice) => Some(*notice),
            None => None,
        }
    }

    /// The transfer of the RP-SMMA of that number has ended.
    pub(crate) fn notice_concluded(&mut self, ending: &Ending, number: u32) -> Result<(), NoMemory>
        ensures { OnOk result (self.new ≡ notice_concluded_of ending.now (row_at notice_key number self.old.notices) self.old) }
    {
        let Some(notice) = self.notice_at(number) else {
            return Ok(());
        };
        match ending {
            Ending::Acknowledged => {
                self.remove_notice(notice.number);
                Ok(())
            }
            _ => self.notice_failed(notice),
        }
    }
}
