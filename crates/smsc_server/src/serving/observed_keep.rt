//! A keep whose commits are reported.
use crate::serving::telling::event_of_message;
use sms_base::Octets;
use sms_centre_spec::bodies::CentreStore;
use sms_centre_spec::{Changes, Rows};
use sms_rows::keep::{BodyKeep, Keep, KeepError, RowStore};
use sms_rows::table::{Change, Key};
use smsc_observer::Observer;

/// A keep that reports each commit, each message which a commit accepts, and each which it ends. It is as honest as the keep in it, and holds the
/// rows that the keep in it holds.
#[derive(Drop)]
pub struct ObservedKeep<'a, K, T> {
    /// The keep that is observed.
    pub keep: K,
    /// Who observes it, if anybody does.
    pub observer: Option<&'a T>,
}

fn report_all<T: Observer>(observer: Option<&T>, changes: &Changes) {
    let Some(observer) = observer else {
        return;
    };
    observer.committed(changes);
    for change in changes.messages.as_slice() {
        if let Change::Put(message) = change {
            observer.observe(&event_of_message(message));
        }
    }
}

fn begin_commit<T: Observer>(observer: Option<&T>) {
    if let Some(observer) = observer {
        observer.begin_commit();
    }
}

fn end_commit<T: Observer>(observer: Option<&T>, committed: &Result<(), KeepError>) {
    let refused = match committed {
        Ok(()) => None,
        Err(error) => Some(*error),
    };
    if let Some(observer) = observer {
        observer.end_commit(refused);
    }
}

impl<'a, K: CentreStore, T: Observer> RowStore for ObservedKeep<'a, K, T> {
    type Rows = Rows;

    ghost state = { λ observed. K.state observed.keep };
}

impl<'a, K: CentreStore, T: Observer> Keep for ObservedKeep<'a, K, T> {
    type Changes = Changes;

    ghost after = { K.after };

    ghost may_leave = { λ observed left. K.may_leave observed.keep left };

    fn commit(&mut self, changes: &Changes) -> Result<(), KeepError> {
        begin_commit(self.observer);
        let committed = self.keep.commit(changes);
        end_commit(self.observer, &committed);
        if committed.is_ok() {
            report_all(self.observer, changes);
        }
        committed
    }

    fn load(&mut self) -> Result<Rows, KeepError> {
        self.keep.load()
    }
}

impl<'a, K: CentreStore, T: Observer> BodyKeep for ObservedKeep<'a, K, T> {
    ghost body_of = { K.body_of };

    fn body(&mut self, key: Key) -> Result<Option<Octets>, KeepError> {
        self.keep.body(key)
    }
}

impl<'a, K: CentreStore, T: Observer> CentreStore for ObservedKeep<'a, K, T> {
    fn gather(&mut self) -> Result<Rows, KeepError> {
        self.keep.gather()
    }

    ghost makes = { K.makes };

    ghost stores = { K.stores };
}
