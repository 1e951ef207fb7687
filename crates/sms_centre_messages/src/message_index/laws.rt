//! Laws of what memory has of messages, over its definitions alone.
ghost use Rattle.std.specs.Prelude.{◌≡◌, ℕ, List, None};
ghost use Rattle.std.specs.List.Sorted.{IsNonDecreasing};
ghost use Rattle.sms_centre_messages.specs.message_index.Expiring.{all_past, confirmed, each_numbered};
ghost use Rattle.sms_centre_messages.specs.message_index.MessageIndex.{CoversPast, past_ids};
ghost use Rattle.sms_centre_rows.specs.messages.Messages.{message_key};
ghost use Rattle.sms_centre_rows.specs.declared.messages.message.MessageRow.{MessageRow};
ghost use Rattle.sms_rows.specs.table.Table.{Rises};

/// The deadlines that are reached, each looked up once, give the numbers of the messages that are past their time. What
/// is done for each message past its time, in the order of the rows, is done for the messages of just these numbers.
pub fn the_index_finds_expired_messages<S>()
    ensures steps { (step : MessageRow → S → S) (now : ℕ) (ms : List MessageRow) (s : S) → Rises message_key ms
        → all_past step now ms s ≡ each_numbered step ms (past_ids now ms) s }
    ensures numbers { (now : ℕ) (ms : List MessageRow) (numbers : List ℕ) → Rises message_key ms → IsNonDecreasing numbers → CoversPast now ms numbers
        → confirmed now ms None numbers ≡ past_ids now ms }
{}
