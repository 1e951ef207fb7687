//! The text of a receipt.
ghost use Rattle.std.specs.Prelude.{◌≡◌, [], IfOk, OnOk};
ghost use Rattle.sms_base.specs.MessageId.{id_text};
ghost use Rattle.sms_receipt.specs.ReceiptText.{delivered_word, receipt_text};

use crate::final_message::Final;
use sms_base::{FinalState, MessageId, Octets};
use std::alloc::{AllocError, Global};

fn delivered_word(state: FinalState) -> &'static [u8]
    ensures { result.now ≡ delivered_word state }
{
    match state {
        FinalState::Delivered => b"001",
        FinalState::Expired | FinalState::Deleted | FinalState::Undeliverable => b"000",
    }
}

// The ten digits of an identity.
pub(crate) fn id_digits(id: MessageId) -> [u8; 10]
    ensures { result ≡ id_text id }
{
    id.digits()
}

// Writes the text of a receipt into one that has nothing yet.
fn write_text(text: &mut Octets, end: &Final) -> Result<(), AllocError>
    requires { text.old ≡ [] }
    ensures { OnOk result (text.new ≡ receipt_text end.now) }
{
    text.append(b"id:")?;
    text.append(&id_digits(end.id))?;
    text.append(b" sub:001 dlvrd:")?;
    text.append(delivered_word(end.state))?;
    text.append(b" submit date:")?;
    text.append(&end.submitted.date_digits())?;
    text.append(b" done date:")?;
    text.append(&end.done.date_digits())?;
    text.append(b" stat:")?;
    text.append(end.state.word().as_bytes())?;
    text.append(b" err:000 text:")
}

/// The text of a message's receipt, 102 octets. It is `id:` and ten digits, ` sub:001 dlvrd:` and 001 or 000,
/// ` submit date:` and ` done date:` with ten digits each. Then it has ` stat:` and a word, and ` err:000 text:`. Takes
/// memory once.
pub fn receipt_text(alloc: Global, end: &Final) -> Result<Octets, AllocError>
    ensures { IfOk result (λ text. text ≡ receipt_text end.now) }
{
    let mut text = Octets::with_capacity(alloc, 102)?;
    write_text(&mut text, end)?;
    Ok(text)
}
