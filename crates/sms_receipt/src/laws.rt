//! Laws of receipts, over their definitions alone.
ghost use Rattle.std.specs.Prelude.{◌≡◌, ◌≤◌, length};
ghost use Rattle.sms_base.specs.Address.{IsAddress};
ghost use Rattle.sms_base.specs.HandsetNumber.{own_address};
ghost use Rattle.smpp_pdu.specs.BodyGrammar.{IsMessageValue};
ghost use Rattle.smpp_pdu.specs.Writing.{written_message};
ghost use Rattle.sms_receipt.specs.ReceiptText.{receipt_text};
ghost use Rattle.sms_receipt.specs.Receipts.{receipt_of};
ghost use Rattle.sms_receipt.specs.declared.final_message.Final.{Final};

/// The text of a receipt has 102 octets.
pub fn receipt_texts_are_as_long()
    ensures { (end : Final) → length (receipt_text end) ≡ 102 }
{}

/// A receipt between two addresses is a message that can be written, in at most 179 octets.
pub fn receipts_can_be_written()
    ensures fields { (end : Final) → IsAddress end.source → IsAddress (own_address end.handset) → IsMessageValue (receipt_of end) }
    ensures short { (end : Final) → IsAddress end.source → IsAddress (own_address end.handset) → length (written_message (receipt_of end)) ≤ 179 }
{}
