//! Laws of PDUs, over their definitions alone.
ghost use Rattle.std.specs.Prelude.{◌≡◌, ◌≢◌, ◌⊎◌, ◌≤◌, ◌++◌, List, [], length, ℕ, Ok, Err};
ghost use Rattle.sms_base.specs.FaultReasons.{HasContinuation, HasFront};
ghost use Rattle.sms_base.specs.Reading.{AreOctets};
ghost use Rattle.smpp_pdu.specs.declared.command.CommandId.{CommandId as CommandOf};
ghost use Rattle.smpp_pdu.specs.declared.fault.PduFault.{PduFault as FaultOf};
ghost use Rattle.smpp_pdu.specs.declared.fault.PduFault.TheVariants.{Truncated, BadLength, UnknownCommand, NoTerminator, BadTlv, FieldTooLong};
ghost use Rattle.smpp_pdu.specs.declared.fault.PduFault.TheVariants.{ShortMessageTooLong};
ghost use Rattle.smpp_pdu.specs.declared.header.Header.{Header as HeaderOf};
ghost use Rattle.smpp_pdu.specs.declared.pdu.Pdu.{Pdu as PduOf};
ghost use Rattle.smpp_pdu.specs.declared.tlv.Tlvs.{Tlvs as TlvsOf};
ghost use Rattle.smpp_pdu.specs.FaultReasons.{EndsBeforeLength, EndsInHeader, HasBadCommandLength, HasBodyFront, HasLongBody, HasNoCommand, HasShortBody};
ghost use Rattle.smpp_pdu.specs.FaultReasons.{HasWrongBody, IsBodyOf};
ghost use Rattle.smpp_pdu.specs.PduGrammar.{IsPdu, header_octets};
ghost use Rattle.smpp_pdu.specs.PduReading.{pdu_at};
ghost use Rattle.smpp_pdu.specs.TlvReading.{tlvs_at};
ghost use Rattle.smpp_pdu.specs.Tlvs.{AreTlvs};
ghost use Rattle.smpp_pdu.specs.Writing.{IsWritable, IsWritten, written};

/// What is written is in the grammar.
pub fn written_is_in_grammar()
    ensures { (octets : List ℕ) (pdu : PduOf) → IsWritten octets pdu → IsPdu octets pdu }
{}

/// What is written is read as that value.
pub fn written_reads_back()
    ensures { (octets : List ℕ) (pdu : PduOf) → IsWritten octets pdu → pdu_at octets ≡ Ok pdu }
{}

/// Two written lists of one value are equal.
pub fn written_is_unique()
    ensures { (one other : List ℕ) (pdu : PduOf) → IsWritten one pdu → IsWritten other pdu → one ≡ other }
{}

/// A list is of one value at most.
pub fn value_is_unique()
    ensures { (octets : List ℕ) (one other : PduOf) → IsPdu octets one → IsPdu octets other → one ≡ other }
{}

/// Octets are read as a PDU exactly where the grammar has it.
pub fn pdu_is_read_by_the_grammar()
    ensures found { (octets : List ℕ) (pdu : PduOf) → AreOctets octets → pdu_at octets ≡ Ok pdu → IsPdu octets pdu }
    ensures only { (octets : List ℕ) (pdu : PduOf) → IsPdu octets pdu → pdu_at octets ≡ Ok pdu }
{}

/// Octets are read as optional parameters exactly where they are optional parameters, and as their values; else one of
/// them doesn't end with the PDU.
pub fn parameters_are_read_by_the_grammar()
    ensures found { (octets : List ℕ) (values : TlvsOf) → AreOctets octets → tlvs_at octets ≡ Ok values → AreTlvs octets values }
    ensures only { (octets : List ℕ) (values : TlvsOf) → AreTlvs octets values → tlvs_at octets ≡ Ok values }
    ensures fault { (octets : List ℕ) (fault : FaultOf) → tlvs_at octets ≡ Err fault → fault ≡ BadTlv }
{}

/// Of a proper front of a PDU octets are missing, and nothing else is wrong.
pub fn proper_front_is_truncated()
    ensures { (front rest : List ℕ) (pdu : PduOf) → IsPdu (front ++ rest) pdu → (rest ≡ [] → ⊥) → pdu_at front ≡ Err Truncated }
{}

/// A fault other than missing octets stays that fault, whatever follows the octets.
pub fn a_fault_stays()
    ensures { (octets more : List ℕ) (fault : FaultOf) → pdu_at octets ≡ Err fault → fault ≢ Truncated → pdu_at (octets ++ more) ≡ Err fault }
{}

/// Octets that are refused for another fault than missing ones begin no PDU.
pub fn refused_octets_begin_no_pdu()
    ensures { (octets more : List ℕ) (pdu : PduOf) (fault : FaultOf) → pdu_at octets ≡ Err fault → fault ≢ Truncated → ¬ IsPdu (octets ++ more) pdu }
{}

/// Why octets are no PDU, by the fault. A PDU begins with its command_length, which counts all of its octets (SMPP v3.4
/// 3.2). Octets are missing where the header is not whole, or where there are fewer octets than command_length counts.
/// They are missing, too, where octets may follow with which the body that it counts is a body. Only such a body has a
/// C-octet string or an optional parameter that does not end. A length is wrong where command_length is out of its
/// range. It is wrong, too, where octets are left over behind a PDU or behind a body inside one. No body begins with a
/// field that is too long.
pub fn a_fault_has_its_reason()
    ensures truncated { (octets : List ℕ) → AreOctets octets → pdu_at octets ≡ Err Truncated
        → EndsInHeader octets ⊎ (EndsBeforeLength octets ⊎ HasShortBody octets) }
    ensures unterminated { (octets : List ℕ) → AreOctets octets → pdu_at octets ≡ Err NoTerminator → HasShortBody octets }
    ensures parameter { (octets : List ℕ) → AreOctets octets → pdu_at octets ≡ Err BadTlv → HasShortBody octets }
    ensures length { (octets : List ℕ) → AreOctets octets → pdu_at octets ≡ Err BadLength
        → HasBadCommandLength octets ⊎ (HasFront IsPdu octets ⊎ HasLongBody octets) }
    ensures command { (octets : List ℕ) → AreOctets octets → pdu_at octets ≡ Err UnknownCommand → HasNoCommand octets }
    ensures field { (octets : List ℕ) → AreOctets octets → pdu_at octets ≡ Err FieldTooLong → HasWrongBody octets }
    ensures short_message { (octets : List ℕ) → AreOctets octets → pdu_at octets ≡ Err ShortMessageTooLong → HasWrongBody octets }
{}

/// A command_length out of its range is reported before anything else, then a command_id that no command has, then a
/// header that is not whole. Octets behind a PDU are left over. Where there are fewer octets than command_length counts,
/// octets are missing, or a field that is there is too long. If a body begins with those of the body, octets are missing.
pub fn a_reason_has_its_fault()
    ensures length { (octets : List ℕ) → HasBadCommandLength octets → pdu_at octets ≡ Err BadLength }
    ensures command { (octets : List ℕ) → HasNoCommand octets → pdu_at octets ≡ Err UnknownCommand }
    ensures header { (octets : List ℕ) → AreOctets octets → EndsInHeader octets → ¬ HasBadCommandLength octets → ¬ HasNoCommand octets
        → pdu_at octets ≡ Err Truncated }
    ensures left_over { (octets : List ℕ) → HasFront IsPdu octets → pdu_at octets ≡ Err BadLength }
    ensures short { (octets : List ℕ) → EndsBeforeLength octets
        → (pdu_at octets ≡ Err Truncated) ⊎ ((pdu_at octets ≡ Err FieldTooLong) ⊎ (pdu_at octets ≡ Err ShortMessageTooLong)) }
    ensures missing { (octets body : List ℕ) (command : CommandOf) → HasBodyFront octets command body → HasContinuation (IsBodyOf command) body
        → pdu_at octets ≡ Err Truncated }
{}

/// As many octets as command_length counts, where they are refused, begin no PDU, whatever the fault.
pub fn counted_octets_begin_no_pdu()
    ensures { (octets more rest : List ℕ) (header : HeaderOf) (pdu : PduOf) (fault : FaultOf) → octets ≡ header_octets header ++ rest
        → header.command_length ≤ length octets → pdu_at octets ≡ Err fault → ¬ IsPdu (octets ++ more) pdu }
{}
