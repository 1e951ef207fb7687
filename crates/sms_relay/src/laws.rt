//! Laws of the frames, over their definitions alone.
ghost use Rattle.std.specs.Prelude.{◌≡◌, ◌≢◌, ◌<◌, ℕ, List, [], ◌++◌, Ok, Err};
ghost use Rattle.std.specs.List.{AllByRecursion};
ghost use Rattle.sms_base.specs.Reading.{AreOctets};
ghost use Rattle.sms_relay.specs.Cause.{number_of, named, cause_of, IsRpCause};
ghost use Rattle.sms_base.specs.FaultReasons.{HasContinuation, HasFront};
ghost use Rattle.sms_relay.specs.RelayGrammar.{IsUp, IsDown, IsWrittenUp, IsWrittenDown, up_octets, down_octets, user_data_of, bare};
ghost use Rattle.sms_relay.specs.RelayReading.{up_at, down_at};
ghost use Rattle.sms_relay.specs.declared.cause.RpCause.{RpCause as CauseOf};
ghost use Rattle.sms_relay.specs.declared.cause.RpCause.TheVariants.{Reserved};
ghost use Rattle.sms_relay.specs.declared.fault.RelayFault.{RelayFault as FaultOf};
ghost use Rattle.sms_relay.specs.declared.fault.RelayFault.TheVariants.{Trailing, Truncated};
ghost use Rattle.sms_relay.specs.declared.frame.Rp.{Rp as RpOf};

/// Each number is that of the cause that it names.
pub fn cause_has_its_number()
    ensures { (number : ℕ) → number_of (cause_of number) ≡ number }
{}

/// A cause of a frame has a number below 128, which names it. So has a reserved one whose number no named cause has.
pub fn number_has_its_cause()
    ensures below { (cause : CauseOf) → IsRpCause cause → number_of cause < 128 }
    ensures back { (cause : CauseOf) → IsRpCause cause → cause_of (number_of cause) ≡ cause }
    ensures all { (number : ℕ) → number < 128 → IsRpCause (cause_of number) }
    ensures reserved { (number : ℕ) → number < 128 → AllByRecursion (λ cause. number_of cause ≢ number) named → IsRpCause (Reserved number) }
{}

/// Octets are read upwards as a unit exactly where the grammar has it.
pub fn up_is_read_by_the_grammar()
    ensures found { (octets : List ℕ) (rp : RpOf) → AreOctets octets → up_at octets ≡ Ok rp → IsUp octets rp }
    ensures only { (octets : List ℕ) (rp : RpOf) → IsUp octets rp → up_at octets ≡ Ok rp }
{}

/// Octets are read downwards as a unit exactly where the grammar has it.
pub fn down_is_read_by_the_grammar()
    ensures found { (octets : List ℕ) (rp : RpOf) → AreOctets octets → down_at octets ≡ Ok rp → IsDown octets rp }
    ensures only { (octets : List ℕ) (rp : RpOf) → IsDown octets rp → down_at octets ≡ Ok rp }
{}

/// A list is at most one unit of a direction.
pub fn a_list_is_one_unit()
    ensures up { (octets : List ℕ) (one other : RpOf) → IsUp octets one → IsUp octets other → one ≡ other }
    ensures down { (octets : List ℕ) (one other : RpOf) → IsDown octets one → IsDown octets other → one ≡ other }
{}

/// What is written upwards is in the grammar and is read as that unit. Each unit of the grammar has exactly one written
/// list.
pub fn written_up_is_read()
    ensures in_grammar { (octets : List ℕ) (rp : RpOf) → IsWrittenUp octets rp → IsUp octets rp }
    ensures again { (octets : List ℕ) (rp : RpOf) → IsWrittenUp octets rp → up_at octets ≡ Ok rp }
    ensures some { (octets : List ℕ) (rp : RpOf) → IsUp octets rp → IsWrittenUp (up_octets rp) rp }
    ensures one { (octets others : List ℕ) (rp : RpOf) → IsWrittenUp octets rp → IsWrittenUp others rp → octets ≡ others }
{}

/// What is written downwards is in the grammar and is read as that unit. Each unit of the grammar has exactly one
/// written list.
pub fn written_down_is_read()
    ensures in_grammar { (octets : List ℕ) (rp : RpOf) → IsWrittenDown octets rp → IsDown octets rp }
    ensures again { (octets : List ℕ) (rp : RpOf) → IsWrittenDown octets rp → down_at octets ≡ Ok rp }
    ensures some { (octets : List ℕ) (rp : RpOf) → IsDown octets rp → IsWrittenDown (down_octets rp) rp }
    ensures one { (octets others : List ℕ) (rp : RpOf) → IsWrittenDown octets rp → IsWrittenDown others rp → octets ≡ others }
{}

/// A proper front of a list that is read upwards is truncated, unless exactly the user data of an answer is cut off.
/// RP-ACK and RP-ERROR are then read as the unit without user data. RP-DATA and RP-SMMA have no such front.
pub fn front_up_is_truncated()
    ensures truncated { (front rest : List ℕ) (rp : RpOf) → IsUp (front ++ rest) rp → rest ≢ [] → rest ≢ user_data_of rp → up_at front ≡ Err Truncated }
    ensures bare { (front : List ℕ) (rp : RpOf) → IsUp (front ++ user_data_of rp) rp → up_at front ≡ Ok (bare rp) }
{}

/// A proper front of a list that is read downwards is truncated, unless exactly the user data of an answer is cut off.
/// RP-ACK and RP-ERROR are then read as the unit without user data. RP-DATA has no such front.
pub fn front_down_is_truncated()
    ensures truncated { (front rest : List ℕ) (rp : RpOf) → IsDown (front ++ rest) rp → rest ≢ [] → rest ≢ user_data_of rp → down_at front ≡ Err Truncated }
    ensures bare { (front : List ℕ) (rp : RpOf) → IsDown (front ++ user_data_of rp) rp → down_at front ≡ Ok (bare rp) }
{}

/// Upwards, octets end too early only where octets may follow with which they are a unit. Octets are left over only
/// behind a unit. Where the fault is any but the first, they are no unit whatever follows.
pub fn faults_up_say_what_may_follow()
    ensures truncated { (octets : List ℕ) → AreOctets octets → up_at octets ≡ Err Truncated → HasContinuation IsUp octets }
    ensures trailing { (octets : List ℕ) → AreOctets octets → up_at octets ≡ Err Trailing → HasFront IsUp octets }
    ensures other { (octets more : List ℕ) (rp : RpOf) (fault : FaultOf) → up_at octets ≡ Err fault → fault ≢ Truncated → ¬ IsUp (octets ++ more) rp }
{}

/// Downwards, octets end too early only where octets may follow with which they are a unit. Octets are left over only
/// behind a unit. Where the fault is any but the first, they are no unit whatever follows.
pub fn faults_down_say_what_may_follow()
    ensures truncated { (octets : List ℕ) → AreOctets octets → down_at octets ≡ Err Truncated → HasContinuation IsDown octets }
    ensures trailing { (octets : List ℕ) → AreOctets octets → down_at octets ≡ Err Trailing → HasFront IsDown octets }
    ensures other { (octets more : List ℕ) (rp : RpOf) (fault : FaultOf) → down_at octets ≡ Err fault → fault ≢ Truncated → ¬ IsDown (octets ++ more) rp }
{}
