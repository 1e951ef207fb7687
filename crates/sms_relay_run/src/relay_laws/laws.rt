//! Laws of a centre without rows, over definitions alone.
ghost use Rattle.std.specs.Prelude.{ℕ, ◌<◌, ◌≤◌, length, List, Option, IfSome};
ghost use Rattle.sms_base.specs.Msisdn.{IsMsisdn};
ghost use Rattle.sms_base.specs.Reading.{AreOctets};
ghost use Rattle.sms_base.specs.TimeStamp.{IsMoment};
ghost use Rattle.sms_base.specs.declared.address.Address.{Address};
ghost use Rattle.sms_centre_rows.specs.waiting.SoundAllocations.{IsNumber};
ghost use Rattle.sms_base.specs.Among.{Among};
ghost use Rattle.sms_centre_spec.specs.SoundCore.{AreDifferent};
ghost use Rattle.sms_relay.specs.RelayReading.{up_at};
ghost use Rattle.sms_relay_run.specs.relay_laws.Relaying.{Relays, destination_of, handsets_for};

/// A unit that CP-DATA can carry, of a handset that has a number, reaches a centre that starts at that moment with no
/// rows. The centre has links to the sender and to the handset that its SUBMIT names, which may be the sender. By its
/// definition it then sends CP-ACK, the answer to the sender and the unit for the destination, as `IsRelayed` says.
/// Each of the two is in CP-DATA on its handset's link, and nothing else is sent.
pub fn an_empty_centre_relays_a_unit()
    ensures { (centre : Address) (from : List ℕ) (now : ℕ) (unit : List ℕ) → IsNumber from → IsMoment now → AreOctets unit → 0 < length unit → length unit ≤ 248
        → Relays centre from now unit }
{}

/// The sender and the handset that its unit names can have links: they have numbers, and are two or one.
pub fn handsets_can_have_links()
    ensures numbers { (from : List ℕ) (unit : List ℕ) → IsNumber from → AreOctets unit → (number : List ℕ)
        → Among number (handsets_for from (destination_of (up_at unit))) → IsNumber number }
    ensures named { (unit : List ℕ) → AreOctets unit → IfSome (destination_of (up_at unit)) (λ to. IsMsisdn to.digits) }
    ensures apart { (from : List ℕ) (to : Option Address) → AreDifferent (handsets_for from to) }
{}
