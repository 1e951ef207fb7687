//! Laws of a handset's events, over their definitions alone.
ghost use Rattle.std.specs.Prelude.{◌≡◌, ℕ, Bool, List};
ghost use Rattle.sms_base.specs.declared.holder.Holder.{Holder};
ghost use Rattle.sms_handset_draft.specs.declared.rows.Rows.{Rows};
ghost use Rattle.sms_handset_draft.specs.declared.setup.Setup.{Setup};
ghost use Rattle.sms_handset.specs.Accepted.{StoresAccepted};
ghost use Rattle.sms_handset_draft.specs.Draft.{Core, Draft};
ghost use Rattle.sms_handset.specs.HandsetEvent.{deleted, discarded, frame_received, ticked, wrote};
ghost use Rattle.sms_handset_draft.specs.Outbox.{offer_message, offer_wanted};
ghost use Rattle.sms_handset.specs.Planning.{IsRevised, IsRevisedIfDone};
ghost use Rattle.sms_handset_draft.specs.FirstRows.{first_rows};
ghost use Rattle.sms_handset.specs.SoundRows.{IsSetup, IsSound};

/// The rows that an event leads to are the rows with its changes.
pub fn rows_are_the_changes()
    ensures frame { (octets : List ℕ) (tag : Holder) (c : Core) → IsRevised c.rows (frame_received octets tag c) }
    ensures tick { (now : ℕ) (c : Core) → IsRevised c.rows (ticked now c) }
    ensures write { (text to : List ℕ) (report : Bool) (c : Core) → IsRevisedIfDone c.rows (wrote text to report c) }
    ensures delete { (entry : ℕ) (c : Core) → IsRevisedIfDone c.rows (deleted entry c) }
    ensures discard { (entry : ℕ) (c : Core) → IsRevisedIfDone c.rows (discarded entry c) }
{}

/// What is accepted is stored. Changes that make a DELIVER of no discarded group the last accepted also put an entry of
/// its source and user data, alone or joined. The entry is in the rows.
pub fn accepted_is_stored()
    ensures { (octets : List ℕ) (tag : Holder) (c : Core) → StoresAccepted c.rows.marks (frame_received octets tag c).changes
        (frame_received octets tag c).rows }
{}

/// Sound rows are so with any setup: a handset recovers with the one that it is given then.
pub fn sound_rows_take_any_setup()
    ensures { (rows : Rows) (setup : Setup) → IsSound rows → IsSetup setup → IsSound (record rows { setup = setup }) }
{}

/// The first rows of a new store are sound.
pub fn first_rows_are_sound()
    ensures { (setup : Setup) → IsSetup setup → IsSound (first_rows setup) }
{}

/// Where the numbers of RP-SMMA have reached their last, which is never given, no further one is sent. Messages are
/// still sent.
pub fn the_last_notice_blocks_nothing()
    ensures { (d : Draft) → d.rows.counters.notice ≡ 4294967295 → offer_wanted d ≡ offer_message d }
{}
