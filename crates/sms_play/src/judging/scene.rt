//! A script in play, and who looks on.
ghost use Rattle.std.specs.Prelude.{◌≡◌, ⊤, Option, OnOk, length, option_copied, option_map};
ghost use Rattle.sms_play.specs.growth.Growth.{Grows};
ghost use Rattle.sms_play.specs.judging.Premises.{accepted_at, or_first, reused, untimely};
ghost use Rattle.sms_centre_rows.specs.messages.Messages.{message_at, part_at};
ghost use Rattle.sms_play.specs.PlayState.{PlayState};
ghost use Rattle.sms_script.specs.declared.report.Broken.{Broken};
ghost use Rattle.sms_play.specs.staging.Numbering.{AreNumbered};

use sms_base::{Listed, MessageId};
use sms_centre_rows::messages::MessageRow;
use sms_centre_rows::reports::Delivery;
use sms_script::WorldEvent;
use sms_script::report::{AcceptedRow, Answer, FrameRow, GivenRow};
use std::alloc::AllocError;

/// What there is to see of a script in play. Each list only grows.
pub trait Scene {
    /// The scene shows that course of the script. A scene that doesn't say which shows none.
    ghost represents: { Self → PlayState → Type 0 } = { λ scene c. ⊥ };

    /// The answers so far, in order.
    fn answers(&self) -> &[Answer]
        ensures { (c : PlayState) → represents self.now c → result.now ≡ c.answers };

    /// The references that were given, in order.
    fn given(&self) -> &[GivenRow]
        ensures { (c : PlayState) → represents self.now c → result.now ≡ c.given };

    /// The frames that were sent, by number.
    fn bag(&self) -> &Listed<FrameRow>
        ensures bag { (c : PlayState) → represents self.now c → result.now ≡ c.bag }
        ensures numbered { (c : PlayState) → represents self.now c → AreNumbered 1 c.bag };

    /// The receipts that were sent to applications, in order. A session's number is the place of its account.
    fn deliveries(&self) -> &[Delivery];

    /// How many handsets there are.
    fn handsets(&self) -> usize
        ensures { (c : PlayState) → represents self.now c → result ≡ length c.parties };

    /// What the handset at that place has accepted, in order.
    fn accepted(&self, place: usize) -> &[AcceptedRow]
        ensures { (c : PlayState) → represents self.now c → result.now ≡ accepted_at place c.parties };

    /// A message that the centre has.
    fn message(&self, id: MessageId) -> Option<&MessageRow>
        ensures { (c : PlayState) → represents self.now c → option_copied result ≡ message_at id c.centre.rows.messages };

    /// The TPDU of a part that the centre has.
    fn part_tpdu(&self, id: MessageId, number: u8) -> Option<&[u8]>
        ensures { (c : PlayState) → represents self.now c → option_copied result ≡ option_map (λ p. p.tpdu) (part_at id number c.centre.rows.parts) };
}

/// Who looks on while a script is played.
pub trait Watcher {
    /// The judge has looked on up to that course, and that was the first event that broke a premise. Who judges nothing has seen all.
    ghost has_seen: { Self → Option Broken → PlayState → Type 0 } = { λ watcher broken c. ⊤ };

    /// The event of that number is next: the scene is from before it.
    fn before<S: Scene>(
        &mut self,
        number: u64,
        event: &WorldEvent<'_>,
        scene: &S,
    ) -> Result<(), AllocError>
        ensures { (broken : Option Broken) (c : PlayState) → S.represents scene.now c → has_seen self.old broken c
            → OnOk result (has_seen self.new (or_first broken (untimely number event.now c)) c) };

    /// The event of that number is done.
    fn after<S: Scene>(
        &mut self,
        number: u64,
        event: &WorldEvent<'_>,
        scene: &S,
    ) -> Result<(), AllocError>
        ensures { (broken : Option Broken) (before after : PlayState) → S.represents scene.now after → Grows before after → has_seen self.old broken before
            → OnOk result (has_seen self.new (or_first broken (reused number before after)) after) };
}
