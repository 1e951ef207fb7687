//! What a run of the server keeps, whatever its connections ask: a law of its history, over the definitions.
ghost use Rattle.std.specs.Prelude.{◌<◌, ℕ, List, []};
ghost use Rattle.sms_base.specs.Among.{Among};
ghost use Rattle.sms_centre_spec.specs.SoundRows.{IsSound};
ghost use Rattle.sms_centre_spec.specs.declared.jobs.job.Job.{Job};
ghost use Rattle.sms_centre_spec.specs.declared.jobs.reply.Reply.{Reply};
ghost use Rattle.sms_centre_spec.specs.declared.rows.Rows.{Rows};
ghost use Rattle.sms_centre_spec.specs.declared.jobs.reply.Reply.TheVariants.{Receipt};
ghost use Rattle.sms_keeper.specs.History.{IsHistory, answers_in, jobs_of};
ghost use Rattle.sms_keeper.specs.declared.machine.Item.{Item};
ghost use Rattle.sms_receipt.specs.declared.final_message.Final.{Final};
ghost use Rattle.smsc_arrivals.specs.declared.arrival.Arrival.{Arrival};
ghost use Rattle.smsc_server.specs.FramesGiven.{GoToHandsets};
ghost use Rattle.smsc_server.specs.OwnReplies.{HearTheirOwn};
ghost use Rattle.smsc_server.specs.ReceiptsGiven.{GoToAccounts};
ghost use Rattle.smsc_server.specs.RunPromises.{AreAsked, KeepsPromises, WasReported};
ghost use Rattle.smsc_server.specs.serving.Connections.{Admitted};
ghost use Rattle.smsc_server.specs.serving.Sittings.{SeatDid, replies_to};
ghost use Rattle.smsc_service.specs.Seats.{nobody};
ghost use Rattle.smsc_service.specs.Serving.{Serving, after, gives, restarted};

use smsc_service::laws::an_answer_names_a_message;
use std::io::{Read, Write};

/// Of the history that `serve` runs from sound rows on, whatever applications and handsets do. At each moment the centre is sound. What the rows
/// have at any moment they have at the end, but for what the centre forgot. What it forgot had ended and was reported. A final state is never taken
/// back. A submit_sm that was answered by a number is a message in the rows at the end, unless it was forgotten. Each receipt says the state in
/// which its message is at the end, or was as it was forgotten.
pub fn a_run_keeps_its_promises()
    ensures { (rows : Rows) (items : List (Item Job Reply)) (last : Serving) → IsSound rows → AreAsked items
        → IsHistory gives after (restarted rows nobody) items last → KeepsPromises (restarted rows nobody) items last }
{
    an_answer_names_a_message();
}

/// Each receipt that a seat gets in such a run is of a message of the account that is bound there, in a session that receives. The jobs of that seat
/// alone tell who is bound, but for those for which the centre had no memory.
pub fn receipts_go_to_their_accounts()
    ensures { (rows : Rows) (items : List (Item Job Reply)) (last : Serving) → IsSound rows → AreAsked items
        → IsHistory gives after (restarted rows nobody) items last → GoToAccounts rows items }
{}

/// Each frame that a seat gets goes to the handset whose link is at the seat. A job of the seat named it, and the link was not taken down since, but
/// for want of memory. The centre's definition sends that frame to that handset at that place of the history.
pub fn frames_go_to_their_handsets()
    ensures { (rows : Rows) (items : List (Item Job Reply)) (last : Serving)
        → IsHistory gives after (restarted rows nobody) items last → GoToHandsets (restarted rows nobody) items }
{}

/// Each receipt that a connection of such a run heard is that of a message. It says the state in which the message is at the end, or was as it was
/// forgotten.
pub fn a_connection_hears_final_states<S: Read + Write>()
    ensures { (admitted : Admitted) (seat : ℕ) (first last : Serving) (items : List (Item Job Reply)) (took : List (Arrival S)) → KeepsPromises first items last
        → (did : SeatDid S.remaining S.contents admitted (jobs_of seat items) (answers_in seat items) took)
        → (end : Final) → Among (Receipt end) (replies_to S.remaining S.contents admitted did.connections) → WasReported first items end }
{}

/// What each connection of a seat hears in such a run is its own, whatever memory the centre had to end the one before it. Each receipt is of a
/// message of the account that this connection bound, in a session that receives. Each frame goes to the handset whose link this connection
/// brought up.
pub fn each_connection_hears_its_own<S: Read + Write>()
    ensures { (admitted : Admitted) (seat : ℕ) (rows : Rows) (items : List (Item Job Reply)) (last : Serving) (took : List (Arrival S)) → seat < 32
        → IsSound rows → AreAsked items → IsHistory gives after (restarted rows nobody) items last
        → (did : SeatDid S.remaining S.contents admitted (jobs_of seat items) (answers_in seat items) took)
        → HearTheirOwn S.remaining S.contents admitted seat rows [] did.connections items }
{
    receipts_go_to_their_accounts();
}
