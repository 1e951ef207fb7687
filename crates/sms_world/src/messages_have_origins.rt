//! Laws: each message is what a line of the script submitted.
//!
//! `sms_world::headline` says of every script what becomes of the messages in the centre's rows. These laws tie them to
//! the script's own lines. Each message is of one event: a `submit` of an application, or a frame with a handset's
//! SUBMIT that was handed over. This holds also where the event was stopped after its store call. The message is what
//! that submit_sm or SUBMIT asks for, octet for octet, from then on. So what a report calls delivered is what the
//! script submitted, and its handset accepted exactly that (`specs/headline/Origins.antt`). This module has laws and no
//! code.
ghost use Rattle.sms_world.specs.messages_have_origins.OriginLaws.{DeliveredLaw, OriginLaw, SubmitLaw};

/// Whatever happens, each message in the centre's rows is of an event of the script. It is what the submit_sm of a `submit`
/// reads as, or what the SUBMIT asks for whose frame a `deliver` handed over.
pub fn each_message_has_its_event()
    ensures { OriginLaw }
{}

/// A submit_sm may become a message, whether its event was whole or was stopped behind its store call. Then what it reads as
/// is that message in all that the script leads to. It is the message's row, and each part of it as it is offered.
pub fn submissions_stay_stored()
    ensures { SubmitLaw }
{}

/// While each frame that is handed over is decided timely, a message counts as delivered only if two things hold. An event
/// submitted it, and its handset accepted exactly once each part of what was submitted.
pub fn delivered_was_submitted()
    ensures { DeliveredLaw }
{}
