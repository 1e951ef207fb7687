//! A message that the centre split stays the text that was submitted.
//!
//! The centre splits a text that no part holds under a 16-bit reference, which the message's row keeps. Every event of
//! a sound centre's definition keeps each such message. It has as many parts as its header counts, each at its own
//! number's place under the one key (`specs/headline/SplitClaims.antt`). A submission's message is that of the submitted
//! text, part by part, whatever happens afterwards. `sms_world::headline` says what a handset joins of it. This module
//! has laws and no code.
ghost use Rattle.sms_world.specs.split_messages_stay.SplitLaws.{EventLaw, PiecesLaw, StaysLaw, TextLaw};

/// Where each message that was split is whole under one key, it is so after every event of a sound centre.
pub fn split_messages_stay()
    ensures { EventLaw }
{}

/// A submission of an application whose text was split became the parts of that text, and stays so through every event
/// of a sound centre. The parts of a text join to it.
pub fn split_messages_are_of_their_texts()
    ensures text { TextLaw }
    ensures stays { StaysLaw }
    ensures joins { PiecesLaw }
{}
