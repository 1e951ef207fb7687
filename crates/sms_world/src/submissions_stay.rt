//! A message of an application stays what was submitted.
//!
//! A submit_sm that passes all checks is a submission. It has a source, a handset, a data coding, user data, and all
//! else that a DELIVER says of it. The centre's definition makes of it a message that is that submission's, part by
//! part. Each part is offered as a DELIVER of it (`specs/headline/Origins.antt`). Its user data may fit one
//! part, have a header of their own or be split. Every event keeps this. This module has laws and no code.
ghost use Rattle.sms_world.specs.submissions_stay.SubmittedLaws.{AloneLaw, MadeLaw, StaysLaw};

/// A message that is there after a submit_sm was there before it, or is the submission that the PDU reads as, part by
/// part. It stays so through every event of a sound centre. A text that fits one part is carried whole by that part.
pub fn submissions_stay_as_submitted()
    ensures made { MadeLaw }
    ensures stays { StaysLaw }
    ensures alone { AloneLaw }
{}
