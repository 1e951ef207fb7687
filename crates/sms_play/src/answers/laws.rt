//! What is never answered.
ghost use Rattle.sms_play.specs.answers.AnswerLaws.{NoSystemErrorLaw};

/// No answer in the report of a script that plays is ESME_RSYSERR.
pub fn no_request_meets_a_system_error()
    ensures { NoSystemErrorLaw }
{}
