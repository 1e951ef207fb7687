//! One end of a link over any list of calls (3GPP TS 24.011 5).
//!
//! `sms_link` says what one call does. These laws hold over any list of calls, whatever units, references and tags the
//! link is given and whatever frames arrive. They say how often TC1* sends a frame again
//! (`specs/link_runs/FramesSent.antt`). An answer is passed up exactly where its identifier is that of the transaction
//! under way (`specs/link_runs/UnderWay.antt`). An answer that was taken is acknowledged alone until another is taken
//! (`specs/link_runs/AnswersTaken.antt`).

pub mod laws;
