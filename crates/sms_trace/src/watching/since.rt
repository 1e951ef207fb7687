//! What was added since an event began.
use sms_centre_rows::reports::Delivery;
use sms_play::judging::Scene;
use sms_script::report::{Answer, FrameRow};

/// How much there was when it began.
#[derive(Clone, Copy)]
pub(crate) struct Since {
    answers: usize,
    frames: usize,
    deliveries: usize,
}

impl Since {
    /// Nothing is there yet.
    pub(crate) fn nothing() -> Since {
        Since {
            answers: 0,
            frames: 0,
            deliveries: 0,
        }
    }

    /// All that is there so far.
    pub(crate) fn of<S: Scene>(scene: &S) -> Since {
        Since {
            answers: scene.answers().len(),
            frames: scene.bag().len(),
            deliveries: scene.deliveries().len(),
        }
    }

    /// What was answered since.
    pub(crate) fn answers<'a, S: Scene>(&self, scene: &'a S) -> &'a [Answer] {
        let all = scene.answers();
        &all[self.answers.min(all.len())..]
    }

    /// The frames that were sent since.
    pub(crate) fn frames<'a, S: Scene>(&self, scene: &'a S) -> &'a [FrameRow] {
        let all = scene.bag().as_slice();
        &all[self.frames.min(all.len())..]
    }

    /// The receipts that were sent to applications since.
    pub(crate) fn deliveries<'a, S: Scene>(&self, scene: &'a S) -> &'a [Delivery] {
        let all = scene.deliveries();
        &all[self.deliveries.min(all.len())..]
    }
}
