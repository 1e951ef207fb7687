ghost use Rattle.std.specs.Prelude.{◌≡◌, ◌<◌, ◌≤◌, ◌++◌, [], ◌∷◌, IfOk, OnOk, length};
ghost use Rattle.sms_control.specs.ControlGrammar.{spelled};
ghost use Rattle.sms_control.specs.LinkStep.{acknowledgement, answer_frames, begun_frames, in_transaction, rejection};
ghost use Rattle.sms_control.specs.declared.message.Cp.TheVariants.{DataUnit};

use crate::cause::CpCause;
use crate::link_state::{Begun, Opened};
use crate::message::Cp;
use crate::out::Frames;
use crate::transaction::{Transaction, TransactionFlag, TransactionIdentifier};
use sms_base::{OctetView, Octets};
use std::alloc::{AllocError, Global};

// CP-DATA with a unit.
pub(crate) fn data_frame(
    alloc: Global,
    flag: TransactionFlag,
    identifier: TransactionIdentifier,
    unit: &[u8],
) -> Result<Octets, AllocError>
    requires some { 0 < length unit.now }
    requires fits { length unit.now ≤ 248 }
    ensures { IfOk result (λ frame. frame ≡ spelled (DataUnit (in_transaction flag identifier) unit.now)) }
{
    let cp = Cp::DataUnit {
        transaction: Transaction { flag, identifier },
        unit: OctetView::of(unit),
    };
    let frame = cp.write(alloc)?;
    Ok(frame)
}

// One frame to send.
fn frame_alone(alloc: Global, frame: Octets) -> Result<Frames, AllocError>
    ensures { IfOk result (λ frames. frames ≡ frame ∷ []) }
{
    let mut frames = Frames::new(alloc);
    frames.push(frame)?;
    Ok(frames)
}

// A copy of one frame to send.
pub(crate) fn frames_with(alloc: Global, frame: &[u8]) -> Result<Frames, AllocError>
    ensures { IfOk result (λ frames. frames ≡ frame.now ∷ []) }
{
    let frame = Octets::copy_of(alloc, frame)?;
    let frames = frame_alone(alloc, frame)?;
    Ok(frames)
}

// CP-ACK for a frame of the transaction.
pub(crate) fn acknowledged(alloc: Global, transaction: Transaction) -> Result<Frames, AllocError>
    ensures { IfOk result (λ frames. frames ≡ acknowledgement transaction ∷ []) }
{
    let cp = Cp::AckUnit {
        transaction: transaction.turned(),
    };
    let frame = cp.write(alloc)?;
    let frames = frame_alone(alloc, frame)?;
    Ok(frames)
}

// CP-ERROR for a frame of no transaction.
pub(crate) fn rejected(alloc: Global, transaction: Transaction) -> Result<Frames, AllocError>
    ensures { IfOk result (λ frames. frames ≡ rejection transaction ∷ []) }
{
    let cp = Cp::ErrorUnit {
        transaction: transaction.turned(),
        cause: CpCause::InvalidTransactionIdentifier,
    };
    let frame = cp.write(alloc)?;
    let frames = frame_alone(alloc, frame)?;
    Ok(frames)
}

// The CP-DATA of the begun transaction, once more.
pub(crate) fn push_begun(
    alloc: Global,
    frames: &mut Frames,
    begun: &Option<Begun>,
) -> Result<(), AllocError>
    ensures { OnOk result (frames.new ≡ frames.old ++ begun_frames begun.now) }
{
    if let Some(begun) = begun {
        let frame = Octets::copy_of(alloc, begun.frame.as_slice())?;
        frames.push(frame)?;
    }
    Ok(())
}

// The answer in the other side's transaction, once more.
pub(crate) fn push_answer(
    alloc: Global,
    frames: &mut Frames,
    opened: &Option<Opened>,
) -> Result<(), AllocError>
    ensures { OnOk result (frames.new ≡ frames.old ++ answer_frames opened.now) }
{
    if let Some(opened) = opened {
        if let Some(answer) = &opened.answer {
            let frame = Octets::copy_of(alloc, answer.frame.as_slice())?;
            frames.push(frame)?;
        }
    }
    Ok(())
}
