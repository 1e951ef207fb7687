//! Laws: what the centre's code plans is steps of the world.
//!
//! `Centre::plan` gives exactly what the definition's event leads to, and after `Centre::adopt` the centre represents
//! the definition's. By `crate::centre_runs_are_steps` the definition's events are steps of the world. These
//! laws combine both (`specs/plans_are_steps/PlannedSteps.antt`). Whatever the code plans is steps of the world that the centre
//! refines. Its frames are added to those that were sent, and the centre that has adopted it refines the world to which
//! they lead.
ghost use Rattle.sms_world.specs.plans_are_steps.PlannedSteps.{PlannedLaw};

/// What `Centre::plan` plans leads on in the world, whatever its store answers: in the words of its clause `outcome`.
pub fn what_is_planned_is_steps()
    ensures { PlannedLaw }
{}
