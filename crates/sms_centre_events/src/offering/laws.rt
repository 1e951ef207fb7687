//! Laws of what follows an event, over its definitions alone.
ghost use Rattle.std.specs.Prelude.{◌≡◌, ℕ, None, Some, Ok, Err, Option};
ghost use Rattle.sms_base.specs.Among.{Among};
ghost use Rattle.sms_centre_spec.specs.declared.plan_error.PlanError.TheVariants.{NoBody};
ghost use Rattle.sms_centre_spec.specs.Draft.{Draft};
ghost use Rattle.sms_centre_spec.specs.Planning.{outcome_of, planned};
ghost use Rattle.sms_centre_events.specs.offering.Refusing.{answers_but};

/// What the definition plans with a store that answers every read but one that it refused. It is what the event leads
/// to, if none was refused, and nothing, if the event reads the refused one.
pub fn a_refused_read_plans_nothing()
    ensures answered { (d : Draft) (refused : Option ℕ) → refused ≡ None → planned (answers_but refused) d ≡ Ok (outcome_of d) }
    ensures refusal { (d : Draft) (refused : Option ℕ) (key : ℕ) → Among key d.links.read → refused ≡ Some key → planned (answers_but refused) d ≡ Err NoBody }
{}
