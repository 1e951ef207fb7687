//! What a schema is to have, and whether it has that.
ghost use Rattle.std.specs.Prelude.{◌≡◌, IsTrue, map};

/// What is to be in a schema: a column, a table or an index.
pub(crate) trait Plan {
    /// The thing in a schema.
    type Made;

    /// The thing that is planned.
    ghost planned: { Self → Self.Made };

    /// Whether it is the thing that is planned.
    fn is(&self, made: &Self::Made) -> bool
        ensures yes { IsTrue result → made.now ≡ planned self.now }
        ensures always { made.now ≡ planned self.now → IsTrue result };
}

/// Whether they are the things that are planned, in this order.
pub(crate) fn are_planned<P: Plan>(made: &[P::Made], plans: &[P]) -> bool
    ensures yes { IsTrue result → made.now ≡ map P.planned plans.now }
    ensures always { made.now ≡ map P.planned plans.now → IsTrue result }
{
    if made.len() != plans.len() {
        return false;
    }
    for i in 0..plans.len() {
        let one = &made[i];
        let plan = &plans[i];
        if !plan.is(one) {
            return false;
        }
    }
    true
}
