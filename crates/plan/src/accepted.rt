// A plan that no check refuses.

ghost use Rattle.plan.specs.Numbers.{numbers};
ghost use Rattle.plan.specs.Refusal.{Accepted};

use crate::Plan;

#[derive(Clone, Copy)]
pub struct AcceptedPlan<'a> {
    pub plan: &'a Plan,
    ghost accepted: { Accepted (numbers plan.now) },
}
