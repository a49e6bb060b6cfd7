// A slot plan: fields that pass every check. No value of the type breaks a rule.
ghost use Rattle.slot_plan.specs.Layout.{Shaped};
ghost use Rattle.slot_plan.specs.Rules.{Valid};

use crate::fields::Fields;

#[derive(Clone, Copy)]
pub struct Plan {
    pub(crate) fields: Fields,
    ghost shaped: { Shaped fields },
    ghost valid: { ∥ Valid fields ∥₁ },
}
