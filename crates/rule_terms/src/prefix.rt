use design_base::{Rule, Step};

/// The first parameters of a rule, at most four, as a walk through the table takes them.
#[derive(Clone, Copy, Debug, PartialEq, Eq)]
pub enum Prefix {
    Zero,
    One(u16),
    Two(u16, u16),
    Three(u16, u16, u16),
    Four(u16, u16, u16, u16),
}

impl Prefix {
    ghost use Rattle.std.specs.Prelude.{◌≡◌, ◌<◌, ◌≤◌, [], ◌∷◌, ◌++◌, length};
    ghost use Rattle.design_base.specs.declared.limits.TheConstants.{PARAMETER_MAX};
    ghost use Rattle.design_base.specs.Rules.{title};
    ghost use Rattle.design_base.specs.Steps.{step_with};
    ghost use Rattle.rule_terms.specs.Prefixes.{listed, IsSmall};

    /// One parameter more. There is room for it, and it is within the limit of parameters.
    pub fn with(self, x: u16) -> Prefix
        requires room { length (listed self) < 4 }
        requires small { IsSmall self }
        requires x_small { x ≤ PARAMETER_MAX }
        ensures listed { listed result ≡ listed self ++ x ∷ [] }
        ensures small { IsSmall result }
    {
        match self {
            Prefix::Zero => Prefix::One(x),
            Prefix::One(a) => Prefix::Two(a, x),
            Prefix::Two(a, b) => Prefix::Three(a, b, x),
            Prefix::Three(a, b, c) => Prefix::Four(a, b, c, x),
            Prefix::Four(_, _, _, _) => unreachable!(),
        }
    }

    /// The step of a rule with these parameters, of which there are no more than the rule has.
    pub fn step(self, rule: Rule) -> Step
        requires count { length (listed self) ≤ (title rule).parameters }
        requires small { IsSmall self }
        ensures { result ≡ step_with rule (listed self) }
    {
        match self {
            Prefix::Zero => Step::new(rule, 0, 0, 0, 0),
            Prefix::One(a) => Step::new(rule, a, 0, 0, 0),
            Prefix::Two(a, b) => Step::new(rule, a, b, 0, 0),
            Prefix::Three(a, b, c) => Step::new(rule, a, b, c, 0),
            Prefix::Four(a, b, c, d) => Step::new(rule, a, b, c, d),
        }
    }
}
