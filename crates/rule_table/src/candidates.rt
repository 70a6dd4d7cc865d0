ghost use Rattle.std.specs.Prelude.{◌≡◌, true};
ghost use Rattle.std.specs.Iterator.{YieldsFirst, item_count};
ghost use Rattle.design_base.specs.Limits.{in_bounds};
ghost use Rattle.rule_table.specs.Candidates.{candidates};

use crate::walk::{first_of_rules, following};
use design_base::{Query, Step};
use rule_terms::Tools;
use std::marker::Model;

/// The candidates of a question that are left, in the order of the table: by the number of the rule and then by the parameters. It keeps
/// the next one and no list, and takes no memory.
#[derive(Drop)]
pub struct Candidates<'a> {
    tools: &'a Tools,
    question: Query,
    next: Option<Step>,
}

impl<'a> Model for Candidates<'a> {
    ghost use Rattle.std.specs.Prelude.{◌≡◌, true, List};
    ghost use Rattle.design_base.specs.Limits.{in_bounds};
    ghost use Rattle.design_base.specs.Steps.{Step as Choice};
    ghost use Rattle.rule_table.specs.Walks.{steps_from};

    ghost Value = { List Choice };

    ghost view = { λ c. steps_from c.question c.next };

    ghost invariant = { λ c. in_bounds c.question ≡ true };
}

impl<'a> Candidates<'a> {
    /// All candidates of the question, which is in bounds: the steps that the table allows, each with the rule that it uses and the
    /// parameters of the rule.
    #[tactic(auto, using(crate::proofs::Followed::from_first))]
    pub fn new(tools: &'a Tools, q: &Query) -> Candidates<'a>
        requires { in_bounds q.now ≡ true }
        ensures { result ≡ candidates q.now }
    {
        Candidates {
            tools,
            question: *q,
            next: first_of_rules(tools, q, 0),
        }
    }
}

impl<'a> Iterator for Candidates<'a> {
    type Item = Step;

    ghost next_gives = { YieldsFirst (λ steps. steps) };

    ghost remaining = { item_count (λ steps. steps) };

    #[tactic(auto, using(crate::proofs::Followed::from_next))]
    fn next(&mut self) -> Option<Step> {
        match self.next {
            Some(step) => {
                self.next = following(self.tools, &self.question, &step);
                Some(step)
            }
            None => None,
        }
    }
}
