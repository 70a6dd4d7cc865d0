//! The draws of a workload, answered and counted.
ghost use Rattle.std.specs.Prelude.{◌≡◌, ◌≤◌, ◌<◌, ◌+◌};
ghost use Rattle.std.specs.FinSet as set;
ghost use Rattle.counting.specs.Sums.{one};
ghost use Rattle.design_base.specs.declared.limits.TheConstants.{WORKLOAD_MAX};
ghost use Rattle.design_answers.specs.Draws.{drawn, drawn_cells, is_no, is_unknown};
ghost use Rattle.rule_table.specs.Verdicts.{is_yes};

use crate::draws::draw;
use design_base::Verdict;
use rule_table::{Asker, Marks, Steps, Tools, visit};
use std::sync::ledger::Ledger;

/// How many draws have which verdict.
#[derive(Drop)]
pub struct Tally {
    pub yes: u32,
    pub no: u32,
    pub unknown: u32,
}

impl Tally {
    // Counts a verdict.
    #[tactic(auto, unfolding(counting::specs::Sums::one))]
    fn count(&mut self, verdict: &Verdict)
        requires few { self.old.yes + self.old.no + self.old.unknown < WORKLOAD_MAX }
        ensures yes { self.new.yes ≡ self.old.yes + one (is_yes verdict.now) }
        ensures no { self.new.no ≡ self.old.no + one (is_no verdict.now) }
        ensures unknown { self.new.unknown ≡ self.old.unknown + one (is_unknown verdict.now) }
        ensures all { self.new.yes + self.new.no + self.new.unknown ≡ self.old.yes + self.old.no + self.old.unknown + 1 }
    {
        match verdict {
            Verdict::Yes(_) => self.yes += 1,
            Verdict::No(_) => self.no += 1,
            Verdict::Unknown => self.unknown += 1,
        }
    }
}

/// Counts the verdicts of the first `n` draws, and marks their closures, once all other marks are taken away. It takes no memory. There are at
/// most `WORKLOAD_MAX` draws.
pub fn tally_draws<A: Asker, L: Ledger>(
    n: u32,
    tools: &Tools,
    asker: &mut A,
    marks: &mut Marks,
    steps: &mut Steps<L>,
) -> Tally
    requires { n ≤ WORKLOAD_MAX }
    ensures yes { result.yes ≡ drawn is_yes n }
    ensures no { result.no ≡ drawn is_no n }
    ensures unknown { result.unknown ≡ drawn is_unknown n }
    ensures all { result.yes + result.no + result.unknown ≡ n }
    ensures cells { set.len marks.new ≡ drawn_cells n }
{
    marks.clear();
    let mut tally = Tally {
        yes: 0,
        no: 0,
        unknown: 0,
    };
    for j in 0..n {
        let query = draw(j);
        visit(&query, tools, asker, marks, steps);
        tally.count(&asker.ask(&query, tools, steps));
    }
    tally
}
