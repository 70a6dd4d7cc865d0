//! What the answers to questions are asked of.
ghost use Rattle.std.specs.Prelude.{◌≡◌, ◌<◌, ◌≤◌, ◌+◌, ◌^◌, IfErr, IfOk, MatchResult, Some, length, map, true};
ghost use Rattle.catalogues.specs.Consulted.{IsConsulted};
ghost use Rattle.catalogues.specs.Consults.{AreSound, Consults, EndsAtValid, EndsConsult, HasEnded};
ghost use Rattle.catalogues.specs.Left.{AreLeft};
ghost use Rattle.design_answers.specs.Draws.{drawn, drawn_cells, is_no, is_unknown};
ghost use Rattle.derivations.specs.Derivations.{derivation, last_question, replayed};
ghost use Rattle.design_base.specs.Limits.{in_bounds};
ghost use Rattle.design_base.specs.declared.limits.TheConstants.{WORKLOAD_MAX};
ghost use Rattle.design_base.specs.Meets.{Meets};
ghost use Rattle.design_base.specs.declared.verdict.Verdict.TheVariants.{Yes};
ghost use Rattle.rule_table.specs.Closure.{closure};
ghost use Rattle.rule_table.specs.Verdicts.{is_yes, verdict as verdict_of};

use crate::tally::{Tally, tally_draws};
use catalogues::{Catalogue, ConsultEnd, Consulted, consult};
use derivations::{SoundDerivation, derive, replay_sound};
use design_base::{Memory, Query, Step, Verdict};
use design_checks::Checker;
use proved_designs::Design;
use rule_table::{Asker, Marks, Steps, Tools, visit};
use std::alloc::Global;
use std::sync::ledger::Ledger;

/// A derivation, and the design that it leads to.
#[derive(Drop)]
pub struct Built {
    pub derivation: SoundDerivation,
    pub design: Design,
}

/// The table of rules, whoever answers its questions, marks on questions, the count of evaluations, and the checker of offers: made
/// once, and lent to each answer.
#[derive(Drop)]
pub struct Oracle<'a, A: Asker + Drop, L: Ledger> {
    alloc: Global,
    tools: Tools,
    asker: A,
    marks: Marks,
    steps: &'a mut Steps<L>,
    checker: Checker,
}

impl<'a, A: Asker + Drop, L: Ledger> Oracle<'a, A, L> {
    /// An oracle that asks for verdicts by `asker` and counts evaluations on `steps`. It takes memory from `alloc`: here for a mark on each
    /// question within the limits, and later for derivations, designs and the checks of offers. The answer is `Memory` only where the
    /// marks cannot be had.
    pub fn open(
        alloc: Global,
        asker: A,
        steps: &'a mut Steps<L>,
    ) -> Result<Oracle<'a, A, L>, Memory> {
        let marks = Marks::open(alloc)?;
        Ok(Oracle {
            alloc,
            tools: Tools::new(alloc),
            asker,
            marks,
            steps,
            checker: Checker::new(alloc),
        })
    }

    /// Where memory is taken from.
    pub fn alloc(&self) -> Global {
        self.alloc
    }

    /// The verdict on a question in bounds.
    pub fn verdict(&mut self, query: &Query) -> Verdict
        requires { in_bounds query.now ≡ true }
        ensures { result ≡ verdict_of query.now }
    {
        self.asker.ask(query, &self.tools, self.steps)
    }

    /// How many questions the closure of a question in bounds has, whatever was asked before. It takes no memory.
    pub fn closure_size(&mut self, query: &Query) -> u32
        requires { in_bounds query.now ≡ true }
        ensures { result ≡ length (closure query.now) }
    {
        self.marks.clear();
        visit(
            query,
            &self.tools,
            &mut self.asker,
            &mut self.marks,
            self.steps,
        );
        self.marks.count()
    }

    /// How the first `n` draws of a workload are answered, of which there are at most `WORKLOAD_MAX`, and how many questions their
    /// closures have. It takes no memory.
    pub fn tally(&mut self, n: u32) -> (Tally, u32)
        requires { n ≤ WORKLOAD_MAX }
        ensures yes { result.0.yes ≡ drawn is_yes n }
        ensures no { result.0.no ≡ drawn is_no n }
        ensures unknown { result.0.unknown ≡ drawn is_unknown n }
        ensures all { result.0.yes + result.0.no + result.0.unknown ≡ n }
        ensures cells { result.1 ≡ drawn_cells n }
    {
        let tally = tally_draws(n, &self.tools, &mut self.asker, &mut self.marks, self.steps);
        (tally, self.marks.count())
    }

    /// The derivation of a question in bounds whose verdict is yes by this step. The answer is `Memory` only for want of memory.
    pub fn derivation(&mut self, query: &Query, step: &Step) -> Result<SoundDerivation, Memory>
        requires bounds { in_bounds query.now ≡ true }
        requires yes { verdict_of query.now ≡ Yes step.now }
        ensures lines { IfOk result (λ lines. lines ≡ derivation query.now) }
        ensures question { IfOk result (λ lines. last_question lines ≡ Some query.now) }
        ensures design { IfOk result (λ lines. Meets query.now (replayed lines)) }
    {
        derive(
            self.alloc,
            query,
            step,
            &self.tools,
            &mut self.asker,
            self.steps,
        )
    }

    /// The same with the design that the derivation leads to. It is not searched for faults.
    pub fn build(&mut self, query: &Query, step: &Step) -> Result<Built, Memory>
        requires bounds { in_bounds query.now ≡ true }
        requires yes { verdict_of query.now ≡ Yes step.now }
        ensures derivation { IfOk result (λ built. built.derivation ≡ derivation query.now) }
        ensures question { IfOk result (λ built. built.design.query ≡ query.now) }
        ensures blocks { IfOk result (λ built. built.design.blocks ≡ replayed (derivation query.now)) }
    {
        let derivation = self.derivation(query, step)?;
        let design = replay_sound(self.alloc, &derivation)?;
        Ok(Built { derivation, design })
    }

    /// What the catalogues offer for a question in bounds, of which there are fewer than 4,294,967,296. They are asked as `consult` says, with its
    /// refusals.
    pub fn consult(
        &mut self,
        query: &Query,
        catalogues: &mut Vec<Box<dyn Catalogue>>,
    ) -> Result<Consulted, ConsultEnd>
        requires bounds { in_bounds query.now ≡ true }
        requires few { length catalogues.old.items < 2 ^ 32 }
        ensures asked { MatchResult result
            (λ c. Consults query.now (map seen catalogues.old.items) (map seen catalogues.new.items) c.rejected c.valid)
            (λ end. EndsConsult query.now (map seen catalogues.old.items) (map seen catalogues.new.items) end) }
        ensures told { IfOk result (λ c. IsConsulted query.now (map seen catalogues.old.items) (map seen catalogues.new.items) c.rejected c.valid) }
        ensures sound { IfOk result (λ c. AreSound query.now c.rejected c.valid) }
        ensures ends { IfOk result (λ c. EndsAtValid (map seen catalogues.old.items) (map seen catalogues.new.items) c.valid) }
        ensures left { AreLeft (map seen catalogues.old.items) (map seen catalogues.new.items) }
        ensures cause { IfErr result (λ end. HasEnded (map seen catalogues.old.items) (map seen catalogues.new.items) end) }
    {
        consult(self.alloc, catalogues, query, &mut self.checker)
    }
}
