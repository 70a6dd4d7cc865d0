//! The answer to `closure`: the verdict, and how many questions it rests on.
ghost use Rattle.std.specs.Prelude.{◌≡◌, ◌≢◌, ◌++◌, codes, true, ℕ};
ghost use Rattle.design_answers.specs.Requests.{closure_lines};
ghost use Rattle.design_base.specs.Limits.{in_bounds};
ghost use Rattle.design_io.specs.Faults.{HasCause};
ghost use Rattle.design_io.specs.Pieces.{AppendsWhole};
ghost use Rattle.design_lines.specs.Printed.{counted_line};
ghost use Rattle.design_reports.specs.Answers.{EndsWith, HasFault, IsAnswer};
ghost use Rattle.design_reports.specs.Reports.{verdict_report};
ghost use Rattle.design_reports.specs.Texts.{verdict_line as verdict_text};
ghost use Rattle.rule_table.specs.Verdicts.{verdict as verdict_of};

use crate::oracle::Oracle;
use design_base::{Query, Verdict};
use design_io::{Failed, Sink};
use design_reports::{Ending, write_counted, write_verdict};
use rule_table::Asker;
use std::sync::ledger::Ledger;

// Writes a verdict, and how many questions it rests on.
#[tactic(auto, using(design_io::proofs::Pieces::composed))]
fn write_closure<K: Sink>(
    out: &mut K,
    query: &Query,
    verdict: &Verdict,
    size: u32,
) -> Result<(), Failed>
    ensures bytes { AppendsWhole (K.held out.old) (K.held out.new) result (verdict_text query.now verdict.now ++ counted_line (codes "closure") size) }
    ensures cause { HasCause (K.faults out.old) (K.faults out.new) result }
{
    write_verdict(out, query, verdict)?;
    write_counted(out, "closure", u64::from(size))
}

/// Answers `closure` on a question in bounds: its verdict, and how many questions it rests on. It takes no memory.
pub fn answer_closure<K: Sink, A: Asker + Drop, L: Ledger>(
    query: &Query,
    oracle: &mut Oracle<A, L>,
    out: &mut K,
) -> Ending
    requires { in_bounds query.now ≡ true }
    ensures ends { EndsWith (verdict_report query.now (verdict_of query.now) (closure_lines query.now)) result (K.held out.old) (K.held out.new) }
    ensures cause { HasFault result (K.faults out.old) (K.faults out.new) }
    ensures answered { IsAnswer result }
    ensures no_read { result ≢ Ending.ReadFault }
    ensures no_offer { (number : ℕ) → result ≢ Ending.CatalogueFault number }
    ensures memory { result ≢ Ending.NoMemory }
{
    let size = oracle.closure_size(query);
    let verdict = oracle.verdict(query);
    match write_closure(out, query, &verdict, size) {
        Ok(()) => Ending::of_verdict(&verdict),
        Err(Failed) => Ending::WriteFault,
    }
}
