//! The answer to `ask`: the verdict, and what catalogues offer for a question that the table of rules leaves open.
ghost use Rattle.std.specs.Prelude.{◌≡◌, ◌≢◌, ◌<◌, ◌^◌, ℕ, false, length, map, true};
ghost use Rattle.catalogues.specs.Consulted.{consulted};
ghost use Rattle.catalogues.specs.Consults.{HasFailed};
ghost use Rattle.catalogues.specs.Left.{AreLeft};
ghost use Rattle.design_answers.specs.Answered.{AnswersOn, HasOfferFault};
ghost use Rattle.design_answers.specs.Draws.{is_unknown};
ghost use Rattle.design_answers.specs.Offers.{consulted_report};
ghost use Rattle.design_answers.specs.Requests.{ask_report, asked_by, asks_some, left_by};
ghost use Rattle.design_base.specs.Limits.{in_bounds};
ghost use Rattle.design_reports.specs.Answers.{HasFault, IsAnswer};
ghost use Rattle.rule_table.specs.Verdicts.{verdict as verdict_of};

use crate::explaining::answer_verdict;
use crate::offers::{answer_offers, counted, ending_of};
use crate::oracle::Oracle;
use catalogues::Catalogue;
use design_base::{Query, Verdict};
use design_io::Sink;
use design_reports::Ending;
use rule_table::Asker;
use std::sync::ledger::Ledger;

// Answers an open question with what the catalogues offer.
fn answer_open<K: Sink, A: Asker + Drop, L: Ledger>(
    query: &Query,
    catalogues: &mut Vec<Box<dyn Catalogue>>,
    oracle: &mut Oracle<A, L>,
    out: &mut K,
) -> Ending
    requires bounds { in_bounds query.now ≡ true }
    requires few { length catalogues.old.items < 2 ^ 32 }
    ensures ends { AnswersOn (map seen catalogues.old.items) (map seen catalogues.new.items) (consulted_report query.now) (λ lists. (consulted query.now lists).lists) (asked_by query.now Verdict.Unknown) result (K.held out.old) (K.held out.new) }
    ensures cause { HasFault result (K.faults out.old) (K.faults out.new) }
    ensures offer { (number : ℕ) → result ≡ Ending.CatalogueFault number → HasFailed (map seen catalogues.old.items) (map seen catalogues.new.items) number }
    ensures left { AreLeft (map seen catalogues.old.items) (map seen catalogues.new.items) }
    ensures no_read { result ≢ Ending.ReadFault }
    ensures answered { IsAnswer result }
{
    match oracle.consult(query, catalogues) {
        Ok(offers) => {
            let valid = counted(&offers.valid);
            answer_offers(query, offers.rejected.as_slice(), valid, out)
        }
        Err(end) => ending_of(end),
    }
}

/// Answers `ask` on a question in bounds: its verdict, and for an open question what the catalogues offer. It takes no memory but where it asks
/// one.
pub fn answer_ask<K: Sink, A: Asker + Drop, L: Ledger>(
    query: &Query,
    catalogues: &mut Vec<Box<dyn Catalogue>>,
    oracle: &mut Oracle<A, L>,
    out: &mut K,
) -> Ending
    requires bounds { in_bounds query.now ≡ true }
    requires few { length catalogues.old.items < 2 ^ 32 }
    ensures ends { AnswersOn (map seen catalogues.old.items) (map seen catalogues.new.items) (ask_report query.now (verdict_of query.now)) (left_by query.now (verdict_of query.now)) (asked_by query.now (verdict_of query.now)) result (K.held out.old) (K.held out.new) }
    ensures cause { HasFault result (K.faults out.old) (K.faults out.new) }
    ensures offer { (number : ℕ) → result ≡ Ending.CatalogueFault number → HasOfferFault (is_unknown (verdict_of query.now)) (map seen catalogues.old.items) (map seen catalogues.new.items) number }
    ensures left { AreLeft (map seen catalogues.old.items) (map seen catalogues.new.items) }
    ensures unasked { is_unknown (verdict_of query.now) ≡ false → catalogues.new ≡ catalogues.old }
    ensures no_read { result ≢ Ending.ReadFault }
    ensures answered { IsAnswer result }
    ensures memory { asks_some (is_unknown (verdict_of query.now)) (map seen catalogues.old.items) ≡ false → result ≢ Ending.NoMemory }
{
    let verdict = oracle.verdict(query);
    let Verdict::Unknown = verdict else {
        return answer_verdict(query, &verdict, out);
    };
    if catalogues.is_empty() {
        return answer_verdict(query, &verdict, out);
    }
    answer_open(query, catalogues, oracle, out)
}
