//! The answer to a verb on a question.
ghost use Rattle.std.specs.Prelude.{◌≡◌, ◌≢◌, ◌<◌, ◌^◌, ℕ, false, length, map, true};
ghost use Rattle.catalogues.specs.Left.{AreLeft};
ghost use Rattle.design_answers.specs.Answered.{AnswersOn, HasOfferFault};
ghost use Rattle.design_answers.specs.Requests.{asked_for, asks_catalogues, lists_after, request_report, takes_memory};
ghost use Rattle.design_base.specs.Limits.{in_bounds};
ghost use Rattle.design_reports.specs.Answers.{HasFault, IsAnswer};

use crate::asking::answer_ask;
use crate::building::answer_build;
use crate::closures::answer_closure;
use crate::explaining::answer_explain;
use crate::oracle::Oracle;
use catalogues::Catalogue;
use design_io::Sink;
use design_lines::{Request, Verb};
use design_reports::Ending;
use rule_table::Asker;
use std::sync::ledger::Ledger;

/// Answers a verb on a question in bounds. The catalogues, of which there are fewer than 4,294,967,296, are asked where `ask` or `build` has a
/// question that the table of rules leaves open.
#[tactic(auto, using(catalogues::proofs::Left::left_refl))]
pub fn answer_request<K: Sink, A: Asker + Drop, L: Ledger>(
    request: Request,
    catalogues: &mut Vec<Box<dyn Catalogue>>,
    oracle: &mut Oracle<A, L>,
    out: &mut K,
) -> Ending
    requires bounds { in_bounds request.query ≡ true }
    requires few { length catalogues.old.items < 2 ^ 32 }
    ensures ends { AnswersOn (map seen catalogues.old.items) (map seen catalogues.new.items) (request_report request) (lists_after request) (asked_for request) result (K.held out.old) (K.held out.new) }
    ensures cause { HasFault result (K.faults out.old) (K.faults out.new) }
    ensures offer { (number : ℕ) → result ≡ Ending.CatalogueFault number → HasOfferFault (asks_catalogues request) (map seen catalogues.old.items) (map seen catalogues.new.items) number }
    ensures left { AreLeft (map seen catalogues.old.items) (map seen catalogues.new.items) }
    ensures unasked { asks_catalogues request ≡ false → catalogues.new ≡ catalogues.old }
    ensures no_read { result ≢ Ending.ReadFault }
    ensures answered { IsAnswer result }
    ensures memory { takes_memory request (map seen catalogues.old.items) ≡ false → result ≢ Ending.NoMemory }
{
    let Request { verb, query, shape } = request;
    match verb {
        Verb::Ask => answer_ask(&query, catalogues, oracle, out),
        Verb::Build => answer_build(&query, shape, catalogues, oracle, out),
        Verb::Explain => answer_explain(&query, oracle, out),
        Verb::Closure => answer_closure(&query, oracle, out),
    }
}
