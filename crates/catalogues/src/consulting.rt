//! Catalogues are asked, and the spent ones dropped.
ghost use Rattle.std.specs.Prelude.{◌≡◌, ◌<◌, ◌^◌, length, map, IfErr, IfOk, MatchResult, None, Some, true};
ghost use Rattle.design_base.specs.Limits.{in_bounds};
ghost use Rattle.catalogues.specs.Consulted.{IsConsulted};
ghost use Rattle.catalogues.specs.Consults.{AreSound, Consults, EndsAtValid, EndsConsult, HasEnded, failed_of};
ghost use Rattle.catalogues.specs.Left.{AreLeft};

use crate::asking::walk;
use crate::catalogue::Catalogue;
use crate::dropping::drop_spent;
use crate::outcome::{ConsultEnd, Consulted};
use design_base::Query;
use design_checks::Checker;
use std::alloc::Global;

// The number of the catalogue that failed.
fn failed_in(answer: &Result<Consulted, ConsultEnd>) -> Option<u32>
    ensures { MatchResult answer.now (λ c. result ≡ None) (λ end. result ≡ failed_of end) }
{
    match answer {
        Err(ConsultEnd::Failed { number }) => Some(*number),
        _ => None,
    }
}

// Asks the catalogues, and drops the spent ones.
fn ask_and_drop(
    alloc: Global,
    list: &mut Vec<Box<dyn Catalogue>>,
    q: &Query,
    checker: &mut Checker,
) -> Result<Consulted, ConsultEnd>
    requires bounds { in_bounds q.now ≡ true }
    requires few { length list.old.items < 2 ^ 32 }
    ensures { MatchResult result
        (λ c. Consults q.now (map seen list.old.items) (map seen list.new.items) c.rejected c.valid)
        (λ end. EndsConsult q.now (map seen list.old.items) (map seen list.new.items) end) }
{
    let answer = walk(alloc, list, q, checker);
    let failed = failed_in(&answer);
    drop_spent(list, failed);
    answer
}

/// Asks the catalogues in order, each once, up to the first that offers a design of the question. An offer is put in
/// canonical form and checked. The number of a catalogue is its place in the list as it was handed in, from 1. Afterwards, also
/// after a refusal, the spent catalogues are dropped, but for one that failed in this call, and the others keep their order.
/// `Failed` comes only where the count of failed offers of the catalogue with its number rose, and `Memory` only for want of
/// memory. The question is in bounds, and the list has fewer than 4,294,967,296 catalogues. What the checks need is opened by the
/// checker at the first offer.
pub fn consult(
    alloc: Global,
    list: &mut Vec<Box<dyn Catalogue>>,
    q: &Query,
    checker: &mut Checker,
) -> Result<Consulted, ConsultEnd>
    requires bounds { in_bounds q.now ≡ true }
    requires few { length list.old.items < 2 ^ 32 }
    ensures asked { MatchResult result
        (λ c. Consults q.now (map seen list.old.items) (map seen list.new.items) c.rejected c.valid)
        (λ end. EndsConsult q.now (map seen list.old.items) (map seen list.new.items) end) }
    ensures told { IfOk result (λ c. IsConsulted q.now (map seen list.old.items) (map seen list.new.items) c.rejected c.valid) }
    ensures sound { IfOk result (λ c. AreSound q.now c.rejected c.valid) }
    ensures ends { IfOk result (λ c. EndsAtValid (map seen list.old.items) (map seen list.new.items) c.valid) }
    ensures cause { IfErr result (λ end. HasEnded (map seen list.old.items) (map seen list.new.items) end) }
    ensures left { AreLeft (map seen list.old.items) (map seen list.new.items) }
{
    match ask_and_drop(alloc, list, q, checker) {
        Ok(consulted) => Ok(consulted),
        Err(end) => Err(end),
    }
}
