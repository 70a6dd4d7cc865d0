//! Catalogues are asked in order.
ghost use Rattle.std.specs.Prelude.{◌≡◌, ◌<◌, ◌+◌, ◌^◌, IfOk, MatchResult, length, map, true};
ghost use Rattle.design_base.specs.Limits.{in_bounds};
ghost use Rattle.catalogues.specs.Consults.{Asks, EndsWalk, IsExamined, StepAt, Steps, WalksTo};

use crate::catalogue::{Catalogue, OfferEnd};
use crate::outcome::{ConsultEnd, Consulted, Offered, Rejected, Rejections};
use design_base::{Memory, Query};
use design_checks::{Checker, Finding};
use incidence::Rows;
use std::alloc::Global;

// The canonical form of an offer, and whether it is a design.
fn examine(rows: Rows, q: &Query, checker: &mut Checker) -> Result<Offered, Memory>
    requires { in_bounds q.now ≡ true }
    ensures { IfOk result (λ offered. IsExamined q.now rows offered) }
{
    let blocks = rows.canonical()?;
    let finding = checker.check(q, &blocks)?;
    if finding == Finding::Valid {
        return Ok(Offered::Fit(blocks));
    }
    Ok(Offered::Unfit(finding))
}

// Asks one catalogue.
fn ask(
    catalogue: &mut Box<dyn Catalogue>,
    q: &Query,
    checker: &mut Checker,
) -> Result<Offered, OfferEnd>
    requires { in_bounds q.now ≡ true }
    ensures { Asks q.now (seen catalogue.old) (seen catalogue.new) result }
{
    let Some(rows) = catalogue.offer(q)? else {
        return Ok(Offered::Nothing);
    };
    match examine(rows, q, checker) {
        Ok(offered) => Ok(offered),
        Err(Memory) => Err(OfferEnd::Memory),
    }
}

// Asks the catalogue at a place.
fn ask_at(
    list: &mut Vec<Box<dyn Catalogue>>,
    i: usize,
    q: &Query,
    checker: &mut Checker,
) -> Result<Offered, OfferEnd>
    requires bounds { in_bounds q.now ≡ true }
    requires within { i < length list.old.items }
    ensures size { length list.new.items ≡ length list.old.items }
    ensures asks { StepAt q.now i (map seen list.old.items) (map seen list.new.items) result }
{
    ask(&mut list[i], q, checker)
}

// Asks the catalogue at a place, and notes an offer that is no design.
fn step(
    list: &mut Vec<Box<dyn Catalogue>>,
    rejected: &mut Rejections,
    i: usize,
    q: &Query,
    checker: &mut Checker,
) -> Result<Option<Rows>, ConsultEnd>
    requires bounds { in_bounds q.now ≡ true }
    requires within { i < length list.old.items }
    requires few { length list.old.items < 2 ^ 32 }
    ensures size { length list.new.items ≡ length list.old.items }
    ensures steps { Steps q.now i (map seen list.old.items) (map seen list.new.items) rejected.old rejected.new result }
{
    let number = i as u32 + 1;
    match ask_at(list, i, q, checker) {
        Ok(Offered::Nothing) => Ok(None),
        Ok(Offered::Unfit(finding)) => match rejected.push(Rejected { number, finding }) {
            Ok(()) => Ok(None),
            Err(Memory) => Err(ConsultEnd::Memory),
        },
        Ok(Offered::Fit(rows)) => Ok(Some(rows)),
        Err(OfferEnd::Failed) => Err(ConsultEnd::Failed { number }),
        Err(OfferEnd::Memory) => Err(ConsultEnd::Memory),
    }
}

// Asks the catalogues in order, up to the first valid offer.
#[tactic(auto, using(crate::proofs::Steps::begun_more, crate::proofs::Steps::begun_none))]
pub fn walk(
    alloc: Global,
    list: &mut Vec<Box<dyn Catalogue>>,
    q: &Query,
    checker: &mut Checker,
) -> Result<Consulted, ConsultEnd>
    requires bounds { in_bounds q.now ≡ true }
    requires few { length list.old.items < 2 ^ 32 }
    ensures size { length list.new.items ≡ length list.old.items }
    ensures walks { MatchResult result
        (λ c. WalksTo q.now (map seen list.old.items) (map seen list.new.items) c.rejected c.valid)
        (λ end. EndsWalk q.now (map seen list.old.items) (map seen list.new.items) end) }
{
    let mut rejected = Rejections::new(alloc);
    for i in 0..list.len() {
        match step(list, &mut rejected, i, q, checker) {
            Ok(None) => {}
            Ok(Some(rows)) => {
                return Ok(Consulted {
                    rejected,
                    valid: Some((i as u32 + 1, rows)),
                });
            }
            Err(end) => return Err(end),
        }
    }
    Ok(Consulted {
        rejected,
        valid: None,
    })
}
