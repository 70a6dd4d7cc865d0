// Steiner quadruple systems.
ghost use Rattle.std.specs.Prelude.{◌≡◌, ◌+◌, ◌*◌, ◌<◌, ◌≤◌, ◌++◌, ℕ, List, true, IfOk, OnOk};
ghost use Rattle.design_base.specs.Canonical.{canonical};
ghost use Rattle.incidence.specs.Packed.{size_of};
ghost use Rattle.three_designs.specs.Quadruples.{four_blocks, sqs_list, sqs_list_within, sqs_verdict_of, sqs_within, ten_blocks, turned_blocks};
ghost use Rattle.three_designs.specs.StrengthThree.{IsSqs};
ghost use Rattle.three_designs.specs.Verdicts.{is_yes};
ghost use Rattle.three_designs.specs.declared.verdict.ThreeVerdict.TheVariants.{No};

use crate::doubling::double;
use crate::verdict::{ThreeRule, ThreeVerdict};
use design_base::{Memory, PACKED_MAX, POINTS_MAX};
use incidence::Rows;
use std::alloc::Global;

// What is known of `v` points, with at most so many halvings of them.
fn verdict_within(halvings: u16, v: u16) -> ThreeVerdict
    ensures { result ≡ sqs_within halvings v }
{
    if v % 6 != 2 && v % 6 != 4 {
        ThreeVerdict::No
    } else if v == 4 {
        ThreeVerdict::Yes(ThreeRule::Four)
    } else if v == 10 {
        ThreeVerdict::Yes(ThreeRule::Ten)
    } else if halvings > 0 && v >= 8 {
        match verdict_within(halvings - 1, v / 2) {
            ThreeVerdict::Yes(_) => ThreeVerdict::Yes(ThreeRule::Double),
            _ => ThreeVerdict::Unknown,
        }
    } else {
        ThreeVerdict::Unknown
    }
}

/// What is known of a Steiner quadruple system on `v` points: blocks of four points, and three points together in exactly one.
///
/// `v` is from 4 to `POINTS_MAX`. Where the answer is No there is none, since the number of points is 2 or 4 modulo 6 (H. Hanani,
/// On quadruple systems, 1960). No memory is taken.
#[tactic(auto, unfolding(crate::specs::Quadruples::sqs_verdict_of))]
pub fn sqs_verdict(v: u16) -> ThreeVerdict
    requires { (4 ≤ v) × (v ≤ POINTS_MAX) }
    ensures value { result ≡ sqs_verdict_of v }
    ensures law { result ≡ No → (B : List (List ℕ)) → ¬ IsSqs B v }
{
    verdict_within(v, v)
}

// The block of four points.
fn four(alloc: Global) -> Result<Rows, Memory>
    ensures blocks { IfOk result (λ rows. rows ≡ canonical four_blocks) }
    ensures size { IfOk result (λ rows. size_of rows ≡ 5) }
{
    let mut rows = Rows::new(alloc);
    rows.push_row(&[0, 1, 2, 3])?;
    let blocks = rows.canonical()?;
    Ok(blocks)
}

// Appends the three base blocks on ten points, with `c` added modulo 10.
#[tactic(auto, using(crate::proofs::Steps::steps))]
fn push_turned(rows: &mut Rows, c: u16) -> Result<(), Memory>
    requires small { c < 10 }
    requires room { size_of rows.old + 15 < PACKED_MAX }
    ensures ok { OnOk result (rows.new ≡ rows.old ++ turned_blocks c) }
    ensures size { OnOk result (size_of rows.new ≡ size_of rows.old + 15) }
{
    rows.push_row(&[c % 10, (1 + c) % 10, (3 + c) % 10, (4 + c) % 10])?;
    rows.push_row(&[c % 10, (1 + c) % 10, (2 + c) % 10, (6 + c) % 10])?;
    rows.push_row(&[c % 10, (2 + c) % 10, (4 + c) % 10, (7 + c) % 10])
}

// The blocks on ten points.
#[tactic(auto, using(crate::proofs::Steps::steps), unfolding(crate::specs::Quadruples::ten_blocks))]
fn ten(alloc: Global) -> Result<Rows, Memory>
    ensures blocks { IfOk result (λ rows. rows ≡ canonical ten_blocks) }
    ensures size { IfOk result (λ rows. size_of rows ≤ 150) }
{
    let mut rows = Rows::new(alloc);
    for c in 0..10 {
        push_turned(&mut rows, c)?;
    }
    let blocks = rows.canonical()?;
    Ok(blocks)
}

// The system on `v` points, with at most so many halvings of them.
fn blocks_within(alloc: Global, halvings: u16, v: u16) -> Result<Rows, Memory>
    requires small { v ≤ POINTS_MAX }
    requires yes { is_yes (sqs_within halvings v) ≡ true }
    ensures blocks { IfOk result (λ rows. rows ≡ sqs_list_within halvings v) }
    ensures few { IfOk result (λ rows. size_of rows ≤ v * v * v) }
{
    if v == 4 {
        let rows = four(alloc)?;
        return Ok(rows);
    }
    if v == 10 {
        let rows = ten(alloc)?;
        return Ok(rows);
    }
    let half = blocks_within(alloc, halvings - 1, v / 2)?;
    let rows = double(alloc, v / 2, &half)?;
    Ok(rows)
}

/// The blocks of a Steiner quadruple system on `v` points, in canonical form: blocks of four points, and three points together in
/// exactly one.
///
/// `v` is from 4 to `POINTS_MAX`, and the verdict is Yes. By its rule it is one block of four points; or three blocks on ten points,
/// each turned ten times; or what the doubling construction makes of the system on half as many points (H. Hanani, On quadruple
/// systems, 1960): two copies of it, and for each factor of a one-factorization of the half all its pairs crossed with all its pairs
/// in the other half. The answer is `Memory` only for want of memory.
#[tactic(auto, unfolding(crate::specs::Quadruples::sqs_list, crate::specs::Quadruples::sqs_verdict_of))]
pub fn sqs_blocks(alloc: Global, v: u16) -> Result<Rows, Memory>
    requires points { (4 ≤ v) × (v ≤ POINTS_MAX) }
    requires yes { is_yes (sqs_verdict_of v) ≡ true }
    ensures blocks { IfOk result (λ rows. rows ≡ sqs_list v) }
    ensures system { IfOk result (λ rows. IsSqs rows v) }
{
    let rows = blocks_within(alloc, v, v)?;
    Ok(rows)
}
