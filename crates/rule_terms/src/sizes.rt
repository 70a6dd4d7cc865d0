// The sizes of block designs that rules compare.
ghost use Rattle.std.specs.Prelude.{◌≡◌, ◌<◌, ◌≤◌, ◌*◌, ◌^◌, ◌==◌};
ghost use Rattle.block_counts.specs.Counts.{complement_cover as cover_of_complements, replication_number as replication_of};
ghost use Rattle.design_base.specs.declared.limits.TheConstants.{COVER_MAX, POINTS_MAX};
ghost use Rattle.design_base.specs.Geometries.{point_count};

use crate::branch::times;

// In how many blocks each point stands.
pub(crate) fn replication_number(v: u16, k: u16, l: u16) -> u16
    requires least { 2 ≤ k }
    requires some { 1 ≤ v }
    requires points { v ≤ POINTS_MAX }
    requires cover { l ≤ COVER_MAX }
    ensures value { result ≡ replication_of v k l }
    ensures bound { result ≤ COVER_MAX * POINTS_MAX }
{
    l * (v - 1) / (k - 1)
}

// In how many complements of blocks two points stand together, and 0 where that would be below 0. Blocks hold more than half of the
// points, so that there are no more complements through two points than blocks.
#[tactic(auto, using(crate::proofs::PointCounts::blocks_few))]
pub(crate) fn complement_cover(v: u16, k: u16, l: u16) -> u16
    requires least { 2 ≤ k }
    requires some { 1 ≤ v }
    requires points { v ≤ POINTS_MAX }
    requires wide { v < 2 * k }
    requires cover { l ≤ COVER_MAX }
    ensures { result ≡ cover_of_complements v k l }
{
    let r = replication_number(v, k, l);
    let blocks = times(v, r) / u32::from(k);
    (blocks + u32::from(l)).saturating_sub(2 * u32::from(r)) as u16
}

// Whether v is the d-th power of q.
pub(crate) fn is_power(v: u16, q: u16, d: u16) -> bool
    ensures { result ≡ (v == q ^ d) }
{
    match q.checked_pow(u32::from(d)) {
        Some(power) => power == v,
        None => false,
    }
}

// Whether v is 1 + q + .. + q ^ d, the number of points of a projective geometry.
#[tactic(auto, using(crate::proofs::PointCounts::point_count_laws))]
pub(crate) fn is_point_count(v: u16, q: u16, d: u16) -> bool
    ensures { result ≡ (v == point_count q d) }
{
    let mut count: u32 = 1;
    for _i in 0..d {
        if u32::from(v) < count {
            return false;
        }
        count = count * u32::from(q) + 1;
    }
    count == u32::from(v)
}
