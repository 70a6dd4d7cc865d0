// Which block designs the curves of projective planes give. Their lists need no check: each meets its question.
ghost use Rattle.std.specs.Prelude.{◌≡◌, ◌≤◌, ◌<◌, ◌+◌, ◌-◌, ◌^◌, ◌==◌, ◌&&◌, nat_lt};
ghost use Rattle.counting.specs.Search.{◌<=◌};
ghost use Rattle.design_base.specs.declared.query.Query.TheVariants.{Bibd};
ghost use Rattle.design_base.specs.declared.limits.TheConstants.{PARAMETER_MAX, POINTS_MAX};
ghost use Rattle.design_base.specs.Fields.{has_field};
ghost use Rattle.design_checks.specs.Findings.{passes_check};
ghost use Rattle.plane_curves.specs.Curves.{arc_blocks, unital_blocks};

use design_base::is_field_order;
use plane_curves::power_of_two;

// Whether v is q ^ 3 + 1.
fn is_cube_and_one(v: u16, q: u16) -> bool
    ensures { result ≡ (v == q ^ 3 + 1) }
{
    match q.checked_pow(3) {
        Some(cube) => u32::from(v) == u32::from(cube) + 1,
        None => false,
    }
}

// Whether a field of q * q elements is listed.
#[tactic(auto, using(field_tables::proofs::Listed::listed_past))]
fn is_square_order(q: u16) -> bool
    ensures { result ≡ has_field (q ^ 2) }
{
    match q.checked_pow(2) {
        Some(square) => is_field_order(square),
        None => false,
    }
}

// Whether a unital of lines of q + 1 points has these numbers.
fn has_unital_size(v: u16, k: u16, l: u16, q: u16) -> bool
    requires { q ≤ PARAMETER_MAX }
    ensures { result ≡ (k == q + 1 && l == 1 && v == q ^ 3 + 1 && 2 <= q && has_field (q ^ 2)) }
{
    k == q + 1 && l == 1 && is_cube_and_one(v, q) && 2 <= q && is_square_order(q)
}

// Whether the unital over the field of q * q elements has blocks of k of v points, each two in one.
#[tactic(auto, using(crate::proofs::CurveMeets::unital_meets))]
pub(crate) fn is_unital(v: u16, k: u16, l: u16, q: u16) -> bool
    requires points { v ≤ POINTS_MAX }
    requires small { q ≤ PARAMETER_MAX }
    ensures { result ≡ (k == q + 1 && l == 1 && v == q ^ 3 + 1 && 2 <= q && has_field (q ^ 2) && passes_check (Bibd v k l) (unital_blocks q)) }
{
    has_unital_size(v, k, l, q)
}

// The number of points of the arc over the field of 2 ^ s elements whose lines hold 2 ^ r points.
fn arc_size(r: u16, s: u16) -> u16
    requires { (r ≤ 7) × (s ≤ 7) }
    ensures { result ≡ 2 ^ (r + s) + 2 ^ r - 2 ^ s }
{
    let most = u32::from(power_of_two(r + s)) + u32::from(power_of_two(r));
    most.saturating_sub(u32::from(power_of_two(s))) as u16
}

// Whether that arc has these numbers.
fn has_arc_size(v: u16, k: u16, l: u16, r: u16, s: u16) -> bool
    ensures { result ≡ (k == 2 ^ r && l == 1 && v == 2 ^ (r + s) + 2 ^ r - 2 ^ s && 1 <= r && nat_lt r s && s <= 7) }
{
    1 <= r && r < s && s <= 7 && l == 1 && k == power_of_two(r) && v == arc_size(r, s)
}

// Whether it has blocks of k of v points, each two in one.
#[tactic(auto, using(crate::proofs::CurveMeets::arc_meets))]
pub(crate) fn is_arc(v: u16, k: u16, l: u16, r: u16, s: u16) -> bool
    requires points { v ≤ POINTS_MAX }
    ensures { result ≡ (k == 2 ^ r && l == 1 && v == 2 ^ (r + s) + 2 ^ r - 2 ^ s && 1 <= r && nat_lt r s && s <= 7 && has_field (2 ^ s) && passes_check (Bibd v k l) (arc_blocks r s)) }
{
    has_arc_size(v, k, l, r, s)
}
