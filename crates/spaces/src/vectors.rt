// Vectors of `n` entries over a field of `q` elements, as numbers below `q ^ n`: the entries of a vector are the digits of its
// number to the base `q`, the first entry lowest.
ghost use Rattle.std.specs.Prelude.{◌≡◌, ◌^◌, ◌<◌, All, OnOk, length};
ghost use Rattle.design_base.specs.Digits.{digits, number};
ghost use Rattle.design_base.specs.Fields.{field_product, field_sum};
ghost use Rattle.spaces.specs.Points.{lead as lead_of};
ghost use Rattle.spaces.specs.Vectors.{combination as combination_of, entrywise};

use design_base::Memory;
use field_tables::Field;

// The vector a * x + b * y.
#[tactic(auto)]
pub(crate) fn combination(field: &Field, n: u16, a: u16, x: u16, b: u16, y: u16) -> u16
    requires coefficients { (a < field.now) × (b < field.now) }
    requires fits { field.now ^ n < 2 ^ 16 }
    ensures value { result ≡ combination_of (field_sum field.now) (field_product field.now) field.now n a x b y }
    ensures below { result < field.now ^ n }
{
    if n == 0 {
        return 0;
    }
    let q = field.order();
    let first = field.add(field.mul(a, x % q), field.mul(b, y % q));
    first + q * combination(field, n - 1, a, x / q, b, y / q)
}

/// The first entry that is not 0 of a vector of `n` entries, and 0 where there is none. The vector is the number `x`, whose
/// digits to the base `q` are its entries, the first one lowest.
///
/// `q` is at least 1. What `x` is beside its `n` lowest digits does not matter.
#[tactic(auto, using(crate::proofs::LeadSteps::lead_steps))]
pub fn lead(q: u16, n: u16, x: u32) -> u16
    requires { 0 < q }
    ensures value { result ≡ lead_of q n x }
    ensures below { result < q }
{
    if n == 0 {
        return 0;
    }
    let first = (x % u32::from(q)) as u16;
    if first != 0 {
        first
    } else {
        lead(q, n - 1, x / u32::from(q))
    }
}

// The entries of the vector `x`, in place of what the list holds.
#[tactic(auto, using(crate::proofs::EntrySteps::entry_steps))]
pub(crate) fn write_entries(entries: &mut Vec<u16>, q: u16, n: u16, x: u16) -> Result<(), Memory>
    requires { 0 < q }
    ensures { OnOk result (entries.new.items ≡ digits q n x) }
{
    entries.clear();
    let mut rest = x;
    for _ in 0..n {
        entries.push(rest % q)?;
        rest /= q;
    }
    Ok(())
}

// The vector x + y, from the entries of both.
pub(crate) fn sum_of_entries(field: &Field, x: &[u16], y: &[u16]) -> u16
    requires first { All (λ a. a < field.now) x.now }
    requires second { All (λ a. a < field.now) y.now }
    requires size { length x.now ≡ length y.now }
    requires fits { field.now ^ length x.now < 2 ^ 16 }
    ensures value { result ≡ number field.now (entrywise (field_sum field.now) x.now y.now) }
    ensures below { result < field.now ^ length x.now }
{
    let q = field.order();
    let mut sum = 0;
    for i in 0..x.len() {
        let place = x.len() - 1 - i;
        sum = field.add(x[place], y[place]) + q * sum;
    }
    sum
}
