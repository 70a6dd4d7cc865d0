// Squares of numbers below an order n.
ghost use Rattle.std.specs.Prelude.{◌<◌, ◌≤◌, ◌≡◌, ◌≢◌, ◌*◌, ◌^◌};
ghost use Rattle.triple_systems.specs.Squares.{HasOrder, IsIdempotent, IsLatin, half_idempotent as half_idempotent_of, half_sum as half_sum_of, idempotent as idempotent_of, product_of, prolonged as prolonged_of};

// A square: the entry in row x and column y is a product of x and y.
#[derive(Clone, Copy)]
pub(crate) enum Square {
    // Half sums, of an odd order: a symmetric Latin square in which x and x give x.
    HalfSums,
    // A symmetric Latin square of an even order in which x and x give x for the lower half of the numbers alone.
    HalfIdempotent,
    // A Latin square of any order but 2 in which x and x give x.
    Idempotent,
}

// The half of x + y modulo the odd number n.
#[tactic(auto, unfolding(crate::specs::Squares::half_sum))]
fn half_sum(n: u16, x: u16, y: u16) -> u16
    requires { 0 < n }
    ensures value { result ≡ half_sum_of n x y }
    ensures small { result < n }
{
    let n = u32::from(n);
    ((n + 1) / 2 * (u32::from(x) + u32::from(y)) % n) as u16
}

// The product of x and y in the half-idempotent square of order 2t.
#[tactic(auto, unfolding(crate::specs::Squares::half_idempotent, crate::specs::Squares::halve), using(crate::proofs::HalfIdempotent::half_idempotent_below))]
fn half_idempotent(t: u16, x: u16, y: u16) -> u16
    requires { (0 < t) × (t < 2 ^ 15) }
    ensures value { result ≡ half_idempotent_of t x y }
    ensures small { result < 2 * t }
{
    let z = ((u32::from(x) + u32::from(y)) % (2 * u32::from(t))) as u16;
    if z % 2 == 0 {
        return z / 2;
    }
    (z - 1) / 2 + t
}

// The product of x and y in the half sums of the odd order n, prolonged to the order n + 1.
#[tactic(auto, unfolding(crate::specs::Squares::prolonged))]
fn prolonged(n: u16, x: u16, y: u16) -> u16
    requires order { 0 < n }
    ensures { result ≡ prolonged_of n x y }
{
    if x == n {
        if y == n {
            return n;
        }
        let before = ((u32::from(y) + (u32::from(n) - 1)) % u32::from(n)) as u16;
        return half_sum(n, before, y);
    }
    let next = ((u32::from(x) + 1) % u32::from(n)) as u16;
    if y == n {
        return half_sum(n, x, next);
    }
    if y == next {
        return n;
    }
    half_sum(n, x, y)
}

/// The product of `x` and `y` in the idempotent square of order `n`: a Latin square in which `x` and `x` give `x`.
///
/// `n` is not 2, and `x` and `y` are below `n`. An odd order has the half sums modulo `n`; an even one has those modulo `n` - 1 with one row and one
/// column more.
///
/// D. R. Stinson, Combinatorial Designs: Constructions and Analysis (2004), section 6.2.
#[tactic(auto, unfolding(crate::specs::Squares::idempotent))]
pub fn idempotent(n: u16, x: u16, y: u16) -> u16
    requires order { n ≢ 2 }
    requires within { (x < n) × (y < n) }
    ensures value { result ≡ idempotent_of n x y }
    ensures small { result < n }

    // What the square is.
    ensures latin { IsLatin n (idempotent_of n) }
    ensures own { IsIdempotent n (idempotent_of n) }
{
    if n % 2 == 1 {
        return half_sum(n, x, y);
    }
    prolonged(n - 1, x, y)
}

// The product of x and y in a square of order n.
pub(crate) fn product(square: Square, n: u16, x: u16, y: u16) -> u16
    requires order { HasOrder square n }
    requires within { (x < n) × (y < n) }
    ensures value { result ≡ product_of square n x y }
    ensures small { result < n }
{
    match square {
        Square::HalfSums => half_sum(n, x, y),
        Square::HalfIdempotent => half_idempotent(n / 2, x, y),
        Square::Idempotent => idempotent(n, x, y),
    }
}
