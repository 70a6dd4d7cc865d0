ghost use Rattle.std.specs.Prelude.{MatchOption, None, Some, true, ◌==◌, length, ◌<◌, ◌^◌, ◌≡◌, ◌≤◌};
ghost use Rattle.design_base.specs.Fields.{order, modulus, modulus_of};
ghost use Rattle.counting.specs.Search.{each_passes};
ghost use Rattle.field_tables.specs.Tables.{IsListed, excess, found_in, modulus_in};

/// The polynomial of a field: the field's order, its prime, and the coefficients of the polynomial but for the
/// leading one, which is 1, lowest first.
pub struct Polynomial {
    pub order: u16,
    pub prime: u16,
    pub lower: &'static [u16],
}

// A row of the list.
macro_rules! polynomial {
    ($order:literal, $prime:literal, $lower:expr) => {
        Polynomial {
            order: $order,
            prime: $prime,
            lower: $lower,
        }
    };
}

/// The listed polynomials. A prime order has the polynomial x.
static LISTED: &[Polynomial] = &[
    polynomial!(2, 2, &[0]),
    polynomial!(3, 3, &[0]),
    polynomial!(4, 2, &[1, 1]),
    polynomial!(5, 5, &[0]),
    polynomial!(7, 7, &[0]),
    polynomial!(8, 2, &[1, 1, 0]),
    polynomial!(9, 3, &[1, 0]),
    polynomial!(11, 11, &[0]),
    polynomial!(13, 13, &[0]),
    polynomial!(16, 2, &[1, 1, 0, 0]),
    polynomial!(17, 17, &[0]),
    polynomial!(19, 19, &[0]),
    polynomial!(23, 23, &[0]),
    polynomial!(25, 5, &[2, 0]),
    polynomial!(27, 3, &[1, 2, 0]),
    polynomial!(29, 29, &[0]),
    polynomial!(31, 31, &[0]),
    polynomial!(32, 2, &[1, 0, 1, 0, 0]),
    polynomial!(37, 37, &[0]),
    polynomial!(41, 41, &[0]),
    polynomial!(43, 43, &[0]),
    polynomial!(47, 47, &[0]),
    polynomial!(49, 7, &[1, 0]),
    polynomial!(53, 53, &[0]),
    polynomial!(59, 59, &[0]),
    polynomial!(61, 61, &[0]),
    polynomial!(64, 2, &[1, 1, 0, 0, 0, 0]),
    polynomial!(67, 67, &[0]),
    polynomial!(71, 71, &[0]),
    polynomial!(73, 73, &[0]),
    polynomial!(79, 79, &[0]),
    polynomial!(81, 3, &[2, 1, 0, 0]),
    polynomial!(83, 83, &[0]),
    polynomial!(89, 89, &[0]),
    polynomial!(97, 97, &[0]),
    polynomial!(101, 101, &[0]),
    polynomial!(103, 103, &[0]),
    polynomial!(107, 107, &[0]),
    polynomial!(109, 109, &[0]),
    polynomial!(113, 113, &[0]),
    polynomial!(121, 11, &[1, 0]),
    polynomial!(125, 5, &[1, 1, 0]),
    polynomial!(127, 127, &[0]),
    polynomial!(128, 2, &[1, 1, 0, 0, 0, 0, 0]),
];

impl Polynomial {
    /// The power of x to the degree, as an element: the negatives of the coefficients.
    pub fn excess(&self) -> u16
        requires { IsListed self.now }
        ensures value { result ≡ excess (modulus_in self.now) }
        ensures below { result < self.now.order }
    {
        negated(self.prime, self.lower)
    }
}

// The negatives of the coefficients, as an element.
fn negated(prime: u16, lower: &[u16]) -> u16
    requires two { 2 ≤ prime }
    requires room { prime ^ length lower.now < 2 ^ 16 }
    ensures value { result ≡ excess (modulus prime lower.now) }
    ensures below { result < prime ^ length lower.now }
{
    match lower {
        [] => 0,
        [first, rest @ ..] => prime.saturating_sub(*first) % prime + prime * negated(prime, rest),
    }
}

/// The listed polynomial of this order.
pub fn listed(q: u16) -> Option<&'static Polynomial>
    ensures { MatchOption result (modulus_of q ≡ None) (λ f. (f.now.order ≡ q) × IsListed f.now) }
{
    of_order(LISTED, q)
}

// The first of the polynomials whose field has this order.
fn of_order(polynomials: &[Polynomial], q: u16) -> Option<&Polynomial>
    requires orders { each_passes (λ f. f.order == order (modulus_in f)) polynomials.now ≡ true }
    ensures { MatchOption result (found_in q polynomials.now ≡ None) (λ f. (f.now.order ≡ q) × (found_in f.now.order polynomials.now ≡ Some (modulus_in f.now))) }
{
    for polynomial in polynomials {
        if polynomial.order == q {
            return Some(polynomial);
        }
    }
    None
}
