/// How a design of strength three is made.
#[derive(Clone, Copy, Debug, PartialEq, Eq)]
pub enum ThreeRule {
    /// An array of one row of zeros.
    One,
    /// The rows of three symbols and their sum.
    Sum,
    /// The rows of the values of the polynomials of degree below three over a field.
    Polynomials,
    /// The quadruple system of one block.
    Four,
    /// The quadruple system of three blocks that are moved round ten points.
    Ten,
    /// A quadruple system made of one on half as many points.
    Double,
}

/// What is known of a design of strength three.
#[derive(Clone, Copy, Debug, PartialEq, Eq)]
pub enum ThreeVerdict {
    /// There is one, which this rule makes.
    Yes(ThreeRule),
    /// There is none.
    No,
    /// No rule makes one, and no criterion excludes it.
    Unknown,
}
