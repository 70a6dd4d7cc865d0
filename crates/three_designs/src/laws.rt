// What holds of designs of strength three.
ghost use Rattle.three_designs.specs.Laws.{ColumnsLaw, DoublingLaw, PointsLaw, PolynomialsLaw};

/// What holds of every array of strength three and of every quadruple system, whatever its list: an array of two symbols or more has
/// at most n + 2 columns, and the polynomials of degree below 3 over any field give one of up to n + 1 (K. A. Bush, Orthogonal
/// arrays of index unity, 1952); a quadruple system has 2 or 4 points modulo 6, and gives one on twice as many (H. Hanani, On
/// quadruple systems, 1960).
pub fn three_laws()
    ensures columns { ColumnsLaw }
    ensures polynomials { PolynomialsLaw }
    ensures points { PointsLaw }
    ensures doubling { DoublingLaw }
{}
