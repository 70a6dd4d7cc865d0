ghost use Rattle.plane_curves.specs.Laws.{ArcLaw, UnitalLaw};

/// The lines of a projective plane, cut down to the points of a Hermitian curve or of a maximal arc, are a block design.
///
/// The arcs are those of R. H. F. Denniston, Some maximal arcs in finite projective planes (1969).
pub fn curve_laws()
    ensures unital { UnitalLaw }
    ensures arc { ArcLaw }
{}
