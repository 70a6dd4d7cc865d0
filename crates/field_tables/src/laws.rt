ghost use Rattle.field_tables.specs.Laws.{FieldLaw, GroupLaw, ListedLaw, RingLaw};

/// What holds of the sums and products of each listed order, and of every polynomial.
pub fn field_laws()
    ensures rings { RingLaw }
    ensures listed { ListedLaw }
    ensures fields { FieldLaw }
    ensures groups { GroupLaw }
{}
