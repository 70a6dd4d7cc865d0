ghost use Rattle.rule_table.specs.Laws.{NoLaw, SettledLaw, UnknownLaw};

/// What holds of every verdict of the table on a question in bounds. Under a no there is no such design. A question is unknown exactly where
/// no criterion applies to it and each of its candidates has a premise that is not yes. A question on block designs with blocks of two points,
/// of three, of all points but one or of all points is never unknown.
pub fn rule_laws()
    ensures none { NoLaw }
    ensures unknown { UnknownLaw }
    ensures settled { SettledLaw }
{}
