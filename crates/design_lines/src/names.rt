//! The printed names of the criteria.
ghost use Rattle.std.specs.Prelude.{◌≡◌};
ghost use Rattle.design_lines.specs.Printed.{criterion_word};

use design_base::Criterion;

/// The printed name of a criterion.
pub fn criterion_name(criterion: Criterion) -> &'static str
    ensures { result.now ≡ criterion_word criterion }
{
    match criterion {
        Criterion::Replication => "replication",
        Criterion::Count => "count",
        Criterion::Fisher => "fisher",
        Criterion::Groups => "groups",
        Criterion::FewGroups => "fewgroups",
        Criterion::GroupReplication => "groupreplication",
        Criterion::GroupCount => "groupcount",
        Criterion::Differences => "differences",
        Criterion::Points => "points",
    }
}
