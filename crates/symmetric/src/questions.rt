// The questions that the smaller designs meet.
ghost use Rattle.std.specs.Prelude.{◌-◌, ◌≡◌, ◌≤◌, true};
ghost use Rattle.design_base.specs.Limits.{in_bounds};
ghost use Rattle.design_base.specs.declared.query.Query.TheVariants.{Bibd};
ghost use Rattle.symmetric.specs.Symmetric.{AreSymmetric};

use design_base::Query;

/// The question that a residual design meets.
///
/// The numbers are those of a symmetric design within the limits of `design_base`, and k - l is at least 2.
#[tactic(auto, using(crate::proofs::SmallerQuestions::residual_bounds))]
pub fn residual_question(v: u16, k: u16, l: u16) -> Query
    requires numbers { AreSymmetric v k l }
    requires bounds { in_bounds (Bibd v k l) ≡ true }
    requires two { 2 ≤ k - l }
    ensures question { result ≡ Bibd (v - k) (k - l) l }
    ensures bounds { in_bounds result ≡ true }
{
    Query::Bibd {
        v: v - k,
        k: k - l,
        l,
    }
}

/// The question that a derived design meets.
///
/// The numbers are those of a symmetric design within the limits of `design_base`, and `l` is at least 2.
#[tactic(auto, using(crate::proofs::SmallerQuestions::derived_bounds))]
pub fn derived_question(v: u16, k: u16, l: u16) -> Query
    requires numbers { AreSymmetric v k l }
    requires bounds { in_bounds (Bibd v k l) ≡ true }
    requires two { 2 ≤ l }
    ensures question { result ≡ Bibd k l (l - 1) }
    ensures bounds { in_bounds result ≡ true }
{
    Query::Bibd {
        v: k,
        k: l,
        l: l - 1,
    }
}
