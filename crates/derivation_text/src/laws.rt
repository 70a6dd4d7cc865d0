ghost use Rattle.derivation_text.specs.Spelling.{OnlyTextLaw, ReadBackLaw};

/// What `print_v1` writes of 1 to `DERIVATION_MAX` lines that can be spelled is read by `parse_v1` as these lines, and no other
/// text is.
#[tactic(auto, using(crate::proofs::ReadBack::each_text_is_read, crate::proofs::Printed::text_is_printed))]
pub fn text_laws()
    ensures read_back { ReadBackLaw }
    ensures only { OnlyTextLaw }
{}
