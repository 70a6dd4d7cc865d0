// Lists copied, for steps that take their ingredient as it is.
ghost use Rattle.std.specs.Prelude.{◌≡◌, IfOk};
ghost use Rattle.design_base.specs.Canonical.{canonical};

use design_base::Memory;
use incidence::Rows;

// The list in canonical form.
pub(crate) fn canonical_copy(list: &Rows) -> Result<Rows, Memory>
    ensures { IfOk result (λ rows. rows ≡ canonical list.now) }
{
    let blocks = list.copied()?.canonical()?;
    Ok(blocks)
}
