// The sums of the groups of families.
ghost use Rattle.std.specs.Prelude.{◌≡◌, ◌<◌, ◌+◌, ◌%◌, IfOk};
ghost use Rattle.design_base.specs.Meets.{GroupAt, group_add};

use design_base::{Group, Memory};
use field_tables::{Field, open_field};
use std::alloc::Global;
use std::marker::Model;

// The sums of the integers modulo a number, or those of a field. Clauses see the group and how many elements it has.
#[derive(Drop)]
pub(crate) struct Sums {
    order: u16,
    field: Option<Field>,
}

impl Model for Sums {
    ghost use Rattle.std.specs.Prelude.{◌≡◌, ℕ, None, Some, IfSome};
    ghost use Rattle.design_base.specs.declared.query.Group.{Group};
    ghost use Rattle.design_base.specs.declared.query.Group.TheVariants.{Cyclic, Field};

    ghost Value = { Group × ℕ };

    ghost view = { λ s. (elim s.field [ None ↦ Cyclic | Some f ↦ Field ], s.order) };

    ghost invariant = { λ s. IfSome s.field (λ f. f ≡ s.order) };
}

impl Sums {
    // The sums of the group of `v` elements. `Memory` comes only for want of memory.
    pub(crate) fn open(alloc: Global, group: Group, v: u16) -> Result<Sums, Memory>
        requires { GroupAt group v }
        ensures { IfOk result (λ sums. sums ≡ (group, v)) }
    {
        match group {
            Group::Cyclic => Ok(Sums {
                order: v,
                field: None,
            }),
            Group::Field => match open_field(alloc, v)? {
                Some(field) => Ok(Sums {
                    order: v,
                    field: Some(field),
                }),
                None => unreachable!(),
            },
        }
    }

    // How many elements the group has.
    pub(crate) fn order(&self) -> u16
        ensures { result ≡ self.now.1 }
    {
        self.order
    }

    // The sum of two elements.
    #[tactic(auto, unfolding(design_base::specs::Meets::group_add))]
    pub(crate) fn add(&self, x: u16, y: u16) -> u16
        requires x_below { x < self.now.1 }
        requires y_below { y < self.now.1 }
        ensures sum { result ≡ group_add self.now.0 self.now.1 x y }
        ensures below { result < self.now.1 }
    {
        match &self.field {
            None => sum_modulo(self.order, x, y),
            Some(field) => field.add(x, y),
        }
    }
}

// The sum modulo `n`.
fn sum_modulo(n: u16, x: u16, y: u16) -> u16
    requires x_below { x < n }
    requires y_below { y < n }
    ensures sum { result ≡ (x + y) % n }
    ensures below { result < n }
{
    ((x as u32 + y as u32) % n as u32) as u16
}
