ghost use Rattle.std.specs.Prelude.{IfOk, IfSome, IsSome, is_some, ◌<◌, ◌↔◌, ◌≡◌};
ghost use Rattle.design_base.specs.Fields.{FieldAt, has_field};
ghost use Rattle.design_base.specs.Meets.{GroupAt, group_add};
ghost use Rattle.field_tables.specs.Tables.{field_order};

use crate::field::Field;
use crate::polynomial::listed;
use design_base::{Group, Memory, POINTS_MAX};
use std::alloc::Global;
use std::marker::Model;

/// The fields of the listed orders.
#[derive(Drop)]
pub struct Fields {
    by_order: Vec<Option<Field>>,
}

impl Model for Fields {
    ghost use Rattle.field_tables.specs.Tables.{IsComplete};

    ghost Value = { Unit {0} };

    ghost view = { λ _. tt };

    ghost invariant = { λ f. IsComplete f.by_order.items };
}

impl Fields {
    /// The fields of all listed orders.
    pub fn open(alloc: Global) -> Result<Fields, Memory> {
        let mut by_order = Vec::new(alloc);
        for q in 0..POINTS_MAX + 1 {
            by_order.push(open_field(alloc, q)?)?;
        }
        Ok(Fields { by_order })
    }

    /// The field of q elements. None exactly where there is none, which is where q isn't listed.
    pub fn field(&self, q: u16) -> Option<&Field>
        ensures found { IsSome result ↔ FieldAt q }
        ensures listed { is_some result ≡ has_field q }
        ensures order { IfSome result (λ f. f.now ≡ q) }
    {
        self.by_order.get(q as usize)?.as_ref()
    }

    /// The sum of two elements of the group of v elements: modulo v, or in the field.
    pub fn group_add(&self, group: Group, v: u16, x: u16, y: u16) -> u16
        requires group { GroupAt group v }
        requires x_below { x < v }
        requires y_below { y < v }
        ensures sum { result ≡ group_add group v x y }
        ensures below { result < v }
    {
        match group {
            Group::Cyclic => ((x as u32 + y as u32) % v as u32) as u16,
            Group::Field => match self.field(v) {
                Some(field) => field.add(x, y),
                None => unreachable!(),
            },
        }
    }
}

/// The field of q elements alone. None exactly where there is none, which is where q is not listed; `Memory` comes only for want of memory.
pub fn open_field(alloc: Global, q: u16) -> Result<Option<Field>, Memory>
    ensures field { IfOk result (λ f. f ≡ field_order q) }
    ensures listed { IfOk result (λ f. is_some f ≡ has_field q) }
    ensures order { IfOk result (λ f. IfSome f (λ f. f ≡ q)) }
{
    match listed(q) {
        Some(polynomial) => Ok(Some(Field::new(alloc, polynomial)?)),
        None => Ok(None),
    }
}
