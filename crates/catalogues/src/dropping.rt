//! Spent catalogues are dropped.
ghost use Rattle.std.specs.Prelude.{◌≡◌, ◌<◌, ◌≤◌, ◌+◌, ◌^◌, length, map};
ghost use Rattle.catalogues.specs.Consults.{Drops, DropsAt};
ghost use Rattle.catalogues.specs.Entries.{IsSpent};

use crate::catalogue::Catalogue;

// Whether the catalogue is spent.
fn is_spent(catalogue: &Box<dyn Catalogue>) -> bool
    ensures { IsSpent (seen catalogue.now) result }
{
    catalogue.spent()
}

// Drops the catalogue at a place, where it is spent and is not the one that failed.
fn drop_at(list: &mut Vec<Box<dyn Catalogue>>, i: usize, failed: Option<u32>)
    requires few { length list.old.items < 2 ^ 32 }
    requires within { i < length list.old.items }
    ensures size { (length list.old.items ≤ length list.new.items + 1) × (length list.new.items ≤ length list.old.items) }
    ensures drops { DropsAt failed i (map seen list.old.items) (map seen list.new.items) }
{
    let spent = is_spent(&list[i]);
    if !spent {
        return;
    }
    if failed == Some(i as u32 + 1) {
        return;
    }
    list.remove(i);
}

// Drops the spent catalogues, but for the one with the number of the one that failed.
pub fn drop_spent(list: &mut Vec<Box<dyn Catalogue>>, failed: Option<u32>)
    requires { length list.old.items < 2 ^ 32 }
    ensures { Drops failed 0 (map seen list.old.items) (map seen list.new.items) }
{
    let n = list.len();
    for k in 0..n {
        drop_at(list, n - 1 - k, failed);
    }
}
