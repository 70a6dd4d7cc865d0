// The difference families that are listed one by one.
ghost use Rattle.std.specs.Prelude.{◌≡◌, ◌+◌, ◌<◌, ◌≤◌, ◌++◌, IfOk, OnOk, length, map};
ghost use Rattle.design_base.specs.declared.limits.TheConstants.{PARAMETER_MAX};
ghost use Rattle.difference_sets.specs.FamilySteps.{is_family_over, is_listed_family};
ghost use Rattle.incidence.specs.Packed.{size_of};
ghost use Rattle.difference_sets.specs.Listed.{families, family_at};
ghost use Rattle.difference_sets.specs.Seen.{seen};

use design_base::{Group, Memory, PACKED_MAX};
use incidence::Rows;
use std::alloc::Global;

// A family of base blocks of k elements over the group of v elements, in which each element but 0 is the difference of l pairs.
#[derive(Clone, Copy)]
pub struct Entry {
    group: Group,
    v: u16,
    k: u16,
    l: u16,
    blocks: &'static [&'static [u16]],
}

// How many families are listed.
const FAMILIES: u16 = 11;

// The families in the order of their numbers.
const ENTRIES: [Entry; FAMILIES as usize] = [
    Entry {
        group: Group::Cyclic,
        v: 7,
        k: 3,
        l: 1,
        blocks: &[&[0, 1, 3]],
    },
    Entry {
        group: Group::Cyclic,
        v: 13,
        k: 4,
        l: 1,
        blocks: &[&[0, 1, 3, 9]],
    },
    Entry {
        group: Group::Cyclic,
        v: 15,
        k: 7,
        l: 3,
        blocks: &[&[0, 1, 2, 4, 5, 8, 10]],
    },
    Entry {
        group: Group::Field,
        v: 16,
        k: 6,
        l: 2,
        blocks: &[&[3, 7, 11, 12, 13, 14]],
    },
    Entry {
        group: Group::Cyclic,
        v: 21,
        k: 5,
        l: 1,
        blocks: &[&[0, 1, 4, 14, 16]],
    },
    Entry {
        group: Group::Field,
        v: 25,
        k: 4,
        l: 1,
        blocks: &[&[0, 1, 5, 12], &[0, 2, 10, 24]],
    },
    Entry {
        group: Group::Cyclic,
        v: 31,
        k: 6,
        l: 1,
        blocks: &[&[0, 1, 3, 8, 12, 18]],
    },
    Entry {
        group: Group::Cyclic,
        v: 37,
        k: 4,
        l: 1,
        blocks: &[&[0, 1, 3, 24], &[0, 4, 26, 32], &[0, 10, 18, 30]],
    },
    Entry {
        group: Group::Cyclic,
        v: 41,
        k: 5,
        l: 1,
        blocks: &[&[0, 1, 4, 11, 29], &[0, 2, 8, 17, 22]],
    },
    Entry {
        group: Group::Cyclic,
        v: 57,
        k: 8,
        l: 1,
        blocks: &[&[0, 1, 3, 13, 32, 36, 43, 52]],
    },
    Entry {
        group: Group::Cyclic,
        v: 61,
        k: 5,
        l: 1,
        blocks: &[&[0, 1, 3, 13, 34], &[0, 4, 9, 23, 45], &[0, 6, 17, 24, 32]],
    },
];

/// How many difference families are listed one by one, and so the largest number of one; they are numbered from 1 on.
///
/// Most are over the integers modulo the number of elements, two over a field; each is checked once to be a family with its numbers.
/// Lists of such families, and of difference sets, stand in the Handbook of Combinatorial Designs (C. J. Colbourn, J. H. Dinitz, eds.,
/// 2nd edition, 2007), VI.16 and VI.18.
#[tactic(auto, unfolding(crate::specs::Listed::families))]
pub fn listed_families() -> u16
    ensures value { result ≡ length families }
    ensures small { result ≤ PARAMETER_MAX }
{
    FAMILIES
}

fn entries() -> &'static [Entry]
    ensures { map seen result.now ≡ families }
{
    &ENTRIES
}

// Whether a family is one over this group, and has these numbers.
fn is_over(entry: &Entry, group: Group, v: u16, k: u16, l: u16) -> bool
    ensures { result ≡ is_family_over (seen entry.now) group v k l }
{
    entry.group == group && (entry.v == v && (entry.k == k && entry.l == l))
}

// Whether the family of a number, from 1 on, is one over this group, and has these numbers.
pub(crate) fn is_entry(n: u16, group: Group, v: u16, k: u16, l: u16) -> bool
    ensures { result ≡ is_listed_family n group v k l }
{
    let entries = entries();
    if n < 1 || entries.len() < usize::from(n) {
        return false;
    }
    is_over(&entries[usize::from(n) - 1], group, v, k, l)
}

// Appends some blocks.
fn push_blocks(rows: &mut Rows, blocks: &[&[u16]]) -> Result<(), Memory>
    requires { size_of rows.old + size_of (map (λ block. block.now) blocks.now) < PACKED_MAX }
    ensures { OnOk result (rows.new ≡ rows.old ++ map (λ block. block.now) blocks.now) }
{
    for block in blocks {
        rows.push_row(block)?;
    }
    Ok(())
}

// The base blocks of an entry of the list, by its number, from 1 on: as they are listed, which is in canonical form.
pub(crate) fn base_blocks_of_entry(alloc: Global, n: u16) -> Result<Rows, Memory>
    requires some { 1 ≤ n }
    requires listed { n ≤ length families }
    ensures { IfOk result (λ rows. rows ≡ (family_at n).blocks) }
{
    let mut rows = Rows::new(alloc);
    push_blocks(&mut rows, entries()[usize::from(n) - 1].blocks)?;
    Ok(rows)
}
