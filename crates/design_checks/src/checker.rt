//! The check of any question, with what it needs.
ghost use Rattle.std.specs.Prelude.{◌≡◌, ◌↔◌, IfOk, true};
ghost use Rattle.design_base.specs.Limits.{in_bounds};
ghost use Rattle.design_base.specs.Meets.{Meets};
ghost use Rattle.design_checks.specs.Findings.{finding as finding_of};

use crate::checks::{check_bibd, check_df, check_gdd, check_pbd, check_td};
use crate::finding::Finding;
use crate::scratch::Scratch;
use design_base::{Group, Memory, Query};
use field_tables::Fields;
use incidence::Rows;
use std::alloc::Global;

/// What checks need: the tables of the fields and room to count in. Each is opened where a check first needs it, and kept for
/// the checks that follow.
#[derive(Drop)]
pub struct Checker {
    alloc: Global,
    fields: Option<Fields>,
    scratch: Option<Scratch>,
}

impl Checker {
    /// Nothing is opened yet, and no memory is taken. Checks take theirs from `alloc`.
    pub fn new(alloc: Global) -> Checker {
        Checker {
            alloc,
            fields: None,
            scratch: None,
        }
    }

    // The fields, which only difference families need.
    fn take_fields(&mut self) -> Result<Fields, Memory> {
        match self.fields.take() {
            Some(fields) => Ok(fields),
            None => Fields::open(self.alloc),
        }
    }

    // Room to count in.
    fn take_scratch(&mut self) -> Result<Scratch, Memory> {
        match self.scratch.take() {
            Some(scratch) => Ok(scratch),
            None => Scratch::new(self.alloc),
        }
    }

    // Checks base blocks, with the fields that are kept.
    fn check_base_blocks(
        &mut self,
        rows: &Rows,
        group: Group,
        v: u16,
        k: u16,
        l: u16,
        scratch: &mut Scratch,
    ) -> Result<Finding, Memory>
        requires { in_bounds (Query.Df group v k l) ≡ true }
        ensures finding { IfOk result (λ found. found ≡ finding_of (Query.Df group v k l) rows.now) }
        ensures valid { IfOk result (λ found. (found ≡ Finding.Valid) ↔ Meets (Query.Df group v k l) rows.now) }
    {
        let fields = self.take_fields()?;
        let finding = check_df(rows, &fields, group, v, k, l, scratch);
        self.fields = Some(fields);
        Ok(finding)
    }

    // Checks a block list in this room.
    fn check_in(&mut self, q: &Query, rows: &Rows, scratch: &mut Scratch) -> Result<Finding, Memory>
        requires { in_bounds q.now ≡ true }
        ensures finding { IfOk result (λ found. found ≡ finding_of q.now rows.now) }
        ensures valid { IfOk result (λ found. (found ≡ Finding.Valid) ↔ Meets q.now rows.now) }
    {
        match *q {
            Query::Td { k, n } => Ok(check_td(rows, k, n, scratch)),
            Query::Df { group, v, k, l } => self.check_base_blocks(rows, group, v, k, l, scratch),
            Query::Bibd { v, k, l } => Ok(check_bibd(rows, v, k, l, scratch)),
            Query::Gdd { k, g, u } => Ok(check_gdd(rows, k, g, u, scratch)),
            Query::Pbd { v, s } => Ok(check_pbd(rows, v, s, scratch)),
        }
    }

    /// Checks a block list against the definition of the design that is asked for: of a difference family, its base blocks. The
    /// numbers of the question are within the limits of `design_base`, as `in_bounds` says. `Memory` comes only where the fields or
    /// the room to count in were to be opened.
    pub fn check(&mut self, q: &Query, rows: &Rows) -> Result<Finding, Memory>
        requires { in_bounds q.now ≡ true }
        ensures finding { IfOk result (λ found. found ≡ finding_of q.now rows.now) }
        ensures valid { IfOk result (λ found. (found ≡ Finding.Valid) ↔ Meets q.now rows.now) }
    {
        let mut scratch = self.take_scratch()?;
        let found = self.check_in(q, rows, &mut scratch);
        self.scratch = Some(scratch);
        found
    }
}
