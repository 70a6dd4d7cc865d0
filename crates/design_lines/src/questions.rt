//! Reading a question.
ghost use Rattle.std.specs.Prelude.{◌≡◌, ◌^◌, ◌<◌, if◌then◌else◌, Some, None, option_and_then};
ghost use Rattle.counting.specs.Search.{◌<=◌};
ghost use Rattle.design_base.specs.Limits.{HasFewDigits};
ghost use Rattle.design_lines.specs.Reading.{Reads, ◌then◌, gives, one_of};
ghost use Rattle.design_lines.specs.Grammar.{asked, groups, narrowed, normal_question, question, squares};

use crate::command::{Asked, Reason, Shape};
use crate::words::Words;
use design_base::{Group, Query, in_bounds};

// The number, where it is not above 65,535.
fn narrow(number: u64) -> Option<u16>
    ensures { result ≡ (if number <= 65535 then Some number else None) }
{
    u16::try_from(number).ok()
}

// The five kinds of question, each where none of its numbers is above 65,535.

#[tactic(auto, unfolding(crate::specs::Grammar::narrowed))]
fn td(k: u64, n: u64) -> Option<Query>
    ensures { result ≡ narrowed (Query.Td k n) }
{
    Some(Query::Td {
        k: narrow(k)?,
        n: narrow(n)?,
    })
}

#[tactic(auto, unfolding(crate::specs::Grammar::narrowed))]
fn df(group: Group, v: u64, k: u64, l: u64) -> Option<Query>
    ensures { result ≡ narrowed (Query.Df group v k l) }
{
    Some(Query::Df {
        group,
        v: narrow(v)?,
        k: narrow(k)?,
        l: narrow(l)?,
    })
}

#[tactic(auto, unfolding(crate::specs::Grammar::narrowed))]
fn bibd(v: u64, k: u64, l: u64) -> Option<Query>
    ensures { result ≡ narrowed (Query.Bibd v k l) }
{
    Some(Query::Bibd {
        v: narrow(v)?,
        k: narrow(k)?,
        l: narrow(l)?,
    })
}

#[tactic(auto, unfolding(crate::specs::Grammar::narrowed))]
fn gdd(k: u64, g: u64, u: u64) -> Option<Query>
    ensures { result ≡ narrowed (Query.Gdd k g u) }
{
    Some(Query::Gdd {
        k: narrow(k)?,
        g: narrow(g)?,
        u: narrow(u)?,
    })
}

#[tactic(auto, unfolding(crate::specs::Grammar::narrowed))]
fn pbd(v: u64, s: u64) -> Option<Query>
    ensures { result ≡ narrowed (Query.Pbd v s) }
{
    Some(Query::Pbd {
        v: narrow(v)?,
        s: narrow(s)?,
    })
}

// The question with its shape, where it is in bounds.
fn within_bounds(shape: Shape, query: Option<Query>) -> Option<Asked>
    ensures { result ≡ option_and_then (asked shape) query }
{
    let query = query?;
    if in_bounds(&query) {
        Some(Asked { query, shape })
    } else {
        None
    }
}

// m squares of order n, of which there is at least one.
#[tactic(auto, using(crate::proofs::Bounds::asked_narrowed))]
fn mols(n: u64, m: u64) -> Option<Asked>
    requires { HasFewDigits m }
    ensures { result ≡ squares n m }
{
    if m < 1 {
        return None;
    }
    within_bounds(Shape::Squares, td(m + 2, n))
}

impl<'a> Words<'a> {
    // The group of a difference family, and its numbers.
    #[tactic(auto, unfolding(crate::specs::Grammar::groups, crate::specs::Reading::one_of_or))]
    fn family(&mut self) -> Result<Option<Query>, Reason>
        ensures { Reads (one_of groups then λ q. gives (narrowed q)) self.old self.new result }
    {
        if self.takes("z") {
            let (v, k, l) = self.triple()?;
            return Ok(df(Group::Cyclic, v, k, l));
        }
        if self.takes("f") {
            let (v, k, l) = self.triple()?;
            return Ok(df(Group::Field, v, k, l));
        }
        Err(self.no_fixed_word())
    }

    /// Reads a question in its normal words. None where one of its numbers is above 65,535.
    #[tactic(auto, unfolding(crate::specs::Grammar::questions, crate::specs::Reading::one_of_or))]
    pub fn normal_question(&mut self) -> Result<Option<Query>, Reason>
        ensures { Reads normal_question self.old self.new result }
    {
        if self.takes("td") {
            let (k, n) = self.pair()?;
            return Ok(td(k, n));
        }
        if self.takes("df") {
            let query = self.family()?;
            return Ok(query);
        }
        if self.takes("bibd") {
            let (v, k, l) = self.triple()?;
            return Ok(bibd(v, k, l));
        }
        if self.takes("gdd") {
            let (k, g, u) = self.triple()?;
            return Ok(gdd(k, g, u));
        }
        if self.takes("pbd") {
            let (v, s) = self.pair()?;
            return Ok(pbd(v, s));
        }
        Err(self.no_fixed_word())
    }

    /// Reads a question in its normal words or in others. None where it is out of bounds.
    #[tactic(auto, using(crate::proofs::Bounds::asked_narrowed), unfolding(crate::specs::Grammar::other_questions, crate::specs::Grammar::question, crate::specs::Reading::one_of_or))]
    pub fn question(&mut self) -> Result<Option<Asked>, Reason>
        ensures { Reads question self.old self.new result }
    {
        if self.takes("sts") {
            let v = self.number()?;
            return Ok(within_bounds(Shape::Blocks, bibd(v, 3, 1)));
        }
        if self.takes("plane") {
            let n = self.number()?;
            return Ok(within_bounds(Shape::Blocks, bibd(n * n + n + 1, n + 1, 1)));
        }
        if self.takes("oa") {
            let (k, n) = self.pair()?;
            return Ok(within_bounds(Shape::Rows, td(k, n)));
        }
        if self.takes("mols") {
            let (n, m) = self.pair()?;
            return Ok(mols(n, m));
        }
        let query = self.normal_question()?;
        Ok(within_bounds(Shape::Blocks, query))
    }
}
