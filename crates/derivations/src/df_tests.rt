// Difference families that were computed elsewhere.
ghost use Rattle.std.specs.Prelude.{◌≡◌, ◌<◌};

use crate::bibd_tests::{Expected, assert_built, plain};
use design_base::{Group, Memory, Query, Rule, Step};
use rule_table::{Steps, Tools};
use std::alloc::Global;
use std::marker::Brand;
use std::process::Abort;
use std::sync::ledger::{Blank, Ledger};
use std::test::Fail;

fn df(group: Group, v: u16, k: u16, l: u16) -> Query {
    Query::Df { group, v, k, l }
}

// One of each rule.
fn assert_families<L: Ledger>(
    rt: &impl Abort,
    alloc: Global,
    tools: &Tools,
    blank: Blank,
) -> Result<(), Memory>
    requires name { L.name ≡ blank.name }
    requires parts { L.parts ≡ blank.parts }
    requires some { 0 < blank.parts }
{
    let mut steps = Steps::<L>::new(blank);
    for (query, step, lines, blocks, first, last) in [
        (
            df(Group::Cyclic, 61, 5, 1),
            Step::new(Rule::Table, 11, 0, 0, 0),
            1,
            3,
            [0, 1, 3, 13, 34].as_slice(),
            [0, 6, 17, 24, 32].as_slice(),
        ),
        (
            df(Group::Field, 13, 4, 1),
            Step::new(Rule::Powers, 4, 1, 0, 0),
            1,
            1,
            [0, 1, 3, 9].as_slice(),
            [0, 1, 3, 9].as_slice(),
        ),
        (
            df(Group::Field, 9, 4, 3),
            plain(Rule::Cosets),
            1,
            2,
            [1, 2, 3, 6].as_slice(),
            [4, 5, 7, 8].as_slice(),
        ),
        (
            df(Group::Field, 5, 3, 3),
            plain(Rule::Cosets0),
            1,
            2,
            [0, 1, 4].as_slice(),
            [0, 2, 3].as_slice(),
        ),
        (
            df(Group::Field, 25, 3, 1),
            plain(Rule::Halfcosets),
            1,
            4,
            [1, 7, 22].as_slice(),
            [6, 9, 15].as_slice(),
        ),
    ] {
        let expected = Expected {
            query,
            step,
            lines,
            blocks,
            first,
            last,
        };
        assert_built(rt, alloc, tools, &mut steps, &expected)?;
    }
    Ok(())
}

#[test]
fn families(rt: HostRuntime) -> Result<(), Fail> {
    let tools = Tools::new(rt.alloc());
    assert_families::<Brand>(&rt, rt.alloc(), &tools, Blank::new(1))?;
    Ok(())
}
