// Verdicts that were computed elsewhere.
ghost use Rattle.std.specs.Prelude.{◌≡◌, ◌<◌};

use crate::{Asker, Evaluation, PlainAsker, Steps, Tools, Turn, evaluate};
use design_base::{Criterion, Query, Rule, Step, Verdict, in_bounds};
use std::marker::Brand;
use std::process::Abort;
use std::sync::ledger::{Blank, Ledger};
use std::test::Fail;

// The verdict of a question, evaluated and asked.
fn assert_verdict<L: Ledger>(
    rt: &impl Abort,
    tools: &Tools,
    steps: &mut Steps<L>,
    q: &Query,
    verdict: &Verdict,
) {
    assert!(rt; in_bounds(q));
    assert_eq!(rt; evaluate(q, tools, steps), *verdict);
    assert_eq!(rt; PlainAsker.ask(q, tools, steps), *verdict);
}

// Those of several.
fn assert_verdicts<L: Ledger>(rt: &impl Abort, tools: &Tools, blank: Blank)
    requires name { L.name ≡ blank.name }
    requires parts { L.parts ≡ blank.parts }
    requires some { 0 < blank.parts }
{
    let mut steps = Steps::<L>::new(blank);
    for (k, n) in [(4, 2), (5, 3), (6, 4), (66, 64)] {
        assert_verdict(
            rt,
            tools,
            &mut steps,
            &Query::Td { k, n },
            &Verdict::No(Criterion::Groups),
        );
    }
    for (k, n) in [(4, 6), (4, 14), (5, 12)] {
        assert_verdict(
            rt,
            tools,
            &mut steps,
            &Query::Td { k, n },
            &Verdict::Unknown,
        );
    }
    for (k, n, step) in [
        (2, 1, Step::new(Rule::TdOne, 0, 0, 0, 0)),
        (66, 1, Step::new(Rule::TdOne, 0, 0, 0, 0)),
        (3, 6, Step::new(Rule::Cyclic, 0, 0, 0, 0)),
        (4, 3, Step::new(Rule::Field, 0, 0, 0, 0)),
        (5, 4, Step::new(Rule::Field, 0, 0, 0, 0)),
        (65, 64, Step::new(Rule::Field, 0, 0, 0, 0)),
        (4, 12, Step::new(Rule::Product, 3, 4, 0, 0)),
        (4, 10, Step::new(Rule::Parker, 3, 0, 0, 0)),
        (4, 22, Step::new(Rule::Parker, 7, 0, 0, 0)),
        (4, 18, Step::new(Rule::Wilson1, 3, 5, 3, 0)),
        (7, 50, Step::new(Rule::Wilson1, 7, 7, 1, 0)),
        (5, 58, Step::new(Rule::Wilson2, 7, 7, 5, 4)),
        (6, 51, Step::new(Rule::Wilson2, 7, 7, 1, 1)),
    ] {
        assert_verdict(
            rt,
            tools,
            &mut steps,
            &Query::Td { k, n },
            &Verdict::Yes(step),
        );
    }
}

// Those of block designs.
fn assert_block_designs<L: Ledger>(rt: &impl Abort, tools: &Tools, blank: Blank)
    requires name { L.name ≡ blank.name }
    requires parts { L.parts ≡ blank.parts }
    requires some { 0 < blank.parts }
{
    let mut steps = Steps::<L>::new(blank);
    let yes = |rule: Rule| Verdict::Yes(Step::new(rule, 0, 0, 0, 0));
    for (v, k, l, verdict) in [
        (3, 3, 1, yes(Rule::Whole)),
        (128, 2, 6, yes(Rule::Pairs)),
        (8, 7, 6, yes(Rule::Omit)),
        (9, 3, 1, yes(Rule::Bose)),
        (7, 3, 1, yes(Rule::Skolem)),
        (6, 3, 2, yes(Rule::Double)),
        (5, 3, 3, yes(Rule::Middle)),
        (8, 3, 6, yes(Rule::Ordered)),
        (64, 4, 1, Verdict::Yes(Step::new(Rule::Affine, 4, 3, 0, 0))),
        (
            13,
            4,
            1,
            Verdict::Yes(Step::new(Rule::Projective, 3, 2, 0, 0)),
        ),
        (28, 4, 1, Verdict::Yes(Step::new(Rule::Unital, 3, 0, 0, 0))),
        (120, 8, 1, Verdict::Yes(Step::new(Rule::Arc, 3, 4, 0, 0))),
        (37, 4, 1, yes(Rule::Developz)),
        (7, 3, 2, yes(Rule::Developf)),
        (9, 3, 4, Verdict::Yes(Step::new(Rule::Sum, 1, 0, 0, 0))),
        (9, 6, 5, yes(Rule::Complement)),
        (8, 3, 5, Verdict::No(Criterion::Replication)),
        (5, 3, 1, Verdict::No(Criterion::Count)),
        (16, 6, 1, Verdict::No(Criterion::Fisher)),
        (15, 5, 2, Verdict::Unknown),
        (43, 7, 1, Verdict::Unknown),
    ] {
        assert_verdict(rt, tools, &mut steps, &Query::Bibd { v, k, l }, &verdict);
    }
}

#[test]
fn verdicts_of_block_designs(rt: HostRuntime) -> Result<(), Fail> {
    let tools = Tools::new(rt.alloc());
    assert_block_designs::<Brand>(&rt, &tools, Blank::new(1));
    Ok(())
}

#[test]
fn verdicts(rt: HostRuntime) -> Result<(), Fail> {
    let tools = Tools::new(rt.alloc());
    assert_verdicts::<Brand>(&rt, &tools, Blank::new(1));
    Ok(())
}

// The premise that is asked for next, which is then answered. None at the end.
fn answer_next<L: Ledger>(
    evaluation: &mut Evaluation,
    tools: &Tools,
    steps: &mut Steps<L>,
) -> Option<Query> {
    match evaluation.turn() {
        Turn::Ask(premise) => {
            let told = evaluate(&premise, tools, steps);
            evaluation.answer(&told);
            Some(premise)
        }
        Turn::Done(_) => None,
    }
}

// Twelve is 2 * 6 and 3 * 4, and there is no transversal design with 4 groups of 2 points.
fn assert_asks_twelve<L: Ledger>(rt: &impl Abort, tools: &Tools, blank: Blank)
    requires name { L.name ≡ blank.name }
    requires parts { L.parts ≡ blank.parts }
    requires some { 0 < blank.parts }
{
    let mut steps = Steps::<L>::new(blank);
    let q = Query::Td { k: 4, n: 12 };
    assert!(rt; in_bounds(&q));
    let mut evaluation = Evaluation::new(&q, tools, &mut steps);
    for n in [2, 3, 4] {
        let premise = answer_next(&mut evaluation, tools, &mut steps);
        assert_eq!(rt; premise, Some(Query::Td { k: 4, n }));
    }
    assert_eq!(rt; answer_next(&mut evaluation, tools, &mut steps), None);
}

#[test]
fn asks_up_to_the_first_that_is_not_yes(rt: HostRuntime) -> Result<(), Fail> {
    let tools = Tools::new(rt.alloc());
    assert_asks_twelve::<Brand>(&rt, &tools, Blank::new(1));
    Ok(())
}
