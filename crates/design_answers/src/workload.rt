//! The answer to `workload`: how many draws have which verdict, and how many questions their closures have.
ghost use Rattle.std.specs.Prelude.{◌≡◌, ◌≢◌, ◌++◌, codes, true, ℕ};
ghost use Rattle.design_answers.specs.Requests.{workload_report};
ghost use Rattle.design_base.specs.Limits.{within};
ghost use Rattle.design_base.specs.declared.limits.TheConstants.{WORKLOAD_MAX};
ghost use Rattle.design_io.specs.Faults.{HasCause};
ghost use Rattle.design_io.specs.Pieces.{AppendsWhole};
ghost use Rattle.design_lines.specs.Printed.{counted_line};
ghost use Rattle.design_reports.specs.Answers.{EndsWith, HasFault, IsAnswer};

use crate::oracle::Oracle;
use crate::tally::Tally;
use design_io::{Failed, Sink};
use design_reports::{Ending, write_counted};
use rule_table::Asker;
use std::sync::ledger::Ledger;

// Writes how many draws there are, how many of them have which verdict, and how many questions their closures have.
#[tactic(auto, using(design_io::proofs::Pieces::composed))]
fn write_tally<K: Sink>(out: &mut K, n: u32, tally: &Tally, cells: u32) -> Result<(), Failed>
    ensures bytes { AppendsWhole (K.held out.old) (K.held out.new) result (counted_line (codes "workload") n ++ (counted_line (codes "yes") tally.now.yes ++ (counted_line (codes "no") tally.now.no ++ (counted_line (codes "unknown") tally.now.unknown ++ counted_line (codes "cells") cells)))) }
    ensures cause { HasCause (K.faults out.old) (K.faults out.new) result }
{
    write_counted(out, "workload", u64::from(n))?;
    write_counted(out, "yes", u64::from(tally.yes))?;
    write_counted(out, "no", u64::from(tally.no))?;
    write_counted(out, "unknown", u64::from(tally.unknown))?;
    write_counted(out, "cells", u64::from(cells))
}

/// Answers `workload` on a number of draws in bounds: how many of them have which verdict, and how many questions their closures have. It takes
/// no memory.
pub fn answer_workload<K: Sink, A: Asker + Drop, L: Ledger>(
    n: u32,
    oracle: &mut Oracle<A, L>,
    out: &mut K,
) -> Ending
    requires { within 1 WORKLOAD_MAX n ≡ true }
    ensures ends { EndsWith (workload_report n) result (K.held out.old) (K.held out.new) }
    ensures cause { HasFault result (K.faults out.old) (K.faults out.new) }
    ensures answered { IsAnswer result }
    ensures no_read { result ≢ Ending.ReadFault }
    ensures no_offer { (number : ℕ) → result ≢ Ending.CatalogueFault number }
    ensures memory { result ≢ Ending.NoMemory }
{
    let (tally, cells) = oracle.tally(n);
    match write_tally(out, n, &tally, cells) {
        Ok(()) => Ending::Yes,
        Err(Failed) => Ending::WriteFault,
    }
}
