//! The line on the error output.
ghost use Rattle.design_reports.specs.Answers.{Says};

use design_io::{Sink, write_whole};

/// Says a line on the error output. That it fails changes nothing.
pub fn say<E: Sink>(err: &mut E, text: &[u8])
    ensures { Says text.now (E.held err.old) (E.held err.new) (E.faults err.old) (E.faults err.new) }
{
    let _ = write_whole(err, text);
}
