// Rows of numbers as lines, one after another.
ghost use Rattle.std.specs.Prelude.{◌≡◌, ◌+◌, ◌*◌, ◌≤◌, length, map};
ghost use Rattle.std.specs.Fmt.{decimal};
ghost use Rattle.design_lines.specs.Printed.{line_of};

use crate::line::{LINE_ROOM, TextLine};
use crate::number_texts::NumberTexts;

/// Prints rows of numbers. The line and the texts of the numbers are kept from one row to the next.
#[derive(Drop)]
pub struct RowPrinter {
    line: TextLine,
    texts: NumberTexts,
}

impl RowPrinter {
    /// No row is printed yet.
    pub fn new() -> Self {
        RowPrinter {
            line: TextLine::new(),
            texts: NumberTexts::new(),
        }
    }

    /// A row of numbers as a line, with one space between each two. It has at most 340 numbers.
    pub fn line(&mut self, row: &[u16]) -> &[u8]
        requires { 6 * length row.now + 8 ≤ LINE_ROOM }
        ensures { result.now ≡ line_of (map decimal row.now) }
    {
        self.line.clear();
        for number in row {
            let text = self.texts.text(*number);
            self.line.push_text(*number, text);
        }
        self.line.end();
        &self.line.bytes()[row.len().min(1)..]
    }
}
