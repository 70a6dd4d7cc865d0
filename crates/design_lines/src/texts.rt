//! Questions and steps as they are printed.
ghost use Rattle.std.specs.Prelude.{◌≡◌, ◌<◌, ◌≤◌, length};
ghost use Rattle.design_lines.specs.Printed.{counted_line as counted_text, group_word, question_words, spaced, step_words};

use crate::line::{Text, TextLine};
use design_base::{Group, Query, Step};

// The word of a group.
fn group_name(group: Group) -> &'static str
    ensures { result.now ≡ group_word group }
{
    match group {
        Group::Cyclic => "z",
        Group::Field => "f",
    }
}

/// The question in its normal words, with one space between each two.
#[tactic(auto, unfolding(crate::specs::Printed::question_words))]
pub fn question_text(q: &Query) -> Text
    ensures { result ≡ spaced (question_words q.now) }
{
    let mut text = Text::new();
    match *q {
        Query::Td { k, n } => {
            text.push_word(b"td");
            text.push_numbers(&[k, n]);
        }
        Query::Df { group, v, k, l } => {
            text.push_word(b"df");
            text.push_word(group_name(group).as_bytes());
            text.push_numbers(&[v, k, l]);
        }
        Query::Bibd { v, k, l } => {
            text.push_word(b"bibd");
            text.push_numbers(&[v, k, l]);
        }
        Query::Gdd { k, g, u } => {
            text.push_word(b"gdd");
            text.push_numbers(&[k, g, u]);
        }
        Query::Pbd { v, s } => {
            text.push_word(b"pbd");
            text.push_numbers(&[v, s]);
        }
    }
    text
}

/// The rule's name and its parameters, with one space between each two words.
#[tactic(auto, unfolding(crate::specs::Printed::step_words))]
pub fn step_text(step: &Step) -> Text
    ensures { result ≡ spaced (step_words step.now) }
{
    let mut text = Text::new();
    text.push_word(step.rule.name().as_bytes());
    let parameters = [step.a, step.b, step.c, step.d];
    text.push_numbers(&parameters[..step.rule.parameters()]);
    text
}

/// A word and a number, as a line. The word has 1 to 100 bytes.
#[tactic(auto, using(crate::proofs::Joined::line_of_two), unfolding(crate::specs::Printed::counted_line))]
pub fn counted_line(word: &str, number: u64) -> TextLine
    requires started { 0 < length word.now }
    requires short { length word.now ≤ 100 }
    ensures { result ≡ counted_text word.now number }
{
    let mut line = TextLine::new();
    line.push_word(word.as_bytes());
    line.push_number(number);
    line.end();
    line
}
