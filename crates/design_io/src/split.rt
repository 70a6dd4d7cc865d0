//! The lines of a text at hand.
ghost use Rattle.std.specs.Prelude.{◌≡◌, ◌+◌, ◌<◌, ◌≤◌, [], ◌∷◌, IfSome, MatchOption, drop, length, nat_lt, take};
ghost use Rattle.std.specs.List.{position_or_len};
ghost use Rattle.std.specs.Str.Lines.{strip_carriage_return};
ghost use Rattle.design_io.specs.InputLines.{is_feed, lines_of};

/// The first line of a text without its line feed, whether a line feed ends it, and what stands behind that.
#[derive(Clone, Copy)]
pub struct FirstLine<'a> {
    pub bytes: &'a [u8],
    pub is_ended: bool,
    pub rest: &'a [u8],
}

/// A line without the one carriage return that may be its last byte.
pub fn without_return(line: &[u8]) -> &[u8]
    ensures { result.now ≡ strip_carriage_return line.now }
{
    match line {
        [rest @ .., b'\r'] => rest,
        _ => line,
    }
}

/// The place of the first line feed, or the length where there is none.
pub fn feed_place(bytes: &[u8]) -> usize
    ensures place { result ≡ position_or_len is_feed bytes.now }
    ensures within { result ≤ length bytes.now }
{
    bytes.iter().take_while(|byte| **byte != b'\n').count()
}

// What stands before a place.
fn text_before(text: &[u8], place: usize) -> &[u8]
    requires { place ≤ length text.now }
    ensures { result.now ≡ take place text.now }
{
    &text[..place]
}

// What stands behind a place, where there is some.
fn text_behind(text: &[u8], place: usize) -> &[u8]
    requires { place ≤ length text.now }
    ensures { result.now ≡ drop (place + 1) text.now }
{
    if place < text.len() {
        &text[place + 1..]
    } else {
        &[]
    }
}

/// The first line of a text, and what stands behind it. None exactly where the text is empty: it has no lines then.
#[tactic(auto, using(crate::proofs::LinesOfText::split_lines))]
pub fn split_line(text: &[u8]) -> Option<FirstLine<'_>>
    ensures line { MatchOption result (lines_of text.now ≡ []) (λ l. lines_of text.now ≡ record { bytes = l.bytes.now; is_ended = l.is_ended } ∷ lines_of l.rest.now) }
    ensures shorter { IfSome result (λ l. length l.rest.now < length text.now) }
{
    if text.is_empty() {
        return None;
    }
    let place = feed_place(text);
    Some(FirstLine {
        bytes: text_before(text, place),
        is_ended: place < text.len(),
        rest: text_behind(text, place),
    })
}
