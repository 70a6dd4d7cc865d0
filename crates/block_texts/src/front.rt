// What stands at the front of a text.
ghost use Rattle.std.specs.Prelude.{◌≡◌, ◌+◌, ◌<◌, ◌≤◌, ◌^◌, IfSome, MatchOption, None, Option, Some, drop, false, length, option_map, take};
ghost use Rattle.std.specs.List.{prefix_len};
ghost use Rattle.std.specs.Char.{is_ascii_digit};
ghost use Rattle.std.specs.Str.Parse.{digits_value};
ghost use Rattle.design_base.specs.declared.limits.TheConstants.{BLOCK_DIGITS_MAX};
ghost use Rattle.design_lines.specs.Words.{is_blank as is_blank_byte};
ghost use Rattle.block_texts.specs.BlockLines.{block_number};
ghost use Rattle.block_texts.specs.Fronts.{behind_blanks as blanks_left, behind_digits, digits_of, line_end as end_of, plain_end as plain_end_of};

use design_base::BLOCK_DIGITS_MAX;

// Whether a byte separates numbers.
fn is_blank(byte: u8) -> bool
    ensures { result ≡ is_blank_byte byte }
{
    byte == b' ' || byte == b'\t'
}

// What stands behind the blanks at the front.
#[tactic(auto, using(crate::proofs::Fronts::behind_none, crate::proofs::Fronts::behind_more))]
pub fn behind_blanks(text: &[u8]) -> &[u8]
    ensures { result.now ≡ blanks_left text.now }
{
    let mut rest = text;
    while let Some((byte, more)) = rest.split_first() {
        if !is_blank(*byte) {
            return rest;
        }
        rest = more;
    }
    rest
}

// What stands behind a line that ends here without a carriage return.
fn plain_end(text: &[u8]) -> Option<Option<&[u8]>>
    ensures { MatchOption result (plain_end_of text.now ≡ None) (λ next. plain_end_of text.now ≡ Some (option_map (λ rest. rest.now) next)) }
{
    match text.split_first() {
        None => Some(None),
        Some((b'\n', rest)) => Some(Some(rest)),
        Some(_) => None,
    }
}

// What stands behind a line that ends here: its line feed or the end of the text, or a carriage return and one of these.
pub fn line_end(text: &[u8]) -> Option<Option<&[u8]>>
    ensures { MatchOption result (end_of text.now ≡ None) (λ next. end_of text.now ≡ Some (option_map (λ rest. rest.now) next)) }
{
    match text.split_first() {
        Some((b'\r', rest)) => plain_end(rest),
        _ => plain_end(text),
    }
}

// How many digits stand at the front, of which no more are counted than tell that there are too many, and what they write.
#[derive(Clone, Copy)]
struct Digits {
    count: usize,
    value: u32,
}

// The digits at the front of a text.
fn digits_at_front(text: &[u8]) -> Digits
    ensures within { result.count ≤ length text.now }
    ensures few { result.count ≤ BLOCK_DIGITS_MAX → prefix_len is_ascii_digit text.now ≡ result.count }
    ensures many { BLOCK_DIGITS_MAX < result.count → BLOCK_DIGITS_MAX < prefix_len is_ascii_digit text.now }
    ensures value { result.value ≡ digits_value 10 (take result.count text.now) }
{
    let most = text.len().min(BLOCK_DIGITS_MAX + 1);
    let mut value = 0;
    for count in 0..most {
        let byte = text[count];
        if !byte.is_ascii_digit() {
            return Digits { count, value };
        }
        value = 10 * value + u32::from(byte - b'0');
    }
    Digits { count: most, value }
}

// The number at the front, and what stands behind its digits: one to five digits, and at most 65,535.
pub fn number_at_front(text: &[u8]) -> Option<(u16, &[u8])>
    ensures number { MatchOption result (block_number (digits_of text.now) ≡ None) (λ r. block_number (digits_of text.now) ≡ Some r.0) }
    ensures rest { IfSome result (λ r. r.1.now ≡ behind_digits text.now) }
{
    let digits = digits_at_front(text);
    if digits.count == 0 || digits.count > BLOCK_DIGITS_MAX {
        return None;
    }
    let Ok(number) = u16::try_from(digits.value) else {
        return None;
    };
    Some((number, &text[digits.count..]))
}
