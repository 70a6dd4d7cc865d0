//! The numbers that words spell.
ghost use Rattle.std.specs.Prelude.{◌≡◌, ◌<◌, ◌≤◌, ◌^◌, length, IfSome};
ghost use Rattle.design_base.specs.Limits.{HasFewDigits};
ghost use Rattle.std.specs.Char.{is_ascii_digit};
ghost use Rattle.design_lines.specs.Words.{value_of as written, is_short as is_spelled_short, number_of as spelled};

use design_base::DIGITS_MAX;

/// The number that at most nine digits write; none where there is another byte.
pub fn value_of(digits: &[u8]) -> Option<u64>
    requires { length digits.now ≤ 9 }
    ensures value { result ≡ written digits.now }
    ensures small { IfSome result (λ n. n < 10 ^ length digits.now) }
{
    let mut value = 0;
    for digit in digits {
        if !digit.is_ascii_digit() {
            return None;
        }
        value = 10 * value + u64::from(digit - b'0');
    }
    Some(value)
}

// One to six bytes, of which the first is 0 only where there is no other.
fn is_short(word: &[u8]) -> bool
    ensures { result ≡ is_spelled_short word.now }
{
    1 <= word.len() && word.len() <= DIGITS_MAX && (word.len() == 1 || word[0] != b'0')
}

/// The number that a word of a command spells.
#[tactic(auto, unfolding(crate::specs::Words::number_of))]
pub fn number_of(word: &[u8]) -> Option<u64>
    ensures value { result ≡ spelled word.now }
    ensures small { IfSome result HasFewDigits }
{
    if is_short(word) { value_of(word) } else { None }
}
