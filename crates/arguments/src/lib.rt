// What a program was asked, from its arguments: a number, or a question and its number.
#![tactic(auto)]

ghost use Rattle.std.specs.Prelude.{◌≡◌, min};
ghost use Rattle.arguments.specs.Numbers.{with_digit, most_number, number_of, number_told};
ghost use Rattle.arguments.specs.Words.{by_word, question_of, question_told};

use model::Question;

// Reads a number that is written in decimal; leading zeros change nothing.
#[tactic(auto, using(crate::proofs::Spelling::spelling))]
pub fn number_of(argument: &[u8]) -> Option<u32>
    ensures { number_told result ≡ number_of argument.now }
{
    if argument.is_empty() {
        return None;
    }
    let mut number = 0;
    for byte in argument {
        if !byte.is_ascii_digit() {
            return None;
        }
        number = next_number(number, *byte);
    }
    Some(number)
}

// A number with a digit more at its end; one too large for 32 bits is cut off there.
fn next_number(number: u32, byte: u8) -> u32
    ensures { result ≡ min (with_digit number byte) most_number }
{
    let digit = byte.saturating_sub(b'0');
    number.saturating_mul(10).saturating_add(u32::from(digit))
}

// The questions that have a number.
#[tactic(auto, using(crate::proofs::WordLaws::same_pointwise), unfolding(crate::specs::Words::by_word))]
fn numbered(word: &[u8], number: usize) -> Option<Question>
    ensures { question_told result ≡ by_word word.now number }
{
    if word == b"both".as_slice() {
        Some(Question::Both(number))
    } else if word == b"high".as_slice() {
        Some(Question::High(number))
    } else if word == b"low".as_slice() {
        Some(Question::Low(number))
    } else {
        None
    }
}

// Reads a question from so many words, of which it takes the first two: none are survive, and the others are as the report has them.
#[tactic(auto, using(crate::proofs::WordLaws::same_pointwise), unfolding(crate::specs::Words::question_of))]
pub fn question_of(count: usize, word: &[u8], number: &[u8]) -> Option<Question>
    ensures { question_told result ≡ question_of count word.now number.now }
{
    match count {
        0 => Some(Question::Survive),
        1 if word == b"survive".as_slice() => Some(Question::Survive),
        // std has no From that makes a u32 a usize.
        2 => numbered(word, number_of(number)? as usize),
        _ => None,
    }
}
