// The value of a level in a month, by document 01's month rule as it is read: a value asks for those that it needs in the next month.
ghost use Rattle.std.specs.Prelude.{◌≡◌};
ghost use Rattle.model.specs.Limits.{small_income};
ghost use Rattle.model.specs.MonthRule.{kept, month, values, rule_of, last_of, claims_of, opening_allowed};
ghost use Rattle.plain_engine.specs.Steps.{Terms};

use crate::steps::{claims_after, followed, last_value, level_value, taken};
use model::{Question, Rounding, WIDE_SCALE};
use numbers::product;
use questions::needs::opening_allowed;
use rounding::month_value;

// V_t(s), with the chances of the months after t and, for both, the claims left to place: with one month fewer to go each time.
pub fn value(
    question: Question,
    chances: &[u32],
    severity: &[u32],
    left: usize,
    level: usize,
    round: Rounding,
) -> u32
    requires { Terms severity.now chances.now level }
    ensures { result ≡ values (month round small_income severity.now) (rule_of question) (last_of question) chances.now left level }
{
    if chances.len() < 1 {
        return last_value(question, left);
    }
    // A month without a claim leads to s + 1, and a claim of size x, which ruins where it is above s, to s + 1 − x.
    let later = &chances[1..];
    let up = level + 1;
    let quiet = level_value(
        question,
        up,
        value(question, later, severity, left, up, round),
    );
    let fewer = claims_after(question, left);
    let most = followed(question, left, level.min(severity.len()));
    let mut sum: u64 = 0;
    for (i, weight) in severity[..most].iter().enumerate() {
        // The claim is of size i + 1.
        let down = level - i;
        let after = value(question, later, severity, fewer, down, round);
        sum += product(*weight, level_value(question, down, after));
    }
    // The sum is divided by S, document 01's A; what is left over goes into the month's one rounding.
    month_value(chances[0], quiet, sum / WIDE_SCALE, sum % WIDE_SCALE, round)
}

// V_0(u), with all claims to place.
pub fn opening_value(
    question: Question,
    chances: &[u32],
    severity: &[u32],
    opening: usize,
    round: Rounding,
) -> u32
    requires { Terms severity.now chances.now opening }
    ensures { result ≡ kept (opening_allowed question) (values (month round small_income severity.now) (rule_of question) (last_of question) chances.now (claims_of question)) opening }
{
    let left = claims_to_place(question);
    let value = value(question, chances, severity, left, opening, round);
    taken(opening_allowed(question, opening), value)
}

// How many claims are to be placed at the opening.
pub fn claims_to_place(question: Question) -> usize
    ensures { result ≡ claims_of question }
{
    match question {
        Question::Survive => 0,
        Question::Both(k) => k,
        Question::High(_) => 0,
        Question::Low(_) => 0,
    }
}
