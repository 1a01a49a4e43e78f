// What a question says of one step: the levels that it allows, the claims that it still follows, and the last value.
ghost use Rattle.std.specs.Prelude.{◌≡◌, ℕ, cond};
ghost use Rattle.model.specs.MonthRule.{rule_of, last_of};
ghost use Rattle.plain_engine.specs.Answers.{too_large};
ghost use Rattle.plain_engine.specs.Steps.{left_after, sizes_followed};

use model::{Head, Question, SCALE, limits};

// Whether a plan is too large to be followed month by month.
#[tactic(auto, unfolding(crate::specs::Answers::too_large))]
pub fn is_large(head: Head) -> bool
    ensures { result ≡ too_large head }
{
    limits::SMALL_MONTHS < head.months
        || limits::SMALL_OPENING < head.opening
        || head.income != limits::SMALL_INCOME
}

// Whether a question allows a level at the end of a month.
pub fn level_allowed(question: Question, level: usize) -> bool
    ensures { result ≡ (rule_of question).allowed level }
{
    match question {
        Question::Survive => true,
        Question::Both(_) => true,
        Question::High(most) => level <= most,
        Question::Low(least) => least <= level,
    }
}

// A value, taken as 0 where its level is forbidden.
pub fn taken(allowed: bool, value: u32) -> u32
    ensures { result ≡ cond allowed value 0 }
{
    if allowed { value } else { 0 }
}

// The value of a level at the end of a month.
pub fn level_value(question: Question, level: usize, value: u32) -> u32
    ensures { result ≡ cond ((rule_of question).allowed level) value 0 }
{
    taken(level_allowed(question, level), value)
}

// The claims left to place after one more; only both counts them.
pub fn claims_after(question: Question, left: usize) -> usize
    ensures { result ≡ left_after ((rule_of question).after_claim left) }
{
    match question {
        Question::Survive => left,
        Question::Both(_) => left.saturating_sub(1),
        Question::High(_) => left,
        Question::Low(_) => left,
    }
}

// Of so many claim sizes, those that are followed: none where both has no claim left to place.
pub fn followed(question: Question, left: usize, sizes: usize) -> usize
    ensures { result ≡ sizes_followed ((rule_of question).after_claim left) sizes }
{
    match question {
        Question::Survive => sizes,
        Question::Both(_) => if left == 0 { 0 } else { sizes },
        Question::High(_) => sizes,
        Question::Low(_) => sizes,
    }
}

// The value when all months have ended.
pub fn last_value(question: Question, left: usize) -> u32
    ensures { (level : ℕ) → result ≡ last_of question left level }
{
    match question {
        Question::Survive => SCALE,
        Question::Both(_) => if left == 0 { SCALE } else { 0 },
        Question::High(_) => SCALE,
        Question::Low(_) => SCALE,
    }
}
