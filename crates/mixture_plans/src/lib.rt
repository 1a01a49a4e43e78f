// The plans of a mixture: how they lie in one row, and when they are refused.
#![tactic(auto)]

ghost use Rattle.std.specs.Prelude.{◌≡◌, true, cond, ◌+◌, ◌-◌, ◌≤◌, min, eqb, length, take, drop};
ghost use Rattle.model.specs.Scale.{S};
ghost use Rattle.model.specs.Sums.{total};
ghost use Rattle.model.specs.Plan.{row_length};
ghost use Rattle.model.specs.Refusal.{HeadAccepted, first, refused_with};
ghost use Rattle.mixture_plans.specs.Components.{unlike};
ghost use Rattle.mixture_plans.specs.Rows.{weights_used, rows_of, plans_in};
ghost use Rattle.mixture_plans.specs.Refusal.{Counted, count_outside, each_checks, mixture_refusal, mixture_ask_refusal};

use model::{Ask, Head, Question, Refusal, WIDE_SCALE, limits};
use plan::lengths::row_length;
use plan::{check_head, check_plan, sum_of};
use questions::refusals::{check_question, check_room};

// A mixture, document 02's mix: so many plans, with a head and a weight for each; heads and weights past the count are not looked at. The plans' rows
// are lent beside it, end to end.
#[derive(Clone, Copy)]
pub struct Mixture {
    pub count: usize,
    pub heads: [Head; limits::PLANS],
    pub weights: [u32; limits::PLANS],
}

// The first refusal that fits a mixture and a question, with a workspace of the given length.
pub fn check_ask(
    mixture: Mixture,
    question: Question,
    row: &[u32],
    room: usize,
) -> Result<(), Refusal>
    ensures { refused_with result ≡ mixture_ask_refusal mixture question row.now room }
{
    check_mixture(mixture, row)?;
    check_question(question)?;
    let heads = mixture.heads;
    let head = heads[0];
    check_room(Ask { head, question }, room)
}

// The first refusal that fits a mixture, whatever is asked of it.
pub fn check_mixture(mixture: Mixture, row: &[u32]) -> Result<(), Refusal>
    ensures { refused_with result ≡ mixture_refusal mixture row.now }
{
    if count_is_outside(mixture.count) {
        return Err(Refusal::Mixture);
    }
    check_each(mixture, row)?;
    if is_unlike(mixture, row) {
        return Err(Refusal::Mixture);
    }
    if !weights_add(mixture) {
        return Err(Refusal::Mixture);
    }
    Ok(())
}

pub fn count_is_outside(count: usize) -> bool
    ensures { result ≡ count_outside count }
{
    count == 0 || limits::PLANS < count
}

// The earliest refused plan's own number.
fn check_each(mixture: Mixture, row: &[u32]) -> Result<(), Refusal>
    requires { Counted mixture }
    ensures { refused_with result ≡ first (each_checks (rows_of mixture row.now)) }
{
    let heads = mixture.heads;
    let count = mixture.count;
    let mut start = 0;
    for i in 0..count {
        let head = heads[i];
        check_head(head)?;
        let end = row_end(head, start, row.len(), i + 1 == count);
        check_plan(head, &row[start..end])?;
        start = end;
    }
    Ok(())
}

// Where the row of a plan ends that begins at `start` in a row of the given length: the last plan's is all that is left.
fn row_end(head: Head, start: usize, length: usize, last: bool) -> usize
    requires head_accepted { HeadAccepted head }
    requires start_in_bounds { start ≤ length }
    ensures { result ≡ cond last length (start + min (row_length head) (length - start)) }
{
    if last {
        length
    } else {
        start + row_length(head).min(length - start)
    }
}

// Whether some plan is unlike the first elsewhere than in its chances. As long as they are alike, their rows have one length.
fn is_unlike(mixture: Mixture, row: &[u32]) -> bool
    requires counted { Counted mixture }
    requires row_value { first (each_checks (rows_of mixture row.now)) ≡ 0 }
    ensures { result ≡ unlike (plans_in mixture row.now) }
{
    let heads = mixture.heads;
    let count = mixture.count;
    let head = heads[0];
    let step = row_length(head);
    let months = head.months;
    let mut start = step;
    for i in 1..count {
        if heads[i] != head || row[start + months..start + step] != row[months..step] {
            return true;
        }
        start += step;
    }
    false
}

fn weights_add(mixture: Mixture) -> bool
    requires { Counted mixture }
    ensures { result ≡ eqb (total (weights_used mixture)) S }
{
    let weights = mixture.weights;
    let count = mixture.count;
    sum_of(&weights[..count]) == WIDE_SCALE
}
