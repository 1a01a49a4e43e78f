// The row of the lower bounds and that of the upper, each in lent memory of its own: it is filled, taken back through the months, read and all 0 again.
ghost use Rattle.std.specs.Prelude.{◌≡◌, ◌+◌, ◌-◌, ◌<◌, ◌≤◌, IfSome, leb, length, drop, replicate};
ghost use Rattle.model.specs.declared.Rounding.TheVariants.{Down, Up};
ghost use Rattle.model.specs.declared.Question.TheVariants.{Survive};
ghost use Rattle.model.specs.Scale.{S};
ghost use Rattle.model.specs.Levels.{largest_level};
ghost use Rattle.claims.specs.Values.{from_top};
ghost use Rattle.month_rule.specs.Months.{TakenBack};
ghost use Rattle.questions.specs.Needs.{shape_of};
ghost use Rattle.questions.specs.Survival.{survival_row};
ghost use Rattle.target_rows.specs.Least.{least};
ghost use Rattle.target_rows.specs.Rows.{Reaches, GivenUp, Walk, given_month, least_found, found_of};

use claims::table::ListedTable;
use model::{Question, Rounding};
use month_rows::rows::value_at;
use month_rule::months::{all_months_back, month_back};
use questions::needs::shape_of;

// The row of lower bounds from S back through the months, until no level of it reaches the target any more. Answers the month in which it was given up, of months
// from 0 on: no value of an earlier month is above the row's largest.
fn lower_back(
    row: &mut [u32],
    opening: usize,
    income: usize,
    chances: &[u32],
    table: &ListedTable,
    target: u32,
) -> Option<usize>
    requires walk { Walk (length row.old) income opening chances.now }
    requires target_nonzero { (0 < target) × (target ≤ S) }
    ensures given { GivenUp income table.now.severity.now opening chances.now target (given_month result) }
    ensures back { TakenBack Down table.now.severity.now (shape_of Survive (length row.old) income) (largest_level income opening (given_month result - 1)) (drop (given_month result - 1) chances.now)
        (replicate (length row.old) S) row.new }
{
    let shape = shape_of(Question::Survive, row.len(), income);
    row.fill(model::SCALE);
    let mut given_up = None;
    'months: for month in (0..chances.len()).rev() {
        let top = opening + income * (month + 1);
        let last = top - income;
        month_back(row, shape, top, table, chances[month], Rounding::Down);
        for place in 0..last + 1 {
            if target <= row[place] {
                break;
            }
            if place == last {
                given_up = Some(month);
                break 'months;
            }
        }
    }
    given_up
}

// The least level whose value reaches the target, where some level's does.
fn least_level(row: &[u32], top: usize, target: u32) -> usize
    requires top_in_bounds { top < length row.now }
    requires reaches { Reaches target top (from_top top row.now) }
    ensures found { result ≡ least (top + 1) (λ s. leb target (from_top top row.now s)) }
    ensures inside { result ≤ top }
{
    for level in 0..top {
        if target <= value_at(row, top, level) {
            return level;
        }
    }
    top
}

// The least opening that reaches the target, and its lower bound.
#[derive(Clone, Copy)]
pub struct Found {
    pub opening: usize,
    pub lower: u32,
}

fn found_in(row: &[u32], opening: usize, target: u32) -> Found
    requires opening_in_bounds { opening < length row.now }
    requires reaches { Reaches target opening (from_top opening row.now) }
    ensures found { result.opening ≡ least (opening + 1) (λ s. leb target (from_top opening row.now s)) }
    ensures lower { result.lower ≡ from_top opening row.now result.opening }
    ensures inside { result.opening ≤ opening }
{
    let level = least_level(row, opening, target);
    Found {
        opening: level,
        lower: value_at(row, opening, level),
    }
}

// The least opening whose lower bound reaches the target, and that bound, if any does.
pub fn least_lower(
    row: &mut [u32],
    opening: usize,
    income: usize,
    chances: &[u32],
    table: &ListedTable,
    target: u32,
) -> Option<Found>
    requires walk { Walk (length row.old) income opening chances.now }
    requires target_nonzero { (0 < target) × (target ≤ S) }
    ensures found { found_of opening result ≡ least_found income table.now.severity.now opening chances.now target }
    ensures inside { IfSome result (λ f. f.opening ≤ opening) }
    ensures cleared { row.new ≡ replicate (length row.old) 0 }
{
    let given_up = lower_back(row, opening, income, chances, table, target);
    if given_up.is_some() {
        row.fill(0);
        return None;
    }
    let found = found_in(row, opening, target);
    row.fill(0);
    Some(found)
}

// The upper bound at an opening.
pub fn upper_at(
    row: &mut [u32],
    opening: usize,
    income: usize,
    chances: &[u32],
    table: &ListedTable,
) -> u32
    requires { Walk (length row.old) income opening chances.now }
    ensures upper { result ≡ survival_row Up income table.now.severity.now chances.now opening }
    ensures cleared { row.new ≡ replicate (length row.old) 0 }
{
    let shape = shape_of(Question::Survive, row.len(), income);
    row.fill(model::SCALE);
    all_months_back(row, shape, opening, chances, table, Rounding::Up);
    let upper = value_at(row, opening, opening);
    row.fill(0);
    upper
}
