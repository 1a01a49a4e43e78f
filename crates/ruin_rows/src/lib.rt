// The rows before a month in which the fund may first be ruined, in lent memory: where the walk back through the months before it begins.
#![tactic(auto)]

ghost use Rattle.std.specs.Prelude.{◌≡◌, ◌+◌, ◌*◌, ◌-◌, ◌^◌, ◌<◌, ◌≤◌, length, take, drop, replicate};
ghost use Rattle.model.specs.Scale.{S};
ghost use Rattle.model.specs.declared.Rounding.TheVariants.{Down, Up};
ghost use Rattle.model.specs.Sums.{total};
ghost use Rattle.model.specs.MonthRule.{ruin_weight, ruin_row};
ghost use Rattle.claims.specs.Values.{Parts};
ghost use Rattle.month_rows.specs.Rows.{Replaced};
ghost use Rattle.ruin_rows.specs.Terms.{RuinTerms};

use model::Rounding;
use rounding::divide;

// The weight of the claims that ruin at the level at which they come: of all sizes from that level on, and over.
pub fn ruin_weight(severity: &[u32], tail: u32, level: usize) -> u64
    requires { total severity.now + tail ≤ S }
    ensures { result ≡ ruin_weight severity.now tail level }
{
    let from = level.saturating_sub(1).min(severity.len());
    let listed: u64 = severity[from..].iter().map(|f| u64::from(*f)).sum();
    u64::from(tail) + listed
}

// The row before a month with this chance, from the level `top` at place 0 down to level 0.
fn ruin_row(
    row: &mut [u32],
    top: usize,
    income: usize,
    severity: &[u32],
    tail: u32,
    chance: u32,
    round: Rounding,
)
    requires top_in_bounds { (top < length row.old) × Parts row.old × (top + income < 2 ^ 64) }
    requires ruin_terms { RuinTerms severity.now tail chance }
    ensures rewritten { Replaced 0 (top + 1) (λ i. ruin_row round income severity.now tail chance (top - i)) row.old row.new }
    ensures parts { Parts row.new }
{
    for i in 0..=top {
        let weight = ruin_weight(severity, tail, top - i + income);
        row[i] = divide(u64::from(chance) * weight, round);
    }
}

// The same in both halves of a workspace, the first rounded down and the second up, with 0 past the row's last level.
pub fn ruin_halves(
    halves: &mut [u32],
    half: usize,
    top: usize,
    income: usize,
    severity: &[u32],
    tail: u32,
    chance: u32,
)
    requires halves_len { (length halves.old ≡ 2 * half) × (top < half) × (top + income < 2 ^ 64) }
    requires ruin_terms { RuinTerms severity.now tail chance }
    ensures lower { Replaced 0 (top + 1) (λ i. ruin_row Down income severity.now tail chance (top - i)) (replicate half 0) (take half halves.new) }
    ensures upper { Replaced 0 (top + 1) (λ i. ruin_row Up income severity.now tail chance (top - i)) (replicate half 0) (drop half halves.new) }
    ensures parts { Parts halves.new }
{
    halves.fill(0);
    ruin_row(
        &mut halves[..half],
        top,
        income,
        severity,
        tail,
        chance,
        Rounding::Down,
    );
    ruin_row(
        &mut halves[half..],
        top,
        income,
        severity,
        tail,
        chance,
        Rounding::Up,
    );
}
