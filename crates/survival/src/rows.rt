// Both rows of survival, worked in the workspace, and their values at every opening.
ghost use Rattle.std.specs.Prelude.{◌≡◌, ◌+◌, ◌*◌, ◌<◌, length, take, drop, replicate};
ghost use Rattle.model.specs.declared.Rounding.TheVariants.{Down, Up};
ghost use Rattle.model.specs.Levels.{row_levels};
ghost use Rattle.claims.specs.Values.{from_top};
ghost use Rattle.month_rule.specs.Months.{PlanTerms};
ghost use Rattle.survival.specs.Openings.{interleaved};
ghost use Rattle.questions.specs.Survival.{survival_row};

use model::Question;
use month_rows::rows::value_at;
use month_rule::halves::{halves_back, last_halves};
use questions::needs::shape_of;

// The values of the two halves at the levels 0 to `top`, which each has at place 0, in pairs.
fn put_pairs(pairs: &mut [u32], halves: &[u32], half: usize, top: usize)
    requires pairs_len { length pairs.old ≡ 2 * (top + 1) }
    requires top_lt_half { (top < half) × (length halves.now ≡ 2 * half) }
    ensures { pairs.new ≡ interleaved (top + 1) (from_top top (take half halves.now)) (from_top top (drop half halves.now)) }
{
    for level in 0..top + 1 {
        let lower = value_at(&halves[..half], top, level);
        let upper = value_at(&halves[half..], top, level);
        let place = 2 * level;
        pairs[place] = lower;
        pairs[place + 1] = upper;
    }
}

// One walk back through the months for all openings, the first half of the workspace rounded down and the second up; all of it is 0 again.
pub fn put_openings(
    bounds: &mut [u32],
    workspace: &mut [u32],
    opening: usize,
    income: usize,
    chances: &[u32],
    severity: &[u32],
)
    requires bounds_len { length bounds.old ≡ 2 * (opening + 1) }
    requires income_nonzero { (0 < income) × (length workspace.old ≡ 2 * row_levels income opening (length chances.now)) }
    requires plan_terms { PlanTerms severity.now chances.now }
    ensures put { bounds.new
        ≡ interleaved (opening + 1) (survival_row Down income severity.now chances.now) (survival_row Up income severity.now chances.now) }
    ensures cleared { workspace.new ≡ replicate (length workspace.old) 0 }
{
    let half = opening + income * chances.len() + 1;
    let shape = shape_of(Question::Survive, half, income);
    last_halves(workspace, shape);
    halves_back(workspace, shape, opening, chances, severity);
    put_pairs(bounds, workspace, half, opening);
    workspace.fill(0);
}
