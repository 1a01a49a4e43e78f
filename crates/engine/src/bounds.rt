// The two bounds of a call, worked in the workspace that it needs.
ghost use Rattle.std.specs.Prelude.{◌≡◌, ◌+◌, ◌*◌, ◌-◌, ◌^◌, ◌<◌, ◌≤◌, length, take, drop, replicate};
ghost use Rattle.model.specs.declared.Rounding.TheVariants.{Down, Up};
ghost use Rattle.model.specs.Limits.{max_income};
ghost use Rattle.model.specs.Levels.{largest_level};
ghost use Rattle.model.specs.MonthRule.{month, values};
ghost use Rattle.claims.specs.Values.{Parts};
ghost use Rattle.month_rule.specs.Months.{PlanTerms, rule_by};
ghost use Rattle.month_rows.specs.Shapes.{rows_size};
ghost use Rattle.engine.specs.LastRows.{last_rows, LastIn, LastFits};

use model::Bounds;
use month_rows::rows::Shape;
use month_rule::halves;
use ruin_rows::ruin_halves;

// The rows from which the months go back: S where all claims are placed, or those before a month with this chance in which the fund is ruined.
#[derive(Clone, Copy)]
pub enum LastRows {
    Placed,
    Ruin(u32),
}

// Both halves with their last rows, which have the level `top` at place 0.
fn put_last(
    halves: &mut [u32],
    shape: Shape,
    top: usize,
    severity: &[u32],
    tail: u32,
    last: LastRows,
)
    requires halves_len { (length halves.old ≡ 2 * rows_size shape) × (top < shape.width) × (top + shape.income < 2 ^ 64) }
    requires last_fits { LastFits last shape severity.now tail }
    ensures lower { LastIn last Down severity.now tail shape top (take (rows_size shape) halves.new) }
    ensures upper { LastIn last Up severity.now tail shape top (drop (rows_size shape) halves.new) }
    ensures parts { Parts halves.new }
{
    match last {
        LastRows::Placed => halves::last_halves(halves, shape),
        LastRows::Ruin(chance) => ruin_halves(
            halves,
            shape.width,
            top,
            shape.income,
            severity,
            tail,
            chance,
        ),
    }
}

// The values at the opening with all claims to place, from the last rows; the halves are all 0 again.
pub fn bounds_from(
    workspace: &mut [u32],
    shape: Shape,
    opening: usize,
    chances: &[u32],
    severity: &[u32],
    tail: u32,
    last: LastRows,
) -> Bounds
    requires workspace_len { (length workspace.old ≡ 2 * rows_size shape) × (largest_level shape.income opening (length chances.now) < shape.width) }
    requires income_nonzero { (0 < shape.income) × (shape.income ≤ max_income) }
    requires plan_terms { PlanTerms severity.now chances.now }
    requires last_fits { LastFits last shape severity.now tail }
    ensures lower { result.lower ≡ values (month Down shape.income severity.now) (rule_by shape) (last_rows last Down shape.income severity.now tail) chances.now (shape.rows - 1) opening }
    ensures upper { result.upper ≡ values (month Up shape.income severity.now) (rule_by shape) (last_rows last Up shape.income severity.now tail) chances.now (shape.rows - 1) opening }
    ensures cleared { workspace.new ≡ replicate (length workspace.old) 0 }
{
    let top = opening + shape.income * chances.len();
    put_last(workspace, shape, top, severity, tail, last);
    halves::halves_back(workspace, shape, opening, chances, severity);
    halves::take_bounds(workspace, shape.rows * shape.width)
}
