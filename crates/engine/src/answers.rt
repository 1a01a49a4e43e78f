// The two bounds that a call answers where nothing is refused: both 0, or worked out from the last rows.
ghost use Rattle.std.specs.Prelude.{◌≡◌, ◌++◌, ◌*◌, ◌≤◌, length, drop, replicate};
ghost use Rattle.model.specs.declared.Rounding.TheVariants.{Down, Up};
ghost use Rattle.model.specs.Plan.{plan_of};
ghost use Rattle.model.specs.Refusal.{Accepted};
ghost use Rattle.month_rows.specs.Shapes.{rows_size};
ghost use Rattle.engine.specs.LastRows.{LastFits, Workable, opening_value};

use crate::bounds::{LastRows, bounds_from};
use model::{Bounds, Head};
use month_rows::rows::Shape;

// The answer where the question forbids the opening: both bounds are 0 with no month worked, and the needed part of the workspace is all 0 as after
// any other answer.
pub fn none_allowed(needed: usize, workspace: &mut [u32]) -> Bounds
    requires { needed ≤ length workspace.old }
    ensures answered { (result.lower ≡ 0) × (result.upper ≡ 0) }
    ensures cleared { workspace.new ≡ replicate needed 0 ++ drop needed workspace.old }
{
    workspace[..needed].fill(0);
    let chance = 0;
    Bounds {
        lower: chance,
        upper: chance,
    }
}

// The bounds at the opening, from the last rows through the plan's first months; the rows of both are all 0 again.
pub fn work_out(
    head: Head,
    months: usize,
    shape: Shape,
    last: LastRows,
    row: &[u32],
    workspace: &mut [u32],
) -> Bounds
    requires accepted { Accepted head row.now }
    requires workable { Workable head months shape (length workspace.old) }
    requires last_fits { LastFits last shape (plan_of head row.now).severity (plan_of head row.now).tail }
    ensures lower { result.lower ≡ opening_value Down (plan_of head row.now) months shape last }
    ensures upper { result.upper ≡ opening_value Up (plan_of head row.now) months shape last }
    ensures cleared { workspace.new ≡ replicate (2 * rows_size shape) 0 ++ drop (2 * rows_size shape) workspace.old }
{
    let first = head.months;
    let end = first + head.sizes;
    let needed = 2 * (shape.rows * shape.width);
    bounds_from(
        &mut workspace[..needed],
        shape,
        head.opening,
        &row[..months],
        &row[first..end],
        row[end],
        last,
    )
}
