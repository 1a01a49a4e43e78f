// The workspace of a question: two halves with the same rows, the first for the lower bounds and the second for the upper. Whatever last rows the
// halves hold, the walk back through the months is this one.
ghost use Rattle.std.specs.Prelude.{◌≡◌, ℕ, ◌*◌, ◌<◌, length, get_or, take, drop, replicate};
ghost use Rattle.model.specs.declared.Rounding.TheVariants.{Down, Up};
ghost use Rattle.model.specs.Levels.{largest_level};
ghost use Rattle.model.specs.MonthRule.{all_placed};
ghost use Rattle.claims.specs.Values.{Parts};
ghost use Rattle.month_rule.specs.Months.{PlanTerms, HalvesIn, TakenBack};
ghost use Rattle.month_rows.specs.Shapes.{rows_size, values_in};

use crate::months::all_months_back;
use claims::sizes::list_sizes;
use claims::table::ListedTable;
use model::{Bounds, Rounding};
use month_rows::rows::Shape;

// The rows after the last month in one half: S with no claims left, and 0 otherwise.
fn last_rows(rows: &mut [u32], shape: Shape)
    requires { (0 < shape.rows) × (length rows.old ≡ rows_size shape) }
    ensures filled { (top : ℕ) → top < shape.width → (k : ℕ) → k < shape.rows → (s : ℕ) → values_in shape top rows.new k s ≡ all_placed k s }
    ensures parts { Parts rows.new }
{
    let start = (shape.rows - 1) * shape.width;
    rows.fill(0);
    rows[start..].fill(model::SCALE);
}

// The same in both halves.
pub fn last_halves(halves: &mut [u32], shape: Shape)
    requires { (0 < shape.rows) × (length halves.old ≡ 2 * rows_size shape) }
    ensures lower { (top : ℕ) → top < shape.width → (k : ℕ) → k < shape.rows → (s : ℕ) →
        values_in shape top (take (rows_size shape) halves.new) k s ≡ all_placed k s }
    ensures upper { (top : ℕ) → top < shape.width → (k : ℕ) → k < shape.rows → (s : ℕ) →
        values_in shape top (drop (rows_size shape) halves.new) k s ≡ all_placed k s }
    ensures parts { Parts halves.new }
{
    let half = shape.rows * shape.width;
    last_rows(&mut halves[..half], shape);
    last_rows(&mut halves[half..], shape);
}

// Both halves back through the months, with the listed sizes that are not empty.
fn listed_halves_back(
    halves: &mut [u32],
    shape: Shape,
    opening: usize,
    chances: &[u32],
    table: &ListedTable,
)
    requires halves_in { HalvesIn shape halves.old }
    requires chances_bound { largest_level shape.income opening (length chances.now) < shape.width }
    requires chances_fit { Parts chances.now }
    ensures lower { TakenBack Down table.now.severity.now shape opening chances.now (take (rows_size shape) halves.old) (take (rows_size shape) halves.new) }
    ensures upper { TakenBack Up table.now.severity.now shape opening chances.now (drop (rows_size shape) halves.old) (drop (rows_size shape) halves.new) }
{
    let half = shape.rows * shape.width;
    all_months_back(
        &mut halves[..half],
        shape,
        opening,
        chances,
        table,
        Rounding::Down,
    );
    all_months_back(
        &mut halves[half..],
        shape,
        opening,
        chances,
        table,
        Rounding::Up,
    );
}

// Both halves back through the months, the first rounded down and the second up. The sizes that are not empty are listed once for all of it.
pub fn halves_back(
    halves: &mut [u32],
    shape: Shape,
    opening: usize,
    chances: &[u32],
    severity: &[u32],
)
    requires halves_in { HalvesIn shape halves.old }
    requires chances_bound { largest_level shape.income opening (length chances.now) < shape.width }
    requires plan_terms { PlanTerms severity.now chances.now }
    ensures lower { TakenBack Down severity.now shape opening chances.now (take (rows_size shape) halves.old) (take (rows_size shape) halves.new) }
    ensures upper { TakenBack Up severity.now shape opening chances.now (drop (rows_size shape) halves.old) (drop (rows_size shape) halves.new) }
{
    let filled = list_sizes(severity);
    let table = filled.table(severity);
    listed_halves_back(halves, shape, opening, chances, &table);
}

// The bounds that the halves hold at their first places, with all of them 0 again.
pub fn take_bounds(halves: &mut [u32], half: usize) -> Bounds
    requires { (0 < length halves.old) × (half < length halves.old) }
    ensures taken { (result.lower ≡ get_or halves.old 0 0) × (result.upper ≡ get_or halves.old half 0) }
    ensures cleared { halves.new ≡ replicate (length halves.old) 0 }
{
    let lower = halves[0];
    let upper = halves[half];
    halves.fill(0);
    Bounds { lower, upper }
}
