// All rows of a question through months, from whatever they hold.
ghost use Rattle.std.specs.Prelude.{◌≡◌, ℕ, ◌+◌, ◌-◌, ◌<◌, ◌≤◌, length};
ghost use Rattle.model.specs.Scale.{S};
ghost use Rattle.model.specs.Levels.{largest_level};
ghost use Rattle.model.specs.MonthRule.{kept, month, month_back};
ghost use Rattle.claims.specs.Values.{Parts};
ghost use Rattle.month_rows.specs.Rows.{at};
ghost use Rattle.month_rule.specs.Months.{rule_by, TakenBack};
ghost use Rattle.month_rows.specs.Shapes.{row_with, values_in, RowsIn, TopIn, allowed_places};

use claims::table::ListedTable;
use model::Rounding;
use month_rows::rows::{Shape, all_rows_back, forbid_rows};

// One month: what lies at forbidden levels counts as 0, then every row goes back.
pub fn month_back(
    rows: &mut [u32],
    shape: Shape,
    top: usize,
    table: &ListedTable,
    chance: u32,
    round: Rounding,
)
    requires rows_in { RowsIn shape rows.old }
    requires top_in { TopIn shape top }
    requires chance_fits { chance ≤ S }
    ensures back { (k : ℕ) → k < shape.rows → (s : ℕ) → s + shape.income ≤ top →
        values_in shape (top - shape.income) rows.new k s
        ≡ month_back (month round shape.income table.now.severity.now) (rule_by shape) chance (values_in shape top rows.old) k s }
    ensures beyond { (k : ℕ) → k < shape.rows → (i : ℕ) → top < i + shape.income → i < shape.width →
        at (row_with shape rows.new k) i ≡ kept (allowed_places shape top) (at (row_with shape rows.old k)) i }
    ensures parts { Parts rows.new }
{
    forbid_rows(rows, shape, top);
    all_rows_back(rows, shape, top, table, chance, round);
}

// All months, the last one first: from the largest level at place 0 to the opening there.
pub fn all_months_back(
    rows: &mut [u32],
    shape: Shape,
    opening: usize,
    chances: &[u32],
    table: &ListedTable,
    round: Rounding,
)
    requires rows_in { RowsIn shape rows.old }
    requires chances_bound { largest_level shape.income opening (length chances.now) < shape.width }
    requires chances_fit { Parts chances.now }
    ensures values { TakenBack round table.now.severity.now shape opening chances.now rows.old rows.new }
    ensures parts { Parts rows.new }
{
    if chances.len() < 1 {
        return;
    }
    let after = opening + shape.income;
    all_months_back(rows, shape, after, &chances[1..], table, round);
    month_back(rows, shape, after, table, chances[0], round);
}
