// Rows of values in lent memory. The place in a row is what has been paid in claims: a month without a claim keeps the place, a claim of size x
// leads x places on. So a month reads a place and those beyond it, and rewrites a row in place going upward.
ghost use Rattle.std.specs.Prelude.{◌≡◌, ℕ, ◌+◌, ◌-◌, ◌<◌, ◌≤◌, length, drop};
ghost use Rattle.model.specs.Scale.{S};
ghost use Rattle.model.specs.MonthRule.{month, kept, claimed_row};
ghost use Rattle.claims.specs.Values.{from_top, Parts};
ghost use Rattle.month_rows.specs.Rows.{at, Replaced, between, own_sizes, after_claim_by};
ghost use Rattle.month_rows.specs.Shapes.{row_with, values_in, RowsIn, TopIn, allowed_places};

use claims::sizes::first_within;
use claims::sum::claim_sum;
use claims::table::ListedTable;
use model::Rounding;
use rounding::month_value;

// What a question on a plan asks of the rows: how many there are, the places of each, the income of a month, whether the rows are told apart by the
// claims left, and the levels that are not forbidden, from `low` on and below `above`.
#[derive(Clone, Copy)]
pub struct Shape {
    pub rows: usize,
    pub width: usize,
    pub income: usize,
    pub tallied: bool,
    pub low: usize,
    pub above: usize,
}

// A row's value at a level, where place 0 holds the level `top`.
pub fn value_at(row: &[u32], top: usize, level: usize) -> u32
    requires { (level ≤ top) × (top < length row.now) }
    ensures { result ≡ from_top top row.now level }
{
    row[top - level]
}

// The row at index `quiet` goes back one month: its first `live` places, from level live - 1 down to 0. Place 0 held the level `top`, so that the income
// is top + 1 - live. After a claim the row at index `claimed` is read, which lies no earlier, and no claim leads to level 0, at place `top`. As the levels
// fall, the largest sizes leave the range for good. Inlined, so that the call for the last row, which reads the row that it rewrites, is compiled by itself.
#[inline(always)]
pub fn row_back(
    rows: &mut [u32],
    quiet: usize,
    claimed: usize,
    top: usize,
    live: usize,
    table: &ListedTable,
    chance: u32,
    round: Rounding,
)
    requires quiet_le_claimed { (quiet ≤ claimed) × (live ≤ top) × (claimed + top ≤ length rows.old) }
    requires parts_2 { Parts rows.old }
    requires chance_fits { chance ≤ S }
    ensures rewritten { Replaced quiet live
        (λ i. month round (top + 1 - live) table.now.severity.now chance (from_top top (drop quiet rows.old)) (from_top top (drop claimed rows.old)) (live - 1 - i))
        rows.old rows.new }
    ensures parts { Parts rows.new }
{
    let end = claimed + top;
    let mut first = 0;
    for i in 0..live {
        let next = claimed + i + 1;
        let most = (end - next).min(table.severity.len());
        first = first_within(table.sizes, first, most);
        let claims = claim_sum(
            table.severity,
            &table.sizes[first..],
            table.dense,
            &rows[next..end],
        );
        let place = quiet + i;
        rows[place] = month_value(
            chance,
            rows[place],
            claims.quotient,
            claims.remainder,
            round,
        );
    }
}

// Sets a row's places below `first` and from `last` on to 0.
fn forbid(row: &mut [u32], first: usize, last: usize)
    ensures { at row.new ≡ kept (between first last) (at row.old) }
{
    let low = first.min(row.len());
    row[..low].fill(0);
    let high = last.min(row.len());
    row[high..].fill(0);
}

// Sets the forbidden levels of each row to 0, where place 0 holds the level `top`.
pub fn forbid_rows(rows: &mut [u32], shape: Shape, top: usize)
    requires { RowsIn shape rows.old × (top < shape.width) }
    ensures forbidden { (k : ℕ) → k < shape.rows → (i : ℕ) → i < shape.width →
        at (row_with shape rows.new k) i ≡ kept (allowed_places shape top) (at (row_with shape rows.old k)) i }
    ensures parts { Parts rows.new }
{
    let width = shape.width;
    let first = (top + 1).saturating_sub(shape.above);
    let last = (top + 1).saturating_sub(shape.low);
    for j in 0..shape.rows {
        let start = j * width;
        forbid(&mut rows[start..start + width], first, last);
    }
}

// How many sizes a claim may have in the row with no claims left: none if the rows are told apart by the claims left.
fn own_sizes(tallied: bool, sizes: usize) -> usize
    ensures { result ≡ own_sizes tallied sizes }
{
    if tallied { 0 } else { sizes }
}

// All rows through one month, from place 0 at the level `top` to place 0 one income below. A claim leads to the next row, with one claim fewer left: so
// from the first row on.
pub fn all_rows_back(
    rows: &mut [u32],
    shape: Shape,
    top: usize,
    table: &ListedTable,
    chance: u32,
    round: Rounding,
)
    requires rows_in { RowsIn shape rows.old }
    requires top_in { TopIn shape top }
    requires chance_fits { chance ≤ S }
    ensures rewritten { (k : ℕ) → k < shape.rows → (s : ℕ) → s + shape.income ≤ top →
        values_in shape (top - shape.income) rows.new k s
        ≡ month round shape.income table.now.severity.now chance (values_in shape top rows.old k)
        (claimed_row (values_in shape top rows.old) (after_claim_by shape.tallied k)) s }
    ensures beyond { (k : ℕ) → k < shape.rows → (i : ℕ) → top < i + shape.income → i < shape.width →
        at (row_with shape rows.new k) i ≡ at (row_with shape rows.old k) i }
    ensures parts { Parts rows.new }
{
    let tallied = shape.tallied;
    let width = shape.width;
    let income = shape.income;
    let live = top + 1 - income;
    let last = shape.rows - 1;
    for j in 0..last {
        let start = j * width;
        let next = start + width;
        row_back(rows, start, next, top, live, table, chance, round);
    }
    let start = last * width;
    let own = table.up_to(own_sizes(tallied, table.severity.len()));
    row_back(rows, start, start, top, live, &own, chance, round);
}
