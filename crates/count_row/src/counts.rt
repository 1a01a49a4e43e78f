// The count row, month by month.
ghost use Rattle.std.specs.Prelude.{◌≡◌, ◌<◌, ◌≤◌, [], length};
ghost use Rattle.model.specs.Scale.{S};
ghost use Rattle.model.specs.CountRow.{count_month, tabulate};
ghost use Rattle.claims.specs.Values.{Parts};
ghost use Rattle.month_rows.specs.Rows.{at};
ghost use Rattle.count_row.specs.Counts.{CountParts, rows_after};
ghost use Rattle.count_row.specs.Answers.{count_rows};

use crate::CountRow;
use model::{Rounding, limits};
use rounding::mixture;

// A row through one month, in place from the last place down: place k reads the places k and k - 1.
fn count_month(row: &mut [u32], chance: u32, round: Rounding)
    requires { (0 < length row.old) × Parts row.old × (chance ≤ S) }
    ensures { row.new ≡ tabulate (length row.old) (count_month round chance (at row.old)) }
{
    for k in (1..row.len()).rev() {
        row[k] = mixture(chance, row[k], row[k - 1], round);
    }
    row[0] = mixture(chance, row[0], 0, round);
}

// The rows after no months: no claim for sure.
fn first_rows() -> CountRow
    ensures { result ≡ count_rows [] }
{
    let mut row = [0; limits::PLACES];
    row[0] = model::SCALE;
    CountRow {
        lower: row,
        upper: row,
    }
}

impl CountRow {
    // The rows after one more month with this chance.
    fn month(mut self, chance: u32) -> CountRow
        requires { CountParts self × (chance ≤ S) }
        ensures { result ≡ rows_after chance self }
    {
        let mut lower = self.lower;
        let mut upper = self.upper;
        count_month(&mut lower, chance, Rounding::Down);
        count_month(&mut upper, chance, Rounding::Up);
        self.lower = lower;
        self.upper = upper;
        self
    }
}

// The rows after all months, in their order.
pub fn count_rows(chances: &[u32]) -> CountRow
    requires { Parts chances.now }
    ensures { result ≡ count_rows chances.now }
{
    let mut row = first_rows();
    for chance in chances {
        row = row.month(*chance);
    }
    row
}
