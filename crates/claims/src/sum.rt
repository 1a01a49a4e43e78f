// The claim sum at a level, in plain machine arithmetic.
ghost use Rattle.std.specs.Prelude.{◌≡◌, map, ◌+◌, ◌*◌, ◌/◌, ◌%◌, ◌^◌, ◌<◌, ◌≤◌, min, length};
ghost use Rattle.model.specs.Scale.{S};
ghost use Rattle.model.specs.Sums.{sum, total};
ghost use Rattle.model.specs.FilledSizes.{filled_sum, filled_count};
ghost use Rattle.claims.specs.Listing.{sum_term, SizesIn, NoGap, ListsRange};
ghost use Rattle.claims.specs.Values.{from_top, Parts};

use model::WIDE_SCALE;

// The claim sum by its quotient by S and what is left over, and how many products of weights and values were added.
#[derive(Clone, Copy)]
pub struct ClaimSum {
    pub quotient: u64,
    pub remainder: u64,
    pub products: usize,
}

// Products of weights and values added, and how many.
#[derive(Clone, Copy)]
struct ProductSum {
    sum: u64,
    products: usize,
}

impl ProductSum {
    // One product more, counted where it is added: `claim_sum` promises their number (`products`).
    fn plus(self, weight: u32, value: u32) -> ProductSum
        requires fits { self.sum + weight * value < 2 ^ 64 }
        requires more { self.products + 1 < 2 ^ 64 }
        ensures sum { result.sum ≡ self.sum + weight * value }
        ensures products { result.products ≡ self.products + 1 }
    {
        ProductSum {
            sum: self.sum + u64::from(weight) * u64::from(value),
            products: self.products + 1,
        }
    }
}

// Over the listed sizes, in their order.
fn listed_sum(severity: &[u32], sizes: &[usize], after: &[u32]) -> ProductSum
    requires sizes_in { SizesIn (min (length after.now) (length severity.now)) sizes.now }
    requires sizes_bound { total (map (sum_term severity.now after.now) sizes.now) ≤ S * S }
    ensures sum { result.sum ≡ total (map (sum_term severity.now after.now) sizes.now) }
    ensures products { result.products ≡ length sizes.now }
{
    let mut added = ProductSum {
        sum: 0,
        products: 0,
    };
    for x in sizes {
        let place = *x - 1;
        added = added.plus(severity[place], after[place]);
    }
    added
}

// Over the sizes 1 to `most`, from the largest down.
fn dense_sum(severity: &[u32], after: &[u32], most: usize) -> ProductSum
    requires most_bound { most ≤ min (length after.now) (length severity.now) }
    requires after_bound { sum most (sum_term severity.now after.now) ≤ S * S }
    ensures sum { result.sum ≡ sum most (sum_term severity.now after.now) }
    ensures products { result.products ≡ most }
{
    let mut added = ProductSum {
        sum: 0,
        products: 0,
    };
    for x in (0..most).rev() {
        added = added.plus(severity[x], after[x]);
    }
    added
}

// The claim sum over the values that claims lead to, which lie one after the other, the last at level 1. Of the
// sizes 1 to `dense` none is empty, so that those need no list; `sizes` are the filled sizes in range above them.
// No `ListedTable`: that asks for the list of every range, and `lists_range` for this one.
pub fn claim_sum(severity: &[u32], sizes: &[usize], dense: usize, after: &[u32]) -> ClaimSum
    requires parts { Parts after.now }
    requires severity_bound { total severity.now ≤ S }
    requires lists_range { ListsRange severity.now sizes.now dense (min (length after.now) (length severity.now)) }
    requires no_gap { NoGap severity.now dense }
    ensures quotient { result.quotient ≡ filled_sum severity.now (from_top (length after.now) after.now) (length after.now + 1) / S }
    ensures remainder { result.remainder ≡ filled_sum severity.now (from_top (length after.now) after.now) (length after.now + 1) % S }
    ensures products { result.products ≡ filled_count severity.now (length after.now + 1) }
{
    let most = after.len().min(severity.len());
    let low = most.min(dense);
    let listed = listed_sum(severity, sizes, after);
    let rest = dense_sum(severity, after, low);
    let sum = listed.sum + rest.sum;
    let products = listed.products + rest.products;
    ClaimSum {
        quotient: sum / WIDE_SCALE,
        remainder: sum % WIDE_SCALE,
        products,
    }
}
