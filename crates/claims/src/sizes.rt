// The sizes of a table that are not empty. A question lists them once.
ghost use Rattle.std.specs.Prelude.{◌≡◌, ◌++◌, ◌≤◌, length, take, drop};
ghost use Rattle.model.specs.Limits.{max_sizes};
ghost use Rattle.model.specs.Scale.{S};
ghost use Rattle.model.specs.Sums.{total};
ghost use Rattle.model.specs.FilledSizes.{filled_sizes};
ghost use Rattle.claims.specs.Listing.{gapless, in_range, Listing};

use crate::table::ListedTable;
use model::limits;

// How many sizes are filled from size 1 on before the first empty one.
fn gapless_sizes(severity: &[u32]) -> usize
    ensures { result ≡ gapless severity.now }
{
    severity.iter().take_while(|f| **f != 0).count()
}

// The first `count` numbers are the listed sizes, the largest first; those up to `dense` are filled besides and not listed.
// An array and its count, and no `Vec`: the engine has fixed memory and no heap.
#[derive(Clone, Copy)]
pub struct FilledSizes {
    pub sizes: [usize; limits::SIZES],
    pub count: usize,
    pub dense: usize,
}

impl FilledSizes {
    // The table that they are the sizes of, with the list.
    pub fn table<'a>(&'a self, severity: &'a [u32]) -> ListedTable<'a>
        requires count_fits { self.now.count ≤ length self.now.sizes }
        requires listing { Listing severity.now (take self.now.count self.now.sizes) self.now.dense }
        requires weights_fit { total severity.now ≤ S }
        ensures { result.severity.now ≡ severity.now }
    {
        ListedTable {
            severity,
            sizes: &self.sizes[..self.count],
            dense: self.dense,
        }
    }
}

// The filled sizes above `dense`.
fn filled_above(severity: &[u32], dense: usize) -> FilledSizes
    requires { (length severity.now ≤ max_sizes) × (dense ≤ length severity.now) }
    ensures listed { take result.count result.sizes ++ filled_sizes severity.now dense ≡ filled_sizes severity.now (length severity.now) }
    ensures sized { (result.count ≤ length result.sizes) × (result.dense ≡ dense) }
{
    let mut sizes = [0; limits::SIZES];
    let mut count = 0;
    for x in (dense..severity.len()).rev() {
        if severity[x] != 0 {
            sizes[count] = x + 1;
            count += 1;
        }
    }
    FilledSizes {
        sizes,
        count,
        dense,
    }
}

// All filled sizes of a table.
pub fn list_sizes(severity: &[u32]) -> FilledSizes
    requires { length severity.now ≤ max_sizes }
    ensures listed { Listing severity.now (take result.count result.sizes) result.dense }
    ensures sized { (result.count ≤ length result.sizes) × (result.count ≡ length (take result.count result.sizes)) }
{
    let dense = gapless_sizes(severity);
    filled_above(severity, dense)
}

// From where on, at `from` or later, the listed sizes are at most `most`.
pub fn first_within(sizes: &[usize], from: usize, most: usize) -> usize
    requires { from ≤ length sizes.now }
    ensures within { drop result sizes.now ≡ in_range most (drop from sizes.now) }
    ensures inside { result ≤ length sizes.now }
{
    from + sizes[from..].iter().take_while(|x| most < **x).count()
}
