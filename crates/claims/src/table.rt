// A table beside the list of its sizes that are not empty, by which claims are summed.
ghost use Rattle.std.specs.Prelude.{◌≡◌, ◌≤◌, length, take};
ghost use Rattle.model.specs.Scale.{S};
ghost use Rattle.model.specs.Sums.{total};
ghost use Rattle.claims.specs.Listing.{Listing};

// The weights of a table, and its sizes that are not empty: of the sizes 1 to `dense` none is empty, so that those need no list; `sizes` has the others,
// the largest first.
#[derive(Clone, Copy)]
pub struct ListedTable<'a> {
    pub severity: &'a [u32],
    pub sizes: &'a [usize],
    pub dense: usize,
    pub ghost listing: { Listing severity.now sizes.now dense },
    pub ghost weights_fit: { total severity.now ≤ S },
}

impl<'a> ListedTable<'a> {
    // The table of the sizes 1 to `most` alone, with the same list.
    pub fn up_to(&self, most: usize) -> ListedTable<'a>
        requires { most ≤ length self.now.severity.now }
        ensures severity { result.severity.now ≡ take most self.now.severity.now }
        ensures sizes { result.sizes.now ≡ self.now.sizes.now }
        ensures dense { result.dense ≡ self.now.dense }
    {
        ListedTable {
            severity: &self.severity[..most],
            sizes: self.sizes,
            dense: self.dense,
        }
    }
}
