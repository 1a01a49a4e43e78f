// The limits of documents 01 and 02, and the rooms that follow from them, for the code; specs/Limits.antt has them for the definitions, and the proofs
// hold the two equal.
pub const MONTHS: usize = 120;

pub const OPENING: usize = 200;

pub const SIZES: usize = 320;

pub const CLAIMS: usize = 24;

pub const LEVEL: usize = 320;

pub const PLACES: usize = MONTHS + 1;

// The largest income of a month; the least is 1.
pub const INCOME: usize = 8;

// The largest level of any plan.
pub const SPAN: usize = 320;

// A small plan, which is followed month by month: at most so many months and such an opening, and this income.
pub const SMALL_MONTHS: usize = 6;

pub const SMALL_OPENING: usize = 6;

pub const SMALL_INCOME: usize = 1;

// The most plans of a mixture.
pub const PLANS: usize = 8;

// Room for the longest row of a plan.
pub const ROW: usize = MONTHS + SIZES + 1;

// Room for the rows of all plans of a mixture, end to end.
pub const ROWS: usize = PLANS * ROW;

// Room for the levels of the longest row of values.
pub const LEVELS: usize = SPAN + 1;

// Room for both rows of survival of every plan.
pub const SURVIVAL: usize = 2 * LEVELS;

// Room for both bounds of every opening of every plan.
pub const BOUNDS: usize = 2 * (OPENING + 1);

// Room for the rows of every question on every plan.
pub const WORKSPACE: usize = SURVIVAL * (CLAIMS + 1);
