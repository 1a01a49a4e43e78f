// The lengths that follow from a head: of a plan's row, and of a row of values.
ghost use Rattle.std.specs.Prelude.{◌≡◌, ◌<◌, ◌^◌};
ghost use Rattle.model.specs.Levels.{largest_level, row_levels};
ghost use Rattle.model.specs.Plan.{row_length};
ghost use Rattle.model.specs.Refusal.{HeadAccepted};

use model::Head;

// The numbers of a plan's row.
pub fn row_length(head: Head) -> usize
    requires { HeadAccepted head }
    ensures { result ≡ row_length head }
{
    head.months + head.sizes + 1
}

// The level of a fund after all months without a claim. It needs no accepted head, since the span is one of a head's checks.
pub fn largest_level(head: Head) -> usize
    requires { largest_level head.income head.opening head.months < 2 ^ 64 }
    ensures { result ≡ largest_level head.income head.opening head.months }
{
    head.opening + head.income * head.months
}

// The levels 0 to the largest: the places of a row of values.
pub fn row_levels(head: Head) -> usize
    requires { HeadAccepted head }
    ensures { result ≡ row_levels head.income head.opening head.months }
{
    largest_level(head) + 1
}
