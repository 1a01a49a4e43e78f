// Why a plan, a question or lent memory is turned away: documents 01 and 02, "Turned away".
ghost use Rattle.std.specs.Prelude.{◌≡◌};
ghost use Rattle.model.specs.Refusal.{refusal_number};

// One case for each number of the papers' lists; the comment has their word where it is another one.
#[derive(Clone, Copy, Debug, PartialEq, Eq)]
pub enum Refusal {
    // stub
    Stub = 1,
    Horizon = 2,
    Opening = 3,
    Sizes = 4,
    Length = 5,
    Padding = 6,
    Chance = 7,
    Weights = 8,
    Tail = 9,
    // question
    Outside = 10,
    // desk
    Workspace = 11,
    Kind = 12,
    Rule = 13,
    Target = 14,
    // none
    Unreached = 15,
    Income = 16,
    Span = 17,
    // mix
    Mixture = 18,
}

impl Refusal {
    // The papers' number.
    pub fn number(self) -> u32
        ensures { result ≡ refusal_number self }
    {
        self as u32
    }
}
