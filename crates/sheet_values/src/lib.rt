// What a rule sheet's bytes hold, and the chances and weights that its rules make: the layer below a sheet's calls. What its functions require, the checks of
// a sheet give.
#![tactic(auto)]

ghost use Rattle.sheet_values.specs.Sheet.{IsKind};

pub mod bytes;
pub mod rules;

// What kinds of rules there are. A sheet's first byte has the number of its kind.
#[derive(Clone, Copy, Debug, PartialEq, Eq)]
pub enum Kind {
    Level,
    Ramp,
}

// No kind has the number.
#[derive(Clone, Copy, Debug, PartialEq, Eq)]
pub struct UnknownKind;

impl TryFrom<usize> for Kind {
    type Error = UnknownKind;

    ghost try_from_gives = { IsKind };

    fn try_from(number: usize) -> Result<Self, UnknownKind> {
        match number {
            1 => Ok(Kind::Level),
            2 => Ok(Kind::Ramp),
            _ => Err(UnknownKind),
        }
    }
}

// A claim chance for each month: the same in all, or a first one and what each month adds.
#[derive(Clone, Copy, Debug, PartialEq)]
pub enum ChanceRule {
    Level(f64),
    Ramp(f64, f64),
}

// A rule sheet. The claim sizes are geometric with the parameter alpha.
#[derive(Clone, Copy, Debug, PartialEq)]
pub struct RuleSheet {
    pub rule: ChanceRule,
    pub months: usize,
    pub opening: usize,
    pub sizes: usize,
    pub alpha: f64,
}
