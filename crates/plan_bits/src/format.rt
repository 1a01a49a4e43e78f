// The widths of a plan's fields in bits, and how long a plan is.
ghost use Rattle.std.specs.Prelude.{◌≡◌};
ghost use Rattle.model.specs.Format.{bit_length, byte_length};
ghost use Rattle.model.specs.Refusal.{HeadAccepted};

use model::Head;
use plan::lengths::row_length;

pub const MONTHS: usize = 7;

pub const OPENING: usize = 8;

pub const SIZES: usize = 9;

pub const INCOME: usize = 4;

// The bits before the sizes, before the income, and of the whole head.
pub const BEFORE_SIZES: usize = MONTHS + OPENING;

pub const BEFORE_INCOME: usize = BEFORE_SIZES + SIZES;

pub const HEAD: usize = BEFORE_INCOME + INCOME;

// The bytes that a head needs: fewer are a stub.
pub const HEAD_BYTES: usize = (HEAD + 7) / 8;

pub const NUMBER: usize = 31;

// The bits of a plan, without the fill.
pub fn bit_length(head: Head) -> usize
    requires { HeadAccepted head }
    ensures { result ≡ bit_length head }
{
    HEAD + NUMBER * row_length(head)
}

// The bytes of a plan, the last one filled up.
pub fn byte_length(head: Head) -> usize
    requires { HeadAccepted head }
    ensures { result ≡ byte_length head }
{
    (bit_length(head) + 7) / 8
}
