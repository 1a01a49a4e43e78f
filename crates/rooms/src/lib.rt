// Memory to lend, all 0; `model::limits` has the rooms for every plan.
#![tactic(auto)]

ghost use Rattle.std.specs.Prelude.{◌≡◌, length, replicate};

// So many numbers. `sized` is for a caller that lends the array.
pub fn blank<const N: usize>() -> [u32; N]
    ensures blank { result ≡ replicate N 0 }
    ensures sized { N ≡ length result }
{
    [0; N]
}
