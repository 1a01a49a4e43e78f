// The bytes of a mixture, read into a head and a weight for each plan and one row with the plans' rows end to end.
#![tactic(auto)]

ghost use Rattle.std.specs.Prelude.{◌≡◌, cond, ◌+◌, ◌*◌, ◌≤◌, ◌<◌, min, length, take, IfOk};
ghost use Rattle.model.specs.Limits.{max_plans, row_room, rows_room};
ghost use Rattle.model.specs.Format.{head_bytes, head_of, byte_length};
ghost use Rattle.model.specs.Refusal.{HeadAccepted, read_refusal, refused_with};
ghost use Rattle.codec.specs.Answers.{row_after};
ghost use Rattle.mixture_bytes.specs.Format.{weights_in, part_of, plan_parts};
ghost use Rattle.mixture_bytes.specs.Refusal.{early_refusal, count_refusal, parts_refusal, bytes_refusal};
ghost use Rattle.mixture_bytes.specs.Reading.{rows_after, PartRead, PlansRead, MixtureRead};

use mixture_plans::{Mixture, check_mixture, count_is_outside};
use model::{Head, Refusal, limits};
use numbers::big_endian;
use plan::check_head;
use plan::lengths::row_length;
use plan_bits::format;
use plan_bits::reading::head_of;
use rooms::blank;

// A mixture as it is read from bytes: its row, and how many numbers of that are the plans'.
#[derive(Clone, Copy)]
pub struct ByteMixture {
    pub mixture: Mixture,
    pub row: [u32; limits::ROWS],
    pub used: usize,
}

// The plans as they are read: their heads, and how many numbers of the lent row are theirs.
#[derive(Clone, Copy)]
struct BytePlans {
    heads: [Head; limits::PLANS],
    used: usize,
}

// One plan as it is read: its head, and how many bytes it has.
#[derive(Clone, Copy)]
struct BytePart {
    head: Head,
    length: usize,
}

// Reads a mixture into a row of its own.
pub fn read_mixture(bytes: &[u8]) -> Result<ByteMixture, Refusal>
    ensures number { refused_with result ≡ bytes_refusal bytes.now }
    ensures read { IfOk result (λ p. MixtureRead bytes.now p.mixture p.used p.row) }
{
    check_count(bytes)?;
    let mut row: [u32; limits::ROWS] = blank();
    let count = usize::from(bytes[0]);
    let start = 1 + 4 * count;
    let plans = read_plans(&bytes[start..], count, &mut row)?;
    let heads = plans.heads;
    let used = plans.used;
    let weights = read_weights(&bytes[1..], count);
    let mixture = Mixture {
        count,
        heads,
        weights,
    };
    check_mixture(mixture, &row[..used])?;
    Ok(ByteMixture { mixture, row, used })
}

fn no_heads() -> [Head; limits::PLANS]
    ensures { length result ≡ max_plans }
{
    let none = Head {
        months: 0,
        opening: 0,
        sizes: 0,
        income: 0,
    };
    [none; limits::PLANS]
}

// 1 where there is no byte, 18 for the count, 1 where there are fewer bytes than the weights need.
fn check_count(bytes: &[u8]) -> Result<(), Refusal>
    ensures { refused_with result ≡ count_refusal bytes.now }
{
    if bytes.is_empty() {
        return Err(Refusal::Stub);
    }
    let count = usize::from(bytes[0]);
    if count_is_outside(count) {
        return Err(Refusal::Mixture);
    }
    if bytes.len() < 1 + 4 * count {
        return Err(Refusal::Stub);
    }
    Ok(())
}

// So many weights of four bytes; what lies past them is 0.
fn read_weights(bytes: &[u8], count: usize) -> [u32; limits::PLANS]
    requires { (count ≤ max_plans) × (4 * count ≤ length bytes.now) }
    ensures read { take count result ≡ weights_in count bytes.now }
    ensures sized { length result ≡ max_plans }
{
    let mut weights = [0u32; limits::PLANS];
    for i in 0..count {
        // Proved to fit: TryFrom would add an error that never comes.
        weights[i] = big_endian(bytes, 4 * i, 4) as u32;
    }
    weights
}

// Each plan in turn, up to the first that is refused.
fn read_plans(bytes: &[u8], count: usize, row: &mut [u32]) -> Result<BytePlans, Refusal>
    requires count_nonzero { (0 < count) × (count ≤ max_plans) }
    requires row_len { length row.old ≡ rows_room }
    ensures number { refused_with result ≡ parts_refusal (plan_parts count bytes.now) }
    ensures read { IfOk result (λ p. PlansRead (plan_parts count bytes.now) p.heads p.used) }
    ensures memory { row.new ≡ rows_after (plan_parts count bytes.now) 0 row.old }
{
    let mut heads = no_heads();
    let mut start = 0;
    let mut used = 0;
    for i in 0..count {
        let room = used + limits::ROW;
        let part = read_part(&bytes[start..], i + 1 == count, &mut row[used..room])?;
        let head = part.head;
        heads[i] = head;
        used += row_length(head);
        start += part.length;
    }
    Ok(BytePlans { heads, used })
}

// The plan that bytes begin with, read into a row with room for every plan's.
fn read_part(bytes: &[u8], last: bool, row: &mut [u32]) -> Result<BytePart, Refusal>
    requires { length row.old ≡ row_room }
    ensures number { refused_with result ≡ read_refusal (part_of last bytes.now) row_room }
    ensures read { IfOk result (λ p. PartRead last bytes.now p.head p.length) }
    ensures memory { row.new ≡ row_after (part_of last bytes.now) row.old }
{
    check_early(bytes)?;
    let length = part_length(bytes, last);
    let head = codec::read(&bytes[..length], row)?;
    Ok(BytePart { head, length })
}

// What can be told of a plan before its length is looked at.
fn check_early(bytes: &[u8]) -> Result<(), Refusal>
    ensures { refused_with result ≡ early_refusal bytes.now }
{
    if bytes.len() < format::HEAD_BYTES {
        return Err(Refusal::Stub);
    }
    check_head(head_of(bytes))
}

// How many bytes are the plan's: the last one has all that is left.
fn part_length(bytes: &[u8], last: bool) -> usize
    requires { (head_bytes ≤ length bytes.now) × HeadAccepted (head_of bytes.now) }
    ensures { result ≡ cond last (length bytes.now) (min (byte_length (head_of bytes.now)) (length bytes.now)) }
{
    if last {
        bytes.len()
    } else {
        format::byte_length(head_of(bytes)).min(bytes.len())
    }
}
