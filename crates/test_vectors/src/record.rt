// The records of the input: nine words, then a row or a plan's bytes where the kind asks for them.
ghost use Rattle.std.specs.Prelude.{◌≡◌, ◌+◌, ◌*◌, ◌≤◌, length, replicate};
ghost use Rattle.test_vectors.specs.Rooms.{row_capacity, byte_capacity, row_used};
ghost use Rattle.test_vectors.specs.Records.{KindOf, Decoded, word_at, number_at, row_in};

use crate::space;
use model::Head;
use numbers::big_endian;

// What a record asks for: a row for the records after it, or a call.
#[derive(Clone, Copy)]
pub enum Kind {
    Row = 0,
    Survive = 1,
    Both = 2,
    High = 3,
    Low = 4,
    Count = 5,
    Write = 6,
    Read = 7,
    Ruin = 8,
    Claims = 9,
    Least = 10,
    Openings = 11,
    PlainSurvive = 12,
    PlainBoth = 13,
    PlainHigh = 14,
    PlainLow = 15,
}

// A number that no kind has.
#[derive(Clone, Copy)]
pub struct UnknownKind;

impl TryFrom<u8> for Kind {
    type Error = UnknownKind;

    ghost try_from_gives = { KindOf };

    fn try_from(number: u8) -> Result<Self, UnknownKind> {
        match number {
            0 => Ok(Kind::Row),
            1 => Ok(Kind::Survive),
            2 => Ok(Kind::Both),
            3 => Ok(Kind::High),
            4 => Ok(Kind::Low),
            5 => Ok(Kind::Count),
            6 => Ok(Kind::Write),
            7 => Ok(Kind::Read),
            8 => Ok(Kind::Ruin),
            9 => Ok(Kind::Claims),
            10 => Ok(Kind::Least),
            11 => Ok(Kind::Openings),
            12 => Ok(Kind::PlainSurvive),
            13 => Ok(Kind::PlainBoth),
            14 => Ok(Kind::PlainHigh),
            15 => Ok(Kind::PlainLow),
            _ => Err(UnknownKind),
        }
    }
}

#[derive(Clone, Copy)]
pub struct Record {
    pub kind: Kind,
    pub head: Head,
    pub number: usize,
    pub target: u32,
    pub room: usize,
    pub fill: u32,
    pub fill_byte: u8,
    pub length: usize,
}

// The next record, none at the end of the input or where it is of no kind.
pub fn next() -> Option<Record> {
    let mut words = [0u8; 72];
    if io::read_full(crate::STDIN_FILENO, &mut words) < 72 {
        return None;
    }
    decode(&words)
}

fn decode(words: &[u8; 72]) -> Option<Record>
    ensures { Decoded words.now result }
{
    let Ok(kind) = Kind::try_from(words[7]) else {
        return None;
    };
    Some(Record {
        kind,
        head: Head {
            months: word(words, 8),
            opening: word(words, 16),
            sizes: word(words, 24),
            income: word(words, 32),
        },
        number: word(words, 40),
        target: number(words, 44),
        room: word(words, 48),
        fill: number(words, 60),
        fill_byte: words[63],
        length: word(words, 64),
    })
}

fn word(bytes: &[u8], at: usize) -> usize
    requires { at + 8 ≤ length bytes.now }
    ensures { result ≡ word_at bytes.now at }
{
    big_endian(bytes, at, 8)
}

fn number(bytes: &[u8], at: usize) -> u32
    requires { at + 4 ≤ length bytes.now }
    ensures { result ≡ number_at bytes.now at }
{
    // Proved to fit: TryFrom would add an error that never comes.
    big_endian(bytes, at, 4) as u32
}

// Room for a row and for a plan's bytes. The second `ensures` gives the length, which lending a part of the array needs.
pub fn row(fill: u32) -> [u32; space::ROW]
    ensures filled { result ≡ replicate row_capacity fill }
    ensures sized { row_capacity ≡ length result }
{
    [fill; space::ROW]
}

pub fn bytes(fill: u8) -> [u8; space::BYTES]
    ensures filled { result ≡ replicate byte_capacity fill }
    ensures sized { byte_capacity ≡ length result }
{
    [fill; space::BYTES]
}

// Reads a row of `count` numbers, and answers its length, or 0 where there is no room for it: a number, as `row_used` has it.
#[tactic(auto, unfolding(crate::specs::Rooms::row_used))]
pub fn read_row(count: usize, row: &mut [u32]) -> usize
    ensures used { result ≡ row_used count (length row.old) }
    ensures within { result ≤ length row.new }
{
    if count > space::ROW || count > row.len() {
        return 0;
    }
    let mut bytes = bytes(0);
    read_numbers(&mut bytes[..4 * count], &mut row[..count]);
    count
}

fn read_numbers(bytes: &mut [u8], row: &mut [u32])
    requires { 4 * length row.old ≤ length bytes.old }
{
    io::read_full(crate::STDIN_FILENO, bytes);
    unpack(bytes, row);
}

// The row that bytes hold, four bytes a number.
fn unpack(bytes: &[u8], row: &mut [u32])
    requires { 4 * length row.old ≤ length bytes.now }
    ensures { row.new ≡ row_in (length row.old) bytes.now }
{
    for (i, place) in row.iter_mut().enumerate() {
        *place = number(bytes, 4 * i);
    }
}
