// What a record begins with: 47 words of 8 bytes, most significant byte first.
ghost use Rattle.std.specs.Prelude.{◌≡◌, ◌+◌, ◌*◌, ◌≤◌, ◌<◌, length};
ghost use Rattle.model.specs.Limits.{max_plans};
ghost use Rattle.test_mixtures.specs.Records.{word_at, number_at, numbers_in, head_at, heads_in, weights_in, question_of, kind_of, record_of};

use mixture_plans::Mixture;
use model::{Head, Question, limits};
use numbers::big_endian;

pub const BYTES: usize = 376;

// A call, the report of a mix's bytes, and a call whose bounds are printed as decimal numbers.
#[derive(Clone, Copy, PartialEq, Eq, Debug)]
pub enum Kind {
    Call,
    Report,
    Model,
}

#[derive(Clone, Copy)]
pub struct Record {
    pub kind: Option<Kind>,
    pub mixture: Mixture,
    pub question: Question,
    pub room: usize,
    pub fill: u32,
    pub length: usize,
}

pub fn decode(words: &[u8; BYTES]) -> Record
    ensures { result ≡ record_of words.now }
{
    Record {
        kind: kind_of(word(words, 0)),
        mixture: Mixture {
            count: word(words, 1),
            heads: heads(words),
            weights: weights(words),
        },
        question: question(word(words, 42), word(words, 43)),
        room: word(words, 44),
        fill: number(words, 91),
        length: word(words, 46),
    }
}

fn kind_of(number: usize) -> Option<Kind>
    ensures { result ≡ kind_of number }
{
    match number {
        0 => Some(Kind::Call),
        1 => Some(Kind::Report),
        2 => Some(Kind::Model),
        _ => None,
    }
}

fn heads(words: &[u8; BYTES]) -> [Head; limits::PLANS]
    ensures { result ≡ heads_in words.now }
{
    let mut heads = [head(words, 0); limits::PLANS];
    for i in 0..limits::PLANS {
        heads[i] = head(words, i);
    }
    heads
}

fn head(words: &[u8; BYTES], i: usize) -> Head
    requires { i < max_plans }
    ensures { result ≡ head_at words.now i }
{
    Head {
        months: word(words, 4 * i + 2),
        opening: word(words, 4 * i + 3),
        sizes: word(words, 4 * i + 4),
        income: word(words, 4 * i + 5),
    }
}

fn weights(words: &[u8; BYTES]) -> [u32; limits::PLANS]
    ensures { result ≡ weights_in words.now }
{
    let mut weights = [0; limits::PLANS];
    for i in 0..limits::PLANS {
        weights[i] = number(words, 2 * i + 69);
    }
    weights
}

// The number is matched here and nowhere else, so that an enum with a conversion from it would be no plainer.
fn question(kind: usize, number: usize) -> Question
    ensures { result ≡ question_of kind number }
{
    match kind {
        1 => Question::Both(number),
        2 => Question::High(number),
        3 => Question::Low(number),
        _ => Question::Survive,
    }
}

// The word of 8 bytes and the number of 4 bytes at a place, counted in words and in numbers: number 2i + 1 is the last half of word i.
fn word(bytes: &[u8], i: usize) -> usize
    requires { 8 * i + 8 ≤ length bytes.now }
    ensures { result ≡ word_at bytes.now i }
{
    big_endian(bytes, 8 * i, 8)
}

fn number(bytes: &[u8], i: usize) -> u32
    requires { 4 * i + 4 ≤ length bytes.now }
    ensures { result ≡ number_at bytes.now i }
{
    // Proved to fit: TryFrom would add an error that never comes.
    big_endian(bytes, 4 * i, 4) as u32
}

// The row that bytes hold, four bytes a number.
pub fn unpack(bytes: &[u8], row: &mut [u32])
    requires { 4 * length row.old ≤ length bytes.now }
    ensures { row.new ≡ numbers_in (length row.old) bytes.now }
{
    for i in 0..row.len() {
        row[i] = number(bytes, i);
    }
}
