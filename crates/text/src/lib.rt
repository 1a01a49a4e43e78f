// Lines of text, appended to a buffer. Each function takes the place where the text ends and answers the new one.
#![tactic(auto)]

ghost use Rattle.std.specs.Prelude.{◌+◌, ◌≤◌, ◌<◌, [], ◌∷◌, length};
ghost use Rattle.text.specs.Text.{Appended};
ghost use Rattle.text.specs.Text.{decimal as Text·decimal, spaced as Text·spaced, entry as Text·entry, line as Text·line};

#[tactic(auto, using(crate::proofs::TextLaws::appended_byte))]
fn put_byte(buffer: &mut [u8], at: usize, byte: u8) -> usize
    requires { at < length buffer.old }
    ensures { Appended buffer.old at (byte ∷ []) buffer.new result }
{
    buffer[at] = byte;
    at + 1
}

fn put_word(buffer: &mut [u8], at: usize, word: &[u8]) -> usize
    requires { at + length word.now ≤ length buffer.old }
    ensures { Appended buffer.old at word.now buffer.new result }
{
    let end = at + word.len();
    buffer[at..end].copy_from_slice(word);
    end
}

#[tactic(auto, using(crate::proofs::TextLaws::decimal_printed))]
fn put_number(buffer: &mut [u8], at: usize, x: u64) -> usize
    requires { at + length (Text·decimal x) ≤ length buffer.old }
    ensures { Appended buffer.old at (Text·decimal x) buffer.new result }
{
    let mut digits = itoa::Buffer::new();
    put_word(buffer, at, digits.format(x).as_bytes())
}

fn put_spaced(buffer: &mut [u8], at: usize, x: u64) -> usize
    requires { at + length (Text·spaced x) ≤ length buffer.old }
    ensures { Appended buffer.old at (Text·spaced x) buffer.new result }
{
    let end = put_byte(buffer, at, b' ');
    put_number(buffer, end, x)
}

// A word and its numbers.
#[tactic(auto, using(crate::proofs::TextLaws::entry_length))]
pub fn put_entry(buffer: &mut [u8], at: usize, word: &[u8], numbers: &[u64]) -> usize
    requires { at + length (Text·entry word.now numbers.now) ≤ length buffer.old }
    ensures { Appended buffer.old at (Text·entry word.now numbers.now) buffer.new result }
{
    let mut end = put_word(buffer, at, word);
    for x in numbers {
        end = put_spaced(buffer, end, *x);
    }
    end
}

#[tactic(auto, using(crate::proofs::TextLaws::line_length, crate::proofs::TextLaws::appended_more), unfolding(crate::specs::Text::line))]
pub fn put_line(buffer: &mut [u8], at: usize, word: &[u8], numbers: &[u64]) -> usize
    requires { at + length (Text·line word.now numbers.now) ≤ length buffer.old }
    ensures { Appended buffer.old at (Text·line word.now numbers.now) buffer.new result }
{
    let end = put_entry(buffer, at, word, numbers);
    put_byte(buffer, end, b'\n')
}
