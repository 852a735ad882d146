// Lines of hexadecimal digits, for programs that read and print them: the bytes that a text spells, bytes put on a page as digits, and
// lines taken from pieces of input. What a line is for, and how many digits it may have, the program says.
#![tactic(auto)]

ghost use Rattle.std.specs.Prelude.{◌≡◌, [], ◌∷◌, ◌++◌, ◌+◌, ◌*◌, ◌≤◌, ◌<◌, length, take, drop};
ghost use Rattle.lines.specs.Digits.{value_of, digit_of, line_of, refusal_line, bytes_of};
ghost use Rattle.lines.specs.inside.Lines.{first_line};
ghost use Rattle.lines.specs.inside.Steps.{ValueOf, spells, spelling_count, digits_of, OnPage, KeptOf};

pub mod pieces;

// 'A line ends at byte 0a'.
const LINE_END: u8 = 10;

// 'fd and the refusal number as one byte': how the line of a refusal begins.
pub const REFUSED: u8 = 253;

// ---- digits

// The value of a lower-case hexadecimal digit; None where the byte is none.
fn value_of(b: u8) -> Option<u8>
    ensures { ValueOf b result }
{
    match b {
        48..=57 => Some(b - 48),
        97..=102 => Some(b - 87),
        _ => None,
    }
}

// The lower-case digit of a number below 16.
fn digit_of(x: u8) -> u8
    requires { x < 16 }
    ensures { result ≡ digit_of x }
{
    if x < 10 { 48 + x } else { 87 + x }
}

// The bytes that a text of at most limit digits spells go to the start of bytes. Answers how many they are, or None where it spells none.
pub fn bytes_in(text: &[u8], limit: usize, bytes: &mut [u8]) -> Option<usize>
    requires { limit ≤ 2 * length bytes.old }
    ensures { (spells result bytes.new ≡ bytes_of limit text.now) × (spelling_count result ≤ length bytes.old) }
{
    if limit < text.len() {
        return None;
    }
    if text.len() % 2 != 0 {
        return None;
    }
    let count = text.len() / 2;
    for i in 0..count {
        let high = value_of(text[2 * i])?;
        let low = value_of(text[2 * i + 1])?;
        bytes[i] = high * 16 + low;
    }
    Some(count)
}

// ---- pages

// Puts bytes on the page as digits, without a line's end. Answers where the page then stands.
pub fn put_digits(page: &mut [u8], at: usize, s: &[u8]) -> usize
    requires { at + 2 * length s.now ≤ length page.old }
    ensures { OnPage (digits_of s.now) page.old at page.new result }
{
    let mut to = at;
    for &b in s {
        page[to] = digit_of(b / 16);
        page[to + 1] = digit_of(b % 16);
        to += 2;
    }
    to
}

// Puts bytes on the page as digits, and a line's end. Answers where the page then stands.
pub fn put_line(page: &mut [u8], at: usize, s: &[u8]) -> usize
    requires { (at + 2 * length s.now) + 1 ≤ length page.old }
    ensures { OnPage (line_of s.now) page.old at page.new result }
{
    let to = put_digits(page, at, s);
    page[to] = LINE_END;
    to + 1
}

// 'fd and the refusal number as one byte'
pub fn put_refusal(page: &mut [u8], at: usize, number: u8) -> usize
    requires { at + 5 ≤ length page.old }
    ensures { OnPage (refusal_line number) page.old at page.new result }
{
    put_line(page, at, &[REFUSED, number])
}

// ---- lines

// One byte more is kept of a line, where there is room for it.
fn keep(text: &mut [u8], len: usize, b: u8) -> usize
    requires { len ≤ length text.old }
    ensures { KeptOf (take len text.old ++ (b ∷ [])) text.new result }
{
    if len < text.len() {
        text[len] = b;
        return len + 1;
    }
    len
}

// How much is kept of a line, and where in the piece it ends; the piece's length where it goes on.
#[derive(Clone, Copy)]
pub struct Taken {
    pub len: usize,
    pub next: usize,
}

// Takes a line's bytes from a piece of input, from a place on. The first len bytes of text are what is kept of the line so far.
pub fn take_line(text: &mut [u8], len: usize, piece: &[u8], from: usize) -> Taken
    requires { (len ≤ length text.old) × (from ≤ length piece.now) }
    ensures kept_of { KeptOf (take len text.old ++ first_line (drop from piece.now)) text.new result.len }
    ensures next_value { result.next ≡ from + length (first_line (drop from piece.now)) }
{
    let mut to = len;
    for i in from..piece.len() {
        let b = piece[i];
        if b == LINE_END {
            return Taken { len: to, next: i };
        }
        to = keep(text, to, b);
    }
    Taken {
        len: to,
        next: piece.len(),
    }
}
