// A line's text: how it is written, and the bytes that it spells once it is mended.
ghost use Rattle.std.specs.Prelude.{◌≤◌, length};
ghost use Rattle.stage.specs.Lines.{digit_limit};
ghost use Rattle.explain.specs.inside.Sizes.{line_most};

use crate::programs::Program;
use std::io;

// So much is kept of a line. A text that fills it has been cut, and is not read.
pub(crate) const TEXT: usize = 256;

// The longest line that is printed is that of a frame of 45 bytes that waits: before it stand fc, its number and the recipient.
pub(crate) const BYTES: usize = 48;

const DIGITS: usize = 96;

// Of a line that is given document 01 takes 90 digits; a rehearsal takes more (stage::DIGITS).
const GIVEN_DIGITS: usize = 90;

// The sorts of characters.
#[derive(Clone, Copy, PartialEq, Eq)]
enum Sort {
    Digit,
    Capital,
    Blank,
    Return,
    Strange,
}

// How a line is written: how many characters are left where blanks and carriage returns are dropped, and how many are of each sort.
#[derive(Clone, Copy)]
pub(crate) struct Writing {
    pub(crate) is_cut: bool,
    pub(crate) digits: usize,
    pub(crate) capitals: usize,
    pub(crate) blanks: usize,
    pub(crate) returns: usize,
    pub(crate) strange: usize,
}

// The bytes that a line spells: the first count ones of these.
#[derive(Clone, Copy)]
pub(crate) struct Spelled {
    count: usize,
    bytes: [u8; BYTES],
    ghost fits: { count ≤ line_most },
}

impl Spelled {
    pub(crate) fn bytes(&self) -> &[u8] {
        &self.bytes[0..self.count]
    }
}

// A line as it was read, the program that it is of, and the bytes that it spells where it could be mended.
#[derive(Clone, Copy)]
pub(crate) struct Line {
    pub(crate) program: Program,
    pub(crate) spelled: Option<Spelled>,
    pub(crate) writing: Writing,
}

// ---- characters

fn sort_of(b: u8) -> Sort {
    match b {
        b'0'..=b'9' => Sort::Digit,
        b'a'..=b'f' => Sort::Digit,
        b'A'..=b'F' => Sort::Capital,
        b' ' => Sort::Blank,
        b'\t' => Sort::Blank,
        b'\r' => Sort::Return,
        _ => Sort::Strange,
    }
}

// How many characters of a text are of a sort.
fn count_of(text: &[u8], sort: Sort) -> usize
    ensures { result ≤ length text.now }
{
    text.iter().filter(|&&b| sort_of(b) == sort).count()
}

// A character as vaultlines takes it: a capital letter as a small one, and no blank or carriage return.
fn mended(b: u8) -> Option<u8> {
    match b {
        b' ' => None,
        b'\t' => None,
        b'\r' => None,
        b'A'..=b'F' => Some(b + 32),
        _ => Some(b),
    }
}

// A character that a terminal can show; any other is shown as a question mark.
fn visible(b: u8) -> u8
    ensures { result ≤ 126 }
{
    match b {
        b' '..=b'~' => b,
        _ => b'?',
    }
}

// ---- lines

// Copies a text, each character in some way or not at all, as far as there is room: how many characters it then has.
fn copy<F: Fn(u8) -> Option<u8>>(text: &[u8], out: &mut [u8], way: F) -> usize
    requires { F.IsAlwaysCallable way }
    ensures { result ≤ length out.old }
{
    let mut to = 0;
    for &b in text {
        if let Some(c) = way(b) {
            if to < out.len() {
                out[to] = c;
                to += 1;
            }
        }
    }
    to
}

// Writes a line as it was read.
pub(crate) fn show(rt: &impl Print, text: &[u8]) -> io::Result<()> {
    let mut out = [0u8; TEXT + 1];
    let count = copy(text, &mut out[0..TEXT], |b| Some(visible(b)));
    out[count] = b'\n';
    rt.write_all(&out[0..=count])
}

fn writing_of(text: &[u8], digits: usize) -> Writing
    ensures { result.capitals ≤ length text.now }
{
    Writing {
        is_cut: TEXT <= text.len(),
        digits,
        capitals: count_of(text, Sort::Capital),
        blanks: count_of(text, Sort::Blank),
        returns: count_of(text, Sort::Return),
        strange: count_of(text, Sort::Strange),
    }
}

// The bytes that mended digits spell, by crate lines.
fn bytes_of(digits: &[u8]) -> Option<Spelled> {
    let mut bytes = [0u8; BYTES];
    let count = lines::bytes_in(digits, DIGITS, &mut bytes)?;
    Some(Spelled { count, bytes })
}

// The program that a text names, where it is just a program's name.
pub(crate) fn program_in(text: &[u8]) -> Option<Program> {
    let mut word = [0u8; TEXT];
    let count = copy(text, &mut word, mended);
    if &word[0..count] == b"vaultlines".as_slice() {
        return Some(Program::Vaultlines);
    }
    if &word[0..count] == b"rehearsal".as_slice() {
        return Some(Program::Rehearsal);
    }
    None
}

// Reads a text that is of a program.
pub(crate) fn read(text: &[u8], program: Program) -> Line {
    let mut digits = [0u8; TEXT];
    let count = copy(text, &mut digits, mended);
    let writing = writing_of(text, count);
    let spelled = if writing.is_cut {
        None
    } else {
        bytes_of(&digits[0..count])
    };
    Line {
        program,
        spelled,
        writing,
    }
}

// ---- what is told of it

// Characters that are no lower-case digits.
fn say_written(rt: &impl Print, program: Program, sort: &str) -> io::Result<()> {
    println!(rt; "    written with {sort}, which {program} refuses with 20")
}

// What is wrong with the characters.
pub(crate) fn say_writing(rt: &impl Print, program: Program, w: Writing) -> io::Result<()> {
    if w.is_cut {
        rt.write_all(b"    256 characters or more\n")?;
    }
    if w.capitals != 0 {
        say_written(rt, program, "capital letters")?;
    }
    if w.blanks != 0 {
        say_written(rt, program, "blanks")?;
    }
    if w.returns != 0 {
        say_written(rt, program, "a carriage return")?;
    }
    if w.strange != 0 {
        say_written(rt, program, "characters that are no digits")?;
    }
    Ok(())
}

// How many digits a program takes in a line.
fn most_digits(program: Program) -> usize
    ensures { result ≤ digit_limit }
{
    match program {
        Program::Vaultlines => GIVEN_DIGITS,
        Program::Rehearsal => stage::DIGITS,
    }
}

// What is wrong with the count of digits of a line that is given.
pub(crate) fn say_digits(rt: &impl Print, program: Program, w: Writing) -> io::Result<()> {
    let digits = w.digits;
    if digits % 2 != 0 {
        println!(rt; "    an odd count of digits, {digits}, which {program} refuses with 20")?;
    }
    let most = most_digits(program);
    if most < digits {
        println!(rt; "    more than {most} digits, {digits}, which {program} refuses with 20")?;
    }
    Ok(())
}
