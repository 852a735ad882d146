// Explains lines of vaultlines and of rehearsal, given and printed: each is shown, with its meaning in plain words below it.
//
// Proved: it ends, and touches only what it is lent. Digits are read by crate lines and frames by crate frame; the sentences are tested.
#![tactic(auto)]

mod frames;
mod given;
mod printed;
mod programs;
mod refusals;
mod rehearsal;
mod text;

ghost use Rattle.std.specs.Prelude.{◌≡◌, ◌≤◌, length, IfOk, IfSome};
ghost use Rattle.explain.specs.inside.Sizes.{text_kept};

use given::say_given;
use printed::{is_printed, say_printed};
use programs::{Program, say_turn};
use rehearsal::say_rehearsed;
use std::io::{self, Read};
use text::{Line, TEXT, Writing, say_digits, say_writing};

const PIECE: usize = 4096;

// A line may begin with a mark, that it was given or that it was printed.
#[derive(Clone, Copy)]
enum Mark {
    Given,
    Printed,
}

// ---- lines

fn mark_of(text: &[u8]) -> Option<Mark> {
    if text.len() == 0 {
        return None;
    }
    match text[0] {
        b'>' => Some(Mark::Given),
        b'<' => Some(Mark::Printed),
        _ => None,
    }
}

// Where the text begins, behind a mark and a blank.
fn after_mark(text: &[u8], mark: Option<Mark>) -> usize
    ensures { result ≤ length text.now }
{
    if let None = mark {
        return 0;
    }
    if text.len() < 2 {
        return text.len();
    }
    if text[1] == b' ' { 2 } else { 1 }
}

// No line of a program was given yet, or what it led to was printed.
fn no_line(program: Program) -> Line {
    let writing = Writing {
        is_cut: false,
        digits: 0,
        capitals: 0,
        blanks: 0,
        returns: 0,
        strange: 0,
    };
    Line {
        program,
        spelled: None,
        writing,
    }
}

fn was_printed(mark: Option<Mark>, program: Program, s: &[u8]) -> bool {
    match mark {
        Some(Mark::Given) => false,
        Some(Mark::Printed) => true,
        None => is_printed(program, s),
    }
}

fn say_taken(rt: &impl Print, program: Program, s: &[u8]) -> io::Result<()> {
    match program {
        Program::Vaultlines => say_given(rt, s),
        Program::Rehearsal => say_rehearsed(rt, s),
    }
}

// Explains a line that spells bytes. Answers the line that is then waiting for what it leads to.
fn explain_read(
    rt: &impl Print,
    mark: Option<Mark>,
    s: &[u8],
    line: Line,
    before: Line,
) -> io::Result<Line> {
    let program = line.program;
    if was_printed(mark, program, s) {
        say_printed(rt, s, before)?;
        return Ok(no_line(program));
    }
    say_digits(rt, program, line.writing)?;
    say_taken(rt, program, s)?;
    Ok(line)
}

// Explains a line's text behind its mark. It is of the same program as the line given before it.
fn explain_text(
    rt: &impl Print,
    mark: Option<Mark>,
    text: &[u8],
    before: Line,
) -> io::Result<Line> {
    let program = before.program;
    let line = text::read(text, program);
    say_writing(rt, program, line.writing)?;
    if let Some(spelled) = line.spelled {
        return explain_read(rt, mark, spelled.bytes(), line, before);
    }
    say_digits(rt, program, line.writing)?;
    Ok(line)
}

// Explains a line, where another was given before it.
fn explain_line(rt: &impl Print, text: &[u8], before: Line) -> io::Result<Line> {
    text::show(rt, text)?;
    let mark = mark_of(text);
    let from = after_mark(text, mark);
    if let Some(program) = text::program_in(&text[from..]) {
        say_turn(rt, program)?;
        return Ok(no_line(program));
    }
    explain_text(rt, mark, &text[from..], before)
}

// ---- the input, in pieces

// How much is kept of the line that has begun, and the line given last.
#[derive(Clone, Copy)]
struct Place {
    len: usize,
    given: Line,
}

// A piece of input. The first len bytes of text are what is kept of the line that has begun.
// The lines have different lengths, so the place in the piece is counted by the lines' ends.
fn feed(rt: &impl Print, text: &mut [u8], place: Place, piece: &[u8]) -> io::Result<Place>
    requires { (length text.old ≡ text_kept) × (place.len ≤ text_kept) }
    ensures { IfOk result (λ place. place.len ≤ text_kept) }
{
    let mut len = place.len;
    let mut given = place.given;
    let mut i = 0;
    while i < piece.len() {
        let taken = lines::take_line(text, len, piece, i);
        let to = taken.len;
        let end = taken.next;
        if end == piece.len() {
            return Ok(Place { len: to, given });
        }
        given = explain_line(rt, &text[0..to], given)?;
        len = 0;
        i = end + 1;
    }
    Ok(Place { len, given })
}

// The input's end: the line that has not ended is explained too.
fn finish(rt: &impl Print, text: &[u8], place: Place) -> io::Result<()>
    requires { (length text.now ≡ text_kept) × (place.len ≤ text_kept) }
{
    let len = place.len;
    if len != 0 {
        explain_line(rt, &text[0..len], place.given)?;
    }
    Ok(())
}

// Reads once, and explains the lines that end in what came; None where the input is over.
fn explain_some(
    rt: &(impl Input + Print),
    text: &mut [u8],
    place: Place,
) -> io::Result<Option<Place>>
    requires { (length text.old ≡ text_kept) × (place.len ≤ text_kept) }
    ensures { IfOk result (λ more. IfSome more (λ place. place.len ≤ text_kept)) }
{
    let mut piece = [0u8; PIECE];
    let count = rt.reader().read(&mut piece)?;
    if count == 0 {
        finish(rt, text, place)?;
        return Ok(None);
    }
    let place = feed(rt, text, place, &piece[..count])?;
    Ok(Some(place))
}

// A proved loop has to end, and nothing says that the input does: the loop takes so many turns that no run uses them up.
fn explain_all(rt: &(impl Input + Print), text: &mut [u8]) -> io::Result<()>
    requires { length text.old ≡ text_kept }
{
    let mut place = Place {
        len: 0,
        given: no_line(Program::Vaultlines),
    };
    for _ in 0..u64::MAX {
        let Some(next) = explain_some(rt, text, place)? else {
            return Ok(());
        };
        place = next;
    }
    Ok(())
}

fn main(rt: HostRuntime) -> io::Result<()> {
    let mut text = [0u8; TEXT];
    explain_all(&rt, &mut text)
}
