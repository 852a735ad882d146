// What lines say that the programs print: 'one output entry a line, or fd and the refusal number as one byte'. A rehearsal leads a frame's entry
// 'by fc and its number, or by fb where 256 wait and it is lost'.
ghost use Rattle.std.specs.Prelude.{◌≤◌, length};

use crate::frames::{frame_in, say_bytes, say_frame};
use crate::programs::Program;
use crate::refusals::say_refusal;
use crate::text::Line;
use frame::numbers;
use std::io;

// Where its entry begins: behind fc and the number, or behind fb.
const AFTER_NUMBER: usize = 2;

const AFTER_LOST: usize = 1;

const REFUSAL_LENGTH: usize = 2;

const TIMER_LENGTH: usize = 10;

const DECISION_LENGTH: usize = 14;

const SUGGEST_LENGTH: usize = 46;

// ---- which lines these are

fn is_host_entry(s: &[u8]) -> bool {
    match s.len() {
        TIMER_LENGTH => s[1] == numbers::HOST_TIMER,
        DECISION_LENGTH => s[1] == numbers::HOST_DECISION,
        _ => false,
    }
}

fn is_entry(s: &[u8]) -> bool {
    if s.len() < 2 {
        return false;
    }
    frame::form_refusal(&s[1..]).is_ok()
}

// A vault sends nothing but suggests to a single vault. So a given frame that is a byte too long is not taken for an entry.
fn is_suggest(s: &[u8]) -> bool {
    if s.len() != SUGGEST_LENGTH {
        return false;
    }
    s[1] == numbers::SUGGEST
}

// Whether the entry of a frame in a rehearsal stands in a line from a place on: for all, as a frame that is made up may have any bytes, or a suggest
// for one of the vaults.
fn is_led(s: &[u8], from: usize) -> bool {
    if s.len() <= from {
        return false;
    }
    match s[from] {
        numbers::TO_ALL => s.len() - from <= SUGGEST_LENGTH,
        0..=stage::LAST_VAULT => is_suggest(&s[from..]),
        _ => false,
    }
}

// Whether a line without a mark is one that is printed. No line that the program takes looks the same.
pub(crate) fn is_printed(program: Program, s: &[u8]) -> bool {
    if s.len() == 0 {
        return false;
    }
    match s[0] {
        lines::REFUSED => s.len() == REFUSAL_LENGTH,
        numbers::TO_HOST => is_host_entry(s),
        stage::WAITS => is_led(s, AFTER_NUMBER),
        stage::LOST => is_led(s, AFTER_LOST),
        numbers::TO_ALL => program == Program::Vaultlines && is_entry(s),
        0..=63 => program == Program::Vaultlines && is_suggest(s),
        _ => false,
    }
}

// ---- what they say

fn say_unknown(rt: &impl Print, program: Program) -> io::Result<()> {
    println!(rt; "    nothing that {program} prints")
}

fn say_timer(rt: &impl Print, s: &[u8]) -> io::Result<()>
    requires { 10 ≤ length s.now }
{
    let view = wire::number32(s, 2);
    let millis = wire::number32(s, 6);
    println!(rt; "    set a timer: view {view}, {millis} milliseconds")
}

fn say_decision(rt: &impl Print, s: &[u8]) -> io::Result<()>
    requires { 14 ≤ length s.now }
{
    let view = wire::number32(s, 2);
    let plan = wire::number64(s, 6);
    println!(rt; "    decided: view {view}, plan {plan}")
}

fn say_host(rt: &impl Print, program: Program, s: &[u8]) -> io::Result<()> {
    if !is_host_entry(s) {
        return say_unknown(rt, program);
    }
    match s.len() {
        TIMER_LENGTH => say_timer(rt, s),
        DECISION_LENGTH => say_decision(rt, s),
        _ => Ok(()),
    }
}

fn say_recipient(rt: &impl Print, to: u8) -> io::Result<()> {
    if to == numbers::TO_ALL {
        return rt.write_all(b"to all: ");
    }
    print!(rt; "to vault {to}: ")
}

// A rehearsal prints no entry of a frame with nothing before it.
fn say_entry(rt: &impl Print, program: Program, s: &[u8]) -> io::Result<()> {
    if program == Program::Rehearsal {
        return say_unknown(rt, program);
    }
    if s.len() == 0 {
        return say_unknown(rt, program);
    }
    let Ok(f) = frame_in(&s[1..]) else {
        return say_unknown(rt, program);
    };
    rt.write_all(b"    ")?;
    say_recipient(rt, s[0])?;
    say_frame(rt, f)
}

fn say_waiting(rt: &impl Print, program: Program, s: &[u8]) -> io::Result<()> {
    if s.len() <= AFTER_NUMBER {
        return say_unknown(rt, program);
    }
    let number = s[1];
    print!(rt; "    frame {number} waits, ")?;
    say_recipient(rt, s[AFTER_NUMBER])?;
    say_bytes(rt, &s[AFTER_NUMBER + 1..])
}

fn say_lost(rt: &impl Print, program: Program, s: &[u8]) -> io::Result<()> {
    if s.len() <= AFTER_LOST {
        return say_unknown(rt, program);
    }
    rt.write_all(b"    lost, as 256 frames wait, ")?;
    say_recipient(rt, s[AFTER_LOST])?;
    say_bytes(rt, &s[AFTER_LOST + 1..])
}

fn say_refused(rt: &impl Print, s: &[u8], given: Line) -> io::Result<()> {
    if s.len() != REFUSAL_LENGTH {
        return say_unknown(rt, given.program);
    }
    say_refusal(rt, s[1], given)
}

// The line given before it is told for a refusal.
pub(crate) fn say_printed(rt: &impl Print, s: &[u8], given: Line) -> io::Result<()> {
    let program = given.program;
    if s.len() == 0 {
        return say_unknown(rt, program);
    }
    match s[0] {
        lines::REFUSED => say_refused(rt, s, given),
        numbers::TO_HOST => say_host(rt, program, s),
        stage::WAITS => say_waiting(rt, program, s),
        stage::LOST => say_lost(rt, program, s),
        _ => say_entry(rt, program, s),
    }
}
