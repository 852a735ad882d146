// Refusals: their sentences, and the part at fault of the line that was given.
ghost use Rattle.std.specs.Prelude.{◌≤◌, ◌≡◌, IfSome};
ghost use Rattle.frame.specs.Numbers.{number_of};
ghost use Rattle.explain.specs.inside.Faults.{fault_number, form_fault, view_fault, fault_alone, previous_fault};

use crate::frames::{frame_in, lock_of, say_kind, vote_of};
use crate::given::{START_LENGTH, TIMER_LENGTH};
use crate::programs::Program;
use crate::rehearsal::line_fault;
use crate::text::{Line, say_digits, say_writing};
use frame::{Body, Frame, Refusal, Report, Reports, numbers};
use std::io;

// No sentence is longer.
const LONGEST: usize = 120;

// The refusal that a number stands for.
fn refusal_of(number: u8) -> Option<Refusal>
    ensures { IfSome result (λ why. number_of why ≡ number) }
{
    match number {
        1 => Some(Refusal::Output),
        2 => Some(Refusal::Blank),
        3 => Some(Refusal::Unsound),
        4 => Some(Refusal::Started),
        5 => Some(Refusal::N),
        6 => Some(Refusal::F),
        7 => Some(Refusal::Id),
        8 => Some(Refusal::Class),
        9 => Some(Refusal::Kind),
        10 => Some(Refusal::Length),
        11 => Some(Refusal::Link),
        12 => Some(Refusal::Sender),
        13 => Some(Refusal::ViewZero),
        14 => Some(Refusal::Report),
        15 => Some(Refusal::Leader),
        16 => Some(Refusal::Over),
        17 => Some(Refusal::Kept),
        18 => Some(Refusal::Timer),
        19 => Some(Refusal::LastView),
        20 => Some(Refusal::Line),
        21 => Some(Refusal::ReportView),
        22 => Some(Refusal::Previous),
        23 => Some(Refusal::Name),
        24 => Some(Refusal::Records),
        25 => Some(Refusal::RemnantLength),
        26 => Some(Refusal::RemnantUnsound),
        _ => None,
    }
}

// ---- sentences

// The library's own sentence, as hosts get it.
fn say_library_reason(rt: &impl Print, number: u8) -> io::Result<()> {
    let mut text = [0u8; LONGEST];
    let count = questions::refusal_text(u32::from(number), &mut text);
    if count == 0 {
        return rt.write_all(b"there is no refusal of this number");
    }
    if count <= LONGEST {
        rt.write_all(&text[0..count])?;
    }
    Ok(())
}

// A rehearsal has a refusal of its own, and another limit for 20.
fn say_reason(rt: &impl Print, program: Program, number: u8) -> io::Result<()> {
    let why = refusal_of(number);
    if let (Program::Rehearsal, Some(Refusal::Name)) = (program, why) {
        return rt.write_all(
            b"no such frame waits, a vault above 3, a second liar, or a frame made up for a vault not declared",
        );
    }
    say_library_reason(rt, number)?;
    if let (Program::Rehearsal, Some(Refusal::Line)) = (program, why) {
        let most = stage::DIGITS;
        print!(rt; "; a rehearsal takes {most}")?;
    }
    Ok(())
}

// ---- parts at fault

pub(crate) fn say_part(rt: &impl Print, words: &str, n: u64) -> io::Result<()> {
    println!(rt; "        at fault: {words}{n}")
}

fn with_n_fault(rt: &impl Print, words: &str, x: u8, n: u8) -> io::Result<()> {
    println!(rt; "        at fault: {words}{x}, with n, byte 1: {n}")
}

fn settings_fault(
    rt: &impl Print,
    why: Refusal,
    n: u8,
    f: u8,
    id: u8,
    class: u8,
) -> io::Result<()> {
    match why {
        Refusal::N => say_part(rt, "n, byte 1: ", u64::from(n)),
        Refusal::F => with_n_fault(rt, "f, byte 2: ", f, n),
        Refusal::Id => with_n_fault(rt, "the vault's number, byte 3: ", id, n),
        Refusal::Class => say_part(rt, "the link class, byte 4: ", u64::from(class)),
        _ => Ok(()),
    }
}

fn start_fault(rt: &impl Print, why: Refusal, s: &[u8]) -> io::Result<()> {
    if s.len() != START_LENGTH {
        return Ok(());
    }
    settings_fault(rt, why, s[1], s[2], s[3], s[4])
}

fn timer_fault(rt: &impl Print, s: &[u8]) -> io::Result<()> {
    if s.len() != TIMER_LENGTH {
        return Ok(());
    }
    say_part(
        rt,
        "the view, bytes 1 to 4: ",
        u64::from(wire::number32(s, 1)),
    )
}

pub(crate) fn length_fault(rt: &impl Print, s: &[u8]) -> io::Result<()> {
    say_part(rt, "the length in bytes: ", s.len() as u64)
}

pub(crate) fn kind_fault(rt: &impl Print, s: &[u8]) -> io::Result<()> {
    if s.len() == 0 {
        return rt.write_all(b"        at fault: the line is empty\n");
    }
    let kind = s[0];
    println!(rt; "        at fault: the kind, byte 0: {kind:02x}")
}

// ---- reports at fault

// What is wrong with a report.
#[derive(Clone, Copy)]
enum Fault {
    BadMark,
    NotAllZero,
    ViewTooHigh,
    NoHighest,
    NotBelowHighest,
    HighestPlan,
}

// What is wrong with a report's form, for 14.
fn form_fault(r: Report) -> Option<Fault>
    ensures { fault_number result ≡ form_fault r }
{
    if frame::bad_form(r) {
        if numbers::PRESENT < r.mark {
            return Some(Fault::BadMark);
        }
        return Some(Fault::NotAllZero);
    }
    None
}

// What is wrong with a report's view, for 21.
fn view_fault(view: u32, r: Report) -> Option<Fault>
    ensures { fault_number result ≡ view_fault view r }
{
    if frame::too_high(view, r) {
        return Some(Fault::ViewTooHigh);
    }
    None
}

// What a refusal finds wrong with one report of a frame for a view.
fn report_alone(why: Refusal, view: u32, r: Report) -> Option<Fault>
    ensures { fault_number result ≡ fault_alone (number_of why) view r }
{
    match why {
        Refusal::Report => form_fault(r),
        Refusal::ReportView => view_fault(view, r),
        _ => None,
    }
}

// What is wrong with a previous vote beside the highest, for 22.
fn previous_fault(highest: Report, previous: Report) -> Option<Fault>
    ensures { fault_number result ≡ previous_fault highest previous }
{
    if frame::bad_previous(highest, previous) {
        if highest.mark != numbers::PRESENT {
            return Some(Fault::NoHighest);
        }
        if highest.view <= previous.view {
            return Some(Fault::NotBelowHighest);
        }
        return Some(Fault::HighestPlan);
    }
    None
}

fn say_wrong(rt: &impl Print, fault: Fault) -> io::Result<()> {
    match fault {
        Fault::BadMark => rt.write_all(b": its mark is neither 0 nor 1\n"),
        Fault::NotAllZero => rt.write_all(b": it is absent, and not all of it is 0\n"),
        Fault::ViewTooHigh => rt.write_all(b": its view is not below the frame's\n"),
        Fault::NoHighest => rt.write_all(b": there is no highest one\n"),
        Fault::NotBelowHighest => rt.write_all(b": its view is not below the highest one's\n"),
        Fault::HighestPlan => rt.write_all(b": it is for the highest one's plan\n"),
    }
}

fn report_fault(rt: &impl Print, name: &str, vote: u8, fault: Option<Fault>) -> io::Result<()> {
    let Some(fault) = fault else {
        return Ok(());
    };
    print!(rt; "        at fault: {name} vote-{vote}")?;
    say_wrong(rt, fault)
}

// The reports that 14 and 21 are given for: each that has the fault.
fn reports_fault(rt: &impl Print, why: Refusal, kind: u8, view: u32, r: Reports) -> io::Result<()> {
    let highest = r.highest;
    let previous = r.previous;
    let lock = r.lock;
    let vote = vote_of(kind);
    report_fault(rt, "highest", vote, report_alone(why, view, highest))?;
    report_fault(rt, "previous", vote, report_alone(why, view, previous))?;
    report_fault(rt, "highest", lock_of(kind), report_alone(why, view, lock))
}

// ---- frames at fault

fn body_fault(rt: &impl Print, why: Refusal, f: Frame) -> io::Result<()> {
    let body = f.body;
    let Body::Told(r) = body else {
        return Ok(());
    };
    match why {
        Refusal::Previous => report_fault(
            rt,
            "previous",
            vote_of(f.kind),
            previous_fault(r.highest, r.previous),
        ),
        _ => reports_fault(rt, why, f.kind, f.view, r),
    }
}

// A frame that was refused for what came before it: what it says of itself.
fn say_repeat(rt: &impl Print, f: Frame) -> io::Result<()> {
    let sender = f.sender;
    let view = f.view;
    rt.write_all(b"        at fault: a ")?;
    say_kind(rt, f.kind)?;
    println!(rt; " of vault {sender} for view {view} or a later one came before")
}

fn sender_and_view(rt: &impl Print, f: Frame) -> io::Result<()> {
    let sender = f.sender;
    let view = f.view;
    println!(rt;
        "        at fault: the sender, byte 1: {sender}, with the view, bytes 2 to 5: {view}"
    )
}

fn frame_fault(rt: &impl Print, why: Refusal, s: &[u8]) -> io::Result<()> {
    let Ok(f) = frame_in(s) else {
        return Ok(());
    };
    match why {
        Refusal::Link | Refusal::Sender => say_part(
            rt,
            "the sender, byte 1: ",
            u64::from(f.sender),
        ),
        Refusal::ViewZero | Refusal::Over => say_part(
            rt,
            "the view, bytes 2 to 5: ",
            u64::from(f.view),
        ),
        Refusal::Report | Refusal::ReportView | Refusal::Previous => body_fault(rt, why, f),
        Refusal::Leader => sender_and_view(rt, f),
        Refusal::Kept => say_repeat(rt, f),
        _ => Ok(()),
    }
}

// ---- a refusal

fn bytes_fault(rt: &impl Print, why: Refusal, s: &[u8]) -> io::Result<()> {
    match why {
        Refusal::N | Refusal::F | Refusal::Id | Refusal::Class => start_fault(rt, why, s),
        Refusal::Kind => kind_fault(rt, s),
        Refusal::Length => length_fault(rt, s),
        Refusal::Link
        | Refusal::Sender
        | Refusal::ViewZero
        | Refusal::Report
        | Refusal::Leader
        | Refusal::Over
        | Refusal::Kept
        | Refusal::ReportView
        | Refusal::Previous => frame_fault(rt, why, s),
        Refusal::Timer | Refusal::LastView => timer_fault(rt, s),
        _ => Ok(()),
    }
}

// The part at fault of a line of a program.
fn say_fault_in(rt: &impl Print, program: Program, why: Refusal, s: &[u8]) -> io::Result<()> {
    match program {
        Program::Vaultlines => bytes_fault(rt, why, s),
        Program::Rehearsal => line_fault(rt, why, s),
    }
}

// The part at fault, where a line was given before the refusal.
fn say_fault(rt: &impl Print, why: Refusal, given: Line) -> io::Result<()> {
    let program = given.program;
    if let Refusal::Line = why {
        say_writing(rt, program, given.writing)?;
        say_digits(rt, program, given.writing)?;
    }
    if let Some(spelled) = given.spelled {
        say_fault_in(rt, program, why, spelled.bytes())?;
    }
    Ok(())
}

pub(crate) fn say_refusal(rt: &impl Print, number: u8, given: Line) -> io::Result<()> {
    print!(rt; "    refused with {number}: ")?;
    say_reason(rt, given.program, number)?;
    rt.write_all(b"\n")?;
    match refusal_of(number) {
        Some(why) => say_fault(rt, why, given),
        None => Ok(()),
    }
}
