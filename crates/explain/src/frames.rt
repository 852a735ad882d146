// What frames say, in plain words.
ghost use Rattle.std.specs.Prelude.{◌≡◌, ◌≤◌};
ghost use Rattle.frame.specs.Refusal.{first, form_rows};
ghost use Rattle.explain.specs.inside.Forms.{form_number};

use frame::{Body, Frame, Refusal, Report, Reports, numbers};
use std::io;

// The frame that bytes say, or refusal 9 or 10.
pub(crate) fn frame_in(s: &[u8]) -> Result<Frame, Refusal>
    ensures { form_number result ≡ first (form_rows s.now) }
{
    frame::form_refusal(s)?;
    Ok(frame::reader::parse(s))
}

pub(crate) fn say_kind(rt: &impl Print, kind: u8) -> io::Result<()> {
    match kind {
        numbers::PROPOSAL => rt.write_all(b"proposal"),
        numbers::VOTE_1..=numbers::VOTE_4 => {
            let vote = kind - numbers::PROPOSAL;
            print!(rt; "vote-{vote}")
        }
        numbers::VIEW_CHANGE => rt.write_all(b"view-change"),
        numbers::SUGGEST => rt.write_all(b"suggest"),
        numbers::PROOF => rt.write_all(b"proof"),
        _ => rt.write_all(b"frame"),
    }
}

// 'A suggest reports highest vote-2, previous vote-2, highest vote-3. A proof reports highest vote-1, previous vote-1, highest vote-4.'
pub(crate) fn vote_of(kind: u8) -> u8
    ensures { result ≤ 2 }
{
    if kind == numbers::SUGGEST { 2 } else { 1 }
}

pub(crate) fn lock_of(kind: u8) -> u8
    ensures { result ≤ 4 }
{
    if kind == numbers::SUGGEST { 3 } else { 4 }
}

fn say_place(rt: &impl Print, view: u32, plan: u64) -> io::Result<()> {
    println!(rt; "view {view}, plan {plan}")
}

fn is_none(r: Report) -> bool {
    r.mark == 0 && r.view == 0 && r.plan == 0
}

// A report: the vote, or none; where its mark fits neither, all of it.
fn say_report(rt: &impl Print, name: &str, vote: u8, r: Report) -> io::Result<()> {
    print!(rt; "        {name} vote-{vote}: ")?;
    if is_none(r) {
        return rt.write_all(b"none\n");
    }
    if r.mark != numbers::PRESENT {
        let mark = r.mark;
        print!(rt; "mark {mark}, ")?;
    }
    say_place(rt, r.view, r.plan)
}

fn say_reports(rt: &impl Print, kind: u8, r: Reports) -> io::Result<()> {
    let highest = r.highest;
    let previous = r.previous;
    let lock = r.lock;
    say_report(rt, "highest", vote_of(kind), highest)?;
    say_report(rt, "previous", vote_of(kind), previous)?;
    say_report(rt, "highest", lock_of(kind), lock)
}

fn say_body(rt: &impl Print, f: Frame) -> io::Result<()> {
    let view = f.view;
    let body = f.body;
    match body {
        Body::Plan(plan) => println!(rt; ", view {view}, plan {plan}"),
        Body::Empty => println!(rt; " for view {view}"),
        Body::Told(r) => {
            println!(rt; ", view {view}")?;
            say_reports(rt, f.kind, r)
        }
    }
}

// Kind, sender and what the frame holds: 'vote-2 of vault 1, view 0, plan 7'.
pub(crate) fn say_frame(rt: &impl Print, f: Frame) -> io::Result<()> {
    say_kind(rt, f.kind)?;
    let sender = f.sender;
    print!(rt; " of vault {sender}")?;
    say_body(rt, f)
}

// ---- bytes that are no frame

// Where a line or a frame has another length than its kind.
pub(crate) fn say_length(
    rt: &impl Print,
    words: &str,
    count: usize,
    wanted: usize,
) -> io::Result<()> {
    println!(rt; "{words} of {count} bytes; it has to have {wanted}")
}

pub(crate) fn say_no_kind(rt: &impl Print, kind: u8) -> io::Result<()> {
    println!(rt; "there is no kind {kind:02x}")
}

// Why bytes are no frame, where there are any.
pub(crate) fn say_unformed(rt: &impl Print, s: &[u8]) -> io::Result<()> {
    if s.len() == 0 {
        return Ok(());
    }
    let size = frame::length_of(s[0]);
    if size == 0 {
        return say_no_kind(rt, s[0]);
    }
    rt.write_all(b"a ")?;
    say_kind(rt, s[0])?;
    say_length(rt, "", s.len(), size)
}

// What the vaults read in bytes: a frame, or why they are none.
pub(crate) fn say_bytes(rt: &impl Print, s: &[u8]) -> io::Result<()> {
    if s.len() == 0 {
        return rt.write_all(b"an empty frame\n");
    }
    let Ok(f) = frame_in(s) else {
        rt.write_all(b"no frame: ")?;
        return say_unformed(rt, s);
    };
    say_frame(rt, f)
}
