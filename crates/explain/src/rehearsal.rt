// What lines say that are given to a rehearsal, and the part at fault where it refuses them. What they do is told by crate stage (specs/Lines);
// its stage is not known here, so a line is explained by itself.
ghost use Rattle.std.specs.Prelude.{◌≡◌, get_or};
ghost use Rattle.frame.specs.Refusal.{first};
ghost use Rattle.frame.specs.Answers.{number_in as refused_with};
ghost use Rattle.stage.specs.inside.Parts.{Formed};
ghost use Rattle.explain.specs.inside.Forms.{line_form};

use crate::frames::{say_bytes, say_length, say_no_kind};
use crate::refusals::{kind_fault, length_fault, say_part};
use frame::Refusal;
use std::io;

// 9 or 10, where the line's form alone gives it.
fn form_refusal(s: &[u8]) -> Result<(), Refusal>
    ensures { refused_with result ≡ first (line_form s.now) }
{
    if s.len() == 0 {
        return Err(Refusal::Kind);
    }
    if stage::TIMER < s[0] {
        return Err(Refusal::Kind);
    }
    if stage::wrong_length(s[0], s.len()) {
        return Err(Refusal::Length);
    }
    Ok(())
}

// What a line names behind its kind: 01 and 02 a frame, the others a vault.
fn number_in(s: &[u8]) -> u8
    requires { Formed s.now }
    ensures { result ≡ get_or s.now 1 0 }
{
    s[1]
}

// ---- lines of a wrong form

fn say_wrong_length(rt: &impl Print, kind: u8, count: usize) -> io::Result<()> {
    match kind {
        stage::START => say_length(rt, "    a start", count, stage::START_SIZE),
        stage::DELIVER => say_length(rt, "    a delivery", count, stage::DELIVER_SIZE),
        stage::DROP => say_length(rt, "    a drop", count, stage::NAME_SIZE),
        stage::DECLARE => say_length(rt, "    a declaration", count, stage::NAME_SIZE),
        stage::MAKE_UP => {
            println!(rt;
                "    a made-up frame, with kind and vault, of {count} bytes; it has to have 2 to 47"
            )
        }
        _ => say_length(rt, "    a timer", count, stage::NAME_SIZE),
    }
}

// ---- lines of the right form

fn say_start(rt: &impl Print, s: &[u8]) -> io::Result<()> {
    if s.len() != stage::START_SIZE {
        return Ok(());
    }
    let vault = s[1];
    let class = s[2];
    let plan = wire::number64(s, 3);
    println!(rt; "    start vault {vault}: link class {class}, starting plan {plan}")
}

fn say_made_up(rt: &impl Print, s: &[u8]) -> io::Result<()> {
    if s.len() < stage::NAME_SIZE {
        return Ok(());
    }
    let vault = s[1];
    print!(rt; "    made up by vault {vault}, to all: ")?;
    say_bytes(rt, &s[stage::NAME_SIZE..])
}

fn say_formed(rt: &impl Print, s: &[u8]) -> io::Result<()>
    requires { Formed s.now }
{
    let vault = stage::vault_in(s);
    let number = number_in(s);
    match s[0] {
        stage::START => say_start(rt, s),
        stage::DELIVER => println!(rt; "    deliver frame {number} to vault {vault}"),
        stage::DROP => println!(rt; "    drop frame {number}"),
        stage::DECLARE => println!(rt; "    declare the liar: vault {vault}"),
        stage::MAKE_UP => say_made_up(rt, s),
        _ => println!(rt; "    the timer for the current view runs out: vault {vault}"),
    }
}

// What a line says that is given to a rehearsal.
pub(crate) fn say_rehearsed(rt: &impl Print, s: &[u8]) -> io::Result<()> {
    if s.len() == 0 {
        return rt.write_all(b"    an empty line\n");
    }
    match form_refusal(s) {
        Ok(()) => say_formed(rt, s),
        Err(Refusal::Kind) => {
            rt.write_all(b"    ")?;
            say_no_kind(rt, s[0])
        }
        Err(_) => say_wrong_length(rt, s[0], s.len()),
    }
}

// ---- parts at fault

// The refusals of a frame are about one that is not in the line.
fn delivered_fault(rt: &impl Print, why: Refusal, frame: u8) -> io::Result<()> {
    match why {
        Refusal::Kind
        | Refusal::Length
        | Refusal::Link
        | Refusal::Sender
        | Refusal::ViewZero
        | Refusal::Report
        | Refusal::Leader
        | Refusal::Over
        | Refusal::Kept
        | Refusal::ReportView
        | Refusal::Previous => println!(rt;
            "        of the frame that was delivered, number {frame}"
        ),
        _ => Ok(()),
    }
}

// 23 for what the stage holds: a line's kind says what that can be.
fn stage_fault(rt: &impl Print, s: &[u8]) -> io::Result<()>
    requires { Formed s.now }
{
    let named = u64::from(number_in(s));
    match s[0] {
        stage::DELIVER | stage::DROP => say_part(rt, "no frame waits at number ", named),
        stage::DECLARE => say_part(rt, "a liar is declared, other than vault ", named),
        stage::MAKE_UP => say_part(rt, "not declared the liar: vault ", named),
        _ => Ok(()),
    }
}

// 23: the vault's number is tested first.
fn name_fault(rt: &impl Print, s: &[u8]) -> io::Result<()>
    requires { Formed s.now }
{
    if stage::no_vault(s) {
        return say_part(
            rt,
            "the vault's number, above 3: ",
            u64::from(stage::vault_in(s)),
        );
    }
    stage_fault(rt, s)
}

fn formed_fault(rt: &impl Print, why: Refusal, s: &[u8]) -> io::Result<()>
    requires { Formed s.now }
{
    if let Refusal::Name = why {
        return name_fault(rt, s);
    }
    if s[0] == stage::DELIVER {
        delivered_fault(rt, why, number_in(s))?;
    }
    Ok(())
}

// The part at fault of a line that a rehearsal refused.
pub(crate) fn line_fault(rt: &impl Print, why: Refusal, s: &[u8]) -> io::Result<()> {
    let Err(form) = form_refusal(s) else {
        return formed_fault(rt, why, s);
    };
    if form != why {
        return Ok(());
    }
    match form {
        Refusal::Kind => kind_fault(rt, s),
        _ => length_fault(rt, s),
    }
}
