// What lines say that are given to vaultlines: 'Kind 00 starts ..; kind 09 is a timer ..; other lines are frames'.
use crate::frames::{frame_in, say_frame, say_length, say_unformed};
use std::io;

pub(crate) const START: u8 = 0;

pub(crate) const TIMER: u8 = 9;

pub(crate) const START_LENGTH: usize = 13;

pub(crate) const TIMER_LENGTH: usize = 5;

fn say_settings(rt: &impl Print, n: u8, f: u8, id: u8, class: u8) -> io::Result<()> {
    print!(rt;
        "    start: {n} vaults of which {f} may lie, this one is vault {id}, link class {class}"
    )
}

fn say_start(rt: &impl Print, s: &[u8]) -> io::Result<()> {
    if s.len() != START_LENGTH {
        return say_length(rt, "    a start", s.len(), START_LENGTH);
    }
    say_settings(rt, s[1], s[2], s[3], s[4])?;
    let plan = wire::number64(s, 5);
    println!(rt; ", starting plan {plan}")
}

fn say_timer(rt: &impl Print, s: &[u8]) -> io::Result<()> {
    if s.len() != TIMER_LENGTH {
        return say_length(rt, "    a timer", s.len(), TIMER_LENGTH);
    }
    let view = wire::number32(s, 1);
    println!(rt; "    the timer of view {view} ran out")
}

fn say_malformed(rt: &impl Print, s: &[u8]) -> io::Result<()> {
    if s.len() == 0 {
        return rt.write_all(b"    an empty line: an empty frame\n");
    }
    rt.write_all(b"    ")?;
    say_unformed(rt, s)
}

fn say_came(rt: &impl Print, s: &[u8]) -> io::Result<()> {
    let Ok(f) = frame_in(s) else {
        return say_malformed(rt, s);
    };
    rt.write_all(b"    came: ")?;
    say_frame(rt, f)
}

pub(crate) fn say_given(rt: &impl Print, s: &[u8]) -> io::Result<()> {
    if s.len() == 0 {
        return say_malformed(rt, s);
    }
    match s[0] {
        START => say_start(rt, s),
        TIMER => say_timer(rt, s),
        _ => say_came(rt, s),
    }
}
