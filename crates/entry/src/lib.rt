// Output entries: written end to end, and walked one after the other.
#![tactic(auto)]

ghost use Rattle.std.specs.Prelude.{◌≡◌, ◌+◌, ◌≤◌, length, drop, ◌∷◌};
ghost use Rattle.wire.specs.Fields.{spell};
ghost use Rattle.wire.specs.inside.Widths.{widths, total_width};
ghost use Rattle.wire.specs.Placed.{placed};
ghost use Rattle.frame.specs.Format.{encode};
ghost use Rattle.entry.specs.Layout.{host_fields, entry_bytes};
ghost use Rattle.entry.specs.Walk.{host_size, frame_size, size_by, size_in};

use frame::{Frame, numbers};

// An entry of the output: a frame for all vaults or for one, or word to the host that a timer is to run or a plan is decided.
#[derive(Clone, Copy)]
pub enum Entry {
    ForAll(Frame),
    ForOne(u8, Frame),
    Timer { view: u32, millis: u32 },
    Decision { view: u32, plan: u64 },
}

// Writes a recipient and a frame at a place, with the rest of the output lent to the frame writer.
fn put_frame(out: &mut [u8], at: usize, to: u8, f: Frame) -> usize
    requires { at + length (to ∷ encode f) ≤ length out.old }
    ensures { (result ≡ at + length (to ∷ encode f)) × (out.new ≡ placed out.old at (to ∷ encode f)) }
{
    out[at] = to;
    let start = at + 1;
    let count = frame::writer::write(&mut out[start..], f);
    start + count
}

// Writes a host entry at a place: the host's byte, what it is told, the view, and a number of some width.
fn put_host(out: &mut [u8], at: usize, code: u8, view: u32, width: usize, value: u64) -> usize
    requires { at + total_width (widths (host_fields code view width value)) ≤ length out.old }
    ensures { (result ≡ at + total_width (widths (host_fields code view width value))) × (out.new ≡ placed out.old at (spell (host_fields code view width value))) }
{
    let code_at = at + 1;
    let view_at = code_at + 1;
    let value_at = view_at + 4;
    wire::put(out, at, 1, numbers::TO_HOST as u64);
    wire::put(out, code_at, 1, code as u64);
    wire::put(out, view_at, 4, view as u64);
    wire::put(out, value_at, width, value);
    value_at + width
}

// Writes one entry at a place, and answers the next place.
pub fn put_entry(out: &mut [u8], at: usize, e: Entry) -> usize
    requires { at + length (entry_bytes e) ≤ length out.old }
    ensures { (result ≡ at + length (entry_bytes e)) × (out.new ≡ placed out.old at (entry_bytes e)) }
{
    match e {
        Entry::ForAll(f) => put_frame(out, at, numbers::TO_ALL, f),
        Entry::ForOne(to, f) => put_frame(out, at, to, f),
        Entry::Timer { view, millis } => put_host(
            out,
            at,
            numbers::HOST_TIMER,
            view,
            4,
            millis as u64,
        ),
        Entry::Decision { view, plan } => put_host(out, at, numbers::HOST_DECISION, view, 8, plan),
    }
}

// ---- a walk over entries

// How long an entry for the host is, of a timer or a decision.
const TIMER_SIZE: usize = 10;

const DECISION_SIZE: usize = 14;

// How long an entry for the host is; 0 where it is told nothing known.
fn host_size(told: u8) -> usize
    ensures { result ≡ host_size told }
{
    if told == numbers::HOST_TIMER {
        return TIMER_SIZE;
    }
    if told == numbers::HOST_DECISION {
        return DECISION_SIZE;
    }
    0
}

// How long a frame of a kind is with its recipient byte; 0 where there is no such kind.
fn frame_size(kind: u8) -> usize
    ensures { result ≡ frame_size kind }
{
    let length = frame::length_of(kind);
    if length == 0 {
        return 0;
    }
    1 + length
}

// How long an entry is, by its first two bytes; 0 where none begins so.
fn size_by(to: u8, next: u8) -> usize
    ensures { result ≡ size_by to next }
{
    if to == numbers::TO_HOST {
        return host_size(next);
    }
    frame_size(next)
}

// How many bytes the entry at the start of some bytes takes; 0 where no whole entry stands there, as the C interface has it (`vault_entry`).
pub fn size_in(s: &[u8]) -> usize
    ensures { result ≡ size_in s.now }
{
    if s.len() < 2 {
        return 0;
    }
    let size = size_by(s[0], s[1]);
    if s.len() < size {
        return 0;
    }
    size
}

// The same at a place; 0 at the end and beyond it.
pub fn size_from(s: &[u8], at: usize) -> usize
    ensures { result ≡ size_in (drop at s.now) }
{
    if s.len() < at {
        return 0;
    }
    size_in(&s[at..])
}
