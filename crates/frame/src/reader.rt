// The frame reader: any bytes from any link give a frame, or the number of a refusal.
ghost use Rattle.std.specs.Prelude.{◌≡◌, true, ◌+◌, ◌≤◌, length};
ghost use Rattle.frame.specs.Format.{within, length_of, report_at, reports_at, body_as, decode};
ghost use Rattle.frame.specs.inside.Reading.{Formed};
ghost use Rattle.frame.specs.Refusal.{read_frame};
ghost use Rattle.frame.specs.Answers.{reading};

use crate::{Body, Frame, Refusal, Report, Reports};

fn report_at(s: &[u8], at: usize) -> Report
    requires { at + 13 ≤ length s.now }
    ensures { result ≡ report_at s.now at }
{
    Report {
        mark: s[at],
        view: wire::number32(s, at + 1),
        plan: wire::number64(s, at + 5),
    }
}

// The three reports that stand at a place, highest, previous and lock, 13 bytes each.
pub fn reports_at(s: &[u8], at: usize) -> Reports
    requires { at + 39 ≤ length s.now }
    ensures { result ≡ reports_at s.now at }
{
    let highest = report_at(s, at);
    let previous = report_at(s, at + 13);
    let lock = report_at(s, at + 26);
    Reports {
        highest,
        previous,
        lock,
    }
}

// What follows the head, by the kind.
fn body_as(kind: u8, s: &[u8]) -> Body
    requires { (within 1 8 kind ≡ true) × (length s.now ≡ length_of kind) }
    ensures { result ≡ body_as kind s.now }
{
    match kind {
        1..=5 => Body::Plan(wire::number64(s, 6)),
        6 => Body::Empty,
        _ => Body::Told(reports_at(s, 6)),
    }
}

// The frame that bytes of a known kind and its length say.
pub fn parse(s: &[u8]) -> Frame
    requires { Formed s.now }
    ensures { result ≡ decode s.now }
{
    let kind = s[0];
    let sender = s[1];
    let view = wire::number32(s, 2);
    let body = body_as(kind, s);
    Frame {
        kind,
        sender,
        view,
        body,
    }
}

// Reads the bytes that came over a link, at vault own of n: the frame, or why it is refused.
pub fn read(s: &[u8], link: u8, n: u8, own: u8) -> Result<Frame, Refusal>
    ensures { reading result ≡ read_frame s.now link n own }
{
    crate::form_refusal(s)?;
    crate::link_refusal(s[1], link, n, own)?;
    let f = parse(s);
    crate::frame_refusal(f, n, own)?;
    Ok(f)
}
