// The frame writer: a frame's bytes, written at the start of a slice that has room for them.
ghost use Rattle.std.specs.Prelude.{◌≡◌, ◌+◌, ◌≤◌, length};
ghost use Rattle.wire.specs.Fields.{spell};
ghost use Rattle.wire.specs.inside.Widths.{widths, total_width};
ghost use Rattle.wire.specs.Placed.{placed};
ghost use Rattle.frame.specs.Format.{head_fields, report_fields, reports_fields, body_fields, encode};

use crate::{Body, Frame, Report, Reports};

fn put_head(out: &mut [u8], f: Frame)
    requires { 6 ≤ length out.old }
    ensures { out.new ≡ placed out.old 0 (spell (head_fields f)) }
{
    wire::put(out, 0, 1, f.kind as u64);
    wire::put(out, 1, 1, f.sender as u64);
    wire::put(out, 2, 4, f.view as u64);
}

fn put_report(out: &mut [u8], at: usize, r: Report)
    requires { at + 13 ≤ length out.old }
    ensures { out.new ≡ placed out.old at (spell (report_fields r)) }
{
    let view_at = at + 1;
    let plan_at = view_at + 4;
    wire::put(out, at, 1, r.mark as u64);
    wire::put(out, view_at, 4, r.view as u64);
    wire::put(out, plan_at, 8, r.plan);
}

fn put_reports(out: &mut [u8], at: usize, r: Reports)
    requires { at + 39 ≤ length out.old }
    ensures { out.new ≡ placed out.old at (spell (reports_fields r)) }
{
    let highest = r.highest;
    let previous = r.previous;
    let lock = r.lock;
    let second = at + 13;
    let third = second + 13;
    put_report(out, at, highest);
    put_report(out, second, previous);
    put_report(out, third, lock);
}

// Writes what follows the head, and answers the length of the whole frame.
fn put_body(out: &mut [u8], b: Body) -> usize
    requires { 6 + total_width (widths (body_fields b)) ≤ length out.old }
    ensures { (result ≡ 6 + total_width (widths (body_fields b))) × (out.new ≡ placed out.old 6 (spell (body_fields b))) }
{
    match b {
        Body::Plan(plan) => {
            wire::put(out, 6, 8, plan);
            14
        }
        Body::Empty => 6,
        Body::Told(r) => {
            put_reports(out, 6, r);
            45
        }
    }
}

// Writes a frame at the start of a slice that has room for it; the rest stays. The result is the frame's length.
pub fn write(out: &mut [u8], f: Frame) -> usize
    requires { length (encode f) ≤ length out.old }
    ensures { (result ≡ length (encode f)) × (out.new ≡ placed out.old 0 (encode f)) }
{
    put_head(out, f);
    let body = f.body;
    put_body(out, body)
}
