// Keeping frames where the record's bytes lie: the refusals against the record, and frames put into the rows of their senders.
ghost use Rattle.std.specs.Prelude.{◌≡◌, true, ◌≤◌, ◌<◌, length};
ghost use Rattle.frame.specs.Valid.{fits};
ghost use Rattle.frame.specs.Refusal.{first};
ghost use Rattle.frame.specs.Answers.{number_in};
ghost use Rattle.record.specs.Slots.{rows, slot_of};
ghost use Rattle.record.specs.inside.Slots.{RowPlace};
ghost use Rattle.record.specs.Size.{record_size};
ghost use Rattle.record.specs.Layout.{decode_record};
ghost use Rattle.record.specs.inside.Layout.{HoldsRecord};
ghost use Rattle.record.specs.Kept.{plan_of};
ghost use Rattle.record.specs.inside.Kept.{with_reports, told, keep_frame};
ghost use Rattle.record.specs.inside.Keeping.{stale, outdone, keep_rows};

use frame::{Body, Frame, Refusal, Report, Reports, numbers};

#[tactic(auto, unfolding(crate::specs::inside::Keeping::stale))]
fn is_stale(current: u32, kind: u8, view: u32) -> bool
    ensures { result ≡ stale current kind view }
{
    view < current || (kind == numbers::VIEW_CHANGE && view == current)
}

#[tactic(auto, unfolding(crate::specs::inside::Keeping::outdone))]
fn is_outdone(slot: Report, view: u32) -> bool
    ensures { result ≡ outdone slot view }
{
    slot.mark == numbers::PRESENT && view <= slot.view
}

// Refusals 16 and 17, of a frame's sender, kind and view against the record.
pub fn keep_refusal(
    rec: &[u8],
    current: u32,
    sender: u8,
    kind: u8,
    view: u32,
) -> Result<(), Refusal>
    requires { RowPlace kind sender × (length rec.now ≡ record_size) }
    ensures { number_in result ≡ first (keep_rows (slot_of (decode_record rec.now)) current sender kind view) }
{
    if is_stale(current, kind, view) {
        return Err(Refusal::Over);
    }
    let at = crate::frame_slot(kind, sender);
    if is_outdone(crate::slot_of(rec, at), view) {
        return Err(Refusal::Kept);
    }
    Ok(())
}

// Puts three reports into the places of a kind and a sender.
fn put_reports(rec: &mut [u8], kind: u8, sender: u8, t: Reports)
    requires { (7 ≤ kind) × RowPlace kind sender × (length rec.old ≡ record_size) }
    ensures { HoldsRecord rec.new (with_reports (decode_record rec.old) kind sender t) }
{
    let first = crate::report_slot(kind, 0, sender);
    let highest = t.highest;
    let previous = t.previous;
    let lock = t.lock;
    crate::put_slot(rec, first, highest);
    crate::put_slot(rec, first + crate::ROWS, previous);
    crate::put_slot(rec, first + 2 * crate::ROWS, lock);
}

// The plan that a frame's own slot holds.
fn plan_of(body: Body) -> u64
    ensures { result ≡ plan_of body }
{
    match body {
        Body::Plan(plan) => plan,
        Body::Empty => 0,
        Body::Told(_) => 0,
    }
}

// Puts a frame that has no reports into a sender's row.
pub fn keep_head(rec: &mut [u8], sender: u8, f: Frame)
    requires { (fits f.kind f.body ≡ true) × (f.kind ≤ 6) × (sender < rows) × (length rec.old ≡ record_size) }
    ensures { HoldsRecord rec.new (keep_frame (decode_record rec.old) sender f) }
{
    let at = crate::frame_slot(f.kind, sender);
    let body = f.body;
    let head = frame::present(f.view, plan_of(body));
    crate::put_slot(rec, at, head);
}

// Puts a suggest or a proof with its reports into a sender's row.
pub fn keep_told(rec: &mut [u8], sender: u8, kind: u8, view: u32, t: Reports)
    requires { (7 ≤ kind) × RowPlace kind sender × (length rec.old ≡ record_size) }
    ensures { HoldsRecord rec.new (keep_frame (decode_record rec.old) sender (told kind sender view t)) }
{
    let at = crate::frame_slot(kind, sender);
    let head = frame::present(view, 0);
    crate::put_slot(rec, at, head);
    put_reports(rec, kind, sender, t);
}

// Puts a frame into a sender's row.
pub fn keep(rec: &mut [u8], sender: u8, f: Frame)
    requires { (fits f.kind f.body ≡ true) × (sender < rows) × (length rec.old ≡ record_size) }
    ensures { HoldsRecord rec.new (keep_frame (decode_record rec.old) sender f) }
{
    let body = f.body;
    match body {
        Body::Told(t) => keep_told(rec, sender, f.kind, f.view, t),
        Body::Plan(_) => keep_head(rec, sender, f),
        Body::Empty => keep_head(rec, sender, f),
    }
}
