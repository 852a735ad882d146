// Whether the record that a remnant makes is sound, told by the remnant's own bytes: that record has the one row that they hold, and nothing is at fault where
// nothing is kept. So no record is made to be tested.
ghost use Rattle.std.specs.Prelude.{◌≡◌, not, ◌&&◌, ◌+◌, ◌≤◌, ◌<◌, eqb, ltb};
ghost use Rattle.record.specs.Slots.{rows, kinds};
ghost use Rattle.record.specs.Layout.{encode_record};
ghost use Rattle.record.specs.Kept.{reports_in, body_in, frame_held};
ghost use Rattle.sound.specs.inside.Sound.{all, empty_at, no_plan, frame_sound, place_sound, previous_sound, votes_sound, lent_is};
ghost use Rattle.own.specs.Part.{restored};
ghost use Rattle.contents.specs.Which.{is_sound};
ghost use Rattle.remnant.specs.inside.Parts.{id_in, row_in, Fitting, Kind, Head};

use frame::{Body, Frame, Report, Reports, numbers};
use settings::Settings;

// ---- the frame of a kind

// The three reports of the own suggest or proof.
fn reports_in(own: &[u8; own::SIZE], kind: u8) -> Reports
    requires { (7 ≤ kind) × Kind own.now kind }
    ensures { result ≡ reports_in (row_in own.now) kind (id_in own.now) }
{
    let at = own::REPORTS + 3 * (kind - numbers::SUGGEST);
    let highest = own::slot_in(own, at);
    let previous = own::slot_in(own, at + 1);
    let lock = own::slot_in(own, at + 2);
    Reports {
        highest,
        previous,
        lock,
    }
}

// What follows the head of the own frame, by its kind.
fn body_in(own: &[u8; own::SIZE], kind: u8, head: Report) -> Body
    requires { Kind own.now kind × Head own.now kind head }
    ensures { result ≡ body_in (row_in own.now) kind (id_in own.now) }
{
    if kind < numbers::VIEW_CHANGE {
        return Body::Plan(head.plan);
    }
    if kind == numbers::VIEW_CHANGE {
        return Body::Empty;
    }
    Body::Told(reports_in(own, kind))
}

// The own frame of a kind.
fn frame_in(own: &[u8; own::SIZE], id: u8, kind: u8, head: Report) -> Frame
    requires { (id ≡ id_in own.now) × Kind own.now kind × Head own.now kind head }
    ensures { result ≡ frame_held (row_in own.now) kind (id_in own.now) }
{
    let body = body_in(own, kind, head);
    Frame {
        kind,
        sender: id,
        view: head.view,
        body,
    }
}

// ---- whether it is sound

// An own frame above the current view. A view-change may be.
fn above(view: u32, kind: u8, at: u32) -> bool
    ensures { result ≡ (not (eqb kind 6) && ltb view at) }
{
    if kind == numbers::VIEW_CHANGE {
        return false;
    }
    view < at
}

// An own frame passes 13, 14, 21, 22 and 15, and is not above the current view.
fn frame_sound(set: Settings, view: u32, f: Frame) -> bool
    requires { (f.sender ≡ set.id) × (set.id < set.n) }
    ensures { result ≡ frame_sound set view f }
{
    if above(view, f.kind, f.view) {
        return false;
    }
    frame::frame_refusal(f, set.n, set.id).is_ok()
}

// A slot has no plan that its kind's frames have not.
fn no_plan(kind: u8, plan: u64) -> bool
    ensures { result ≡ no_plan kind plan }
{
    if kind < numbers::VIEW_CHANGE {
        return true;
    }
    plan == 0
}

// Nothing is kept of a kind: neither a frame nor a report.
fn empty_at(own: &[u8; own::SIZE], kind: u8, head: Report) -> bool
    requires { Kind own.now kind × Head own.now kind head }
    ensures { result ≡ empty_at (row_in own.now) kind (id_in own.now) }
{
    if !sound::empty(head) {
        return false;
    }
    if kind < numbers::SUGGEST {
        return true;
    }
    let told = reports_in(own, kind);
    if !sound::empty(told.highest) {
        return false;
    }
    if !sound::empty(told.previous) {
        return false;
    }
    sound::empty(told.lock)
}

// What stands for a kind is a sound frame, or nothing at all.
fn place_sound(own: &[u8; own::SIZE], set: Settings, view: u32, kind: u8) -> bool
    requires { Fitting own.now set × (1 ≤ kind) × (kind ≤ 8) }
    ensures { result ≡ place_sound (row_in own.now) set view kind set.id }
{
    let head = own::slot_in(own, kind - 1);
    if head.mark != numbers::PRESENT {
        return empty_at(own, kind, head);
    }
    if !no_plan(kind, head.plan) {
        return false;
    }
    frame_sound(set, view, frame_in(own, set.id, kind, head))
}

// ---- the row

// The eight kinds.
fn frames_sound(own: &[u8; own::SIZE], set: Settings, view: u32) -> bool
    requires { Fitting own.now set }
    ensures { result ≡ all (λ k. place_sound (row_in own.now) set view (k + 1) set.id) kinds }
{
    for k in 0..numbers::PROOF {
        if !place_sound(own, set, view, k + 1) {
            return false;
        }
    }
    true
}

// The own previous vote of a kind (2 is vote-1, 3 is vote-2) against the own kept one.
fn previous_sound(own: &[u8; own::SIZE], kind: u8) -> bool
    requires { (2 ≤ kind) × (kind ≤ 3) × (id_in own.now < rows) }
    ensures { result ≡ previous_sound (row_in own.now) (id_in own.now) kind }
{
    let highest = own::slot_in(own, kind - 1);
    let previous = own::slot_in(own, own::PREVIOUS + (kind - numbers::VOTE_1));
    sound::previous_stands(highest, previous)
}

// The own previous votes and the decision.
fn votes_sound(own: &[u8; own::SIZE]) -> bool
    requires { id_in own.now < rows }
    ensures { result ≡ votes_sound (row_in own.now) (id_in own.now) }
{
    if !previous_sound(own, numbers::VOTE_1) {
        return false;
    }
    if !previous_sound(own, numbers::VOTE_2) {
        return false;
    }
    sound::well_formed(own::slot_in(own, own::DECISION))
}

// Whether a remnant whose settings pass makes a sound record.
pub fn is_sound(own: &[u8; own::SIZE], set: Settings) -> bool
    requires { Fitting own.now set }
    ensures { result ≡ is_sound (lent_is (encode_record (restored own.now))) }
{
    if !frames_sound(own, set, own::view_in(own)) {
        return false;
    }
    votes_sound(own)
}
