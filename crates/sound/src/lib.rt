// Whether lent bytes are a blank record, a sound one, or neither. They are read where they lie: in bulk where nothing is kept, else the
// mark first, and the rest only where it is asked for.
#![tactic(auto)]

ghost use Rattle.std.specs.Prelude.{◌≡◌, not, ◌&&◌, ◌||◌, ◌+◌, ◌-◌, ◌*◌, ◌≤◌, ◌<◌, length, eqb, ltb};
ghost use Rattle.frame.specs.Format.{within, three_reports};
ghost use Rattle.frame.specs.Refusal.{first, absent, bad_form, bad_previous, report_rows};
ghost use Rattle.record.specs.Slots.{rows, slot_count, frame_slot, report_slot, slot_of};
ghost use Rattle.record.specs.inside.Slots.{RowPlace};
ghost use Rattle.record.specs.Layout.{slot_size, place, slot_in, decode_record};
ghost use Rattle.record.specs.Size.{record_size};
ghost use Rattle.record.specs.Kept.{reports_in};
ghost use Rattle.sound.specs.inside.Sound.{all, reports_absent, empty_at, frame_sound, place_sound, kind_sound, rows_sound, stands, previous_sound, votes_sound, sound_in, lent_is, lent_refusal};
ghost use Rattle.sound.specs.inside.Bulk.{group_size, zero_in, absent_from, told_absent, empty_from, Run, Marked, PlanSound, told_frame, report_fits};

use frame::{Refusal, Report, numbers};
use settings::Settings;

// What lent bytes are.
#[derive(Clone, Copy)]
pub enum Lent {
    Blank,
    Unsound,
    Sound,
}

// A kept frame's kind, sender and view.
#[derive(Clone, Copy)]
pub struct Head {
    pub kind: u8,
    pub sender: u8,
    pub view: u32,
}

// The bytes of one kind's slots, and of one group of its reports.
const GROUP: usize = record::SLOT * record::ROWS;

// ---- one slot

pub fn empty(slot: Report) -> bool
    ensures { result ≡ absent slot }
{
    slot.mark == 0 && slot.view == 0 && slot.plan == 0
}

pub fn well_formed(slot: Report) -> bool
    ensures { result ≡ not (bad_form slot) }
{
    !frame::bad_form(slot)
}

// A previous vote against its highest, but for its form.
fn follows(highest: Report, previous: Report) -> bool
    ensures { result ≡ not (bad_previous highest previous) }
{
    !frame::bad_previous(highest, previous)
}

// A previous vote against its highest.
pub fn previous_stands(highest: Report, previous: Report) -> bool
    ensures { result ≡ stands highest previous }
{
    well_formed(previous) && follows(highest, previous)
}

// ---- many slots

// Whether every byte is 0. There is no way out of the loop, so that it is compiled to steps of 16 bytes and more.
fn zero(s: &[u8]) -> bool
    ensures { result ≡ all (zero_in s.now) (length s.now) }
{
    let mut most: u8 = 0;
    for &byte in s {
        most = most.max(byte);
    }
    most == 0
}

// Whether some slots, one after the other, are all absent: their bytes lie end to end.
fn slots_absent(rec: &[u8], from: usize, count: usize) -> bool
    requires { Run from count × (length rec.now ≡ record_size) }
    ensures { result ≡ all (absent_from (slot_of (decode_record rec.now)) from) count }
{
    let at = record::place_of(from);
    let end = at + record::SLOT * count;
    zero(&rec[at..end])
}

// ---- one place: a kind and a sender

// Where the bytes of the slot stand that lies some slots behind another.
fn place_behind(slot: usize, count: u8) -> usize
    requires { (slot < slot_count) × (count < rows) }
    ensures { result ≡ place slot + slot_size * count }
{
    let first = record::place_of(slot);
    first + record::SLOT * (count as usize)
}

// Where the bytes of a kept frame's slot stand. A kind's slots lie end to end, so that only the first has to be looked up.
fn frame_place(kind: u8, sender: u8) -> usize
    requires { RowPlace kind sender }
    ensures { (result ≡ place (frame_slot kind sender)) × (result + slot_size ≤ record_size) }
{
    place_behind(record::frame_slot(kind, 0), sender)
}

// Where the bytes of a kept suggest's or proof's first report stand; the others' stand one and two groups on.
fn report_place(kind: u8, sender: u8) -> usize
    requires { (7 ≤ kind) × RowPlace kind sender }
    ensures { (result ≡ place (report_slot kind 0 sender)) × (result + (2 * group_size + slot_size) ≤ record_size) }
{
    place_behind(record::report_slot(kind, 0, 0), sender)
}

fn reports_absent(rec: &[u8], kind: u8, sender: u8) -> bool
    requires { (7 ≤ kind) × RowPlace kind sender × (length rec.now ≡ record_size) }
    ensures { result ≡ reports_absent (slot_of (decode_record rec.now)) kind sender }
{
    let at = report_place(kind, sender);
    if !empty(record::slot_at(rec, at)) {
        return false;
    }
    if !empty(record::slot_at(rec, at + GROUP)) {
        return false;
    }
    empty(record::slot_at(rec, at + 2 * GROUP))
}

// Nothing is kept for a kind and a sender: neither a frame nor a report.
fn empty_at(rec: &[u8], kind: u8, sender: u8) -> bool
    requires { RowPlace kind sender × (length rec.now ≡ record_size) }
    ensures { result ≡ empty_at (slot_of (decode_record rec.now)) kind sender }
{
    let at = frame_place(kind, sender);
    if !empty(record::slot_at(rec, at)) {
        return false;
    }
    if kind < numbers::SUGGEST {
        return true;
    }
    reports_absent(rec, kind, sender)
}

// A report that is absent, or present below a view.
fn report_fits(rec: &[u8], at: usize, view: u32) -> bool
    requires { at + slot_size ≤ length rec.now }
    ensures { result ≡ report_fits view (slot_in rec.now at) }
{
    if rec[at] != numbers::PRESENT {
        return empty(record::slot_at(rec, at));
    }
    record::view_at(rec, at) < view
}

// The reports kept for a kind and a sender pass 14, 21 and 22 for a view.
fn reports_fit(rec: &[u8], kind: u8, sender: u8, view: u32) -> bool
    requires { (7 ≤ kind) × RowPlace kind sender × (length rec.now ≡ record_size) }
    ensures { result ≡ eqb (first (report_rows view (three_reports (reports_in (slot_of (decode_record rec.now)) kind sender)))) 0 }
{
    let at = report_place(kind, sender);
    if !report_fits(rec, at, view) {
        return false;
    }
    if !report_fits(rec, at + GROUP, view) {
        return false;
    }
    if !report_fits(rec, at + 2 * GROUP, view) {
        return false;
    }
    follows(record::slot_at(rec, at), record::slot_at(rec, at + GROUP))
}

// A frame in the own row above the current view.
fn above(set: Settings, view: u32, head: Head) -> bool
    ensures { result ≡ (eqb head.sender set.id && ltb view head.view) }
{
    head.sender == set.id && view < head.view
}

// A kept proposal or vote, in a row below n.
fn plan_sound(set: Settings, view: u32, head: Head) -> bool
    requires { (1 ≤ head.kind) × (head.kind ≤ 5) × (head.sender < set.n) }
    ensures { PlanSound result set view head }
{
    if above(set, view, head) {
        return false;
    }
    if head.kind != numbers::PROPOSAL {
        return true;
    }
    head.view % (set.n as u32) == (head.sender as u32)
}

// A kept suggest or proof, in a row below n.
fn told_sound(rec: &[u8], set: Settings, view: u32, head: Head) -> bool
    requires { (7 ≤ head.kind) × RowPlace head.kind head.sender × (head.sender < set.n) × (length rec.now ≡ record_size) }
    ensures { result ≡ frame_sound set view (told_frame head (reports_in (slot_of (decode_record rec.now)) head.kind head.sender)) }
{
    if above(set, view, head) {
        return false;
    }
    if head.view == 0 {
        return false;
    }
    if !reports_fit(rec, head.kind, head.sender, head.view) {
        return false;
    }
    if head.kind != numbers::SUGGEST {
        return true;
    }
    head.view % (set.n as u32) == (set.id as u32)
}

// A vote in a row that is not the own one: wherever one is kept, it is sound.
fn is_free(id: u8, kind: u8, sender: u8) -> bool
    ensures { result ≡ (not (eqb sender id) && within 2 5 kind) }
{
    if sender == id {
        return false;
    }
    if kind < numbers::VOTE_1 {
        return false;
    }
    kind <= numbers::VOTE_4
}

// What is kept for a kind and a sender below n is a sound frame. Its form is told apart here, so that no frame is made of a vote.
fn marked_sound(rec: &[u8], set: Settings, view: u32, head: Head) -> bool
    requires { RowPlace head.kind head.sender × (head.sender < set.n) × (length rec.now ≡ record_size) × Marked (slot_of (decode_record rec.now)) head }
    ensures { result ≡ place_sound (slot_of (decode_record rec.now)) set view head.kind head.sender }
{
    if head.kind <= numbers::VOTE_4 {
        return plan_sound(set, view, head);
    }
    let at = frame_place(head.kind, head.sender);
    if record::plan_at(rec, at) != 0 {
        return false;
    }
    if head.kind == numbers::VIEW_CHANGE {
        return head.view != 0;
    }
    told_sound(rec, set, view, head)
}

// What stands for a kind and a sender below n is a sound frame, or nothing at all.
fn place_sound(rec: &[u8], set: Settings, view: u32, kind: u8, sender: u8) -> bool
    requires { RowPlace kind sender × (sender < set.n) × (length rec.now ≡ record_size) }
    ensures { result ≡ place_sound (slot_of (decode_record rec.now)) set view kind sender }
{
    let at = frame_place(kind, sender);
    if rec[at] != numbers::PRESENT {
        return empty_at(rec, kind, sender);
    }
    if is_free(set.id, kind, sender) {
        return true;
    }
    let head = Head {
        kind,
        sender,
        view: record::view_at(rec, at),
    };
    marked_sound(rec, set, view, head)
}

// ---- the places of a kind

// No report is kept for a kind.
fn no_reports(rec: &[u8], kind: u8) -> bool
    requires { (1 ≤ kind) × (kind ≤ 8) × (length rec.now ≡ record_size) }
    ensures { result ≡ all (λ s. ltb kind 7 || reports_absent (slot_of (decode_record rec.now)) kind s) rows }
{
    if kind < numbers::SUGGEST {
        return true;
    }
    slots_absent(rec, record::report_slot(kind, 0, 0), 3 * record::ROWS)
}

// The reports of the rows from n on, in their three groups.
fn told_absent(rec: &[u8], from: usize, count: usize) -> bool
    requires { (rows ≤ from) × (from + (2 * rows + count) < slot_count) × (length rec.now ≡ record_size) }
    ensures { result ≡ told_absent (slot_of (decode_record rec.now)) from count }
{
    if !slots_absent(rec, from, count) {
        return false;
    }
    if !slots_absent(rec, from + record::ROWS, count) {
        return false;
    }
    slots_absent(rec, from + 2 * record::ROWS, count)
}

// Nothing is kept in the rows of a kind from n on.
fn rest_empty(rec: &[u8], kind: u8, n: u8) -> bool
    requires { (n ≤ rows) × (1 ≤ kind) × (kind ≤ 8) × (length rec.now ≡ record_size) }
    ensures { result ≡ all (empty_from (slot_of (decode_record rec.now)) kind n) (rows - n) }
{
    let row = n as usize;
    let from = record::frame_slot(kind, 0) + row;
    if !slots_absent(rec, from, record::ROWS - row) {
        return false;
    }
    if kind < numbers::SUGGEST {
        return true;
    }
    let told = record::report_slot(kind, 0, 0) + row;
    told_absent(rec, told, record::ROWS - row)
}

// The places of the rows below n of a kind, one by one.
fn places_sound(rec: &[u8], set: Settings, view: u32, kind: u8) -> bool
    requires { (set.n ≤ rows) × (1 ≤ kind) × (kind ≤ 8) × (length rec.now ≡ record_size) }
    ensures { result ≡ all (place_sound (slot_of (decode_record rec.now)) set view kind) set.n }
{
    for sender in 0..set.n {
        if !place_sound(rec, set, view, kind, sender) {
            return false;
        }
    }
    true
}

// The 64 places of a kind.
fn kind_sound(rec: &[u8], set: Settings, view: u32, kind: u8) -> bool
    requires { (set.n ≤ rows) × (1 ≤ kind) × (kind ≤ 8) × (length rec.now ≡ record_size) }
    ensures { result ≡ kind_sound (slot_of (decode_record rec.now)) set view kind }
{
    let from = record::frame_slot(kind, 0);
    if slots_absent(rec, from, record::ROWS) {
        return no_reports(rec, kind);
    }
    if !rest_empty(rec, kind, set.n) {
        return false;
    }
    places_sound(rec, set, view, kind)
}

// The eight kinds.
fn rows_sound(rec: &[u8], set: Settings, view: u32) -> bool
    requires { (set.n ≤ rows) × (length rec.now ≡ record_size) }
    ensures { result ≡ rows_sound (slot_of (decode_record rec.now)) set view }
{
    for k in 0..numbers::PROOF {
        if !kind_sound(rec, set, view, k + 1) {
            return false;
        }
    }
    true
}

// ---- the record

// The own previous vote of a kind (2 is vote-1, 3 is vote-2) against the own kept one.
fn previous_sound(rec: &[u8], id: u8, kind: u8) -> bool
    requires { (id < rows) × (2 ≤ kind) × (kind ≤ 3) × (length rec.now ≡ record_size) }
    ensures { result ≡ previous_sound (slot_of (decode_record rec.now)) id kind }
{
    let at = record::frame_slot(kind, id);
    let before = record::previous_slot(kind);
    previous_stands(record::slot_of(rec, at), record::slot_of(rec, before))
}

// The own previous votes and the decision.
fn votes_sound(rec: &[u8], id: u8) -> bool
    requires { (id < rows) × (length rec.now ≡ record_size) }
    ensures { result ≡ votes_sound (slot_of (decode_record rec.now)) id }
{
    if !previous_sound(rec, id, numbers::VOTE_1) {
        return false;
    }
    if !previous_sound(rec, id, numbers::VOTE_2) {
        return false;
    }
    well_formed(record::slot_of(rec, record::DECISION))
}

// Whether the slots are sound with these settings and this view.
pub fn sound_in(rec: &[u8], set: Settings, view: u32) -> bool
    requires { length rec.now ≡ record_size }
    ensures { result ≡ sound_in (slot_of (decode_record rec.now)) set view }
{
    if settings::settings_refusal(set).is_err() {
        return false;
    }
    if !rows_sound(rec, set, view) {
        return false;
    }
    votes_sound(rec, set.id)
}

// What lent bytes are: any bytes, of any length.
pub fn classify(rec: &[u8]) -> Lent
    ensures { result ≡ lent_is rec.now }
{
    if rec.len() != record::SIZE {
        return Lent::Unsound;
    }
    if rec[0] == 0 {
        return Lent::Blank;
    }
    let set = record::settings_of(rec);
    if sound_in(rec, set, record::view_of(rec)) {
        return Lent::Sound;
    }
    Lent::Unsound
}

// Refusals 2 and 3, of lent bytes that are a blank record and of unsound ones.
pub fn lent_refusal(rec: &[u8]) -> Result<(), Refusal>
    ensures { result ≡ lent_refusal (lent_is rec.now) }
{
    match classify(rec) {
        Lent::Blank => Err(Refusal::Blank),
        Lent::Unsound => Err(Refusal::Unsound),
        Lent::Sound => Ok(()),
    }
}
