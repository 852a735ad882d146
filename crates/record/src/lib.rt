// A record's bytes, read and changed where they lie. A shared part comes first (n, f, id, class, current view, the row of
// view-changes), then one practice's block (starting plan, all other slots). Each part has a head of 8 bytes, then slots of 13 bytes
// end to end: mark (1), view (4), plan (8), big-endian. Every string of SIZE bytes spells one record, and every record has one spelling.
#![tactic(auto)]

ghost use Rattle.std.specs.Prelude.{◌≡◌, ◌+◌, ◌*◌, ◌≤◌, ◌<◌, length, replicate};
ghost use Rattle.wire.specs.Placed.{placed};
ghost use Rattle.record.specs.Slots.{first_report, first_previous, decision_slot, slot_count, frame_slot, report_slot, previous_slot};
ghost use Rattle.record.specs.inside.Slots.{RowPlace, with_slot, with_view, fresh_slots};
ghost use Rattle.record.specs.Layout.{slot_size, place, slot_in, slot_bytes, decode_record};
ghost use Rattle.record.specs.Size.{record_size};
ghost use Rattle.record.specs.inside.Layout.{HoldsRecord};

use frame::Report;
use settings::Settings;

pub mod keeping;

// The senders that have a row.
pub const ROWS: usize = 64;

// The bytes of a part's head, and of a slot.
pub const HEAD: usize = 8;

pub const SLOT: usize = 13;

// The bytes of the shared part, and of a record. The block is what lies between. A record is lent as a slice, and its length stands in the
// clauses: as an array it was tried, and after a call nothing says that its elements are bytes, which `accepted_left` (crate vault) needs.
pub const SHARED: usize = 840;

pub const SIZE: usize = 11703;

// Where the view stands in the shared part's head.
pub const VIEW: usize = 4;

// The number of slots, and the slots where reports, previous votes and the decision begin.
pub const SLOTS: usize = 899;

pub const REPORTS: usize = 512;

pub const PREVIOUS: usize = 896;

pub const DECISION: usize = 898;

// ---- slots by number

// The slot of the kept frame of a kind and a sender: kinds 6, 7, 8, 1, 2, 3, 4, 5, of 64 rows each.
pub fn frame_slot(kind: u8, sender: u8) -> usize
    requires { RowPlace kind sender }
    ensures { (result ≡ frame_slot kind sender) × (result < first_report) }
{
    ((kind as usize) + 2) % 8 * ROWS + (sender as usize)
}

// The slot of report j (0 highest, 1 previous, 2 lock) in the kept suggest or proof of a sender.
pub fn report_slot(kind: u8, which: u8, sender: u8) -> usize
    requires { (7 ≤ kind) × (which < 3) × RowPlace kind sender }
    ensures { (result ≡ report_slot kind which sender) × (first_report ≤ result) × (result < first_previous) }
{
    REPORTS + ((kind as usize) - 7) * (3 * ROWS) + (which as usize) * ROWS + (sender as usize)
}

// The slot of the own previous vote of a kind: 2 is vote-1, 3 is vote-2.
pub fn previous_slot(kind: u8) -> usize
    requires { (2 ≤ kind) × (kind ≤ 3) }
    ensures { (result ≡ previous_slot kind) × (first_previous ≤ result) × (result < decision_slot) }
{
    PREVIOUS + ((kind as usize) - 2)
}

// Where the bytes of a slot stand in a record.
pub fn place_of(i: usize) -> usize
    requires { i < slot_count }
    ensures { (result ≡ place i) × (result + slot_size ≤ record_size) }
{
    if i < ROWS {
        return HEAD + SLOT * i;
    }
    SHARED + (HEAD + SLOT * (i - ROWS))
}

// ---- slots by place, in a record or in a part of one

// What stands at a place.
pub fn slot_at(part: &[u8], at: usize) -> Report
    requires { at + slot_size ≤ length part.now }
    ensures { result ≡ slot_in part.now at }
{
    let view = wire::number32(part, at + 1);
    let plan = wire::number64(part, at + 5);
    Report {
        mark: part[at],
        view,
        plan,
    }
}

// Its view alone: where the rest is not asked for, it is not read.
pub fn view_at(part: &[u8], at: usize) -> u32
    requires { at + slot_size ≤ length part.now }
    ensures { result ≡ (slot_in part.now at).view }
{
    wire::number32(part, at + 1)
}

// Its plan alone.
pub fn plan_at(part: &[u8], at: usize) -> u64
    requires { at + slot_size ≤ length part.now }
    ensures { result ≡ (slot_in part.now at).plan }
{
    wire::number64(part, at + 5)
}

// Puts a slot at a place: thirteen bytes change.
pub fn put_at(part: &mut [u8], at: usize, slot: Report)
    requires { at + slot_size ≤ length part.old }
    ensures { part.new ≡ placed part.old at (slot_bytes slot) }
{
    part[at] = slot.mark;
    wire::put(part, at + 1, 4, slot.view as u64);
    wire::put(part, at + 5, 8, slot.plan);
}

// ---- the record

// Puts slot i of a record.
pub fn put_slot(rec: &mut [u8], i: usize, slot: Report)
    requires { (length rec.old ≡ record_size) × (i < slot_count) }
    ensures { HoldsRecord rec.new (with_slot (decode_record rec.old) i slot) }
{
    let at = place_of(i);
    put_at(rec, at, slot);
}

// Slot i of a record.
pub fn slot_of(rec: &[u8], i: usize) -> Report
    requires { (length rec.now ≡ record_size) × (i < slot_count) }
    ensures { result ≡ (decode_record rec.now).slots i }
{
    let at = place_of(i);
    slot_at(rec, at)
}

// The settings.
pub fn settings_of(rec: &[u8]) -> Settings
    requires { length rec.now ≡ record_size }
    ensures { result ≡ (decode_record rec.now).set }
{
    Settings {
        n: rec[0],
        f: rec[1],
        id: rec[2],
        class: rec[3],
    }
}

// The current view.
pub fn view_of(rec: &[u8]) -> u32
    requires { length rec.now ≡ record_size }
    ensures { result ≡ (decode_record rec.now).view }
{
    wire::number32(rec, VIEW)
}

// The starting plan.
pub fn plan_of(rec: &[u8]) -> u64
    requires { length rec.now ≡ record_size }
    ensures { result ≡ (decode_record rec.now).plan }
{
    wire::number64(rec, SHARED)
}

// Another current view.
pub fn put_view(rec: &mut [u8], view: u32)
    requires { length rec.old ≡ record_size }
    ensures { HoldsRecord rec.new (with_view (decode_record rec.old) view) }
{
    wire::put(rec, VIEW, 4, view as u64);
}

// The record that start enters view 0 with: no kept frames, no previous votes, no decision.
pub fn put_fresh(rec: &mut [u8], set: Settings, plan: u64)
    requires { length rec.old ≡ record_size }
    ensures { HoldsRecord rec.new (fresh_slots set plan) }
{
    rec.fill(0);
    rec[0] = set.n;
    rec[1] = set.f;
    rec[2] = set.id;
    rec[3] = set.class;
    wire::put(rec, SHARED, 8, plan);
}
