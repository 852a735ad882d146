// A vault's own part of its record, in 237 bytes: what it says of itself, and so what a step changes and what outlives a power cut. It is read off a record,
// changed where it lies by itself, and put back. What the vault heard stays in the record.
#![tactic(auto)]

ghost use Rattle.std.specs.Prelude.{◌≡◌, ◌+◌, ◌≤◌, ◌<◌, length, take, drop};
ghost use Rattle.wire.specs.Placed.{placed};
ghost use Rattle.wire.specs.Fields.{Bytes};
ghost use Rattle.record.specs.Slots.{rows, slot_count};
ghost use Rattle.record.specs.Layout.{slot_size, decode_record};
ghost use Rattle.record.specs.Size.{record_size};
ghost use Rattle.record.specs.inside.Slots.{with_slot, with_view};
ghost use Rattle.record.specs.inside.Layout.{HoldsRecord};
ghost use Rattle.own.specs.Size.{remnant_size};
ghost use Rattle.own.specs.Part.{remnant_slots, remnant_head, own_slot, remnant_place, remnant_of, over};
ghost use Rattle.own.specs.inside.Own.{head_bytes, own_bytes, own_in, settings_in, view_in, plan_in, heard_in, Changes, Fitting};

use frame::{Report, numbers};
use settings::Settings;

// The bytes of an own part: a head, then slots of 13 bytes end to end.
pub const SIZE: usize = 237;

// Where the view and the starting plan stand in the head, and where the slots begin. The view stands where a record's does.
const VIEW: usize = record::VIEW;

const PLAN: usize = record::HEAD;

const HEAD: usize = 2 * record::HEAD;

// How many slots there are, and where the reports, the previous votes and the decision begin. The own frames of kinds 1 to 8 are the first.
pub const SLOTS: u8 = 17;

pub const REPORTS: u8 = 8;

pub const PREVIOUS: u8 = 14;

pub const DECISION: u8 = 16;

// ---- places

// Which slot of a record slot t is.
pub fn own_slot(id: u8, t: u8) -> usize
    requires { (id < rows) × (t < remnant_slots) }
    ensures { (result ≡ own_slot id t) × (result < slot_count) }
{
    if t < REPORTS {
        return record::frame_slot(t + 1, id);
    }
    if t < PREVIOUS {
        let report = t - REPORTS;
        return record::report_slot(numbers::SUGGEST + report / 3, report % 3, id);
    }
    record::PREVIOUS + ((t - PREVIOUS) as usize)
}

// Where its bytes stand in the own part.
fn place_of(t: u8) -> usize
    requires { t < remnant_slots }
    ensures { (result ≡ remnant_place t) × (result + slot_size ≤ remnant_size) }
{
    HEAD + record::SLOT * (t as usize)
}

// ---- read and changed by itself

// The settings.
pub fn settings_in(own: &[u8; SIZE]) -> Settings
    ensures { result ≡ settings_in own.now }
{
    Settings {
        n: own[0],
        f: own[1],
        id: own[2],
        class: own[3],
    }
}

// The current view.
pub fn view_in(own: &[u8; SIZE]) -> u32
    ensures { result ≡ view_in own.now }
{
    wire::number32(own, VIEW)
}

// The starting plan.
pub fn plan_in(own: &[u8; SIZE]) -> u64
    ensures { result ≡ plan_in own.now }
{
    wire::number64(own, PLAN)
}

// What stands in slot t.
pub fn slot_in(own: &[u8; SIZE], t: u8) -> Report
    requires { t < remnant_slots }
    ensures { result ≡ own_in own.now t }
{
    record::slot_at(own, place_of(t))
}

// Puts slot t.
pub fn put_in(own: &mut [u8; SIZE], t: u8, x: Report)
    requires { t < remnant_slots }
    ensures changes { Changes (λ r. with_slot r (own_slot r.set.id t) x) own.old own.new }
    ensures bytes { Bytes own.new }
{
    record::put_at(own, place_of(t), x);
}

// Another current view.
pub fn put_view(own: &mut [u8; SIZE], w: u32)
    ensures changes { Changes (λ r. with_view r w) own.old own.new }
    ensures bytes { Bytes own.new }
{
    wire::put(own, VIEW, 4, w as u64);
}

// ---- off a record

// Copies some bytes from a place to another. All are read before the first is written, so that it is compiled to a few moves, with no test
// whether the two places overlap.
fn copy<const N: usize>(src: &[u8], from: usize, dst: &mut [u8], to: usize)
    requires { (from + N ≤ length src.now) × (to + N ≤ length dst.old) }
    ensures { dst.new ≡ placed dst.old to (take N (drop from src.now)) }
{
    let mut bytes = [0u8; N];
    bytes.copy_from_slice(&src[from..from + N]);
    dst[to..to + N].copy_from_slice(&bytes);
}

// Settings and current view as they stand in the record's first head, the starting plan as it stands in the second.
fn load_head(rec: &[u8], own: &mut [u8])
    requires { (length rec.now ≡ record_size) × (remnant_size ≤ length own.old) }
    ensures { own.new ≡ placed own.old 0 (head_bytes (decode_record rec.now)) }
{
    copy::<{ record::HEAD }>(rec, 0, own, 0);
    copy::<{ record::HEAD }>(rec, record::SHARED, own, PLAN);
}

// The slots behind the head, one after the other.
fn load_slots(rec: &[u8], id: u8, own: &mut [u8])
    requires { (length rec.now ≡ record_size) × (id < rows) × (remnant_size ≤ length own.old) }
    ensures { own.new ≡ placed own.old remnant_head (own_bytes (decode_record rec.now) id remnant_slots) }
{
    for t in 0..SLOTS {
        let from = record::place_of(own_slot(id, t));
        copy::<{ record::SLOT }>(rec, from, own, place_of(t));
    }
}

// The own part of a record, at the start of the bytes lent for it: these are a slice, as a remnant is written to an output of any length.
pub fn load(rec: &[u8], own: &mut [u8])
    requires { (length rec.now ≡ record_size) × ((decode_record rec.now).set.id < rows) × (remnant_size ≤ length own.old) }
    ensures { own.new ≡ placed own.old 0 (remnant_of (decode_record rec.now)) }
{
    let set = record::settings_of(rec);
    load_head(rec, own);
    load_slots(rec, set.id, own);
}

// ---- and back

// Puts slot t back.
pub fn store_slot(own: &[u8; SIZE], id: u8, t: u8, rec: &mut [u8])
    requires { (id < rows) × (t < remnant_slots) × (length rec.old ≡ record_size) }
    ensures { HoldsRecord rec.new (with_slot (decode_record rec.old) (own_slot id t) (own_in own.now t)) }
{
    let to = record::place_of(own_slot(id, t));
    copy::<{ record::SLOT }>(own, place_of(t), rec, to);
}

// Puts an own part back: its view, and all of its slots. Settings and starting plan are there.
pub fn store(own: &[u8; SIZE], id: u8, rec: &mut [u8])
    requires { Fitting rec.old id own.now }
    ensures { HoldsRecord rec.new (over (heard_in rec.old) own.now) }
{
    let view = view_in(own);
    record::put_view(rec, view);
    for t in 0..SLOTS {
        store_slot(own, id, t, rec);
    }
}
