// One pass over a record's lent bytes: steps A to H in their order. What a step is to do is found where the record lies. Only where a step
// acts is the vault's own part loaded by value, and of what the step hands back only what it changed is put back.
#![tactic(auto)]

ghost use Rattle.std.specs.Prelude.{◌+◌, ◌≤◌, ◌<◌, ◌≡◌, ◌≢◌, length};
ghost use Rattle.std.proofs.Math.Option.{some};
ghost use Rattle.wire.specs.Placed.{placed};
ghost use Rattle.entry.specs.Layout.{layout};
ghost use Rattle.record.specs.Size.{record_size};
ghost use Rattle.record.specs.Layout.{decode_record};
ghost use Rattle.record.specs.inside.Layout.{HoldsRecord};
ghost use Rattle.own.specs.Part.{over};
ghost use Rattle.own.specs.inside.Own.{heard_in, OwnOf};
ghost use Rattle.protocol.specs.Pass.{ask, enter, cast, decide, taken, pass};
ghost use Rattle.contents.specs.Contents.{contents_in};
ghost use Rattle.contents.specs.inside.Ready.{Ready};
ghost use Rattle.acts.specs.inside.Acts.{as_act};
ghost use Rattle.steps.specs.inside.Steps.{list_of};
ghost use Rattle.steps.specs.inside.Order.{step_at};
ghost use Rattle.pass.specs.inside.Steps.{Room, Due, Ran};
ghost use Rattle.pass.specs.inside.Stored.{AtVote, PartBut};
ghost use Rattle.pass.specs.inside.Passes.{steps_from};

use acts::Act;
use entry::Entry;
use settings::Settings;
use steps::{Entries, Own, Wrote};

// ---- the own part by value, and back

// The own part of a record, with no entries yet.
fn load(rec: &[u8]) -> Own
    requires { Ready rec.now }
    ensures { OwnOf rec.now result.bytes }
{
    let mut bytes = [0; own::SIZE];
    own::load(rec, &mut bytes);
    let wrote = Wrote {
        entries: Entries::Zero,
    };
    Own { bytes, wrote }
}

// Puts back what sending vote-k changed: the vote and, of vote-1 and vote-2, the previous one.
fn store_vote(part: &[u8; own::SIZE], id: u8, k: u8, rec: &mut [u8])
    requires { PartBut (AtVote id k) rec.old id part.now × (k ≤ 4) }
    ensures { HoldsRecord rec.new (over (heard_in rec.old) part.now) }
{
    own::store_slot(part, id, k, rec);
    if k < 1 {
        return;
    }
    if 2 < k {
        return;
    }
    own::store_slot(part, id, steps::slot_of_previous(k + 1), rec);
}

// ---- the entries, end to end

// Writes the entries of a step from a place on, and answers the next place.
fn write_entries(out: &mut [u8], at: usize, e: Entries) -> usize
    requires { at + length (layout (list_of e)) ≤ length out.old }
    ensures { (result ≡ at + length (layout (list_of e))) × (out.new ≡ placed out.old at (layout (list_of e))) }
{
    match e {
        Entries::Zero => at,
        Entries::Sent(f) => entry::put_entry(out, at, Entry::ForAll(f)),
        Entries::Decided(view, plan) => entry::put_entry(out, at, Entry::Decision { view, plan }),
        Entries::Led(view, millis, proof) => {
            let next = entry::put_entry(out, at, Entry::Timer { view, millis });
            entry::put_entry(out, next, Entry::ForAll(proof))
        }
        Entries::Followed(view, millis, proof, to, suggest) => {
            let second = entry::put_entry(out, at, Entry::Timer { view, millis });
            let third = entry::put_entry(out, second, Entry::ForAll(proof));
            entry::put_entry(out, third, Entry::ForOne(to, suggest))
        }
    }
}

// ---- the steps that act, with their entries written

// A: the own view-change is put back.
fn run_ask(rec: &mut [u8], id: u8, w: u32, out: &mut [u8], at: usize) -> usize
    requires { Due 0 (some (ask w)) rec.old id × Room (step_at 0 (contents_in rec.old)) at out.old }
    ensures { Ran (step_at 0 (contents_in rec.old)) at out.old out.new result rec.new }
{
    let held = load(rec);
    let left = held.step_a(w);
    let wrote = left.wrote;
    let entries = wrote.entries;
    own::store_slot(&left.bytes, id, steps::CHANGE, rec);
    write_entries(out, at, entries)
}

// B: the view, and all of the own part.
fn run_enter(rec: &mut [u8], id: u8, w: u32, out: &mut [u8], at: usize) -> usize
    requires { Due 1 (some (enter w)) rec.old id × Room (step_at 1 (contents_in rec.old)) at out.old }
    ensures { Ran (step_at 1 (contents_in rec.old)) at out.old out.new result rec.new }
{
    let held = load(rec);
    let left = held.step_b(w);
    let wrote = left.wrote;
    let entries = wrote.entries;
    own::store(&left.bytes, id, rec);
    write_entries(out, at, entries)
}

// C to G, by the vote that they send (0: the proposal): that vote.
fn run_cast(rec: &mut [u8], id: u8, k: u8, p: u64, out: &mut [u8], at: usize) -> usize
    requires { Due (k + 2) (some (cast k p)) rec.old id × (k ≤ 4) × Room (step_at (k + 2) (contents_in rec.old)) at out.old }
    ensures { Ran (step_at (k + 2) (contents_in rec.old)) at out.old out.new result rec.new }
{
    let held = load(rec);
    let left = held.step_cast(k, p);
    let wrote = left.wrote;
    let entries = wrote.entries;
    store_vote(&left.bytes, id, k, rec);
    write_entries(out, at, entries)
}

// H: the decision.
fn run_decide(rec: &mut [u8], id: u8, p: u64, out: &mut [u8], at: usize) -> usize
    requires { Due 7 (some (decide p)) rec.old id × Room (step_at 7 (contents_in rec.old)) at out.old }
    ensures { Ran (step_at 7 (contents_in rec.old)) at out.old out.new result rec.new }
{
    let held = load(rec);
    let left = held.step_h(p);
    let wrote = left.wrote;
    let entries = wrote.entries;
    own::store_slot(&left.bytes, id, own::DECISION, rec);
    write_entries(out, at, entries)
}

// ---- one step after the other, with the entries written from a place on

// The step of a number, by what it is to do; where that is nothing, the own part is not loaded.
fn take_step(rec: &mut [u8], id: u8, k: u8, act: Option<Act>, out: &mut [u8], at: usize) -> usize
    requires { Due k (as_act act) rec.old id × Room (step_at k (contents_in rec.old)) at out.old }
    ensures { Ran (step_at k (contents_in rec.old)) at out.old out.new result rec.new }
{
    match act {
        Some(Act::Ask(w)) => run_ask(rec, id, w, out, at),
        Some(Act::Enter(w)) => run_enter(rec, id, w, out, at),
        Some(Act::Cast(j, p)) => run_cast(rec, id, j, p, out, at),
        Some(Act::Decide(p)) => run_decide(rec, id, p, out, at),
        None => at,
    }
}

// The view after the step of a number: only B enters one.
fn view_after(rec: &[u8], k: u8, view: u32) -> u32
    requires { (length rec.now ≡ record_size) × (k ≢ 1 → view ≡ (decode_record rec.now).view) }
    ensures { result ≡ (decode_record rec.now).view }
{
    if k == 1 {
        return record::view_of(rec);
    }
    view
}

// One pass from the step of a number on: 0 from A, 2 from C.
pub fn pass_from(rec: &mut [u8], set: Settings, from: u8, out: &mut [u8], at: usize) -> usize
    requires { Ready rec.old × (set ≡ (decode_record rec.old).set) × (from ≤ 8) × Room (pass (steps_from from) (contents_in rec.old)) at out.old }
    ensures { Ran (pass (steps_from from) (contents_in rec.old)) at out.old out.new result rec.new }
{
    let mut count = at;
    let mut view = record::view_of(rec);
    for k in from..8 {
        let act = acts::act_at(rec, set, view, k);
        count = take_step(rec, set.id, k, act, out, count);
        view = view_after(rec, k, view);
    }
    count
}

// To ask for a view when the timer says so: where the record lies, with the entry written.
pub fn ask_for(rec: &mut [u8], set: Settings, w: u32, out: &mut [u8], at: usize) -> usize
    requires { Ready rec.old × (set ≡ (decode_record rec.old).set) × ((decode_record rec.old).view < w) × Room (taken (contents_in rec.old) (some (ask w))) at out.old }
    ensures { Ran (taken (contents_in rec.old) (some (ask w))) at out.old out.new result rec.new }
{
    let f = steps::change_frame(set.id, w);
    record::keeping::keep_head(rec, set.id, f);
    write_entries(out, at, Entries::Sent(f))
}
