// Names the vaults that spoke twice: those that appear in the records handed in with two different plans for one view and one kind of vote.
// The records are read where they lie, and nothing is kept of them.
#![tactic(auto)]

ghost use Rattle.std.specs.Prelude.{◌≡◌, not, ◌+◌, ◌*◌, ◌≤◌, ◌<◌, length};
ghost use Rattle.record.specs.Slots.{rows, slot_count};
ghost use Rattle.sound.specs.inside.Sound.{all};
ghost use Rattle.vault.specs.Answers.{left_by};
ghost use Rattle.equivocation.specs.Named.{rising};
ghost use Rattle.equivocation.specs.Call.{unlike, misfit, equivocators_left};
ghost use Rattle.equivocation.specs.inside.Records.{read_in, Holds, size_fits, fits, fits_at, slots_differ, clashes_before, clashing, twice_in, whom, Put};

use frame::{Refusal, Report, numbers};
use settings::Settings;
use sound::Lent;

// The output space that every call asks for.
const ROOM: usize = 256;

// How many records the desk may hand in.
const FEWEST: usize = 2;

const MOST: usize = 64;

// The length that is told of each.
const LENGTH: u32 = record::SIZE as u32;

// The votes of a view.
const VOTES: u8 = 4;

// ---- two slots

// Whether two slots of one kind and sender hold frames of one view with different plans.
fn differ(a: Report, b: Report) -> bool
    ensures { result ≡ slots_differ a b }
{
    if a.mark != numbers::PRESENT {
        return false;
    }
    if b.mark != numbers::PRESENT {
        return false;
    }
    if a.view != b.view {
        return false;
    }
    a.plan != b.plan
}

// A slot of record i.
fn slot_in(records: &[u8], i: usize, slot: usize) -> Report
    requires { Holds records.now (i + 1) × (slot < slot_count) }
    ensures { result ≡ (read_in records.now i).slots slot }
{
    let from = record::SIZE * i;
    record::slot_of(&records[from..from + record::SIZE], slot)
}

// Whether a slot of record i differs from that of an earlier record, the nearest first.
fn differs_before(records: &[u8], i: usize, slot: usize) -> bool
    requires { Holds records.now (i + 1) × (slot < slot_count) × (1 ≤ i) }
    ensures { result ≡ clashes_before records.now slot i }
{
    let vote = slot_in(records, i, slot);
    for j in (0..i).rev() {
        if differ(vote, slot_in(records, j, slot)) {
            return true;
        }
    }
    false
}

// Whether a slot differs in any two of the records. Before record 0 there is none.
fn differs(records: &[u8], count: usize, slot: usize) -> bool
    requires { Holds records.now count × (slot < slot_count) }
    ensures { result ≡ clashing records.now count slot }
{
    for i in 1..count {
        if differs_before(records, i, slot) {
            return true;
        }
    }
    false
}

// ---- the vaults

// Whether a vault spoke twice in one of the four votes.
fn spoke_twice(records: &[u8], count: usize, sender: u8) -> bool
    requires { Holds records.now count × (sender < rows) }
    ensures { result ≡ twice_in records.now count sender }
{
    for vote in 0..VOTES {
        let slot = record::frame_slot(numbers::VOTE_1 + vote, sender);
        if differs(records, count, slot) {
            return true;
        }
    }
    false
}

// Writes a vault's number behind those that are written, if it spoke twice; answers how many are written then.
fn name(records: &[u8], count: usize, sender: u8, out: &mut [u8], at: usize) -> usize
    requires { Holds records.now count × (sender < rows) × (at < length out.old) }
    ensures { Put out.old at (whom (twice_in records.now count sender) sender) out.new result }
{
    if !spoke_twice(records, count, sender) {
        return at;
    }
    out[at] = sender;
    at + 1
}

// Names those of n vaults that spoke twice, by rising number, and answers how many they are.
fn name_all(records: &[u8], count: usize, n: u8, out: &mut [u8]) -> usize
    requires { Holds records.now count × (n ≤ rows) × (256 ≤ length out.old) }
    ensures { Put out.old 0 (rising (twice_in records.now count) n) out.new result }
{
    let mut at: usize = 0;
    for sender in 0..n {
        at = name(records, count, sender, out, at);
    }
    at
}

// ---- what was handed in

// Whether each length is that of a record.
fn sizes_fit(lengths: &[u32]) -> bool
    ensures { result ≡ all (size_fits lengths.now) (length lengths.now) }
{
    for &length in lengths {
        if length != LENGTH {
            return false;
        }
    }
    true
}

// Whether two settings have the same n and f.
fn alike(a: Settings, b: Settings) -> bool
    ensures { result ≡ not (unlike a b) }
{
    a.n == b.n && a.f == b.f
}

// Whether a record is sound, and has the n and f of the settings.
fn record_fits(set: Settings, rec: &[u8]) -> bool
    ensures { result ≡ fits set rec.now }
{
    let lent = sound::classify(rec);
    match lent {
        Lent::Blank => false,
        Lent::Unsound => false,
        Lent::Sound => alike(set, record::settings_of(rec)),
    }
}

// The settings of record 0.
fn first_settings(records: &[u8]) -> Settings
    requires { Holds records.now 1 }
    ensures { result ≡ (read_in records.now 0).set }
{
    record::settings_of(&records[0..record::SIZE])
}

// Whether each record is sound, and has the n and f of record 0.
fn records_fit(records: &[u8], count: usize) -> bool
    requires { Holds records.now count × (1 ≤ count) }
    ensures { result ≡ all (fits_at records.now) count }
{
    let set = first_settings(records);
    for i in 0..count {
        let from = record::SIZE * i;
        if !record_fits(set, &records[from..from + record::SIZE]) {
            return false;
        }
    }
    true
}

// Whether 2 to 64 records were handed in, sound and of one n and one f, and no byte besides. A sound record has one length.
fn collected(records: &[u8], lengths: &[u32]) -> bool
    ensures { result ≡ not (misfit records.now lengths.now) }
{
    let count = lengths.len();
    if count < FEWEST {
        return false;
    }
    if MOST < count {
        return false;
    }
    if !sizes_fit(lengths) {
        return false;
    }
    if records.len() != record::SIZE * count {
        return false;
    }
    records_fit(records, count)
}

// ---- the call

// Names the vaults that spoke twice in records that lie end to end, each of the length that is told.
pub fn equivocators(records: &[u8], lengths: &[u32], out: &mut [u8]) -> Result<usize, Refusal>
    ensures { left_by result records.now out.new ≡ equivocators_left records.now lengths.now out.old }
{
    if out.len() < ROOM {
        return Err(Refusal::Output);
    }
    if !collected(records, lengths) {
        return Err(Refusal::Records);
    }
    let set = first_settings(records);
    Ok(name_all(records, lengths.len(), set.n, out))
}
