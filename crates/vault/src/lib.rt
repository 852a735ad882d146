// The vault's calls on lent bytes. The record stays where it lies: what a call asks of it, and what it puts there, goes over its bytes;
// every refusal comes before the first write.
#![tactic(auto)]

ghost use Rattle.std.specs.Prelude.{◌≤◌, ◌<◌, ◌≡◌, length};
ghost use Rattle.frame.specs.Refusal.{first};
ghost use Rattle.frame.specs.Answers.{number_in};
ghost use Rattle.settings.specs.Settings.{setting_rows};
ghost use Rattle.record.specs.Slots.{rows};
ghost use Rattle.record.specs.Layout.{decode_record};
ghost use Rattle.record.specs.Size.{record_size};
ghost use Rattle.sound.specs.declared.Lent.TheVariants.{Sound};
ghost use Rattle.sound.specs.inside.Sound.{lent_is};
ghost use Rattle.protocol.specs.Record.{change_of};
ghost use Rattle.protocol.specs.Calls.{record_rows, wanted_from, started, heard, timed_out};
ghost use Rattle.contents.specs.Contents.{contents_in};
ghost use Rattle.contents.specs.Calls.{start_left, frame_left, timer_left};
ghost use Rattle.pass.specs.inside.Steps.{Ran};
ghost use Rattle.vault.specs.Answers.{left_by};
ghost use Rattle.vault.specs.inside.Answers.{way_in, Held, Read, read_left, TimerGives};

use entry::Entry;
use frame::{Frame, Refusal, numbers};
use settings::Settings;

// The output space that every call asks for.
const ROOM: usize = 256;

// The last view that there is.
const LAST: u32 = 4294967295;

// Where a pass begins: with A, or after a start with C.
const FROM_A: u8 = 0;

const FROM_C: u8 = 2;

// ---- start

// The record is fresh, and view 0 is entered with a timer entry; then one pass from C.
fn begin(rec: &mut [u8], set: Settings, plan: u64, out: &mut [u8]) -> usize
    requires { (length rec.old ≡ record_size) × (first (setting_rows set) ≡ 0) × (256 ≤ length out.old) }
    ensures { Ran (started set plan) 0 out.old out.new result rec.new }
{
    record::put_fresh(rec, set, plan);
    let millis = settings::timer_millis(set.class);
    let at = entry::put_entry(out, 0, Entry::Timer { view: 0, millis });
    pass::pass_from(rec, set, FROM_C, out, at)
}

// Start, with settings and a starting plan.
pub fn start(rec: &mut [u8], set: Settings, plan: u64, out: &mut [u8]) -> Result<usize, Refusal>
    ensures { left_by result rec.new out.new ≡ start_left rec.old set plan out.old }
{
    if out.len() < ROOM {
        return Err(Refusal::Output);
    }
    if rec.len() != record::SIZE {
        return Err(Refusal::Started);
    }
    let held = record::settings_of(rec);
    if held.n != 0 {
        return Err(Refusal::Started);
    }
    settings::settings_refusal(set)?;
    Ok(begin(rec, set, plan, out))
}

// ---- the way in to a vault's record, for frame and timer

// Refusals 1 to 3 in their order.
fn way_in(rec: &[u8], room: usize) -> Result<(), Refusal>
    ensures { number_in result ≡ way_in rec.now room }
{
    if room < ROOM {
        return Err(Refusal::Output);
    }
    sound::lent_refusal(rec)
}

// ---- frame

// The frame is kept in its sender's row; then one pass from A.
fn hear(rec: &mut [u8], set: Settings, f: Frame, out: &mut [u8]) -> usize
    requires { Read rec.old set f × (first (record_rows (contents_in rec.old) f) ≡ 0) × (256 ≤ length out.old) }
    ensures { Ran (heard (contents_in rec.old) f) 0 out.old out.new result rec.new }
{
    record::keeping::keep(rec, f.sender, f);
    pass::pass_from(rec, set, FROM_A, out, 0)
}

// A frame that the reader accepted, against the record.
fn frame_read(rec: &mut [u8], set: Settings, f: Frame, out: &mut [u8]) -> Result<usize, Refusal>
    requires { Read rec.old set f × (256 ≤ length out.old) }
    ensures { left_by result rec.new out.new ≡ read_left rec.old f out.old }
{
    let view = record::view_of(rec);
    record::keeping::keep_refusal(rec, view, f.sender, f.kind, f.view)?;
    Ok(hear(rec, set, f, out))
}

// Frame on a sound record. The reader's refusal is passed on, with the record unchanged.
fn frame_in(rec: &mut [u8], sender: u8, bytes: &[u8], out: &mut [u8]) -> Result<usize, Refusal>
    requires { (lent_is rec.old ≡ Sound) × (256 ≤ length out.old) }
    ensures { left_by result rec.new out.new ≡ frame_left rec.old sender bytes.now out.old }
{
    let set = record::settings_of(rec);
    let got = frame::reader::read(bytes, sender, set.n, set.id);
    let Ok(f) = got else {
        return Err(got.unwrap_err());
    };
    frame_read(rec, set, f, out)
}

// Frame: bytes that came over the link from a sender.
pub fn frame(rec: &mut [u8], sender: u8, bytes: &[u8], out: &mut [u8]) -> Result<usize, Refusal>
    ensures { left_by result rec.new out.new ≡ frame_left rec.old sender bytes.now out.old }
{
    way_in(rec, out.len())?;
    frame_in(rec, sender, bytes, out)
}

// ---- timer

// Refusals 18 and 19 of a timer for a view, in their order.
fn timer_refusal(current: u32, view: u32) -> Result<(), Refusal>
    ensures { TimerGives current view (number_in result) }
{
    if view != current {
        return Err(Refusal::Timer);
    }
    if current == LAST {
        return Err(Refusal::LastView);
    }
    Ok(())
}

// The view that an accepted timer asks for: that of the own view-change where it is above the current view, else the next one.
fn wanted_view(rec: &[u8], id: u8, view: u32) -> u32
    requires { (length rec.now ≡ record_size) × (id < rows) × (view < 4294967295) }
    ensures { result ≡ wanted_from view (change_of (contents_in rec.now) id) }
{
    let at = record::frame_slot(numbers::VIEW_CHANGE, id);
    let own = record::slot_of(rec, at);
    if own.mark != 1 {
        return view + 1;
    }
    if view < own.view {
        return own.view;
    }
    view + 1
}

// A view is asked for; then one pass from A.
fn time_out(rec: &mut [u8], set: Settings, view: u32, out: &mut [u8]) -> usize
    requires { Held rec.old set × (view ≡ (decode_record rec.old).view) × (view < 4294967295) × (256 ≤ length out.old) }
    ensures { Ran (timed_out (contents_in rec.old)) 0 out.old out.new result rec.new }
{
    let w = wanted_view(rec, set.id, view);
    let at = pass::ask_for(rec, set, w, out, 0);
    pass::pass_from(rec, set, FROM_A, out, at)
}

// Timer on a sound record.
fn timer_in(rec: &mut [u8], view: u32, out: &mut [u8]) -> Result<usize, Refusal>
    requires { (lent_is rec.old ≡ Sound) × (256 ≤ length out.old) }
    ensures { left_by result rec.new out.new ≡ timer_left rec.old view out.old }
{
    let current = record::view_of(rec);
    timer_refusal(current, view)?;
    let set = record::settings_of(rec);
    Ok(time_out(rec, set, current, out))
}

// Timer, for the view that the host names.
pub fn timer(rec: &mut [u8], view: u32, out: &mut [u8]) -> Result<usize, Refusal>
    ensures { left_by result rec.new out.new ≡ timer_left rec.old view out.old }
{
    way_in(rec, out.len())?;
    timer_in(rec, view, out)
}
