// Exports for the Rust tests, apart from what ships: the reader with the entry writer, the search for safe plans, and what lent bytes are.
// Each answer is a number.
#![tactic(auto)]

ghost use Rattle.std.specs.Prelude.{◌≤◌, ◌≡◌, ◌&&◌, length, leb, ltb};
ghost use Rattle.claims.specs.Table.{column};
ghost use Rattle.wire.specs.Placed.{placed};
ghost use Rattle.entry.specs.Layout.{layout};
ghost use Rattle.sound.specs.inside.Sound.{lent_is};
ghost use Rattle.for_tests.specs.inside.Answers.{left, echo_entries, echo, safe_plan, choose_plan, class_number};

use entry::Entry;
use frame::Frame;
use settings::Settings;
use sound::Lent;

// ---- frames

// Writes the three entries that answer an accepted frame, end to end, and counts their bytes.
fn put_echo(out: &mut [u8], f: Frame) -> usize
    requires { 138 ≤ length out.old }
    ensures { (result ≡ length (layout (echo_entries f))) × (out.new ≡ placed out.old 0 (layout (echo_entries f))) }
{
    let view = f.view;
    let timer = entry::put_entry(out, 0, Entry::ForAll(f));
    let decision = entry::put_entry(out, timer, Entry::Timer { view, millis: 180 });
    entry::put_entry(
        out,
        decision,
        Entry::Decision {
            view,
            plan: view as u64,
        },
    )
}

// Reads a frame that came over a link, at vault own of n. Answers 1 where the output has no 256 bytes, a refusal's number, or 256 and
// the count of the bytes written: the frame for all, a timer and a decision of its view.
#[unsafe(no_mangle)]
pub extern "C" fn frame_echo(s: &[u8], link: u8, n: u8, own: u8, out: &mut [u8]) -> u32
    ensures { left result out.new ≡ echo s.now link n own out.old }
{
    if out.len() < 256 {
        return 1;
    }
    match frame::reader::read(s, link, n, own) {
        Ok(f) => 256 + (put_echo(out, f) as u32),
        Err(why) => u32::from(u8::from(why)),
    }
}

// ---- safe plans, over one lent table of reports

// Whether n is at most 64, and f is below n.
fn is_laid(n: u8, f: u8) -> bool
    ensures { result ≡ (leb n column && ltb f n) }
{
    n <= 64 && f < n
}

// Settings of which the search reads n and f only.
fn settings_for(n: u8, f: u8) -> Settings
    ensures { (result.n ≡ n) × (result.f ≡ f) }
{
    Settings {
        n,
        f,
        id: 0,
        class: 0,
    }
}

// Whether plan p is safe in view v: 1 or 0, by Rule 1 where three is 0 and by Rule 3 where not; 2 where the call makes no sense.
#[unsafe(no_mangle)]
pub extern "C" fn safe_plan<'a>(table: &'a [u64], n: u8, f: u8, v: u32, p: u64, three: u8) -> u32
    ensures { result ≡ safe_plan table.now n f v p three }
{
    let Ok(table) = <&[u64; claims::TABLE]>::try_from(table) else {
        return 2;
    };
    if !is_laid(n, f) {
        return 2;
    }
    if safe::safe_by(table, settings_for(n, f), v, p, three != 0) {
        return 1;
    }
    0
}

// Step C's choice: 1 with the plan in out[0], 0 where there is none, 2 where the call makes no sense or out is empty.
#[unsafe(no_mangle)]
pub extern "C" fn choose_plan<'a>(
    table: &'a [u64],
    n: u8,
    f: u8,
    v: u32,
    start: u64,
    out: &mut [u64],
) -> u32
    ensures { left result out.new ≡ choose_plan table.now n f v start out.old }
{
    let Ok(table) = <&[u64; claims::TABLE]>::try_from(table) else {
        return 2;
    };
    if !is_laid(n, f) {
        return 2;
    }
    if out.len() == 0 {
        return 2;
    }
    let Some(p) = safe::choose(table, settings_for(n, f), v, start) else {
        return 0;
    };
    out[0] = p;
    1
}

// ---- records

// What lent bytes are: 0 a blank record, 1 a sound one, 2 neither.
#[unsafe(no_mangle)]
pub extern "C" fn record_class(bytes: &[u8]) -> u32
    ensures { result ≡ class_number (lent_is bytes.now) }
{
    let lent = sound::classify(bytes);
    match lent {
        Lent::Blank => 0,
        Lent::Sound => 1,
        Lent::Unsound => 2,
    }
}
