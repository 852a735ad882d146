// The remnant of a record, and the restart from one: what a vault keeps of itself, its own row above all, in few bytes.
// Every refusal comes before the first write.
#![tactic(auto)]

mod row;

ghost use Rattle.std.specs.Prelude.{◌≡◌, ◌≤◌, length};
ghost use Rattle.frame.specs.Answers.{number_in};
ghost use Rattle.record.specs.Layout.{encode_record};
ghost use Rattle.record.specs.Size.{record_size};
ghost use Rattle.sound.specs.inside.Sound.{lent_is};
ghost use Rattle.contents.specs.Left.{wrote};
ghost use Rattle.own.specs.Part.{restored};
ghost use Rattle.own.specs.inside.Own.{settings_in};
ghost use Rattle.contents.specs.Which.{is_sound};
ghost use Rattle.contents.specs.Remnant.{remnant_left, made_back, restart_left};
ghost use Rattle.vault.specs.Answers.{left_by};
ghost use Rattle.remnant.specs.inside.Parts.{write_refusal, Fitting};

use entry::Entry;
use frame::Refusal;
use settings::Settings;

// The bytes of a remnant: those of the vault's own part.
pub const SIZE: usize = own::SIZE;

// The output space that a restart asks for, as every call does.
const ROOM: usize = 256;

// ---- write

// Refusals 1 to 3 in their order.
fn write_refusal(rec: &[u8], room: usize) -> Result<(), Refusal>
    ensures { number_in result ≡ write_refusal rec.now room }
{
    if room < SIZE {
        return Err(Refusal::Output);
    }
    sound::lent_refusal(rec)
}

// Writes the remnant of a sound record at the start of the output.
pub fn write_remnant(rec: &[u8], out: &mut [u8]) -> Result<usize, Refusal>
    ensures { left_by result rec.now out.new ≡ remnant_left rec.now out.old }
{
    write_refusal(rec, out.len())?;
    own::load(rec, out);
    Ok(SIZE)
}

// ---- restart

// Whether a remnant makes a sound record. Settings that are refused make none; they are tested first, as their id may have no row.
fn makes_sound(remnant: &[u8; SIZE], set: Settings) -> bool
    requires { set ≡ settings_in remnant.now }
    ensures { result ≡ is_sound (lent_is (encode_record (restored remnant.now))) }
{
    if settings::settings_refusal(set).is_err() {
        return false;
    }
    row::is_sound(remnant, set)
}

// The record that a remnant makes. What the lent bytes held is cleared.
fn rebuild(rec: &mut [u8], remnant: &[u8; SIZE], set: Settings)
    requires { (length rec.old ≡ record_size) × Fitting remnant.now set }
    ensures { rec.new ≡ encode_record (restored remnant.now) }
{
    let plan = own::plan_in(remnant);
    record::put_fresh(rec, set, plan);
    own::store(remnant, set.id, rec);
}

// Makes the record, and enters its current view with a timer entry.
fn come_back(rec: &mut [u8], remnant: &[u8; SIZE], set: Settings, out: &mut [u8]) -> usize
    requires { (length rec.old ≡ record_size) × Fitting remnant.now set × (256 ≤ length out.old) }
    ensures { wrote result rec.new out.new ≡ made_back (restored remnant.now) out.old }
{
    rebuild(rec, remnant, set);
    let view = own::view_in(remnant);
    let millis = settings::timer_millis(set.class);
    entry::put_entry(out, 0, Entry::Timer { view, millis })
}

// Makes a record of a remnant, where the lent record is blank.
pub fn restart(rec: &mut [u8], remnant: &[u8], out: &mut [u8]) -> Result<usize, Refusal>
    ensures { left_by result rec.new out.new ≡ restart_left rec.old remnant.now out.old }
{
    if out.len() < ROOM {
        return Err(Refusal::Output);
    }
    if rec.len() != record::SIZE {
        return Err(Refusal::Started);
    }
    let held = record::settings_of(rec);
    if held.n != 0 {
        return Err(Refusal::Started);
    }
    let Ok(part) = <&[u8; SIZE]>::try_from(remnant) else {
        return Err(Refusal::RemnantLength);
    };
    let set = own::settings_in(part);
    if !makes_sound(part, set) {
        return Err(Refusal::RemnantUnsound);
    }
    Ok(come_back(rec, part, set, out))
}
