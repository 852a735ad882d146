// The vault for Rust and C hosts: start, frame and timer over lent bytes, with one number as the answer; what is stored and comes back after a
// power cut; questions on a stored record, and on many; how high a claim reaches; and help with entries and refusals (include/vault.h).
#![tactic(auto)]

ghost use Rattle.std.specs.Prelude.{◌≡◌, length, drop};
ghost use Rattle.frame.specs.Numbers.{number_of};
ghost use Rattle.record.specs.Size.{record_size};
ghost use Rattle.contents.specs.Calls.{start_left, frame_left, timer_left};
ghost use Rattle.own.specs.Size.{remnant_size};
ghost use Rattle.contents.specs.Remnant.{remnant_left, restart_left};
ghost use Rattle.questions.specs.Stored.{current_of, decision_of};
ghost use Rattle.equivocation.specs.Call.{equivocators_left};
ghost use Rattle.reach.specs.Call.{claim_reach};
ghost use Rattle.entry.specs.Walk.{size_in};
ghost use Rattle.questions.specs.Texts.{sentence_of, fitting, Written};
ghost use Rattle.vault_c.specs.inside.Numbers.{code, Short};
ghost use Rattle.vault_c.specs.Numbers.{seen, numbered};
ghost use Rattle.vault_c.specs.Asked.{version, told, tell_current, tell_decision, with_room, reach_number};

use frame::Refusal;
use settings::Settings;

// What a call that is accepted gives, less the bytes that it wrote.
const ACCEPTED: u32 = 256;

// What a question gives where the record has a decision.
const DECIDED: u32 = 257;

// The refusal where the host lent too little room.
const SHORT: u32 = Refusal::Output as u32;

// Major * 10000 + minor * 100 + patch.
const VERSION: u32 = 10400;

// The number of a refusal.
fn refused(why: Refusal) -> u32
    ensures { result ≡ number_of why }
{
    u8::from(why) as u32
}

// The number that stands for an answer.
fn number(a: Result<usize, Refusal>) -> u32
    requires { Short a }
    ensures { result ≡ code a }
{
    match a {
        Ok(count) => ACCEPTED + count as u32,
        Err(why) => refused(why),
    }
}

// The library's version.
#[unsafe(no_mangle)]
pub extern "C" fn vault_version() -> u32
    ensures { result ≡ version }
{
    VERSION
}

// How many bytes a record has.
#[unsafe(no_mangle)]
pub extern "C" fn vault_record_size() -> u32
    ensures { result ≡ record_size }
{
    record::SIZE as u32
}

// How many bytes a remnant has.
#[unsafe(no_mangle)]
pub extern "C" fn vault_remnant_size() -> u32
    ensures { result ≡ remnant_size }
{
    remnant::SIZE as u32
}

// Starts the vault of a blank record.
#[unsafe(no_mangle)]
pub extern "C" fn vault_start(
    rec: &mut [u8],
    n: u8,
    f: u8,
    id: u8,
    class: u8,
    plan: u64,
    out: &mut [u8],
) -> u32
    ensures { seen result rec.new out.new ≡ numbered (start_left rec.old (record { n = n; f = f; id = id; class = class }) plan out.old) }
{
    let a = vault::start(rec, Settings { n, f, id, class }, plan, out);
    number(a)
}

// Takes the bytes that came over a link from a sender.
#[unsafe(no_mangle)]
pub extern "C" fn vault_frame(rec: &mut [u8], link: u8, bytes: &[u8], out: &mut [u8]) -> u32
    ensures { seen result rec.new out.new ≡ numbered (frame_left rec.old link bytes.now out.old) }
{
    let a = vault::frame(rec, link, bytes, out);
    number(a)
}

// The timer of a view has run out.
#[unsafe(no_mangle)]
pub extern "C" fn vault_timer(rec: &mut [u8], view: u32, out: &mut [u8]) -> u32
    ensures { seen result rec.new out.new ≡ numbered (timer_left rec.old view out.old) }
{
    let a = vault::timer(rec, view, out);
    number(a)
}

// Writes the remnant of a record, for the host to store before any entry leaves.
#[unsafe(no_mangle)]
pub extern "C" fn vault_write_remnant(rec: &[u8], out: &mut [u8]) -> u32
    ensures { seen result rec.now out.new ≡ numbered (remnant_left rec.now out.old) }
{
    let a = remnant::write_remnant(rec, out);
    number(a)
}

// Makes a blank record that of the vault whose remnant was stored.
#[unsafe(no_mangle)]
pub extern "C" fn vault_restart(rec: &mut [u8], bytes: &[u8], out: &mut [u8]) -> u32
    ensures { seen result rec.new out.new ≡ numbered (restart_left rec.old bytes.now out.old) }
{
    let a = remnant::restart(rec, bytes, out);
    number(a)
}

// The view that a stored record is in, and the milliseconds of its timer.
#[unsafe(no_mangle)]
pub extern "C" fn vault_current(rec: &[u8], out: &mut [u32]) -> u32
    ensures { told result out.new ≡ with_room out.old (tell_current (current_of rec.now) out.old) }
{
    if out.len() < 2 {
        return SHORT;
    }
    match questions::current_of(rec) {
        Ok(current) => {
            out[0] = current.view;
            out[1] = current.millis;
            ACCEPTED
        }
        Err(why) => refused(why),
    }
}

// The decision of a stored record, and its view.
#[unsafe(no_mangle)]
pub extern "C" fn vault_decision(rec: &[u8], out: &mut [u64]) -> u32
    ensures { told result out.new ≡ with_room out.old (tell_decision (decision_of rec.now) out.old) }
{
    if out.len() < 2 {
        return SHORT;
    }
    match questions::decision_of(rec) {
        Ok(Some(decision)) => {
            out[0] = decision.view as u64;
            out[1] = decision.plan;
            DECIDED
        }
        Ok(None) => ACCEPTED,
        Err(why) => refused(why),
    }
}

// Names the vaults that spoke twice in records that lie end to end.
#[unsafe(no_mangle)]
pub extern "C" fn vault_equivocators(records: &[u8], lengths: &[u32], out: &mut [u8]) -> u32
    ensures { seen result records.now out.new ≡ numbered (equivocators_left records.now lengths.now out.old) }
{
    let a = equivocation::equivocators(records, lengths, out);
    number(a)
}

// Says how high the claim of a suggest's or proof's reports reaches for a plan.
#[unsafe(no_mangle)]
pub extern "C" fn vault_claim_reach(reports: &[u8], plan: u64) -> u64
    ensures { result ≡ reach_number (claim_reach reports.now plan) }
{
    match reach::claim_reach(reports, plan) {
        Ok(view) => ACCEPTED as u64 + view as u64,
        Err(why) => refused(why) as u64,
    }
}

// How many bytes the entry at a place of an output takes; 0 at the end, and where no whole entry stands there.
#[unsafe(no_mangle)]
pub extern "C" fn vault_entry(out: &[u8], at: usize) -> u32
    ensures { result ≡ size_in (drop at out.now) }
{
    let size = entry::size_from(out, at);
    size as u32
}

// A refusal's sentence.
#[unsafe(no_mangle)]
pub extern "C" fn vault_refusal_text(number: u32, out: &mut [u8]) -> u32
    ensures { Written (fitting (sentence_of number) (length out.old)) out.old out.new result }
{
    let count = questions::refusal_text(number, out);
    count as u32
}
