// The archive for Rust and C hosts (include/vault.h): each export of crate vault_c, with its contract, as a symbol to link. A crate is a library or an
// archive, not both.
#![tactic(auto)]

ghost use Rattle.std.specs.Prelude.{◌≡◌, length, drop};
ghost use Rattle.record.specs.Size.{record_size};
ghost use Rattle.contents.specs.Calls.{start_left, frame_left, timer_left};
ghost use Rattle.own.specs.Size.{remnant_size};
ghost use Rattle.contents.specs.Remnant.{remnant_left, restart_left};
ghost use Rattle.questions.specs.Stored.{current_of, decision_of};
ghost use Rattle.equivocation.specs.Call.{equivocators_left};
ghost use Rattle.reach.specs.Call.{claim_reach};
ghost use Rattle.entry.specs.Walk.{size_in};
ghost use Rattle.questions.specs.Texts.{sentence_of, fitting, Written};
ghost use Rattle.vault_c.specs.Numbers.{seen, numbered};
ghost use Rattle.vault_c.specs.Asked.{version, told, tell_current, tell_decision, with_room, reach_number};

// The library's version.
#[unsafe(no_mangle)]
pub extern "C" fn vault_version() -> u32
    ensures { result ≡ version }
{
    vault_c::vault_version()
}

// How many bytes a record has.
#[unsafe(no_mangle)]
pub extern "C" fn vault_record_size() -> u32
    ensures { result ≡ record_size }
{
    vault_c::vault_record_size()
}

// How many bytes a remnant has.
#[unsafe(no_mangle)]
pub extern "C" fn vault_remnant_size() -> u32
    ensures { result ≡ remnant_size }
{
    vault_c::vault_remnant_size()
}

// Starts the vault of a blank record.
#[unsafe(no_mangle)]
pub extern "C" fn vault_start(
    rec: &mut [u8],
    n: u8,
    f: u8,
    id: u8,
    class: u8,
    plan: u64,
    out: &mut [u8],
) -> u32
    ensures { seen result rec.new out.new ≡ numbered (start_left rec.old (record { n = n; f = f; id = id; class = class }) plan out.old) }
{
    vault_c::vault_start(rec, n, f, id, class, plan, out)
}

// Takes the bytes that came over a link from a sender.
#[unsafe(no_mangle)]
pub extern "C" fn vault_frame(rec: &mut [u8], link: u8, bytes: &[u8], out: &mut [u8]) -> u32
    ensures { seen result rec.new out.new ≡ numbered (frame_left rec.old link bytes.now out.old) }
{
    vault_c::vault_frame(rec, link, bytes, out)
}

// The timer of a view has run out.
#[unsafe(no_mangle)]
pub extern "C" fn vault_timer(rec: &mut [u8], view: u32, out: &mut [u8]) -> u32
    ensures { seen result rec.new out.new ≡ numbered (timer_left rec.old view out.old) }
{
    vault_c::vault_timer(rec, view, out)
}

// Writes the remnant of a record, for the host to store before any entry leaves.
#[unsafe(no_mangle)]
pub extern "C" fn vault_write_remnant(rec: &[u8], out: &mut [u8]) -> u32
    ensures { seen result rec.now out.new ≡ numbered (remnant_left rec.now out.old) }
{
    vault_c::vault_write_remnant(rec, out)
}

// Makes a blank record that of the vault whose remnant was stored.
#[unsafe(no_mangle)]
pub extern "C" fn vault_restart(rec: &mut [u8], bytes: &[u8], out: &mut [u8]) -> u32
    ensures { seen result rec.new out.new ≡ numbered (restart_left rec.old bytes.now out.old) }
{
    vault_c::vault_restart(rec, bytes, out)
}

// The view that a stored record is in, and the milliseconds of its timer.
#[unsafe(no_mangle)]
pub extern "C" fn vault_current(rec: &[u8], out: &mut [u32]) -> u32
    ensures { told result out.new ≡ with_room out.old (tell_current (current_of rec.now) out.old) }
{
    vault_c::vault_current(rec, out)
}

// The decision of a stored record, and its view.
#[unsafe(no_mangle)]
pub extern "C" fn vault_decision(rec: &[u8], out: &mut [u64]) -> u32
    ensures { told result out.new ≡ with_room out.old (tell_decision (decision_of rec.now) out.old) }
{
    vault_c::vault_decision(rec, out)
}

// Names the vaults that spoke twice in records that lie end to end.
#[unsafe(no_mangle)]
pub extern "C" fn vault_equivocators(records: &[u8], lengths: &[u32], out: &mut [u8]) -> u32
    ensures { seen result records.now out.new ≡ numbered (equivocators_left records.now lengths.now out.old) }
{
    vault_c::vault_equivocators(records, lengths, out)
}

// Says how high the claim of a suggest's or proof's reports reaches for a plan.
#[unsafe(no_mangle)]
pub extern "C" fn vault_claim_reach(reports: &[u8], plan: u64) -> u64
    ensures { result ≡ reach_number (claim_reach reports.now plan) }
{
    vault_c::vault_claim_reach(reports, plan)
}

// How many bytes the entry at a place of an output takes; 0 at the end, and where no whole entry stands there.
#[unsafe(no_mangle)]
pub extern "C" fn vault_entry(out: &[u8], at: usize) -> u32
    ensures { result ≡ size_in (drop at out.now) }
{
    vault_c::vault_entry(out, at)
}

// A refusal's sentence.
#[unsafe(no_mangle)]
pub extern "C" fn vault_refusal_text(number: u32, out: &mut [u8]) -> u32
    ensures { Written (fitting (sentence_of number) (length out.old)) out.old out.new result }
{
    vault_c::vault_refusal_text(number, out)
}
