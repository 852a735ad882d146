// What a host may ask besides the calls. Of a stored record, when it comes back: the view, the timer of it, and the decision, which may
// have been stored and not yet acted on. Of a refusal: its sentence.
#![tactic(auto)]

ghost use Rattle.std.specs.Prelude.{◌≡◌, ◌<◌, length};
ghost use Rattle.sound.specs.declared.Lent.TheVariants.{Sound};
ghost use Rattle.sound.specs.inside.Sound.{lent_is};
ghost use Rattle.contents.specs.Contents.{contents_in};
ghost use Rattle.questions.specs.Stored.{entered_by, current_of, made_by, decision_of};
ghost use Rattle.questions.specs.Texts.{sentence_of, fitting, Written};

use frame::{Refusal, numbers};

// The view that a record is in, and the milliseconds of its timer.
#[derive(Clone, Copy, Debug, PartialEq, Eq)]
pub struct Current {
    pub view: u32,
    pub millis: u32,
}

// What a record has decided, and in which view.
#[derive(Clone, Copy, Debug, PartialEq, Eq)]
pub struct Decision {
    pub view: u32,
    pub plan: u64,
}

// The view of a sound record, and the timer of its link class.
fn entered(rec: &[u8]) -> Current
    requires { lent_is rec.now ≡ Sound }
    ensures { result ≡ entered_by (contents_in rec.now) }
{
    let set = record::settings_of(rec);
    Current {
        view: record::view_of(rec),
        millis: settings::timer_millis(set.class),
    }
}

// The current view of lent bytes: any bytes, of any length.
pub fn current_of(rec: &[u8]) -> Result<Current, Refusal>
    ensures { result ≡ current_of rec.now }
{
    sound::lent_refusal(rec)?;
    Ok(entered(rec))
}

// The decision slot of a sound record: the decision, or none yet.
fn made(rec: &[u8]) -> Option<Decision>
    requires { lent_is rec.now ≡ Sound }
    ensures { result ≡ made_by (contents_in rec.now).decision }
{
    let slot = record::slot_of(rec, record::DECISION);
    if slot.mark != numbers::PRESENT {
        return None;
    }
    Some(Decision {
        view: slot.view,
        plan: slot.plan,
    })
}

// The decision of lent bytes: any bytes, of any length.
pub fn decision_of(bytes: &[u8]) -> Result<Option<Decision>, Refusal>
    ensures { result ≡ decision_of bytes.now }
{
    sound::lent_refusal(bytes)?;
    Ok(made(bytes))
}

// ---- sentences

// Copies a text to the start of an output that has room for it, and answers its length; 0 where there is none, as the C interface has it.
fn put(out: &mut [u8], text: &[u8]) -> usize
    ensures { Written (fitting text.now (length out.old)) out.old out.new result }
{
    if out.len() < text.len() {
        return 0;
    }
    let count = text.len();
    out[..count].copy_from_slice(text);
    count
}

// The sentences of a call's way in, and of a start.
fn call_text(number: u32, out: &mut [u8]) -> usize
    requires { number < 9 }
    ensures { Written (fitting (sentence_of number) (length out.old)) out.old out.new result }
{
    match number {
        1 => put(
            out,
            b"the host lent less than 256 bytes for the output, 237 for a remnant, or two numbers for an answer",
        ),
        2 => put(out, b"this vault was not started yet"),
        3 => put(
            out,
            b"the stored record is damaged, or of another program: restore it from the vault's own store, do not start anew",
        ),
        4 => put(
            out,
            b"this vault was started before, or its record is damaged",
        ),
        5 => put(out, b"there are 4 to 64 vaults"),
        6 => put(out, b"f is at least 1, and three times f is less than n"),
        7 => put(out, b"the vault's number must be below n"),
        8 => put(out, b"the link class is 0 to 7"),
        _ => 0,
    }
}

// The sentences of a frame, from 9 to 17.
fn frame_text(number: u32, out: &mut [u8]) -> usize
    requires { (8 < number) × (number < 18) }
    ensures { Written (fitting (sentence_of number) (length out.old)) out.old out.new result }
{
    match number {
        9 => put(out, b"the frame is empty, or of no known kind"),
        10 => put(
            out,
            b"the length does not fit the kind, or reports are not 39 bytes long",
        ),
        11 => put(
            out,
            b"the sender is no vault of this practice, or this vault itself",
        ),
        12 => put(
            out,
            b"the frame names another sender than the link it came by",
        ),
        13 => put(out, b"a view-change, suggest or proof for view 0"),
        14 => put(
            out,
            b"a report's mark is neither 0 nor 1, or it is absent and not all of it is 0",
        ),
        15 => put(
            out,
            b"a proposal from a vault that does not lead the view, or a suggest that is not for this vault",
        ),
        16 => put(out, b"the frame's view is over"),
        17 => put(
            out,
            b"the same frame, or a newer one of this kind, came from this sender already",
        ),
        _ => 0,
    }
}

// The sentences of a timer and of a line, those of a frame's reports, that of records handed in, and those of a remnant.
fn further_text(number: u32, out: &mut [u8]) -> usize
    requires { 17 < number }
    ensures { Written (fitting (sentence_of number) (length out.old)) out.old out.new result }
{
    match number {
        18 => put(out, b"a timer of another view than the current one"),
        19 => put(out, b"the last view of all is reached"),
        20 => put(
            out,
            b"the line has no even count of lower-case digits, or more than 90",
        ),
        21 => put(out, b"a report's view is not below the frame's"),
        22 => put(
            out,
            b"a previous vote without a highest one, not below it, or for the same plan",
        ),
        24 => put(
            out,
            b"there are not 2 to 64 records, one of them is blank or damaged, or they differ in n or f",
        ),
        25 => put(
            out,
            b"the stored remnant is not 237 bytes long: restore it from the vault's own store, do not start anew",
        ),
        26 => put(
            out,
            b"the stored remnant is damaged, or of another program: restore it, do not start anew",
        ),
        _ => 0,
    }
}

// The sentence of a refusal, in ASCII, with nothing behind it. 0, and nothing written, where there is no such refusal or no room.
pub fn refusal_text(number: u32, out: &mut [u8]) -> usize
    ensures { Written (fitting (sentence_of number) (length out.old)) out.old out.new result }
{
    if number < 9 {
        return call_text(number, out);
    }
    if number < 18 {
        return frame_text(number, out);
    }
    further_text(number, out)
}
