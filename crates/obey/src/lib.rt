// A rehearsal obeys a script of lines, on a stage (document 02, wish 2).
//
// What a line does to the stage and prints is a definition, `rehearsal` (crate stage, specs/Lines); `obey_line` is exact.
#![tactic(auto)]

ghost use Rattle.std.specs.Prelude.{◌≡◌, [], ◌+◌, ◌*◌, ◌≤◌, ◌<◌, length, take};
ghost use Rattle.entry.specs.Reading.{entry_at, entries_of};
ghost use Rattle.frame.specs.Refusal.{first};
ghost use Rattle.lines.specs.Steps.{Fed, Finished};
ghost use Rattle.lines.specs.inside.Steps.{digits_of, OnPage, Answered};
ghost use Rattle.answers.specs.inside.Steps.{LaidOut, Printable};
ghost use Rattle.vault.specs.Answers.{left_by};
ghost use Rattle.stage.specs.Stage.{stage_size};
ghost use Rattle.stage.specs.Lines.{sent, entry_done, entries_done, vault_in, line_rows, call_of, call, meant, taken, done, rehearsal};
ghost use Rattle.stage.specs.inside.Parts.{frame_most, free_number, on_way, Named};
ghost use Rattle.obey.specs.inside.Parts.{head_of, put_by, DoneAt, IsEntry};
ghost use Rattle.obey.specs.Steps.{kept_size};
ghost use Rattle.obey.specs.inside.Sizes.{answer_size, line_share, piece_size, page_size, stage_sizes};
ghost use Rattle.obey.specs.inside.Kept.{kept_enough};
ghost use Rattle.std.proofs.Common.{rules};

use frame::{Refusal, numbers};
use lines::pieces::{self, LineProgram, PieceProgram, Place};
use stage::{Way, calls, places};

// 'a zeroed 256-byte output array'
const OUTPUT: usize = 256;

// ---- frames on their way

// What stands before a frame: fc, its number and the recipient byte, or fb and that byte where there is no number and the frame is lost.
fn put_head(page: &mut [u8], at: usize, number: Option<u8>, to: u8) -> usize
    requires { at + 6 ≤ length page.old }
    ensures { OnPage (digits_of (head_of (free_number number) to)) page.old at page.new result }
{
    match number {
        Some(k) => lines::put_digits(page, at, &[stage::WAITS, k, to]),
        None => lines::put_digits(page, at, &[stage::LOST, to]),
    }
}

// A new frame takes the smallest free number, or is lost; its line is put on the page.
fn send(stage: &mut [u8; places::SIZE], way: Way, frame: &[u8], page: &mut [u8], at: usize) -> usize
    requires { (length frame.now ≤ frame_most) × ((at + 2 * length frame.now) + 7 ≤ length page.old) }
    ensures { DoneAt (sent stage.old (on_way way frame.now)) page.old at stage.new page.new result }
{
    let number = places::first_free(stage);
    let mid = put_head(page, at, number, way.to);
    let end = lines::put_line(page, mid, frame);
    if let Some(k) = number {
        places::put_waiting(stage, k, way, frame);
    }
    end
}

// An entry that a vault wrote: 'It prints as `vaultlines` does .., but a frame's entry is led ..'.
fn put_entry(
    stage: &mut [u8; places::SIZE],
    writer: u8,
    e: &[u8],
    page: &mut [u8],
    at: usize,
) -> usize
    requires { IsEntry e.now × ((at + 2 * length e.now) + 5 ≤ length page.old) }
    ensures { DoneAt (entry_done writer stage.old (entry_at e.now)) page.old at stage.new page.new result }
{
    if e[0] == numbers::TO_HOST {
        return lines::put_line(page, at, e);
    }
    let way = Way { writer, to: e[0] };
    send(stage, way, &e[1..e.len()], page, at)
}

// Entries that lie end to end, in their order.
// Entries have different lengths, so the place goes from entry to entry and is no counted index.
fn put_entries(
    stage: &mut [u8; places::SIZE],
    writer: u8,
    s: &[u8],
    page: &mut [u8],
    at: usize,
) -> usize
    requires { LaidOut s.now × (at + 3 * length s.now ≤ length page.old) }
    ensures { DoneAt (entries_done writer stage.old (entries_of s.now)) page.old at stage.new page.new result }
{
    let mut i = 0;
    let mut end = at;
    while i < s.len() {
        let next = i + entry::size_in(&s[i..]);
        end = put_entry(stage, writer, &s[i..next], page, end);
        i = next;
    }
    end
}

// What a call at a vault answered: 'one output entry a line, or fd and the refusal number as one byte'.
fn put_answer(
    stage: &mut [u8; places::SIZE],
    writer: u8,
    answer: Result<usize, Refusal>,
    out: &[u8],
    page: &mut [u8],
    at: usize,
) -> usize
    requires { Printable answer out.now × (at + answer_size ≤ length page.old) }
    ensures { DoneAt (put_by stage.old writer (left_by answer [] out.now)) page.old at stage.new page.new result }
{
    match answer {
        Ok(count) => put_entries(stage, writer, &out[0..count], page, at),
        Err(why) => lines::put_refusal(page, at, u8::from(why)),
    }
}

// A line's call is made, with 'a zeroed 256-byte output array', and its answer printed.
fn answer(stage: &mut [u8; places::SIZE], bytes: &[u8], page: &mut [u8], at: usize) -> usize
    requires { Named bytes.now × (at + answer_size ≤ length page.old) }
    ensures done_at { DoneAt (done stage.old (call (vault_in bytes.now) (call_of stage.old bytes.now))) page.old at stage.new page.new result }
    ensures upper_bound { result ≤ at + answer_size }
{
    let mut out = [0u8; OUTPUT];
    let a = calls::call(stage, bytes, &mut out);
    put_answer(stage, stage::vault_in(bytes), a, &out, page, at)
}

// ---- the lines

// A line that is not refused, by its kind.
fn act(stage: &mut [u8; places::SIZE], bytes: &[u8], page: &mut [u8], at: usize) -> usize
    requires { (first (line_rows stage.old bytes.now) ≡ 0) × (at + answer_size ≤ length page.old) }
    ensures done_at { DoneAt (done stage.old (taken stage.old bytes.now)) page.old at stage.new page.new result }
    ensures upper_bound { result ≤ at + answer_size }
{
    match bytes[0] {
        stage::DROP => {
            places::free(stage, bytes[1]);
            at
        }
        stage::DECLARE => {
            places::declare(stage, bytes[1]);
            at
        }
        stage::MAKE_UP => {
            let way = Way {
                writer: bytes[1],
                to: numbers::TO_ALL,
            };
            send(stage, way, &bytes[2..bytes.len()], page, at)
        }
        _ => answer(stage, bytes, page, at),
    }
}

// A line's bytes are obeyed.
fn obey(stage: &mut [u8; places::SIZE], bytes: &[u8], page: &mut [u8], at: usize) -> usize
    requires { at + answer_size ≤ length page.old }
    ensures done_at { DoneAt (done stage.old (meant stage.old bytes.now)) page.old at stage.new page.new result }
    ensures upper_bound { (result ≤ at + answer_size) × (length bytes.now < 2 → result ≤ at + 5) }
{
    if let Err(why) = stage::refusal(stage, bytes) {
        return lines::put_refusal(page, at, u8::from(why));
    }
    act(stage, bytes, page, at)
}

// One line: from its text, and the stage, to the stage and the lines printed. 20 is tested before all else.
pub fn obey_line(stage: &mut [u8], text: &[u8], page: &mut [u8], at: usize) -> usize
    requires { (length stage.old ≡ stage_size) × (at + answer_size ≤ length page.old) }
    ensures answered { Answered rehearsal stage.old text.now page.old at stage.new page.new result }
    ensures upper_bound { result ≤ at + line_share * (length text.now + 1) }
{
    let mut bytes = [0u8; stage::BYTES];
    let Some(count) = lines::bytes_in(text, stage::DIGITS, &mut bytes) else {
        return lines::put_refusal(page, at, u8::from(Refusal::Line));
    };
    let whole = stage.as_mut_array::<{ places::SIZE }>().unwrap();
    obey(whole, &bytes[0..count], page, at)
}

// ---- the input in pieces

// What is kept of a line's text: one byte more than the 94 digits that it may have, enough to give 20 where the line does.
pub const KEPT: usize = 95;

// A piece of input, and a page that has room for all that its lines print: at most 154 bytes for each of theirs, and one answer more.
pub const PIECE: usize = 1024;

pub const PAGE: usize = 173094;

// The rehearsal, for the reading of its script in pieces (crate lines).
pub struct Rehearsal;

impl LineProgram for Rehearsal {
    ghost program = { rehearsal };

    ghost sizes = { stage_sizes };

    ghost may_be = { λ n. n ≡ stage_size };

    ghost enough = { kept_enough };

    ghost some_piece = { Prim.search rules };

    fn answer_line(state: &mut [u8], text: &[u8], page: &mut [u8], at: usize) -> usize {
        obey_line(state, text, page, at)
    }
}

// Its input is fed by the two calls below.
impl PieceProgram for Rehearsal {
    fn feed(state: &mut [u8], text: &mut [u8], len: usize, page: &mut [u8], piece: &[u8]) -> Place {
        feed(state, text, len, page, piece)
    }

    fn finish(state: &mut [u8], text: &[u8], len: usize, page: &mut [u8]) -> usize {
        finish(state, text, len, page)
    }
}

// A piece of input. The first len bytes of text are what is kept of the line that has begun; the page starts empty. It is lent slices, with their
// lengths in a clause: `WholeInput` (docs/CLAIMS.md) is of this call.
pub fn feed(stage: &mut [u8], text: &mut [u8], len: usize, page: &mut [u8], piece: &[u8]) -> Place
    requires stage_fits { length stage.old ≡ stage_size }
    requires sized { (length text.old ≡ kept_size) × (len ≤ kept_size) × (length page.old ≡ page_size) × (length piece.now ≤ piece_size) }
    ensures fed { Fed rehearsal kept_size stage.old (take len text.old) piece.now stage.new (take result.len text.new) (take result.at page.new) }
    ensures len_le_kept_size { (result.len ≤ kept_size) × (result.at ≤ page_size) }
{
    pieces::feed::<Rehearsal>(stage, text, len, page, piece)
}

// The input's end: 'A line ends at byte 0a or at the input's end; after a final 0a there is no further line'.
pub fn finish(stage: &mut [u8], text: &[u8], len: usize, page: &mut [u8]) -> usize
    requires { (length stage.old ≡ stage_size) × (length text.now ≡ kept_size) × (len ≤ kept_size) × (length page.old ≡ page_size) }
    ensures finished { Finished rehearsal stage.old (take len text.now) stage.new (take result page.new) }
    ensures upper_bound { result ≤ page_size }
{
    pieces::finish::<Rehearsal>(stage, text, len, page)
}
