// One line of the line program of document 01: the call that its bytes make, and what that prints.
//
// What a line leaves and prints is a definition, `vault_lines` (specs/Lines); `answer_line` is exact.
#![tactic(auto)]

ghost use Rattle.std.specs.Prelude.{◌≡◌, [], ◌+◌, ◌*◌, ◌≤◌, ◌<◌, length, take};
ghost use Rattle.entry.specs.Reading.{entries_of};
ghost use Rattle.vault.specs.Answers.{left_by};
ghost use Rattle.lines.specs.inside.Steps.{OnPage, Answered};
ghost use Rattle.answers.specs.Lines.{is_kind, start_of, timer_of, frame_of, call_of, call_left, zeroed, entry_lines, printed, vault_lines, kept_size};
ghost use Rattle.answers.specs.inside.Steps.{answer_size, line_share, LaidOut, Printable, AnswerPut};
ghost use Rattle.lines.specs.Steps.{Fed, Finished};
ghost use Rattle.answers.specs.inside.Sizes.{piece_size, page_size, vault_sizes};
ghost use Rattle.answers.specs.inside.Kept.{kept_enough};
ghost use Rattle.std.proofs.Common.{rules};

use frame::Refusal;
use lines::pieces::{self, LineProgram, PieceProgram, Place};
use settings::Settings;

// A line has at most 90 digits, so 45 bytes.
const DIGITS: usize = 90;

const BYTES: usize = 45;

// 'a zeroed 256-byte output array'
const OUTPUT: usize = 256;

// The kinds of lines that are no frames. Any other byte is a frame's, so an enum of these two would tell no more.
const START: u8 = 0;

const TIMER: u8 = 9;

const START_LENGTH: usize = 13;

const TIMER_LENGTH: usize = 5;

// ---- the call that a line makes

// 'Kind 00 starts (n, f, id, class, one byte each, then plan; 13 bytes)'; 'A wrong length .. gives 10, before the call'.
fn start(rec: &mut [u8], bytes: &[u8], out: &mut [u8]) -> Result<usize, Refusal>
    ensures { left_by result rec.new out.new ≡ call_left rec.old out.old (start_of bytes.now) }
{
    if bytes.len() != START_LENGTH {
        return Err(Refusal::Length);
    }
    let set = Settings {
        n: bytes[1],
        f: bytes[2],
        id: bytes[3],
        class: bytes[4],
    };
    let plan = wire::number64(bytes, 5);
    vault::start(rec, set, plan, out)
}

// 'kind 09 is a timer (view; 5 bytes)'
fn timer(rec: &mut [u8], bytes: &[u8], out: &mut [u8]) -> Result<usize, Refusal>
    ensures { left_by result rec.new out.new ≡ call_left rec.old out.old (timer_of bytes.now) }
{
    if bytes.len() != TIMER_LENGTH {
        return Err(Refusal::Length);
    }
    vault::timer(rec, wire::number32(bytes, 1), out)
}

// 'other lines are frames whose byte 1 is also the link's sender'; where there is no byte 1, no sender is looked at.
fn frame(rec: &mut [u8], bytes: &[u8], out: &mut [u8]) -> Result<usize, Refusal>
    ensures { left_by result rec.new out.new ≡ call_left rec.old out.old (frame_of bytes.now) }
{
    if bytes.len() < 2 {
        return vault::frame(rec, 0, bytes, out);
    }
    vault::frame(rec, bytes[1], bytes, out)
}

// Whether a line is of a kind, which an empty line has not.
fn is_kind(kind: u8, bytes: &[u8]) -> bool
    ensures { result ≡ is_kind kind bytes.now }
{
    bytes.len() != 0 && bytes[0] == kind
}

// The call that a line's bytes make: 'an empty line is an empty frame'.
fn call(rec: &mut [u8], bytes: &[u8], out: &mut [u8]) -> Result<usize, Refusal>
    ensures { left_by result rec.new out.new ≡ call_left rec.old out.old (call_of bytes.now) }
{
    if is_kind(START, bytes) {
        return start(rec, bytes, out);
    }
    if is_kind(TIMER, bytes) {
        return timer(rec, bytes, out);
    }
    frame(rec, bytes, out)
}

// ---- what it prints

// Puts entries that lie end to end on the page, each on a line of its own.
// Entries have different lengths, so the place goes from entry to entry and is no counted index.
fn put_entries(page: &mut [u8], at: usize, s: &[u8]) -> usize
    requires { (at + 3 * length s.now ≤ length page.old) × LaidOut s.now }
    ensures { OnPage (entry_lines (entries_of s.now)) page.old at page.new result }
{
    let mut i = 0;
    let mut end = at;
    while i < s.len() {
        let next = i + entry::size_in(&s[i..]);
        end = lines::put_line(page, end, &s[i..next]);
        i = next;
    }
    end
}

// Puts what a call answered on the page: 'one output entry a line, or fd and the refusal number as one byte'.
fn put_answer(page: &mut [u8], at: usize, answer: Result<usize, Refusal>, out: &[u8]) -> usize
    requires { (at + answer_size ≤ length page.old) × Printable answer out.now }
    ensures { OnPage (printed (left_by answer [] out.now)) page.old at page.new result }
{
    match answer {
        Ok(count) => put_entries(page, at, &out[0..count]),
        Err(why) => lines::put_refusal(page, at, u8::from(why)),
    }
}

// A line's bytes are called, with 'a zeroed 256-byte output array', and the answer is put on the page.
fn answer(rec: &mut [u8], bytes: &[u8], page: &mut [u8], at: usize) -> usize
    requires { at + answer_size ≤ length page.old }
    ensures { AnswerPut (call_left rec.old zeroed (call_of bytes.now)) page.old at rec.new page.new result }
{
    let mut out = [0u8; OUTPUT];
    let a = call(rec, bytes, &mut out);
    put_answer(page, at, a, &out)
}

// One line: from its text, and the record, to the record and the lines printed. '20 is tested before all else'.
pub fn answer_line(rec: &mut [u8], text: &[u8], page: &mut [u8], at: usize) -> usize
    requires { at + answer_size ≤ length page.old }
    ensures answered { Answered vault_lines rec.old text.now page.old at rec.new page.new result }
    ensures upper_bound { result ≤ at + line_share * (length text.now + 1) }
{
    let mut bytes = [0u8; BYTES];
    let Some(count) = lines::bytes_in(text, DIGITS, &mut bytes) else {
        return lines::put_refusal(page, at, u8::from(Refusal::Line));
    };
    answer(rec, &bytes[0..count], page, at)
}

// ---- the input in pieces

// What is kept of a line's text: one byte more than the 90 digits that it may have, enough to give 20 where the line does.
pub const KEPT: usize = 91;

// A piece of input, and a page that has room for all that its lines print: at most 70 bytes for each of theirs, and one answer more.
pub const PIECE: usize = 4096;

pub const PAGE: usize = 293858;

// The line program, for the reading of its input in pieces (crate lines). The record may have any length.
pub struct VaultLines;

impl LineProgram for VaultLines {
    ghost program = { vault_lines };

    ghost sizes = { vault_sizes };

    ghost may_be = { λ n. Unit {0} };

    ghost enough = { kept_enough };

    ghost some_piece = { Prim.search rules };

    fn answer_line(state: &mut [u8], text: &[u8], page: &mut [u8], at: usize) -> usize {
        answer_line(state, text, page, at)
    }
}

// Its input is fed by the two calls below.
impl PieceProgram for VaultLines {
    fn feed(state: &mut [u8], text: &mut [u8], len: usize, page: &mut [u8], piece: &[u8]) -> Place {
        feed(state, text, len, page, piece)
    }

    fn finish(state: &mut [u8], text: &[u8], len: usize, page: &mut [u8]) -> usize {
        finish(state, text, len, page)
    }
}

// A piece of input. The first len bytes of text are what is kept of the line that has begun; the page starts empty. It is lent slices, with their
// lengths in a clause: `WholeInput` (docs/CLAIMS.md) is of this call.
pub fn feed(rec: &mut [u8], text: &mut [u8], len: usize, page: &mut [u8], piece: &[u8]) -> Place
    requires { (length text.old ≡ kept_size) × (len ≤ kept_size) × (length page.old ≡ page_size) × (length piece.now ≤ piece_size) }
    ensures fed { Fed vault_lines kept_size rec.old (take len text.old) piece.now rec.new (take result.len text.new) (take result.at page.new) }
    ensures len_le_kept_size { (result.len ≤ kept_size) × (result.at ≤ page_size) }
{
    pieces::feed::<VaultLines>(rec, text, len, page, piece)
}

// The input's end: 'A line ends at byte 0a or at the input's end; after a final 0a there is no further line'.
pub fn finish(rec: &mut [u8], text: &[u8], len: usize, page: &mut [u8]) -> usize
    requires { (length text.now ≡ kept_size) × (len ≤ kept_size) × (length page.old ≡ page_size) }
    ensures finished { Finished vault_lines rec.old (take len text.now) rec.new (take result page.new) }
    ensures upper_bound { result ≤ page_size }
{
    pieces::finish::<VaultLines>(rec, text, len, page)
}

#[cfg(test)]
mod tests {
    use super::*;
    use std::alloc::Allocator;
    use std::cell::RefCell;
    use std::fmt::Display;
    use std::io::{self, BufRead, Chain, ErrorKind, Lines, Read};
    use std::test::Fail;

    // A runtime whose input is read in two pieces, and whose output is kept.
    #[derive(Drop)]
    struct Talk {
        said: RefCell<Vec<u8>>,
    }

    impl Input for Talk {
        type Reader = Chain<&'static [u8], &'static [u8]>;

        fn read_line<A: Allocator + Clone>(&self, buf: &mut String<A>) -> io::Result<usize> {
            self.reader().read_line(buf)
        }

        fn lines<A: Allocator>(&self, alloc: A) -> Lines<Chain<&'static [u8], &'static [u8]>, A> {
            self.reader().lines(alloc)
        }

        fn reader(&self) -> Chain<&'static [u8], &'static [u8]> {
            let first: &'static [u8] = b"0004010002000000";
            let second: &'static [u8] = b"0000000007\n0g";
            first.chain(second)
        }
    }

    impl Print for Talk {
        fn print<D: Display + Drop>(&self, value: D) -> io::Result<()> {
            Err(io::Error::from(ErrorKind::Unsupported))
        }

        fn println<D: Display + Drop>(&self, value: D) -> io::Result<()> {
            Err(io::Error::from(ErrorKind::Unsupported))
        }

        fn write_all(&self, bytes: &[u8]) -> io::Result<()> {
            let Ok(mut said) = self.said.try_borrow_mut() else {
                return Err(io::Error::from(ErrorKind::Other));
            };
            said.extend_from_slice(bytes)?;
            Ok(())
        }
    }

    // The line program, without its calls for pieces.
    struct LinesAlone;

    impl LineProgram for LinesAlone {
        ghost program = { vault_lines };

        ghost sizes = { vault_sizes };

        ghost may_be = { λ n. Unit {0} };

        ghost enough = { kept_enough };

        ghost some_piece = { Prim.search rules };

        fn answer_line(state: &mut [u8], text: &[u8], page: &mut [u8], at: usize) -> usize {
            answer_line(state, text, page, at)
        }
    }

    // A line goes on in the next piece, and the last one has no 0a. What is wanted is what the reference vault prints.
    #[test]
    fn runs_a_program_without_calls_for_pieces(rt: HostRuntime) -> Result<(), Fail> {
        let talk = Talk {
            said: RefCell::new(Vec::new(rt.alloc())),
        };
        let mut rec = [0u8; record::SIZE];
        let mut text = [0u8; KEPT];
        let mut page = vec![in rt.alloc(); 0u8; PAGE]?;
        let mut piece = [0u8; PIECE];
        pieces::run::<LinesAlone>(&talk, &mut rec, &mut text, &mut page, &mut piece)?;
        let want: &[u8] =
            b"fe0b0000000000000384\nff0100000000000000000000000007\nff0200000000000000000000000007\nfd14\n";
        let said = talk.said.into_inner();
        assert_eq!(rt; said.as_slice(), want);
        Ok(())
    }
}
