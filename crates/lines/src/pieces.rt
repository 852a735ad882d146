// An input that is read in pieces, for any program that answers lines on a page.

ghost use Rattle.std.specs.Prelude.{Some, ℕ, ◌≡◌, ◌+◌, ◌*◌, ◌≤◌, ◌<◌, List, length, take, IfOk, OnOk, OnErr};
ghost use Rattle.lines.specs.Lines.{Program};
ghost use Rattle.lines.specs.Steps.{Fed, Finished};
ghost use Rattle.lines.specs.inside.Reading.{EndedWell, UsedUp, RanWell, RanUpTo};
ghost use Rattle.lines.specs.inside.Sizes.{Sizes, page_of};
ghost use Rattle.lines.specs.inside.Steps.{Enough, Answered};

use std::io::{self, Read};
use std::marker::PhantomData;

// A program over lines. Its state is some bytes.
pub trait LineProgram {
    // What its lines do to the state and print, its numbers, and how long its state may be.
    ghost program: { Program (List ℕ) };

    ghost sizes: { Sizes };

    ghost may_be: { ℕ → Type 0 };

    // One line: from its text, and the state, to the state and the lines printed.
    fn answer_line(state: &mut [u8], text: &[u8], page: &mut [u8], at: usize) -> usize
        requires { may_be (length state.old) × (at + sizes.answer ≤ length page.old) }
        ensures answered { Answered program state.old text.now page.old at state.new page.new result }
        ensures upper_bound { result ≤ at + sizes.share * (length text.now + 1) };

    // What is kept of a line is enough, and a piece is not empty.
    ghost enough: { Enough program sizes.room };

    ghost some_piece: { 0 < sizes.piece };
}

// How much is kept of the line that has begun, and how much is on the page.
#[derive(Clone, Copy)]
pub struct Place {
    pub len: usize,
    pub at: usize,
}

// A program over lines whose input is fed to it in pieces: the two calls that `run_pieces` makes. Each promises what `feed` and `finish` below do.
pub trait PieceProgram: LineProgram {
    // A piece of input. The first len bytes of text are what is kept of the line that has begun; the page starts empty.
    fn feed(state: &mut [u8], text: &mut [u8], len: usize, page: &mut [u8], piece: &[u8]) -> Place
        requires state_fits { Self.may_be (length state.old) }
        requires sized { (length text.old ≡ Self.sizes.room) × (len ≤ Self.sizes.room)
            × (length page.old ≡ page_of Self.sizes) × (length piece.now ≤ Self.sizes.piece) }
        ensures fed { Fed Self.program Self.sizes.room state.old (take len text.old) piece.now state.new (take result.len text.new) (take result.at page.new) }
        ensures within { (result.len ≤ Self.sizes.room) × (result.at ≤ page_of Self.sizes) };

    // The input's end: the line that has begun is answered.
    fn finish(state: &mut [u8], text: &[u8], len: usize, page: &mut [u8]) -> usize
        requires state_fits { Self.may_be (length state.old) }
        requires sized { (length text.now ≡ Self.sizes.room) × (len ≤ Self.sizes.room) × (length page.old ≡ page_of Self.sizes) }
        ensures finished { Finished Self.program state.old (take len text.now) state.new (take result page.new) }
        ensures upper_bound { result ≤ page_of Self.sizes };
}

// A piece of input. The first len bytes of text are what is kept of the line that has begun; the page starts empty.
// Lines have different lengths, so the place goes from line's end to line's end and is no counted index.
pub fn feed<L: LineProgram>(
    state: &mut [u8],
    text: &mut [u8],
    len: usize,
    page: &mut [u8],
    piece: &[u8],
) -> Place
    requires state_fits { L.may_be (length state.old) }
    requires sized { (length text.old ≡ L.sizes.room) × (len ≤ L.sizes.room) × (length page.old ≡ page_of L.sizes) × (length piece.now ≤ L.sizes.piece) }
    ensures fed { Fed L.program L.sizes.room state.old (take len text.old) piece.now state.new (take result.len text.new) (take result.at page.new) }
    ensures within { (result.len ≤ L.sizes.room) × (result.at ≤ page_of L.sizes) }
{
    let mut kept = len;
    let mut at = 0;
    let mut i = 0;
    while i < piece.len() {
        let taken = crate::take_line(text, kept, piece, i);
        let to = taken.len;
        let end = taken.next;
        if end == piece.len() {
            return Place { len: to, at };
        }
        at = L::answer_line(state, &text[0..to], page, at);
        kept = 0;
        i = end + 1;
    }
    Place { len: kept, at }
}

// The input's end: 'A line ends at byte 0a or at the input's end; after a final 0a there is no further line'.
pub fn finish<L: LineProgram>(state: &mut [u8], text: &[u8], len: usize, page: &mut [u8]) -> usize
    requires state_fits { L.may_be (length state.old) }
    requires sized { (length text.now ≡ L.sizes.room) × (len ≤ L.sizes.room) × (length page.old ≡ page_of L.sizes) }
    ensures finished { Finished L.program state.old (take len text.now) state.new (take result page.new) }
    ensures upper_bound { result ≤ page_of L.sizes }
{
    if len == 0 {
        return 0;
    }
    L::answer_line(state, &text[0..len], page, 0)
}

// Reads the input, piece by piece; what a piece prints is written out before more is awaited. Answers how much is kept of a line that has not ended.
// Where a read or a write fails, whole pieces were fed up to there.
// A proved loop has to end, and nothing says that the input does: the loop takes so many turns that no run uses them up; then it is None.
fn read_all<L: PieceProgram>(
    rt: &(impl Input + Print),
    state: &mut [u8],
    text: &mut [u8],
    page: &mut [u8],
    piece: &mut [u8],
) -> io::Result<Option<usize>>
    requires state_fits { L.may_be (length state.old) }
    requires sized { (length text.old ≡ L.sizes.room) × (length page.old ≡ page_of L.sizes) × (length piece.old ≡ L.sizes.piece) }
    ensures ok { IfOk result (λ ended. EndedWell L.program L.sizes.room state.old ended state.new text.new) }
    ensures used_up { IfOk result (λ ended. UsedUp L.program L.sizes.room state.old ended state.new text.new) }
    ensures err { OnErr result ((len : ℕ) × EndedWell L.program L.sizes.room state.old (Some len) state.new text.new) }
{
    let mut input = rt.reader();
    let mut len = 0;
    for _ in 0..u64::MAX {
        let count = input.read(piece)?;
        if count == 0 {
            return Ok(Some(len));
        }
        let place = L::feed(state, text, len, page, &piece[0..count]);
        rt.write_all(&page[0..place.at])?;
        len = place.len;
    }
    Ok(None)
}

// The input is read, and then its last line answered.
// Where a read or a write fails, whole pieces were fed up to there, or the last line was answered too.
pub fn run_pieces<L: PieceProgram>(
    rt: &(impl Input + Print),
    state: &mut [u8],
    text: &mut [u8],
    page: &mut [u8],
    piece: &mut [u8],
) -> io::Result<()>
    requires state_fits { L.may_be (length state.old) }
    requires sized { (length text.old ≡ L.sizes.room) × (length page.old ≡ page_of L.sizes) × (length piece.old ≡ L.sizes.piece) }
    ensures ok { OnOk result (RanWell L.program L.sizes.room state.old state.new text.new page.new) }
    ensures err { OnErr result (RanUpTo L.program L.sizes.room state.old state.new text.new page.new) }
{
    let Some(len) = read_all::<L>(rt, state, text, page, piece)? else {
        return Ok(());
    };
    let at = L::finish(state, text, len, page);
    rt.write_all(&page[0..at])
}

// Any program over lines, with the calls for pieces that are above: `feed` and `finish`.
struct InPieces<L: LineProgram> {
    program: PhantomData<L>,
}

impl<L: LineProgram> LineProgram for InPieces<L> {
    ghost program = { L.program };

    ghost sizes = { L.sizes };

    ghost may_be = { L.may_be };

    ghost enough = { L.enough };

    ghost some_piece = { L.some_piece };

    fn answer_line(state: &mut [u8], text: &[u8], page: &mut [u8], at: usize) -> usize {
        L::answer_line(state, text, page, at)
    }
}

impl<L: LineProgram> PieceProgram for InPieces<L> {
    fn feed(state: &mut [u8], text: &mut [u8], len: usize, page: &mut [u8], piece: &[u8]) -> Place {
        feed::<L>(state, text, len, page, piece)
    }

    fn finish(state: &mut [u8], text: &[u8], len: usize, page: &mut [u8]) -> usize {
        finish::<L>(state, text, len, page)
    }
}

// `run_pieces` for any program over lines. It needs no calls of its own for pieces; where it has some, these are not used.
pub fn run<L: LineProgram>(
    rt: &(impl Input + Print),
    state: &mut [u8],
    text: &mut [u8],
    page: &mut [u8],
    piece: &mut [u8],
) -> io::Result<()>
    requires state_fits { L.may_be (length state.old) }
    requires sized { (length text.old ≡ L.sizes.room) × (length page.old ≡ page_of L.sizes) × (length piece.old ≡ L.sizes.piece) }
    ensures ok { OnOk result (RanWell L.program L.sizes.room state.old state.new text.new page.new) }
    ensures err { OnErr result (RanUpTo L.program L.sizes.room state.old state.new text.new page.new) }
{
    run_pieces::<InPieces<L>>(rt, state, text, page, piece)
}
