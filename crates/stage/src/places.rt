// The stage's bytes, read and changed where they lie: 256 places for frames on their way, a byte for the liar, four records.
ghost use Rattle.std.specs.Prelude.{◌≡◌, ◌+◌, ◌≤◌, eqb, length, take};
ghost use Rattle.wire.specs.Fields.{Bytes};
ghost use Rattle.record.specs.Size.{record_size};
ghost use Rattle.stage.specs.Stage.{stage_size, place_size, place_of, liar_place, record_place, liar_in, is_liar, with_liar};
ghost use Rattle.stage.specs.Stage.{is_free, first_free, with_waiting, with_free};
ghost use Rattle.stage.specs.Lines.{waiting_now};
ghost use Rattle.stage.specs.inside.Parts.{frame_most, free_number, held_length, on_way};

use crate::Way;

// 'up to 256 frames on their way'
pub const PLACES: usize = 256;

// A place: one more than the frame's length (0 where none waits), the writer, the recipient byte, and up to 45 bytes.
const PLACE: usize = 48;

// The bytes before the frame's.
const HEAD: usize = 3;

// 'then 0 to 45 bytes'
pub const MOST: usize = 45;

// Where the liar stands, and behind it the records.
const LIAR: usize = 12288;

const RECORDS: usize = 12289;

// The bytes of a stage.
pub const SIZE: usize = 59101;

// ---- the records and the liar

// Where the record of a vault begins.
pub fn record_place(v: u8) -> usize
    requires { v ≤ 3 }
    ensures { (result ≡ record_place v) × (result + record_size ≤ stage_size) }
{
    RECORDS + record::SIZE * usize::from(v)
}

// Whether nobody is declared.
pub fn no_liar(stage: &[u8; SIZE]) -> bool
    ensures { result ≡ eqb (liar_in stage.now) 0 }
{
    stage[LIAR] == 0
}

// Whether a vault is declared.
pub fn is_liar(stage: &[u8; SIZE], v: u8) -> bool
    ensures { result ≡ is_liar stage.now v }
{
    usize::from(stage[LIAR]) == usize::from(v) + 1
}

// '03 declare a vault lying'
pub fn declare(stage: &mut [u8; SIZE], v: u8)
    requires { v ≤ 3 }
    ensures with_liar { stage.new ≡ with_liar stage.old v }
    ensures bytes { Bytes stage.new }
{
    stage[LIAR] = v + 1;
}

// ---- the places

// Where the place of a number begins.
fn place_of(k: u8) -> usize
    ensures { (result ≡ place_of k) × (result + place_size ≤ liar_place) }
{
    PLACE * usize::from(k)
}

// Whether no frame waits at a number.
pub fn is_free(stage: &[u8; SIZE], k: u8) -> bool
    ensures { result ≡ is_free stage.now k }
{
    stage[place_of(k)] == 0
}

// 'a new frame gets the smallest free one'; None where 256 wait.
pub fn first_free(stage: &[u8; SIZE]) -> Option<u8>
    ensures { free_number result ≡ first_free stage.now }
{
    for k in 0..=u8::MAX {
        if is_free(stage, k) {
            return Some(k);
        }
    }
    None
}

// A frame waits at a number.
pub fn put_waiting(stage: &mut [u8; SIZE], k: u8, way: Way, frame: &[u8])
    requires { length frame.now ≤ frame_most }
    ensures with_waiting { stage.new ≡ with_waiting stage.old k (on_way way frame.now) }
    ensures bytes { Bytes stage.new }
{
    let at = place_of(k);
    stage[at] = (frame.len() + 1) as u8;
    stage[at + 1] = way.writer;
    stage[at + 2] = way.to;
    let from = at + HEAD;
    stage[from..from + frame.len()].copy_from_slice(frame);
}

// 'a dropped one frees its number'
pub fn free(stage: &mut [u8; SIZE], k: u8)
    ensures with_free { stage.new ≡ with_free stage.old k }
    ensures bytes { Bytes stage.new }
{
    stage[place_of(k)] = 0;
}

// How long the frame of a place is, by the place's first byte.
fn held_length(mark: u8) -> usize
    ensures { (result ≡ held_length mark) × (result ≤ frame_most) }
{
    usize::from(mark).saturating_sub(1).min(MOST)
}

// The writer of the frame that waits at a number.
pub fn writer_of(stage: &[u8; SIZE], k: u8) -> u8
    ensures { result ≡ (waiting_now stage.now k).writer }
{
    stage[place_of(k) + 1]
}

// A copy of the frame that waits at a number: a record of the stage is lent while it is heard.
pub fn copy_frame(stage: &[u8; SIZE], k: u8, bytes: &mut [u8]) -> usize
    requires { length bytes.old ≡ frame_most }
    ensures { (take result bytes.new ≡ (waiting_now stage.now k).bytes) × (result ≤ frame_most) }
{
    let at = place_of(k);
    let len = held_length(stage[at]);
    let from = at + HEAD;
    bytes[..len].copy_from_slice(&stage[from..from + len]);
    len
}
