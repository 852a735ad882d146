// The stage of a rehearsal: four vaults, the frames between them and the liar, and which lines are refused on it (document 02, wish 2).
//
// What a line does to the stage and prints is a definition, `rehearsal` (specs/Lines). Crate obey obeys it.
#![tactic(auto)]

ghost use Rattle.std.specs.Prelude.{◌≡◌, length, get_or};
ghost use Rattle.frame.specs.Refusal.{first};
ghost use Rattle.frame.specs.Answers.{number_in};
ghost use Rattle.stage.specs.Stage.{stage_size};
ghost use Rattle.stage.specs.Lines.{vault_in, wrong_length, no_vault, no_frame, second_liar, not_liar, misnamed, line_rows};

use frame::Refusal;

pub mod calls;
pub mod places;

// A line has at most 94 digits, so 47 bytes.
pub const DIGITS: usize = 94;

pub const BYTES: usize = 47;

// The lengths of lines: '00 start (vault, class, plan), 01 deliver (frame number, vault)', and the kind with one number.
pub const START_SIZE: usize = 11;

pub const DELIVER_SIZE: usize = 3;

pub const NAME_SIZE: usize = 2;

// The kinds of lines: the bytes that a line begins with, by which the table of refusals goes (`line_rows`). An enum would need a test of its own for 9.
pub const START: u8 = 0;

pub const DELIVER: u8 = 1;

pub const DROP: u8 = 2;

pub const DECLARE: u8 = 3;

pub const MAKE_UP: u8 = 4;

pub const TIMER: u8 = 5;

// 'numbers 0 to 3'
pub const LAST_VAULT: u8 = 3;

// 'a frame's entry is led by fc and its number, or by fb where 256 wait and it is lost'
pub const WAITS: u8 = 252;

pub const LOST: u8 = 251;

// Who wrote a frame, and its recipient byte.
#[derive(Clone, Copy)]
pub struct Way {
    pub writer: u8,
    pub to: u8,
}

// ---- refusals

// Whether a line of a kind has a wrong length.
pub fn wrong_length(kind: u8, size: usize) -> bool
    ensures { result ≡ wrong_length kind size }
{
    match kind {
        START => size != START_SIZE,
        DELIVER => size != DELIVER_SIZE,
        MAKE_UP => size < NAME_SIZE || BYTES < size,
        _ => size != NAME_SIZE,
    }
}

// Byte i of a line; 0 where it has none.
fn byte_at(bytes: &[u8], i: usize) -> u8
    ensures { result ≡ get_or bytes.now i 0 }
{
    if i < bytes.len() { bytes[i] } else { 0 }
}

// The vault that a line names: behind the frame's number in 01, else behind the kind.
pub fn vault_in(bytes: &[u8]) -> u8
    ensures { result ≡ vault_in bytes.now }
{
    if byte_at(bytes, 0) == DELIVER {
        return byte_at(bytes, 2);
    }
    byte_at(bytes, 1)
}

// 'a vault above 3'; 02 names none.
pub fn no_vault(bytes: &[u8]) -> bool
    ensures { result ≡ no_vault bytes.now }
{
    byte_at(bytes, 0) != DROP && LAST_VAULT < vault_in(bytes)
}

// 'naming a frame not waiting'
fn no_frame(stage: &[u8; places::SIZE], bytes: &[u8]) -> bool
    ensures { result ≡ no_frame stage.now bytes.now }
{
    let kind = byte_at(bytes, 0);
    if kind < DELIVER {
        return false;
    }
    if DROP < kind {
        return false;
    }
    let number = byte_at(bytes, 1);
    places::is_free(stage, number)
}

// 'declaring a second liar'; declaring the liar again is none.
fn second_liar(stage: &[u8; places::SIZE], bytes: &[u8]) -> bool
    ensures { result ≡ second_liar stage.now bytes.now }
{
    if byte_at(bytes, 0) != DECLARE {
        return false;
    }
    if places::no_liar(stage) {
        return false;
    }
    !places::is_liar(stage, vault_in(bytes))
}

// 'making up a frame for a vault not declared'
fn not_liar(stage: &[u8; places::SIZE], bytes: &[u8]) -> bool
    ensures { result ≡ not_liar stage.now bytes.now }
{
    byte_at(bytes, 0) == MAKE_UP && !places::is_liar(stage, vault_in(bytes))
}

// 23, whole: 'a line naming a frame not waiting or a vault above 3, declaring a second liar, or making up a frame for a vault not declared'.
#[tactic(auto, unfolding(crate::specs::Lines::misnamed))]
fn misnamed(stage: &[u8; places::SIZE], bytes: &[u8]) -> bool
    ensures { result ≡ misnamed stage.now bytes.now }
{
    no_vault(bytes) || no_frame(stage, bytes) || second_liar(stage, bytes) || not_liar(stage, bytes)
}

// A line's refusal, before its call. 'then an empty line or unknown kind gives 9 and a wrong length 10'
pub fn refusal(stage: &[u8; places::SIZE], bytes: &[u8]) -> Result<(), Refusal>
    ensures { number_in result ≡ first (line_rows stage.now bytes.now) }
{
    if bytes.len() == 0 {
        return Err(Refusal::Kind);
    }
    if TIMER < bytes[0] {
        return Err(Refusal::Kind);
    }
    let is_wrong = wrong_length(bytes[0], bytes.len());
    let is_misnamed = misnamed(stage, bytes);
    if is_wrong {
        return Err(Refusal::Length);
    }
    if is_misnamed {
        return Err(Refusal::Name);
    }
    Ok(())
}
