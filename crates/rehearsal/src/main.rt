// The rehearsal of document 02, wish 2: four vaults and the frames between them, driven by a script of lines.
//
// What it prints for a whole input is a definition, `rehearsal_prints` (crate stage, specs/Lines). The input is read and fed in pieces, and the
// pages are what `rehearsal_prints` says however it is split (`WholeInput`, crate obey, specs/Steps).
// There the proof stops, at the input and output calls: no contract can say what the runtime reads and writes.
#![tactic(auto)]

use lines::pieces;
use obey::Rehearsal;
use std::io;

// The stage is empty at first: all is zero (`empty_stage`, crate stage).
fn main(rt: HostRuntime) -> io::Result<()> {
    let mut stage = [0u8; stage::places::SIZE];
    let mut text = [0u8; obey::KEPT];
    let mut page = [0u8; obey::PAGE];
    let mut piece = [0u8; obey::PIECE];
    pieces::run_pieces::<Rehearsal>(&rt, &mut stage, &mut text, &mut page, &mut piece)
}
