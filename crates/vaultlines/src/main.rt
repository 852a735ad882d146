// The line program of document 01: a vault driven by lines of hexadecimal digits.
//
// What it prints for a whole input is a definition, `program_prints` (crate answers, specs/Lines). The input is read and fed in pieces,
// and the pages are what `program_prints` says however it is split (`WholeInput`, specs/Steps there).
// There the proof stops, at the input and output calls: no contract can say what the runtime reads and writes.
#![tactic(auto)]

use answers::VaultLines;
use lines::pieces;
use std::io;

// The record is blank at first: all is zero (`blank_record`, crate answers).
fn main(rt: HostRuntime) -> io::Result<()> {
    let mut rec = [0u8; record::SIZE];
    let mut text = [0u8; answers::KEPT];
    let mut page = [0u8; answers::PAGE];
    let mut piece = [0u8; answers::PIECE];
    pieces::run_pieces::<VaultLines>(&rt, &mut rec, &mut text, &mut page, &mut piece)
}
