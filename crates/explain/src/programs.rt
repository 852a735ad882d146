// The programs whose lines are explained. A line that is just a program's name says that the lines below it are of that program.
use std::{fmt, io};

// At first lines are of vaultlines.
#[derive(Clone, Copy, PartialEq, Eq)]
pub(crate) enum Program {
    Vaultlines,
    Rehearsal,
}

impl fmt::Display for Program {
    fn fmt<W: fmt::Write>(&self, f: &mut fmt::Formatter<W>) -> fmt::Result {
        match self {
            Program::Vaultlines => write!(f, "vaultlines"),
            Program::Rehearsal => write!(f, "rehearsal"),
        }
    }
}

pub(crate) fn say_turn(rt: &impl Print, program: Program) -> io::Result<()> {
    println!(rt; "    from here on: lines of {program}")
}
