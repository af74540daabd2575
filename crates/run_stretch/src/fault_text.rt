//! What is said of bytes that are refused, as `gravitar` says it after a file's name.
ghost use Rattle.std.specs.Prelude.{Some};
ghost use Rattle.run_stretch.specs.Texts.{assembly_fault_text, stretch_fault_text};

use crate::assembling::AssemblyFault;
use crate::fault::StretchFault;
use std::fmt;

impl fmt::Display for StretchFault {
    ghost output = { λ fault. Some (stretch_fault_text fault) };

    fn fmt<W: fmt::Write>(&self, f: &mut fmt::Formatter<W>) -> fmt::Result {
        match self {
            StretchFault::Image(fault) => write!(f, "{fault}"),
            StretchFault::Board(fault) => write!(f, "{fault}"),
            StretchFault::Tape(fault) => write!(f, "{fault}"),
            StretchFault::NoMemory => f.write_str("no memory"),
        }
    }
}

impl fmt::Display for AssemblyFault {
    ghost output = { λ fault. Some (assembly_fault_text fault) };

    fn fmt<W: fmt::Write>(&self, f: &mut fmt::Formatter<W>) -> fmt::Result {
        match self {
            AssemblyFault::Processor(fault) => write!(f, "{fault}"),
            AssemblyFault::Generator(fault) => write!(f, "{fault}"),
            AssemblyFault::NoMemory => f.write_str("no memory"),
        }
    }
}
