use crate::cause::Cause;
use std::fmt;

impl fmt::Display for Cause {
    ghost use Rattle.std.specs.Prelude.{Some};
    ghost use Rattle.gravitar_commands.specs.Causes.{cause_text};

    ghost output = { λ cause. Some (cause_text cause) };

    fn fmt<W: fmt::Write>(&self, f: &mut fmt::Formatter<W>) -> fmt::Result {
        match self {
            Cause::Absent => f.write_str("absent"),
            Cause::Image(fault) => write!(f, "{fault}"),
            Cause::Tape(fault) => write!(f, "{fault}"),
            Cause::State(fault) => write!(f, "{fault}"),
            Cause::Cells(n) => write!(f, "length {n}"),
            Cause::Source(fault) => write!(f, "{fault}"),
            Cause::Script(fault) => write!(f, "{fault}"),
        }
    }
}
