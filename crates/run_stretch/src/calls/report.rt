//! What a call answers: a status, and numbers.
ghost use Rattle.std.specs.Prelude.{◌≡◌};
ghost use Rattle.run_stretch.specs.Places.{place_of_assembly, place_of_source, place_of_stretch};
ghost use Rattle.run_stretch.specs.Statuses.{number_of, status_of_assembly, status_of_stretch};

use crate::assembling::AssemblyFault;
use crate::fault::StretchFault;
use asm_text::AsmFault;
use rom_image::ImageFault;
use save_state::StateFault;
use tape_ports::TapeFault;

/// How a call ended.
#[derive(Clone, Copy, Debug, PartialEq, Eq)]
pub enum Status {
    /// It did what it is for.
    Done,
    /// So too, and an undocumented opcode has stopped the processor.
    Jammed,
    /// The image's bytes are no image.
    BadImage,
    /// The board's bytes are a saved board but for a field that is out of its range.
    BadBoard,
    /// The tape's bytes are no tape.
    BadTape,
    /// A number is out of its range.
    BadNumber,
    /// A buffer is too short.
    NoRoom,
    /// There was no memory.
    NoMemory,
    /// The processor's source is refused.
    BadProcessorSource,
    /// The generator's source is refused.
    BadGeneratorSource,
    /// The board's bytes are too many or too few for a saved board.
    BadBoardLength,
    /// The board's bytes are of no version that is read.
    BadBoardVersion,
    /// The bytes of a request aren't well formed.
    BadRequest,
}

impl Status {
    /// The number that the header gives it.
    pub fn number(self) -> u32
        ensures { result ≡ number_of self }
    {
        match self {
            Status::Done => 0,
            Status::Jammed => 1,
            Status::BadImage => 2,
            Status::BadBoard => 3,
            Status::BadTape => 4,
            Status::BadNumber => 5,
            Status::NoRoom => 6,
            Status::NoMemory => 7,
            Status::BadProcessorSource => 8,
            Status::BadGeneratorSource => 9,
            Status::BadBoardLength => 10,
            Status::BadBoardVersion => 11,
            Status::BadRequest => 12,
        }
    }
}

/// Numbers of an answer. A call sets all of them.
#[repr(C)]
#[derive(Clone, Copy, Debug, PartialEq, Eq)]
pub struct GravitarReport {
    /// The clock of the board at the end, or 0 where the call was refused.
    pub clock: u64,
    /// How many bytes of the buffer were wanted, and where there was room used.
    pub used: u64,
    /// Where something is wrong: a line, an offset, a length or a number, by the status.
    pub place: u64,
}

/// The status of a refusal.
pub fn status_of(fault: &StretchFault) -> Status
    ensures { result ≡ status_of_stretch fault.now }
{
    match fault {
        StretchFault::Image(_) => Status::BadImage,
        StretchFault::Board(StateFault::Length(_)) => Status::BadBoardLength,
        StretchFault::Board(StateFault::Version(_)) => Status::BadBoardVersion,
        StretchFault::Board(StateFault::Field(_)) => Status::BadBoard,
        StretchFault::Tape(_) => Status::BadTape,
        StretchFault::NoMemory => Status::NoMemory,
    }
}

/// Where bytes are wrong: the length of an image, the length, version or offset of a saved board,
/// the line of a tape, or 0.
pub fn place_of(fault: &StretchFault) -> u64
    ensures { result ≡ place_of_stretch fault.now }
{
    match fault {
        StretchFault::Image(ImageFault::Length(n)) => *n as u64,
        StretchFault::Board(StateFault::Length(n)) => *n as u64,
        StretchFault::Board(StateFault::Version(version)) => u64::from(*version),
        StretchFault::Board(StateFault::Field(at)) => *at as u64,
        StretchFault::Tape(TapeFault::BadLine { line, cause: _ }) => *line,
        _ => 0,
    }
}

/// The line of a source, or 0.
fn line_of(fault: &AsmFault) -> u64
    ensures { result ≡ place_of_source fault.now }
{
    match fault {
        AsmFault::Line { line, cause: _ } => u64::from(*line),
        _ => 0,
    }
}

/// The status of two sources' refusal.
pub fn status_of_sources(fault: &AssemblyFault) -> Status
    ensures { result ≡ status_of_assembly fault.now }
{
    match fault {
        AssemblyFault::Processor(_) => Status::BadProcessorSource,
        AssemblyFault::Generator(_) => Status::BadGeneratorSource,
        AssemblyFault::NoMemory => Status::NoMemory,
    }
}

/// The line in which a source is wrong, or 0.
pub fn place_of_sources(fault: &AssemblyFault) -> u64
    ensures { result ≡ place_of_assembly fault.now }
{
    match fault {
        AssemblyFault::Processor(fault) => line_of(fault),
        AssemblyFault::Generator(fault) => line_of(fault),
        AssemblyFault::NoMemory => 0,
    }
}
