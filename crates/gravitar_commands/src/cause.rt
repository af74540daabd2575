use asm_text::AsmFault;
use debug_script::ScriptFault;
use rom_image::ImageFault;
use save_state::StateFault;
use tape_ports::TapeFault;

/// Why a file is refused: it isn't there, or its reader refuses its bytes. The cells of an EAROM
/// have one length alone.
#[derive(Clone, Copy, Debug)]
pub enum Cause {
    /// It isn't there.
    Absent,
    /// It is no image.
    Image(ImageFault),
    /// It is no tape.
    Tape(TapeFault),
    /// It is no saved board.
    State(StateFault),
    /// It has another number of bytes than an EAROM has cells.
    Cells(usize),
    /// It is no source.
    Source(AsmFault),
    /// It is no script.
    Script(ScriptFault),
}
