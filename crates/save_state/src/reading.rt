ghost use Rattle.std.specs.Prelude.{◌≡◌, Ok};
ghost use Rattle.save_state.specs.Reading.{IsWhole, Spells, ReadsState};
ghost use Rattle.board_base.specs.Board.{BoardValue};

use crate::STATE_LEN;
use crate::board::decode;
use crate::check::first_fault;
use crate::fault::StateFault;
use crate::state_laws::lemma_ranges;
use board_base::BoardState;

/// Reads a saved board, of version 1 or 2. Its processor is jammed by an undocumented opcode,
/// stands inside a sequence, or neither. The bytes are refused where they aren't `STATE_LEN`, else
/// where they are of another version, else for the first field that is out of its range.
pub fn read(bytes: &[u8]) -> Result<BoardState, StateFault>
    ensures reads { ReadsState bytes.now result }
    ensures again { (b : BoardValue) → IsWhole b → Spells bytes.now b → result ≡ Ok b }
{
    let Ok(file) = <&[u8; STATE_LEN]>::try_from(bytes) else {
        return Err(StateFault::Length(bytes.len()));
    };
    let version = file[0];
    if version != 1 && version != 2 {
        return Err(StateFault::Version(version));
    }
    match first_fault(version, file) {
        Ok(()) => {
            let state = decode(file);
            lemma_ranges(&state); // each part is in range
            Ok(state)
        }
        Err(at) => Err(StateFault::Field(at)),
    }
}
