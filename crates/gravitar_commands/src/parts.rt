use board_base::BoardState;
use rom_image::Image;
use tape_ports::Tape;

/// What a run is made of: its image, its tape and the board that it begins with.
#[derive(Drop)]
pub struct Parts {
    pub image: Image,
    pub tape: Tape,
    pub board: BoardState,
}
