ghost use Rattle.std.specs.Prelude.{◌≡◌, ◌≤◌, length};
ghost use Rattle.board_debug.specs.BoardText.{beam_text, divider_text, earom_text, pokey_text, ports_text, vg_text};
ghost use Rattle.pokey_chip.specs.Registers.{register_read};

use board_base::{BoardState, DividerState, EaromState, PokeyState, VgState};
use pokey_chip::{PlainPokey, RANDOM, SoundUnit};
use text_line::Line;

/// The line of the output latch and the ports.
#[tactic(auto, using(std::proofs::Common::append_assoc), unfolding(crate::specs::BoardText::ports_text))]
pub(crate) fn ports_line(state: &BoardState) -> Line
    ensures { result ≡ ports_text state.now }
{
    Line::of("board")
        .word("out")
        .hex_byte(state.out)
        .word("in0")
        .hex_byte(state.in0)
        .word("in3")
        .hex_byte(state.in3)
        .word("in4")
        .hex_byte(state.in4)
        .end()
}

/// The line of the interrupt divider and the watchdog.
#[tactic(auto, using(std::proofs::Common::append_assoc), unfolding(crate::specs::BoardText::divider_text))]
pub(crate) fn divider_line(divider: &DividerState) -> Line
    ensures { result ≡ divider_text divider.now }
{
    Line::of("div")
        .word("phase")
        .number(divider.phase.into())
        .word("irq")
        .small(divider.irq.into())
        .word("dog")
        .small(divider.dog)
        .word("reset")
        .small(divider.pending.number())
        .end()
}

/// The line of the vector generator.
#[tactic(auto, using(std::proofs::Common::append_assoc), unfolding(crate::specs::BoardText::vg_text))]
pub(crate) fn vg_line(vg: &VgState) -> Line
    ensures { result ≡ vg_text vg.now }
{
    Line::of("vg")
        .word("halted")
        .small(vg.halted.into())
        .word("phase")
        .small(vg.phase)
        .word("pc")
        .hex_word(vg.pc)
        .word("sp")
        .small(vg.sp)
        .word("colour")
        .small(vg.colour)
        .word("intensity")
        .small(vg.intensity)
        .word("lin")
        .small(vg.lin)
        .word("bin")
        .small(vg.bin)
        .end()
}

/// The line of the beam.
#[tactic(auto, using(std::proofs::Common::append_assoc), unfolding(crate::specs::BoardText::beam_text))]
pub(crate) fn beam_line(vg: &VgState) -> Line
    ensures { result ≡ beam_text vg.now }
{
    Line::of("beam").signed(vg.x).signed(vg.y).end()
}

/// The byte that RANDOM of a POKEY reads.
fn random(state: &PokeyState) -> u8
    ensures { result ≡ register_read RANDOM state.now }
{
    let mut pokey = PlainPokey::new();
    pokey.load(state);
    pokey.read(RANDOM)
}

/// The line of a POKEY.
#[tactic(auto, using(std::proofs::Common::append_assoc), unfolding(crate::specs::BoardText::pokey_text))]
pub(crate) fn pokey_line(name: &str, pokey: &PokeyState) -> Line
    requires { length name.now ≤ 3 }
    ensures { result ≡ pokey_text name.now pokey.now }
{
    Line::of(name)
        .word("audf")
        .hex_byte(pokey.audf[0])
        .hex_byte(pokey.audf[1])
        .hex_byte(pokey.audf[2])
        .hex_byte(pokey.audf[3])
        .word("audc")
        .hex_byte(pokey.audc[0])
        .hex_byte(pokey.audc[1])
        .hex_byte(pokey.audc[2])
        .hex_byte(pokey.audc[3])
        .word("audctl")
        .hex_byte(pokey.audctl)
        .word("skctl")
        .hex_byte(pokey.skctl)
        .word("irqen")
        .small(pokey.irqen)
        .word("irqst")
        .small(pokey.irqst)
        .word("random")
        .hex_byte(random(pokey))
        .end()
}

/// The line of the EAROM.
#[tactic(auto, using(std::proofs::Common::append_assoc), unfolding(crate::specs::BoardText::earom_text))]
pub(crate) fn earom_line(earom: &EaromState) -> Line
    ensures { result ≡ earom_text earom.now }
{
    Line::of("earom")
        .word("addr")
        .hex_byte(earom.addr)
        .word("control")
        .hex_byte(earom.control)
        .word("hold")
        .number(earom.hold.into())
        .word("out")
        .hex_byte(earom.out)
        .end()
}
