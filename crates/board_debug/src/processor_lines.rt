ghost use Rattle.std.specs.Prelude.{◌≡◌, ◌≤◌, length};
ghost use Rattle.board_debug.specs.BoardText.{clock_text, cpu_text, jam_text, mid_text, sequence_name};

use board_base::{BoardState, CpuState, Mid, Sequence};
use text_line::Line;

/// The line of the clock.
pub(crate) fn clock_line(state: &BoardState) -> Line
    ensures { result ≡ clock_text state.now }
{
    Line::of("clock").number(state.clock).end()
}

/// The line of the registers.
#[tactic(auto, using(std::proofs::Common::append_assoc), unfolding(crate::specs::BoardText::cpu_text))]
pub(crate) fn cpu_line(cpu: &CpuState) -> Line
    ensures { result ≡ cpu_text cpu.now }
{
    Line::of("cpu")
        .word("pc")
        .hex_word(cpu.pc)
        .word("a")
        .hex_byte(cpu.a)
        .word("x")
        .hex_byte(cpu.x)
        .word("y")
        .hex_byte(cpu.y)
        .word("s")
        .hex_byte(cpu.s)
        .word("p")
        .hex_byte(cpu.p)
        .end()
}

/// The line of the jam.
#[tactic(auto, using(std::proofs::Common::append_assoc), unfolding(crate::specs::BoardText::jam_text))]
pub(crate) fn jam_line(cpu: &CpuState) -> Line
    ensures { result ≡ jam_text cpu.now }
{
    let line = Line::of("jam");
    match cpu.jam {
        None => line.word("-").end(),
        Some(opcode) => line.hex_byte(opcode).end(),
    }
}

/// The name of a sequence.
fn name_of(sequence: Sequence) -> &'static str
    ensures name { result.now ≡ sequence_name sequence }
    ensures len { length result.now ≤ 9 }
{
    match sequence {
        Sequence::Opcode => "opcode",
        Sequence::Interrupt => "interrupt",
        Sequence::Reset => "reset",
    }
}

/// The line of a place inside a sequence.
#[tactic(auto, unfolding(crate::specs::BoardText::mid_text))]
pub(crate) fn mid_line(mid: &Mid) -> Line
    ensures { result ≡ mid_text mid.now }
{
    let mut line = Line::of("mid").word(name_of(mid.sequence));
    for byte in &mid.bytes[..usize::from(mid.count)] {
        line = line.hex_byte(*byte);
    }
    line.end()
}
