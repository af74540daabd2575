ghost use Rattle.std.specs.Prelude.{◌≡◌, ◌≤◌, ℕ, List, All, length, true};
ghost use Rattle.board_base.specs.declared.cpu.Sequence.{Sequence};
ghost use Rattle.board_base.specs.Cpu.{CpuValue};
ghost use Rattle.cpu_alu.specs.Flags.{is_masked};
ghost use Rattle.cpu_core.specs.Places.{standing};
ghost use Rattle.cpu_core.specs.Ranges.{AreRegistersInRange, IsByte, IsProcessorInRange, WritesByte};
ghost use Rattle.cpu_core.specs.Registers.{RegistersValue};
ghost use Rattle.cpu_core.specs.Sequences.{next_of, start_of};

/// A sequence keeps the processor in its range, whatever bytes it reads: its registers at the
/// start, the bytes that it writes, and the processor after each of its accesses. It states a law,
/// and does nothing.
#[tactic(auto, using(crate::proofs::ProcessorRange::ranges))]
pub fn sequences_keep_range()
    ensures start { (q : Sequence) → (c : CpuValue) → IsProcessorInRange c → AreRegistersInRange (start_of q c) }
    ensures written { (r : RegistersValue) → (q : Sequence) → (bytes : List ℕ) → AreRegistersInRange r → All IsByte bytes → WritesByte (next_of r q bytes) }
    ensures after { (r : RegistersValue) → (q : Sequence) → (bytes : List ℕ) → AreRegistersInRange r → All IsByte bytes → 1 ≤ length bytes
        → (q ≡ Sequence.Reset → is_masked r.p ≡ true) → IsProcessorInRange (standing r q bytes) }
{}
