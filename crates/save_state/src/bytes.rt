//! The fields of a saved board, and the bytes that are read from a file and written into one.
ghost use Rattle.std.specs.Prelude.{◌≡◌, ◌≤◌, ◌+◌, ◌++◌, [], ◌∷◌, length, take, drop, slice_index};
ghost use Rattle.std.specs.Int.{w16, w32, w64, from_le_bytes, cast_signed};
ghost use Rattle.save_state.specs.Fields.{u16_bytes, u32_bytes, u64_bytes, i32_bytes};

use crate::STATE_LEN;

/// The bytes of a field, and the numbers that it takes. Numbers stand low byte first. The last five
/// go by other bytes of the file.
#[derive(Clone, Copy)]
pub enum Kind {
    /// So many bytes, whatever they are.
    Any(usize),
    /// A byte that is at most so much.
    Byte(u8),
    /// A number of 16 bits that is at most so much.
    Word(u16),
    /// A number of 32 bits that is at most so much.
    Long(u32),
    /// A number of 32 bits from 1 to so much.
    Count(u32),
    /// A signed number of 32 bits that is no further than so much from 0.
    Signed(u32),
    /// The letters G, V and S.
    Letters,
    /// The processor's flags, with bits 4 and 5 clear.
    Flags,
    /// The clocks done.
    Clock,
    /// The opcode that jams: an undocumented one, or 0 where the processor isn't jammed.
    JamOpcode,
    /// The number of a sequence, which is 0 where the processor is jammed.
    SequenceNumber,
    /// The clocks done of a sequence: 1 to 6, or 0 inside none.
    ClocksDone,
    /// The clocks left of a vector, 0 where none is drawn.
    ClocksLeft,
}

/// A field of a table: its offset and its kind.
#[derive(Clone, Copy)]
pub struct Field(pub usize, pub Kind);

/// The bytes from an offset on.
pub fn array_at<const N: usize>(file: &[u8; STATE_LEN], at: usize) -> [u8; N]
    requires { at + N ≤ STATE_LEN }
    ensures { result ≡ take N (drop at file.now) }
{
    let mut array = [0; N];
    array.copy_from_slice(&file[at..at + N]);
    array
}

/// The byte at an offset.
pub fn byte_at(file: &[u8; STATE_LEN], at: usize) -> u8
    requires { at + 1 ≤ STATE_LEN }
    ensures number { result ≡ slice_index (take 1 (drop at file.now)) 0 }
    ensures bytes { result ∷ [] ≡ take 1 (drop at file.now) }
{
    file[at]
}

/// The number of 16 bits at an offset.
pub fn u16_at(file: &[u8; STATE_LEN], at: usize) -> u16
    requires { at + 2 ≤ STATE_LEN }
    ensures number { result ≡ from_le_bytes w16 (take 2 (drop at file.now)) }
    ensures bytes { u16_bytes result ≡ take 2 (drop at file.now) }
{
    u16::from_le_bytes(array_at(file, at))
}

/// The number of 32 bits at an offset.
pub fn u32_at(file: &[u8; STATE_LEN], at: usize) -> u32
    requires { at + 4 ≤ STATE_LEN }
    ensures number { result ≡ from_le_bytes w32 (take 4 (drop at file.now)) }
    ensures bytes { u32_bytes result ≡ take 4 (drop at file.now) }
{
    u32::from_le_bytes(array_at(file, at))
}

/// The number of 64 bits at an offset.
pub fn u64_at(file: &[u8; STATE_LEN], at: usize) -> u64
    requires { at + 8 ≤ STATE_LEN }
    ensures number { result ≡ from_le_bytes w64 (take 8 (drop at file.now)) }
    ensures bytes { u64_bytes result ≡ take 8 (drop at file.now) }
{
    u64::from_le_bytes(array_at(file, at))
}

/// The signed number of 32 bits at an offset.
pub fn i32_at(file: &[u8; STATE_LEN], at: usize) -> i32
    requires { at + 4 ≤ STATE_LEN }
    ensures number { result ≡ cast_signed w32 (from_le_bytes w32 (take 4 (drop at file.now))) }
    ensures bytes { i32_bytes result ≡ take 4 (drop at file.now) }
{
    i32::from_le_bytes(array_at(file, at))
}

/// Writes bytes from the offset `at` on, and returns the offset after them.
pub fn put(out: &mut [u8; STATE_LEN], at: usize, bytes: &[u8]) -> usize
    requires { at + length bytes.now ≤ STATE_LEN }
    ensures bytes { take result out.new ≡ take at out.old ++ bytes.now }
    ensures at { result ≡ at + length bytes.now }
{
    let end = at + bytes.len();
    out[at..end].copy_from_slice(bytes);
    end
}
