//! A record as 40 bytes.
ghost use Rattle.std.specs.Prelude.{◌≡◌, ◌+◌, ◌≤◌, [], ◌++◌, length};
ghost use Rattle.log_text.specs.RecordBytes.{clock_bytes, levels_kind, record_bytes, record_row, word_bytes};

use arrayvec::ArrayVec;
use board_base::{Part, Record};
use std::marker::Model;

/// The bytes of a record.
pub const RECORD_LEN: usize = 40;

/// A record has 40 bytes. It states a law, and does nothing.
pub fn record_size()
    ensures { RECORD_LEN ≡ 40 }
{}

/// The bytes of a record while they are put together. It takes no memory.
#[derive(Drop)]
pub(crate) struct RecordRow {
    bytes: ArrayVec<u8, RECORD_LEN>,
}

impl Model for RecordRow {
    ghost use Rattle.std.specs.Prelude.{ℕ, ◌≤◌, List, length};
    ghost use Rattle.log_text.specs.declared.record_bytes.TheConstants.{RECORD_LEN};

    ghost Value = { List ℕ };

    ghost view = { λ b. b.bytes.items };

    ghost invariant = { λ b. length b.bytes.items ≤ RECORD_LEN };
}

/// The kind of a record of levels.
fn kind_of_levels(part: Part) -> u32
    ensures { result ≡ levels_kind part }
{
    match part {
        Part::Pokey2 => 2,
        _ => 1,
    }
}

impl RecordRow {
    /// A row in which nothing stands.
    pub(crate) fn empty() -> RecordRow
        ensures { result ≡ [] }
    {
        RecordRow {
            bytes: ArrayVec::new(),
        }
    }

    /// The bytes put together so far.
    pub(crate) fn bytes(&self) -> &[u8]
        ensures { result.now ≡ self.now }
    {
        self.bytes.as_slice()
    }

    /// Puts bytes behind those that stand here.
    fn put(&mut self, bytes: &[u8])
        requires { length self.old + length bytes.now ≤ RECORD_LEN }
        ensures { self.new ≡ self.old ++ bytes.now }
    {
        // There is room for it, so it is put.
        let _put = self.bytes.try_extend_from_slice(bytes).is_ok();
    }

    /// Puts a number.
    #[tactic(auto, unfolding(crate::specs::RecordBytes::word_bytes))]
    fn put_number(&mut self, value: u32)
        requires { length self.old + 4 ≤ RECORD_LEN }
        ensures bytes { self.new ≡ self.old ++ word_bytes value }
        ensures len { length self.new ≡ length self.old + 4 }
    {
        self.put(&value.to_le_bytes());
    }

    /// Puts two numbers.
    fn put_pair(&mut self, first: u32, second: u32)
        requires { length self.old + 8 ≤ RECORD_LEN }
        ensures bytes { self.new ≡ (self.old ++ word_bytes first) ++ word_bytes second }
        ensures len { length self.new ≡ length self.old + 8 }
    {
        self.put_number(first);
        self.put_number(second);
    }

    /// Begins anew, with a clock and a kind.
    #[tactic(auto, unfolding(crate::specs::RecordBytes::clock_bytes, crate::specs::RecordBytes::word_bytes))]
    fn begin(&mut self, clock: u64, kind: u32)
        ensures bytes { self.new ≡ clock_bytes clock ++ word_bytes kind }
        ensures len { length self.new ≡ 12 }
    {
        self.bytes.clear();
        self.put(&clock.to_le_bytes());
        self.put(&kind.to_le_bytes());
    }

    /// Puts a clock, a kind, six numbers and four bytes of 0 in place of what stands.
    fn set(&mut self, clock: u64, kind: u32, a: u32, b: u32, c: u32, d: u32, e: u32, f: u32)
        ensures bytes { self.new ≡ record_row clock kind a b c d e f }
        ensures len { length self.new ≡ RECORD_LEN }
    {
        self.begin(clock, kind);
        self.put_pair(a, b);
        self.put_pair(c, d);
        self.put_pair(e, f);
        self.put_number(0);
    }

    /// Puts a record that the part made in place of what stands.
    #[tactic(auto, unfolding(crate::specs::RecordBytes::record_bytes))]
    pub(crate) fn set_record(&mut self, part: Part, record: Record)
        ensures bytes { self.new ≡ record_bytes part «record» }
        ensures len { length self.new ≡ RECORD_LEN }
    {
        match record {
            Record::Stroke {
                clock,
                x0,
                y0,
                x1,
                y1,
                colour,
                intensity,
            } => {
                self.set(
                    clock,
                    0,
                    x0.cast_unsigned(),
                    y0.cast_unsigned(),
                    x1.cast_unsigned(),
                    y1.cast_unsigned(),
                    u32::from(colour),
                    u32::from(intensity),
                );
            }
            Record::Levels {
                clock,
                l1,
                l2,
                l3,
                l4,
            } => {
                let kind = kind_of_levels(part);
                let (l1, l2, l3, l4) = (u32::from(l1), u32::from(l2), u32::from(l3), u32::from(l4));
                self.set(clock, kind, l1, l2, l3, l4, 0, 0);
            }
            Record::Latch { clock, value } => {
                self.set(clock, 3, u32::from(value), 0, 0, 0, 0, 0);
            }
            Record::WatchdogReset { clock } => self.set(clock, 4, 0, 0, 0, 0, 0, 0),
        }
    }
}
