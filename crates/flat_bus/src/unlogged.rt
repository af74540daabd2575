ghost use Rattle.flat_bus.specs.Flat.{zeros};
ghost use Rattle.std.specs.Prelude.{◌≡◌, ◌+◌, ◌≤◌, ◌++◌, IfOk, length, take, drop};

use crate::bus::{make_zeros, overwrite};
use board_base::OutOfMemory;
use cpu_core::Bus;
use std::alloc::Global;
use std::marker::Model;

/// A bus over 65,536 bytes that notes no access, to measure a processor on. Its room never falls.
#[derive(Drop)]
pub struct UnloggedBus {
    bytes: Vec<u8>,
}

impl Model for UnloggedBus {
    ghost use Rattle.std.specs.Prelude.{◌≡◌, ◌^◌, List, ℕ, length};

    ghost Value = { List ℕ };

    ghost view = { λ b. b.bytes.items };

    ghost invariant = { λ b. length b.bytes.items ≡ 2 ^ 16 };
}

impl UnloggedBus {
    /// A bus whose bytes are 0.
    pub fn new(alloc: Global) -> Result<UnloggedBus, OutOfMemory>
        ensures { IfOk result (λ b. b ≡ zeros 65536) }
    {
        let bytes = make_zeros(alloc, 65536)?;
        Ok(UnloggedBus { bytes })
    }

    /// Puts bytes at an address without an access.
    pub fn load(&mut self, at: u16, bytes: &[u8])
        requires { at + length bytes.now ≤ 65536 }
        ensures { self.new ≡ take at self.old ++ bytes.now ++ drop (at + length bytes.now) self.old }
    {
        overwrite(&mut self.bytes, usize::from(at), bytes);
    }
}

impl Bus for UnloggedBus {
    ghost use Rattle.std.specs.Prelude.{ℕ};
    ghost use Rattle.flat_bus.specs.Flat.{UnloggedStep};

    type Feed = ();

    ghost step = { λ _ x s t. UnloggedStep x s t };

    ghost accepts = { λ _ _. Unit {0} };

    ghost room = { λ _. 7 };

    #[inline(always)]
    fn read(&mut self, _feed: &(), addr: u16) -> u8 {
        self.bytes[usize::from(addr)]
    }

    #[inline(always)]
    fn write(&mut self, _feed: &(), addr: u16, value: u8) {
        self.bytes[usize::from(addr)] = value;
    }
}
