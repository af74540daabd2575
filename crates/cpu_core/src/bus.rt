ghost use Rattle.std.specs.Prelude.{◌+◌, ◌≤◌, ℕ};
ghost use Rattle.cpu_core.specs.BusCycles.{Access, read_of, write_of};

/// What a processor reads and writes. Each call is one access and takes one clock.
///
/// A bus owns its parts; whatever else an access needs, as an input tape, is lent to it as the
/// feed. `step` relates the bus before an access to the bus after it and to the byte, `accepts`
/// states which feeds may be lent, and `room` for how many more accesses the bus has room.
pub trait Bus {
    type Feed;

    ghost step: { Self.Feed → Access → Self → Self → Type 0 };

    ghost accepts: { Self.Feed → Self → Type 0 };

    ghost room: { Self → ℕ };

    /// Reads the byte at an address.
    fn read(&mut self, feed: &Self::Feed, addr: u16) -> u8
        requires accepts { accepts feed.now self.old }
        requires room { 1 ≤ room self.old }
        ensures step { step feed.now (read_of addr result) self.old self.new }
        ensures accepts { accepts feed.now self.new }
        ensures room { room self.old ≤ room self.new + 1 };

    /// Writes a byte at an address.
    fn write(&mut self, feed: &Self::Feed, addr: u16, value: u8)
        requires accepts { accepts feed.now self.old }
        requires room { 1 ≤ room self.old }
        ensures step { step feed.now (write_of addr value) self.old self.new }
        ensures accepts { accepts feed.now self.new }
        ensures room { room self.old ≤ room self.new + 1 };
}
