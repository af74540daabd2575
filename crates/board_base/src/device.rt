ghost use Rattle.std.specs.Prelude.{◌≡◌, ℕ};
ghost use Rattle.std.specs.Borrow.{sem};
ghost use Rattle.board_base.specs.Lending.{LendsState};

use std::marker::{Model, PhantomData};

/// A device that counts the calls that move or change it.
pub trait Clocked: Drop {
    /// The calls counted so far.
    ghost calls: { Self → ℕ };

    /// The counted calls since the device was made; it stands still at the greatest number of a
    /// u64.
    fn calls(&self) -> u64
        ensures { result ≡ calls self.now };
}

/// A state that a device has at power-on.
pub trait PowerOn: Copy + Drop {
    /// The state at power-on.
    ghost at_power_on: { Self };

    /// The state at power-on.
    fn power_on() -> Self
        ensures { result ≡ at_power_on };
}

/// A device: its state, and the calls that moved or changed it, a count that stands still at the
/// greatest number of a u64. `M` says how the device moves, where there are several ways.
#[derive(Drop)]
pub struct Device<S, M = ()> {
    state: S,
    calls: u64,
    moves: PhantomData<M>,
}

impl<S, M> Model for Device<S, M> {
    ghost use Rattle.board_base.specs.Devices.{DeviceValue};

    ghost Value = { DeviceValue S };

    ghost view = { λ d. record { device = d.state; calls = d.calls } };
}

impl<S: PowerOn, M> Device<S, M> {
    /// A device at power-on.
    pub fn new() -> Device<S, M>
        ensures device { result.device ≡ S.at_power_on }
        ensures calls { result.calls ≡ 0 }
    {
        Device {
            state: S::power_on(),
            calls: 0,
            moves: PhantomData,
        }
    }

    /// The state as it stands.
    pub fn get(&self) -> &S
        ensures { result.now ≡ self.now.device }
    {
        &self.state
    }

    /// Counts a call, and gives the state to change.
    pub fn change(&mut self) -> &mut S
        ensures* lends { sem 𝓛 (LendsState S.row M.row self.entry result) }
        ensures state { result.now ≡ self.old.device }
    {
        self.calls = self.calls.saturating_add(1);
        &mut self.state
    }
}

impl<S: PowerOn, M> Clocked for Device<S, M> {
    ghost calls = { λ d. d.calls };

    fn calls(&self) -> u64 {
        self.calls
    }
}
