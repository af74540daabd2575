/// A word of the vector generator. Distances are signed, and those of `Svec` are even; `to` counts
/// words. The `dx` and the `z` of a `Vctr` are in the word after it.
#[derive(Clone, Copy, PartialEq, Eq)]
pub enum VgWord {
    /// Draws a long vector.
    Vctr { dy: i16 },
    /// Halts.
    Halt,
    /// Draws a short vector.
    Svec { dx: i16, dy: i16, z: u8 },
    /// Sets colour and intensity.
    Stat { colour: u8, intensity: u8 },
    /// Sets the two scales.
    Scal { bin: u8, lin: u8 },
    /// Puts the beam into the centre.
    Cntr,
    /// Jumps to a subroutine.
    Jsrl { to: u16 },
    /// Returns from one.
    Rtsl,
    /// Jumps.
    Jmpl { to: u16 },
}
