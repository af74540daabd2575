use asm_core::Place;

/// The distance in x of a long vector, in its second word.
pub(crate) const LONG_X: Place = Place {
    low: -4096,
    high: 4095,
    even: false,
    bits: 13,
    shift: 16,
};

/// The distance in y of a long vector.
pub(crate) const LONG_Y: Place = Place {
    low: -4096,
    high: 4095,
    even: false,
    bits: 13,
    shift: 0,
};

/// How bright a long vector is, above its distance in x.
pub(crate) const LONG_Z: Place = Place {
    low: 0,
    high: 7,
    even: false,
    bits: 3,
    shift: 29,
};

/// The distance in x of a short vector.
pub(crate) const SHORT_X: Place = Place {
    low: -32,
    high: 30,
    even: true,
    bits: 5,
    shift: 0,
};

/// The distance in y of a short vector.
pub(crate) const SHORT_Y: Place = Place {
    low: -32,
    high: 30,
    even: true,
    bits: 5,
    shift: 8,
};

/// How bright a short vector is.
pub(crate) const SHORT_Z: Place = Place {
    low: 0,
    high: 7,
    even: false,
    bits: 3,
    shift: 5,
};

/// A colour.
pub(crate) const COLOUR: Place = Place {
    low: 0,
    high: 7,
    even: false,
    bits: 3,
    shift: 0,
};

/// An intensity.
pub(crate) const INTENSITY: Place = Place {
    low: 0,
    high: 15,
    even: false,
    bits: 4,
    shift: 4,
};

/// A binary scale.
pub(crate) const BINARY_SCALE: Place = Place {
    low: 0,
    high: 7,
    even: false,
    bits: 3,
    shift: 8,
};

/// A linear scale.
pub(crate) const LINEAR_SCALE: Place = Place {
    low: 0,
    high: 255,
    even: false,
    bits: 8,
    shift: 0,
};

/// Where a jump goes, counted from the start of the generator's memory: it holds a word's number.
pub(crate) const TARGET: Place = Place {
    low: 0,
    high: 0x3FFF,
    even: true,
    bits: 13,
    shift: 0,
};
