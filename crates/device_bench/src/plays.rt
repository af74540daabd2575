//! Small boards, each with the clocks at which it is looked at.
use crate::measure::Fault;
use crate::pairs::Course;
use crate::programs::Burner;
use rom_image::{Image, PROGRAM_ROM_START};
use std::alloc::Global;
use tape_ports::Tape;

/// Enables the requests of POKEY 1's first timer, and waits for one.
const TIMER: &[u8] = &[
    0xA9, 0x40, 0x8D, 0x08, 0x60, 0xA9, 0x01, 0x8D, 0x0E, 0x60, 0x58, 0x4C, 0x0B, 0x90,
];

/// Writes the latch, and takes back the request.
const TIMER_HANDLER: &[u8] = &[
    0xA9, 0x07, 0x8D, 0x00, 0x88, 0xA9, 0x00, 0x8D, 0x0E, 0x60, 0x40,
];

/// Lets requests come again.
const TIMER_AGAIN: &[u8] = &[
    0xA9, 0x00, 0x8D, 0x0E, 0x60, 0xA9, 0x01, 0x8D, 0x0E, 0x60, 0x40,
];

/// A short vector and a halt, drawn from the RAM.
const SHORT_VECTOR: &[u8] = &[
    0xA9, 0xE1, 0x8D, 0x00, 0x20, 0xA9, 0x40, 0x8D, 0x01, 0x20, 0xA9, 0x20, 0x8D, 0x03, 0x20, 0xEE,
    0x40, 0x88, 0x4C, 0x12, 0x90,
];

/// Reads IN0 and ALLPOT of both POKEYs into the latch, and begins to count their pots.
const PORTS_READ: &[u8] = &[
    0x58, 0xAD, 0x00, 0x78, 0x8D, 0x00, 0x88, 0xAD, 0x08, 0x60, 0x8D, 0x00, 0x88, 0xAD, 0x08, 0x68,
    0x8D, 0x00, 0x88, 0x8D, 0x0B, 0x60, 0x8D, 0x0B, 0x68, 0x4C, 0x01, 0x90,
];

/// Lets go of the interrupt.
const ACKNOWLEDGE: &[u8] = &[0x8D, 0xC0, 0x88, 0x40];

/// Jumps to itself.
const IDLE: &[u8] = &[0x4C, 0x00, 0x90];

/// A tape without entries.
const EMPTY: &str = "90000 END";

/// Entries at two clocks of the timer's requests.
const POTS: &str = "30 P0 05\n33 P1 06\n33 P1 07\n90000 END";

/// Entries around the divider's wraps, several of them at one clock.
const WRAPS: &str = "6142 Q2 05\n6143 IN0 2A\n6143 P0 30\n6143 Q7 31\n6143 IN3 01\n6144 IN4 02\n\
    6145 P1 E4\n12287 P3 04\n12287 P3 90\n12287 IN0 00\n12288 Q0 FF\n12289 P0 FF\n90000 END";

/// A small board: its program, what it does at an interrupt, its tape, and its course.
#[derive(Clone, Copy)]
pub struct Play {
    pub program: &'static [u8],
    pub handler: &'static [u8],
    pub tape: &'static str,
    pub course: Course,
}

impl Play {
    /// Its image.
    pub fn image(&self, alloc: Global) -> Result<Image, Fault> {
        let mut burner = Burner::new(alloc)?;
        burner.put_from(PROGRAM_ROM_START, self.program);
        burner.put_from(0x9100, self.handler);
        burner.put_from(0xFFFC, &[0x00, 0x90, 0x00, 0x91]);
        Ok(burner.image())
    }

    /// Its tape.
    pub fn tape(&self, alloc: Global) -> Result<Tape, Fault> {
        Tape::read(alloc, self.tape.as_bytes()).map_err(|_| Fault::OutOfMemory)
    }
}

/// Boards around wraps, around requests of timers, and up to a reset of the watchdog.
pub const PLAYS: [Play; 9] = [
    Play {
        program: PORTS_READ,
        handler: ACKNOWLEDGE,
        tape: WRAPS,
        course: Course {
            wired: true,
            start: 0,
            part: 7000,
            end: 12_400,
        },
    },
    Play {
        program: PORTS_READ,
        handler: ACKNOWLEDGE,
        tape: WRAPS,
        course: Course {
            wired: false,
            start: 6139,
            part: 1,
            end: 6300,
        },
    },
    Play {
        program: PORTS_READ,
        handler: ACKNOWLEDGE,
        tape: WRAPS,
        course: Course {
            wired: true,
            start: 6142,
            part: 1,
            end: 6300,
        },
    },
    Play {
        program: PORTS_READ,
        handler: ACKNOWLEDGE,
        tape: WRAPS,
        course: Course {
            wired: false,
            start: 6143,
            part: 6144,
            end: 9000,
        },
    },
    Play {
        program: TIMER,
        handler: TIMER_HANDLER,
        tape: POTS,
        course: Course {
            wired: true,
            start: 0,
            part: 1,
            end: 300,
        },
    },
    Play {
        program: TIMER,
        handler: TIMER_HANDLER,
        tape: WRAPS,
        course: Course {
            wired: true,
            start: 34,
            part: 700,
            end: 12_400,
        },
    },
    Play {
        program: TIMER,
        handler: TIMER_AGAIN,
        tape: WRAPS,
        course: Course {
            wired: true,
            start: 0,
            part: 53,
            end: 6300,
        },
    },
    Play {
        program: SHORT_VECTOR,
        handler: ACKNOWLEDGE,
        tape: EMPTY,
        course: Course {
            wired: false,
            start: 31,
            part: 1,
            end: 100,
        },
    },
    Play {
        program: IDLE,
        handler: ACKNOWLEDGE,
        tape: EMPTY,
        course: Course {
            wired: true,
            start: 0,
            part: 7000,
            end: 49_300,
        },
    },
];
