//! The sum of a text that is too long for a row: what `cksum` of POSIX prints.

/// The polynomial, highest power first, without x^32.
const POLYNOMIAL: u32 = 0x04C1_1DB7;

/// A bit further.
fn next_bit(crc: u32) -> u32 {
    let shifted = crc.wrapping_mul(2);
    if crc & 0x8000_0000 == 0 {
        shifted
    } else {
        shifted ^ POLYNOMIAL
    }
}

/// A byte further.
fn next_byte(crc: u32, byte: u8) -> u32 {
    let mut crc = crc ^ u32::from_be_bytes([byte, 0, 0, 0]);
    for _ in 0..8 {
        crc = next_bit(crc);
    }
    crc
}

/// The CRC of some bytes, and of their number with its lowest byte first and no zeros after it.
pub fn cksum(bytes: &[u8]) -> u32 {
    let mut crc = 0u32;
    for byte in bytes {
        crc = next_byte(crc, *byte);
    }
    let mut length = bytes.len();
    for _ in 0..8 {
        if length != 0 {
            crc = next_byte(crc, (length % 256) as u8);
            length /= 256;
        }
    }
    !crc
}
