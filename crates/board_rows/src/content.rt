//! What the lines of a content represent: bytes, or a pattern for them.

use crate::folder::Folder;
use crate::stopped::Stopped;
use std::alloc::Global;

/// A decimal number.
pub fn decimal(digits: &str) -> Result<usize, Stopped> {
    Ok(usize::from_str_radix(digits, 10)?)
}

/// Appends a byte in two hexadecimal digits, or that byte N times where `*N` comes after it.
fn push_bytes(alloc: Global, word: &str, bytes: &mut Vec<u8>) -> Result<(), Stopped> {
    let (digits, times) = word.split_once('*').unwrap_or((word, "1"));
    let byte = u8::from_str_radix(digits, 16)?;
    let run = vec![in alloc; byte; decimal(times)?]?;
    bytes.extend_from_slice(&run)?;
    Ok(())
}

/// Appends the bytes of a line of hexadecimal digits.
fn push_digits(alloc: Global, line: &str, bytes: &mut Vec<u8>) -> Result<(), Stopped> {
    for word in line.split_whitespace() {
        push_bytes(alloc, word, bytes)?;
    }
    Ok(())
}

/// Appends the bytes of a line of text, or of one of hexadecimal digits.
fn push_line(alloc: Global, line: &str, bytes: &mut Vec<u8>) -> Result<(), Stopped> {
    if let Some(text) = line.strip_prefix("|") {
        bytes.extend_from_slice(text.as_bytes())?;
        bytes.push(b'\n')?;
        return Ok(());
    }
    if let Some(text) = line.strip_prefix("\\") {
        bytes.extend_from_slice(text.as_bytes())?;
        return Ok(());
    }
    match line.strip_prefix(":") {
        Some(digits) => push_digits(alloc, digits, bytes),
        None => Err(Stopped::Form),
    }
}

/// The bytes of a content.
pub fn content_bytes(alloc: Global, content: &[&str]) -> Result<Vec<u8>, Stopped> {
    let mut bytes = Vec::new(alloc);
    for line in content {
        push_line(alloc, line, &mut bytes)?;
    }
    Ok(bytes)
}

/// What the output has to go on with.
#[derive(Drop)]
enum Wanted<'t> {
    Bytes(Vec<u8>),
    /// These bytes, a decimal number between two, and the line's end.
    Number(&'t str, usize, usize),
}

/// What a line of a content wants. A file's name after `@` represents its bytes.
fn read_wanted<'t>(alloc: Global, folder: &Folder, line: &'t str) -> Result<Wanted<'t>, Stopped> {
    if let Some(name) = line.strip_prefix("@") {
        return Ok(Wanted::Bytes(Vec::from_slice(alloc, folder.bytes(name))?));
    }
    let Some(pattern) = line.strip_prefix("?") else {
        return Ok(Wanted::Bytes(content_bytes(alloc, &[line])?));
    };
    let (front, most) = pattern.rsplit_once(' ').ok_or(Stopped::Form)?;
    let (front, least) = front.rsplit_once(' ').ok_or(Stopped::Form)?;
    Ok(Wanted::Number(front, decimal(least)?, decimal(most)?))
}

/// The length of the first line, without its end.
fn line_length(bytes: &[u8]) -> Option<usize> {
    for (i, byte) in bytes.iter().enumerate() {
        if *byte == b'\n' {
            return Some(i);
        }
    }
    None
}

/// The number that the digits of a line are.
fn line_number(line: &[u8]) -> Option<usize> {
    let digits = str::from_utf8(line).ok()?;
    usize::from_str_radix(digits, 10).ok()
}

/// What follows a number between two and its line's end.
fn after_number(bytes: &[u8], least: usize, most: usize) -> Option<&[u8]> {
    let (line, rest) = bytes.split_at_checked(line_length(bytes)?)?;
    let number = line_number(line)?;
    if least <= number && number <= most {
        rest.strip_prefix(b"\n")
    } else {
        None
    }
}

impl Wanted<'_> {
    /// What follows it, where the bytes begin with it.
    fn after<'b>(&self, bytes: &'b [u8]) -> Option<&'b [u8]> {
        match self {
            Wanted::Bytes(wanted) => bytes.strip_prefix(wanted.as_slice()),
            Wanted::Number(front, least, most) => {
                let rest = bytes.strip_prefix(front.as_bytes())?.strip_prefix(b" ")?;
                after_number(rest, *least, *most)
            }
        }
    }

    /// What follows the first line that has it.
    fn after_lines<'b>(&self, bytes: &'b [u8]) -> Option<&'b [u8]> {
        let mut begins = true;
        for (i, byte) in bytes.iter().enumerate() {
            if begins {
                if let Some(rest) = self.after(bytes.get(i..)?) {
                    return Some(rest);
                }
            }
            begins = *byte == b'\n';
        }
        None
    }
}

/// What follows a content, where the bytes begin with it.
pub fn after_content<'b>(
    alloc: Global,
    folder: &Folder,
    content: &[&str],
    bytes: &'b [u8],
) -> Result<Option<&'b [u8]>, Stopped> {
    let mut rest = Some(bytes);
    let mut skips = false;
    for line in content {
        if *line == "..." {
            skips = true;
        } else if let Some(bytes) = rest {
            let wanted = read_wanted(alloc, folder, line)?;
            rest = if skips {
                wanted.after_lines(bytes)
            } else {
                wanted.after(bytes)
            };
            skips = false;
        }
    }
    match rest {
        Some(bytes) if skips => Ok(bytes.get(bytes.len()..)),
        _ => Ok(rest),
    }
}
