//! The words of a command line.

use crate::content::decimal;
use crate::stopped::Stopped;
use std::alloc::Global;

/// Appends a number and what comes after it.
fn push_number(number: usize, end: &str, word: &mut String) -> Result<(), Stopped> {
    write!(word, "{number}{end}")?;
    Ok(())
}

/// Appends all numbers from one to another, joined by commas.
fn push_numbers(from: usize, to: usize, word: &mut String) -> Result<(), Stopped> {
    for number in from..to {
        push_number(number, ",", word)?;
    }
    push_number(to, "", word)
}

/// Appends the numbers of the text between two braces, and what comes after.
fn push_range(numbers: &str, back: &str, word: &mut String) -> Result<(), Stopped> {
    let (from, to) = numbers.split_once("..").ok_or(Stopped::Form)?;
    push_numbers(decimal(from)?, decimal(to)?, word)?;
    word.push_str(back)?;
    Ok(())
}

/// A word of a command line. `{A..B}` in it represents the numbers from A to B.
fn read_word(alloc: Global, text: &str) -> Result<String, Stopped> {
    let Some((front, rest)) = text.split_once('{') else {
        return Ok(String::from_str(alloc, text)?);
    };
    let (numbers, back) = rest.split_once('}').ok_or(Stopped::Form)?;
    let mut word = String::from_str(alloc, front)?;
    push_range(numbers, back, &mut word)?;
    Ok(word)
}

/// The words of a command line after the program's name, split at single spaces.
pub fn read_words(alloc: Global, line: &str) -> Result<Vec<String>, Stopped> {
    let mut words = Vec::new(alloc);
    let rest = line.strip_prefix("gravitar").ok_or(Stopped::Form)?;
    for word in rest.split(' ').skip(1) {
        words.push(read_word(alloc, word)?)?;
    }
    Ok(words)
}
