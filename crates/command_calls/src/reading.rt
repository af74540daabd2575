//! A request: the words of a command line, and named files.
ghost use Rattle.std.specs.Prelude.{◌≡◌, [], Ok, OnOk, IfOk, IfErr};
ghost use Rattle.std.specs.Option.{option_map};
ghost use Rattle.command_calls.specs.Requests.{file_read, number_read, request_read, sized_read, text_read, pieces_read};
ghost use Rattle.command_calls.specs.Faults.{Answers};

use crate::request_shelf::RequestShelf;
use gravitar_commands::Words;

/// Why a request isn't read.
#[derive(Clone, Copy, Debug, PartialEq, Eq)]
pub enum RequestFault {
    /// It isn't well formed so many bytes before its end.
    Malformed(usize),
    /// There was no memory.
    NoMemory,
}

/// A number of eight bytes, the lowest first, and what stands after it.
fn split_number(bytes: &[u8]) -> Option<(u64, &[u8])>
    ensures { option_map (λ found. (found.0, found.1.now)) result ≡ number_read bytes.now }
{
    let (number, rest) = bytes.split_first_chunk::<8>()?;
    Some((u64::from_le_bytes(*number), rest))
}

/// Bytes behind their number, and what stands after them.
fn split_sized(bytes: &[u8]) -> Option<(&[u8], &[u8])>
    ensures { option_map (λ found. (found.0.now, found.1.now)) result ≡ sized_read bytes.now }
{
    let (count, rest) = split_number(bytes)?;
    let Ok(length) = usize::try_from(count) else {
        return None;
    };
    let Some((piece, rest)) = rest.split_at_checked(length) else {
        return None;
    };
    Some((piece, rest))
}

/// Text behind the number of its bytes, and what stands after it.
fn split_text(bytes: &[u8]) -> Option<(&str, &[u8])>
    ensures { option_map (λ found. (found.0.now, found.1.now)) result ≡ text_read bytes.now }
{
    let (piece, rest) = split_sized(bytes)?;
    let Ok(text) = str::from_utf8(piece) else {
        return None;
    };
    Some((text, rest))
}

/// A file: its name and its bytes, and what stands after it.
fn split_file(bytes: &[u8]) -> Option<(&str, &[u8], &[u8])>
    ensures { option_map (λ found. ((found.0.now, found.1.now), found.2.now)) result ≡ file_read bytes.now }
{
    let (name, rest) = split_text(bytes)?;
    let (content, rest) = split_sized(rest)?;
    Some((name, content, rest))
}

/// Reads so many words.
fn read_words<'a>(bytes: &'a [u8], count: u64, words: &mut Words) -> Result<&'a [u8], RequestFault>
    requires { words.old ≡ [] }
    ensures ok { IfOk result (λ rest. pieces_read text_read count bytes.now ≡ Ok (words.new, rest.now)) }
    ensures err { IfErr result (λ fault. Answers fault (pieces_read text_read count bytes.now)) }
{
    let mut rest = bytes;
    for _ in 0..count {
        let Some((word, after)) = split_text(rest) else {
            return Err(RequestFault::Malformed(rest.len()));
        };
        let Ok(()) = words.push(word) else {
            return Err(RequestFault::NoMemory);
        };
        rest = after;
    }
    Ok(rest)
}

/// Reads so many files.
fn read_files<'a>(
    bytes: &'a [u8],
    count: u64,
    shelf: &mut RequestShelf,
) -> Result<&'a [u8], RequestFault>
    requires { shelf.old.files ≡ [] }
    ensures ok { IfOk result (λ rest. pieces_read file_read count bytes.now ≡ Ok (shelf.new.files, rest.now)) }
    ensures err { IfErr result (λ fault. Answers fault (pieces_read file_read count bytes.now)) }
    ensures same { shelf.new ≡ record shelf.old { files = shelf.new.files } }
{
    let mut rest = bytes;
    for _ in 0..count {
        let Some((name, content, after)) = split_file(rest) else {
            return Err(RequestFault::Malformed(rest.len()));
        };
        let Ok(()) = shelf.put(name, content) else {
            return Err(RequestFault::NoMemory);
        };
        rest = after;
    }
    Ok(rest)
}

/// Reads a request: two numbers, and as many words and files.
pub fn read_request(
    request: &[u8],
    words: &mut Words,
    shelf: &mut RequestShelf,
) -> Result<(), RequestFault>
    requires no_word { words.old ≡ [] }
    requires no_file { shelf.old.files ≡ [] }
    ensures ok { OnOk result (request_read request.now ≡ Ok (record { words = words.new; files = shelf.new.files })) }
    ensures err { IfErr result (λ fault. Answers fault (request_read request.now)) }
    ensures same { shelf.new ≡ record shelf.old { files = shelf.new.files } }
{
    let Some((word_count, rest)) = split_number(request) else {
        return Err(RequestFault::Malformed(request.len()));
    };
    let Some((file_count, behind)) = split_number(rest) else {
        return Err(RequestFault::Malformed(rest.len()));
    };
    let behind = read_words(behind, word_count, words)?;
    let behind = read_files(behind, file_count, shelf)?;
    if !behind.is_empty() {
        return Err(RequestFault::Malformed(behind.len()));
    }
    Ok(())
}
