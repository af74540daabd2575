use outside_io::*;
use std::alloc::Global;
use std::process::Abort;
use std::rt::Files;
use std::test::Fail;
use std::{env, fs, io, process};

/// Asserts what a shelf answers to a store.
fn assert_stored<R: Abort, S: Shelf>(
    rt: &R,
    shelf: &mut S,
    name: &str,
    bytes: &[u8],
    answer: Result<(), Failed>,
) {
    assert_eq!(rt;
        shelf.store(name, bytes),
        answer,
        "{name} with {} bytes",
        bytes.len()
    );
}

/// Asserts what a shelf answers to a load, and the bytes that it gives.
fn assert_loaded<R: Abort + Alloc<A = Global>, S: Shelf>(
    rt: &R,
    shelf: &mut S,
    name: &str,
    limit: usize,
    answer: Result<Loaded, ShelfFault>,
    bytes: &[u8],
) {
    let mut into = Vec::new(rt.alloc());
    assert_eq!(rt;
        shelf.load(name, limit, &mut into),
        answer,
        "{name} with limit {limit}"
    );
    assert_eq!(rt; into.as_slice(), bytes, "{name} with limit {limit}");
}

/// Asserts a store that a shelf took.
fn assert_kept<R: Abort>(rt: &R, shelf: &MemoryShelf, number: usize, name: &str, bytes: &[u8]) {
    match shelf.stores().get(number) {
        Some(store) => {
            assert_eq!(rt; store.name(), name);
            assert_eq!(rt; store.bytes(), bytes, "{name}");
        }
        None => panic!(rt; "there is no store {number}"),
    }
}

#[test]
fn a_memory_shelf_fails_in_its_cases_alone(rt: HostRuntime) -> Result<(), Fail> {
    let mut shelf = MemoryShelf::new(rt.alloc(), 2, 5, &[2, 4])?;
    assert_stored(&rt, &mut shelf, "ab", b"123", Ok(()));
    assert_stored(&rt, &mut shelf, "a", b"1", Err(Failed));
    assert_stored(&rt, &mut shelf, "ab", b"1234", Err(Failed));
    assert_stored(&rt, &mut shelf, "a", b"1", Err(Failed));
    assert_stored(&rt, &mut shelf, "a", b"", Ok(()));
    assert_stored(&rt, &mut shelf, "a", b"", Err(Failed));
    assert_eq!(rt; shelf.stores().len(), 2);
    assert_kept(&rt, &shelf, 0, "ab", b"123");
    assert_kept(&rt, &shelf, 1, "a", b"");
    Ok(())
}

#[test]
fn a_memory_shelf_loads_what_stands_last_under_a_name(rt: HostRuntime) -> Result<(), Fail> {
    let mut shelf = MemoryShelf::new(rt.alloc(), 1, 16, &[4])?;
    assert_eq!(rt; shelf.put("f", b"0123456789"), Ok(()));
    assert_loaded(&rt, &mut shelf, "f", 10, Ok(Loaded::Found), b"0123456789");
    assert_loaded(&rt, &mut shelf, "f", 4, Ok(Loaded::Found), b"01234");
    assert_loaded(&rt, &mut shelf, "g", 4, Ok(Loaded::Absent), b"");
    assert_loaded(&rt, &mut shelf, "f", 4, Err(ShelfFault::Failed), b"");
    assert_loaded(&rt, &mut shelf, "f", 0, Ok(Loaded::Found), b"0");
    assert_stored(&rt, &mut shelf, "f", b"new", Ok(()));
    assert_loaded(&rt, &mut shelf, "f", 9, Ok(Loaded::Found), b"new");
    assert_eq!(rt; shelf.put("f", b"newer"), Ok(()));
    assert_loaded(&rt, &mut shelf, "f", 9, Ok(Loaded::Found), b"newer");
    assert_eq!(rt; shelf.stores().len(), 1);
    Ok(())
}

#[test]
fn a_memory_sink_fails_in_its_cases_alone(rt: HostRuntime) -> Result<(), Fail> {
    let mut sink = MemorySink::new(rt.alloc(), 5, &[2])?;
    let rows: [(&[u8], Result<(), SinkFault>, &[u8]); 7] = [
        (b"abc", Ok(()), b"abc"),
        (b"", Ok(()), b"abc"),
        (b"d", Err(SinkFault), b"abc"),
        (b"def", Err(SinkFault), b"abc"),
        (b"de", Ok(()), b"abcde"),
        (b"f", Err(SinkFault), b"abcde"),
        (b"", Ok(()), b"abcde"),
    ];
    for (piece, answer, bytes) in rows {
        assert_eq!(rt; sink.write(piece), answer, "a piece of {}", piece.len());
        assert_eq!(rt; sink.bytes(), bytes, "after a piece of {}", piece.len());
    }
    Ok(())
}

#[test]
fn the_steady_objects_never_fail(rt: HostRuntime) -> Result<(), Fail> {
    let mut shelf = SteadyShelf::new(rt.alloc());
    assert_eq!(rt; shelf.put("f", b"0123456789"), Ok(()));
    assert_loaded(&rt, &mut shelf, "f", 4, Ok(Loaded::Found), b"01234");
    assert_loaded(&rt, &mut shelf, "g", 4, Ok(Loaded::Absent), b"");
    assert_stored(&rt, &mut shelf, "f", b"new", Ok(()));
    let mut sink = SteadySink::new();
    assert_eq!(rt; sink.write(b"abc"), Ok(()));
    Ok(())
}

/// Asserts what a file shelf over a folder answers, where nothing is in the way.
fn assert_file_shelf<R: Abort + Alloc<A = Global> + Files>(
    rt: &R,
    folder: &str,
) -> Result<(), Fail> {
    let found = format!(in rt.alloc(); "{folder}/f")?;
    let absent = format!(in rt.alloc(); "{folder}/g")?;
    let astray = format!(in rt.alloc(); "{folder}/d/x")?;
    let mut shelf = FileShelf::new(rt);
    assert_stored(rt, &mut shelf, &found, b"0123456789", Ok(()));
    assert_loaded(rt, &mut shelf, &found, 10, Ok(Loaded::Found), b"0123456789");
    assert_loaded(rt, &mut shelf, &found, 4, Ok(Loaded::Found), b"01234");
    assert_loaded(rt, &mut shelf, &absent, 10, Ok(Loaded::Absent), b"");
    assert_loaded(rt, &mut shelf, folder, 10, Err(ShelfFault::Failed), b"");
    for bytes in [b"abc".as_slice(), b"", b"abcdef", b"ghijkl"] {
        assert_stored(rt, &mut shelf, &found, bytes, Ok(()));
        assert_loaded(rt, &mut shelf, &found, 10, Ok(Loaded::Found), bytes);
    }
    assert_stored(rt, &mut shelf, &astray, b"0123456789", Err(Failed));
    Ok(())
}

#[test]
fn a_file_shelf_keeps_real_files(rt: HostRuntime) -> Result<(), Fail> {
    let number = process::id(rt.process());
    let folder = format!(in rt.alloc(); "{}/outside_io_{number}", env::temp_dir(&rt)?.display())?;
    fs::create_dir(&rt, folder.as_str())?;
    assert_file_shelf(&rt, &folder)?;
    fs::remove_dir_all(&rt, folder.as_str())?;
    Ok(())
}

/// Takes one byte a call, and nothing more once it is full.
#[derive(Drop)]
struct Trickle {
    left: usize,
}

impl io::Write for Trickle {
    fn write(&mut self, bytes: &[u8]) -> io::Result<usize> {
        if self.left == 0 || bytes.is_empty() {
            return Ok(0);
        }
        self.left -= 1;
        Ok(1)
    }

    fn flush(&mut self) -> io::Result<()> {
        Ok(())
    }
}

#[test]
fn a_text_sink_writes_on_until_nothing_is_taken(rt: HostRuntime) {
    let mut sink = TextSink::new(Trickle { left: 5 });
    assert_eq!(rt; sink.write(b"abc"), Ok(()));
    assert_eq!(rt; sink.write(b""), Ok(()));
    assert_eq!(rt; sink.write(b"def"), Err(SinkFault));
    assert_eq!(rt; sink.write(b""), Ok(()));
}
