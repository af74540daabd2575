use crate::fake_files::Call::{CreateNew, Look, Metadata, Open, Remove, Rename, SetLen, Write};
use crate::fake_files::{Call, Fake, Folder, Kind};
use outside_io::{Failed, FileShelf, Shelf};
use std::process::Abort;

/// Stores `new!` in a folder: the answer, the bytes of the file afterwards, and the calls in their
/// order. No new file is left beside it.
fn assert_store(
    rt: &impl Abort,
    folder: &Folder<'_>,
    answer: Result<(), Failed>,
    after: &[u8],
    calls: &[Call],
) {
    let fake = Fake(folder);
    let mut shelf = FileShelf::with_process(&fake, 7);
    assert_eq!(rt;
        shelf.store("f", b"new!"),
        answer,
        "the answer beside {calls:?}"
    );
    assert_eq!(rt;
        folder.content().as_slice(),
        after,
        "the file after {calls:?}"
    );
    let (made, count) = folder.calls();
    assert_eq!(rt; made.get(..count), Some(calls));
    assert_eq!(rt; folder.has_new_file(), false, "a new file after {calls:?}");
}

/// As `assert_store` over `old`, where the calls of these numbers fail.
fn assert_failing(
    rt: &impl Abort,
    kind: Kind,
    fails: &[usize],
    answer: Result<(), Failed>,
    after: &[u8],
    calls: &[Call],
) {
    let folder = Folder::new(kind, Some(b"old"), 0, fails);
    assert_store(rt, &folder, answer, after, calls);
}

#[test]
fn a_file_is_replaced_or_stays(rt: HostRuntime) {
    let calls = [Look, Open, CreateNew, Metadata, Write, Write, Rename];
    assert_failing(&rt, Kind::Regular, &[], Ok(()), b"new!", &calls);
    let calls = [Look, Open, CreateNew, Metadata, Write, Remove];
    assert_failing(&rt, Kind::Regular, &[5], Err(Failed), b"old", &calls);
    let calls = [Look, Open, CreateNew, Metadata, Write, Write, Remove];
    assert_failing(&rt, Kind::Regular, &[6], Err(Failed), b"old", &calls);
}

#[test]
fn a_file_is_written_in_place_if_no_new_one_is_made(rt: HostRuntime) {
    let calls = [Look, Open, Metadata, SetLen(5), Write, Write, SetLen(4)];
    assert_failing(&rt, Kind::Regular, &[1], Ok(()), b"new!", &calls);
    let calls = [
        Look,
        Open,
        Open,
        Metadata,
        SetLen(5),
        Write,
        Write,
        SetLen(4),
    ];
    assert_failing(&rt, Kind::Regular, &[2], Ok(()), b"new!", &calls);
    let calls = [
        Look,
        Open,
        CreateNew,
        Open,
        Metadata,
        SetLen(5),
        Write,
        Write,
        SetLen(4),
    ];
    assert_failing(&rt, Kind::Regular, &[3], Ok(()), b"new!", &calls);
}

#[test]
fn a_file_is_written_in_place_if_the_new_one_cant_be_used(rt: HostRuntime) {
    let calls = [
        Look,
        Open,
        CreateNew,
        Metadata,
        Remove,
        Open,
        Metadata,
        SetLen(5),
        Write,
        Write,
        SetLen(4),
    ];
    assert_failing(&rt, Kind::Regular, &[4], Ok(()), b"new!", &calls);
    let calls = [
        Look,
        Open,
        CreateNew,
        Metadata,
        Write,
        Write,
        Rename,
        Remove,
        Open,
        Metadata,
        SetLen(5),
        Write,
        Write,
        SetLen(4),
    ];
    assert_failing(&rt, Kind::Regular, &[7], Ok(()), b"new!", &calls);
}

#[test]
fn a_link_is_written_in_place_and_each_step_may_fail(rt: HostRuntime) {
    let calls = [Look, Open, Metadata, SetLen(5), Write, Write, SetLen(4)];
    assert_failing(&rt, Kind::Link, &[], Ok(()), b"new!", &calls);
    assert_failing(&rt, Kind::Link, &[2], Err(Failed), b"old", &[Look, Open]);
    let calls = [Look, Open, Metadata];
    assert_failing(&rt, Kind::Link, &[3], Err(Failed), b"old", &calls);
    let calls = [Look, Open, Metadata, SetLen(5)];
    assert_failing(&rt, Kind::Link, &[4], Err(Failed), b"old", &calls);
    let calls = [Look, Open, Metadata, SetLen(5), Write, SetLen(3)];
    assert_failing(&rt, Kind::Link, &[5], Err(Failed), b"old", &calls);
    let calls = [Look, Open, Metadata, SetLen(5), Write, Write, SetLen(3)];
    assert_failing(&rt, Kind::Link, &[6], Err(Failed), b"new", &calls);
    let calls = [Look, Open, Metadata, SetLen(5), Write, Write, SetLen(4)];
    assert_failing(&rt, Kind::Link, &[7], Err(Failed), b"new!\0", &calls);
}

#[test]
fn a_device_takes_the_bytes_alone(rt: HostRuntime) {
    let calls = [Look, Open, Metadata, Write, Write];
    assert_failing(&rt, Kind::Device, &[], Ok(()), b"new!", &calls);
    assert_failing(&rt, Kind::Device, &[5], Err(Failed), b"new", &calls);
}

#[test]
fn a_new_file_takes_the_first_free_name(rt: HostRuntime) {
    let calls = [Look, CreateNew, CreateNew, CreateNew, Write, Write, Rename];
    let folder = Folder::new(Kind::Regular, None, 2, &[]);
    assert_store(&rt, &folder, Ok(()), b"new!", &calls);
    let folder = Folder::new(Kind::Regular, None, 1000, &[]);
    let fake = Fake(&folder);
    let mut shelf = FileShelf::with_process(&fake, 7);
    assert_eq!(rt; shelf.store("f", b"new!"), Ok(()));
    assert_eq!(rt; folder.content().as_slice(), b"new!".as_slice());
}
