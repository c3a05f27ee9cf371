//! Files of the machine, by their paths.

use hip_examples::AMPLE;
use hip_files::{FileCabinet, HostFiles};
use hip_io::{ReadRefusal, read_all};
use std::fs::File;
use std::process::Abort;
use std::{fs, process};

const BYTES: &str = "the bytes of a file";

fn assert_read(
    rt: &impl Abort,
    host: &HostRuntime,
    cabinet: &mut FileCabinet<HostFiles<'_>, File>,
    path: &str,
) {
    let bytes = read_all(host.alloc(), cabinet, path, 100).expect(rt, "the file is read");
    assert!(rt; bytes.as_slice() == BYTES.as_bytes());
}

fn assert_refused(
    rt: &impl Abort,
    host: &HostRuntime,
    cabinet: &mut FileCabinet<HostFiles<'_>, File>,
    path: &str,
    refusal: ReadRefusal,
) {
    let found = read_all(host.alloc(), cabinet, path, 100).err();
    assert!(rt; found == Some(refusal), "{path}");
}

/// Asserts what is read of a file, of the same file once it is removed, and of a directory.
fn assert_answers(rt: &impl Abort, host: &HostRuntime, path: &str) {
    let mut cabinet = FileCabinet::new(HostFiles::new(host));
    fs::write(host, path, BYTES).expect(rt, "the file is written");
    assert_read(rt, host, &mut cabinet, path);
    fs::remove_file(host, path).expect(rt, "the file is removed");
    assert_refused(rt, host, &mut cabinet, path, ReadRefusal::Missing);
    assert_refused(rt, host, &mut cabinet, "/tmp", ReadRefusal::ReadFault);
}

#[test]
fn reads_back_a_file_that_was_written(rt: HostRuntime) {
    let path = format!(in rt.alloc();
        "/tmp/hippo-adapter-test-{}",
        process::id(rt.process())
    ).expect(&rt, AMPLE);
    assert_answers(&rt, &rt, path.as_str());
}
