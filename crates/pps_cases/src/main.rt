// Tells of each file that it is named what pps_info tells of standard input, under the file's name.
#![tactic(auto)]

use std::env::{Env, FillError};
use std::fs::File;
use std::io;

// Says on standard error what keeps a file from being opened, in the system's words.
fn fail(rt: HostRuntime, path: &[u8], error: io::Error) {
    let to = rt.stderr();
    let _ = to.write_all(path);
    let _ = to.write_all(b": ");
    if let Ok(text) = error.to_string(rt.alloc()) {
        let _ = to.print(words_of(text.as_str()));
    }
    let _ = to.write_all(b"\n");
}

// Without the error's number, which std puts behind its words.
fn words_of(text: &str) -> &str {
    match text.split_once(" (os error ") {
        Some((words, _)) => words,
        None => text,
    }
}

// A path that is not UTF-8 can't be opened.
fn open(rt: HostRuntime, path: &[u8]) -> io::Result<File> {
    match std::str::from_utf8(path) {
        Ok(path) => File::open(&rt, path),
        Err(_) => Err(io::Error::from(io::ErrorKind::InvalidFilename)),
    }
}

fn tell_file(rt: HostRuntime, path: &[u8]) {
    let _ = rt.write_all(path);
    let _ = rt.write_all(b"\n");
    match open(rt, path) {
        Err(error) => fail(rt, path, error),
        Ok(mut file) => {
            let mut nal = [0u8; pps_report::LARGEST];
            let count = pps_report::read_full(&mut file, &mut nal);
            pps_report::print_info(&rt, &nal[..count]);
        }
    }
}

fn main(rt: HostRuntime) {
    let mut path = [0u8; 4096];
    for i in 1..usize::MAX {
        let length = match rt.arg(i, &mut path) {
            Ok(length) => length,
            // A path that is too long counts as empty.
            Err(FillError::TooLong) => 0,
            Err(FillError::NotPresent) => return,
        };
        tell_file(rt, &path[..length]);
    }
}
