// Runs sheetcount over the files that its arguments name, and where nothing can be read or written. No contract can say which bytes a file
// gives or takes; what is printed here is compared instead. The files, the arguments and what is to be printed are made by tests/sheets.
#![tactic(auto)]

use sheetcount_lib::run;
use std::fs::{File, OpenOptions};
use std::io::{Error, ErrorKind, Read, Result, Write};
use std::rt::Files;
use std::{env, io};

// What stands in for an input, an output or errors that are not open: each read and each write fails.
#[derive(Drop)]
struct Unopened;

impl Read for Unopened {
    fn read(&mut self, _buf: &mut [u8]) -> Result<usize> {
        Err(Error::from(ErrorKind::Other))
    }
}

impl Write for Unopened {
    fn write(&mut self, _buf: &[u8]) -> Result<usize> {
        Err(Error::from(ErrorKind::Other))
    }

    fn flush(&mut self) -> Result<()> {
        Err(Error::from(ErrorKind::Other))
    }
}

// Prints a line that says which run follows.
fn say(rt: &impl Print, name: &str) {
    let _ = rt.println(name);
}

// Runs the program over a file, or over an input that is not open where there is no such file.
fn run_file(rt: &impl Files, name: &str, output: &mut impl Write, errors: &mut impl Write) {
    match File::open(rt, name) {
        Ok(mut input) => run(&mut input, output, errors),
        Err(_) => run(&mut Unopened, output, errors),
    }
}

// Runs the program over the file that an argument names, and shows what it writes to either stream.
fn run_argument(rt: &(impl Files + Print), name: &str) {
    say(rt, name);
    run_file(rt, name, &mut io::writer(rt), &mut io::writer(rt));
}

// Runs the program with streams that are not open, to show what is written to the others.
fn run_unopened(rt: &(impl Files + Print)) {
    say(rt, "no errors");
    run_file(rt, "one_record.sheet", &mut io::writer(rt), &mut Unopened);
    say(rt, "no output");
    run_file(rt, "one_record.sheet", &mut Unopened, &mut io::writer(rt));
    say(rt, "neither output nor errors");
    run_file(rt, "one_record.sheet", &mut Unopened, &mut Unopened);
    say(rt, "neither input nor output");
    run_file(rt, "missing.sheet", &mut Unopened, &mut io::writer(rt));
    say(rt, "neither input nor errors");
    run_file(rt, "missing.sheet", &mut io::writer(rt), &mut Unopened);
}

// Runs the program with a device that has no room for the result.
fn run_full(rt: &(impl Files + Print)) {
    say(rt, "a full device");
    match OpenOptions::new().append(true).open(rt, "/dev/full") {
        Ok(mut full) => run_file(rt, "one_record.sheet", &mut full, &mut io::writer(rt)),
        Err(_) => run_file(rt, "one_record.sheet", &mut Unopened, &mut io::writer(rt)),
    }
}

// Runs the program over the file of each argument, and then where nothing can be read or written.
fn main(rt: HostRuntime) -> Result<()> {
    for name in env::args(&rt)?.skip(1) {
        run_argument(&rt, name.as_str());
    }
    run_unopened(&rt);
    run_full(&rt);
    Ok(())
}
