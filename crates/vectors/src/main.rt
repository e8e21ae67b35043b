// What every public call answers for the products whose files the arguments name, as the words, texts and doubles that `ambrothel` writes: a line for each
// call. For the stored products the twin has printed what must come out.
// A file that cannot be read is named on standard error and has no line, and the others go on. Where a line cannot be written, that is said once and ends
// all: each function that prints answers whether it was written.
#![tactic(auto)]

ghost use Rattle.std.specs.Prelude.{◌≤◌, length};
ghost use Rattle.streams.specs.Arrivals.{Fills};

mod calls;
mod entries;
mod entry_records;
mod pixels;
mod printing;

use calls::show_product;
use printing::print_text;
use std::env::FillError;
use std::fs::File;
use std::rt::{Env, Files};
use std::{io, str};

// Says of a file, or of an argument that names none, why it cannot be read. Where that cannot be said there is nobody to tell.
fn say_unread(rt: &impl Eprint, name: &str, error: io::Error) {
    let _ = streams::say_failed(rt, format_args!("vectors: {name}"), error);
}

// A file as it was read. One that fills the room is longer than 65,536 bytes, and its beginning is not judged.
fn show_read(rt: &impl Print, name: &str, p: &[u8]) -> io::Result<()>
    requires { length name.now ≤ 512 }
{
    print_text(rt, b"product ", name.as_bytes())?;
    if 65536 < p.len() {
        return print_text(rt, b"longer than 65536", b"");
    }
    show_product(rt, p)
}

// A file, which is closed again before anything is written of it.
fn read_file(files: &impl Files, name: &str, room: &mut [u8]) -> io::Result<usize>
    ensures { Fills result room.new }
{
    let mut file = File::open(files, name)?;
    streams::read_whole(&mut file, room)
}

// The product in a file. Of one that cannot be read there is nothing to write.
fn show_file(rt: &(impl Files + Print + Eprint), name: &str) -> io::Result<()>
    requires { length name.now ≤ 512 }
{
    let mut input = [0u8; 65537];
    match read_file(rt, name, &mut input) {
        Ok(length) => show_read(rt, name, &input[..length]),
        Err(error) => {
            say_unread(rt, name, error);
            Ok(())
        }
    }
}

// The system's number for a name that is too long.
const NAME_TOO_LONG: i32 = 36;

// Says what is wrong with an argument.
fn say_refused(rt: &impl Eprint, what: &str) {
    let _ = eprintln!(rt; "vectors: {what}");
}

// The file that an argument names, or what is wrong with the argument.
fn show_argument(rt: &(impl Env + Files + Print + Eprint), i: usize) -> io::Result<()> {
    let mut name = [0u8; 512];
    let Ok(length) = rt.arg(i, &mut name) else {
        let error = io::Error::from_raw_os_error(NAME_TOO_LONG);
        say_unread(rt, "an argument longer than 512 bytes", error);
        return Ok(());
    };
    if length == 0 {
        say_refused(rt, "an empty argument");
        return Ok(());
    }
    let Ok(name) = str::from_utf8(&name[..length]) else {
        say_refused(rt, "an argument that is not UTF-8");
        return Ok(());
    };
    show_file(rt, name)
}

// The files that the arguments name, in their order, up to a line that is not written.
fn show_arguments(rt: &(impl Env + Files + Print + Eprint), count: usize) -> io::Result<()> {
    for i in 1..count {
        show_argument(rt, i)?;
    }
    Ok(())
}

// The same, and whether all that was written got where it goes.
fn write_vectors(rt: &(impl Env + Files + Print + Eprint), count: usize) -> io::Result<()> {
    show_arguments(rt, count)?;
    streams::end_output(rt)
}

// How many arguments there are, the program's own name among them.
fn argument_count(rt: &impl Env) -> usize {
    for i in 0..usize::MAX {
        if let Err(FillError::NotPresent) = rt.arg(i, &mut []) {
            return i;
        }
    }
    usize::MAX
}

fn main(rt: HostRuntime) -> io::Result<()> {
    let count = argument_count(&rt);
    if count < 2 {
        return eprintln!(rt; "usage: vectors PRODUCT ..");
    }
    match write_vectors(&rt, count) {
        Ok(()) => Ok(()),
        Err(error) => streams::say_failed(&rt, "vectors: standard output", error),
    }
}
