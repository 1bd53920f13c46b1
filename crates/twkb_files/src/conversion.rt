//! Carrying out a request over the files that it names.
use crate::replacement::settle;
use crate::screen::{Messages, Screen};
use crate::target::{Target, open_target};
use crate::watched::Watched;
use either::Either;
use std::alloc::Global;
use std::fs::{File, Files, OpenFile};
use std::io;
use std::io::{BufWriter, ErrorKind, Read, Write};
use std::time::Clock;
use twkb_command::{Request, carry_out, report_file_fault, report_no_memory};
use twkb_io::{Ending, Tap};

// Reports that the system refuses a file, and returns the exit status: 4 if memory was refused, else
// 3. Takes memory for the system's words.
fn report<E: Write>(alloc: Global, errors: &mut Tap<E>, name: &str, fault: &io::Error) -> u8 {
    if fault.kind() == ErrorKind::OutOfMemory {
        return report_no_memory(errors);
    }
    let Ok(text) = format!(in alloc; "{fault}") else {
        return report_no_memory(errors);
    };
    match text.split_once(" (os error ") {
        Some((words, _)) => report_file_fault(errors, name, words),
        None => report_file_fault(errors, name, &text),
    }
}

// Converts to an open output, in blocks, and leaves no line on the screen. Takes memory for a block,
// and as `carry_out` does.
fn convert_to<R: Read, W: Write + Drop, E: Write, C: Clock + Copy, T: Write + Copy>(
    alloc: Global,
    request: &Request<'_>,
    reader: &mut Tap<R>,
    output: W,
    screen: &Screen<C, T>,
    errors: &mut Tap<E>,
) -> u8 {
    let Ok(buffered) = BufWriter::new(alloc, output) else {
        return report_no_memory(errors);
    };
    let mut messages = Tap::new(Messages { errors, screen });
    let mut writer = Tap::new(buffered);
    let status = carry_out(alloc, request, reader, &mut writer, &mut messages);
    screen.clear();
    status
}

// Converts to the file with this name: a new file takes its place after status 0 alone.
fn convert_to_file<S: Files, R: Read, W: Write + Drop, E: Write, C: Clock + Copy, T: Write + Copy>(
    alloc: Global,
    files: &S,
    request: &Request<'_>,
    reader: &mut Tap<R>,
    name: &str,
    screen: &Screen<C, T>,
    errors: &mut Tap<E>,
) -> u8 {
    let target = match open_target(alloc, files, name) {
        Ok(target) => target,
        Err(fault) => return report(alloc, errors, name, &fault),
    };
    let Target { file, new } = target;
    let output: Either<W, S::File> = Either::Right(file);
    let status = convert_to(alloc, request, reader, output, screen, errors);
    let Some(mut new) = new else {
        return status;
    };
    match settle(&mut new, status) {
        Ok(()) => status,
        Err(fault) => report(alloc, errors, name, &fault),
    }
}

// Converts to the output that a request names, or to standard output.
fn convert_from<S: Files, R: Read, W: Write + Drop, E: Write, C: Clock + Copy, T: Write + Copy>(
    alloc: Global,
    files: &S,
    request: &Request<'_>,
    reader: &mut Tap<R>,
    output: W,
    screen: &Screen<C, T>,
    errors: &mut Tap<E>,
) -> u8 {
    match request.output {
        Some(name) => convert_to_file::<S, R, W, E, C, T>(
            alloc, files, request, reader, name, screen, errors,
        ),
        None => {
            let output: Either<W, S::File> = Either::Left(output);
            convert_to(alloc, request, reader, output, screen, errors)
        }
    }
}

// The size of a regular file in bytes, if a screen may show how much of it was read.
fn size_to_show<F: OpenFile, C: Clock + Copy, T: Write + Copy>(
    file: &F,
    screen: &Screen<C, T>,
) -> Option<u64> {
    if !screen.is_on() {
        return None;
    }
    match file.metadata() {
        Ok(there) if there.is_file() => Some(there.len()),
        _ => None,
    }
}

/// Carries out a request over its files, and over the standard input and output where it names none,
/// and returns the exit status. The input is opened first, then the output, and neither is read or
/// written before. The output's file is written whole or not at all: a new file in its folder takes
/// its place after status 0 alone. A file that the system refuses has status 3 and a line in
/// `errors`. If the input is a regular file, `screen` shows how much of it was read: after two
/// seconds, then once a second, and no longer when the conversion ends or a message comes. Takes
/// memory for a block, for names, and as `carry_out` does.
pub fn convert_files<
    S: Files,
    R: Read + Drop,
    W: Write + Drop,
    E: Write,
    C: Clock + Copy,
    T: Write + Copy,
>(
    alloc: Global,
    files: &S,
    request: &Request<'_>,
    input: R,
    output: W,
    screen: &Screen<C, T>,
    errors: &mut Tap<E>,
) -> u8 {
    let mut size = None;
    let source: Either<R, S::File> = match request.input {
        None => Either::Left(input),
        Some(name) => match File::open(files, name) {
            Ok(file) => {
                size = size_to_show(&file, screen);
                Either::Right(file)
            }
            Err(fault) => return report(alloc, errors, name, &fault),
        },
    };
    // a terminal would go on after the end that it reported
    let mut reader = Tap::new(Ending::new(Watched::new(source, screen, size)));
    convert_from(alloc, files, request, &mut reader, output, screen, errors)
}
