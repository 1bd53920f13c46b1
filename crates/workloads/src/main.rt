//! The jobs that a user waits for, on inputs that are made at random: `workloads JOB SEED SIZE` prints a digest of all results.
#![tactic(auto)]

mod digest;
mod jobs;
mod pool;
mod random;
mod reading;
mod rows;
mod runs;
mod serving;
mod shapes;

use crate::digest::Digest;
use crate::jobs::Job;
use std::alloc::AllocError;
use std::env;
use std::process::ExitCode;

// The number that a word spells; 0 where it spells none.
fn number_of(words: &[String], place: usize) -> u32 {
    match words.get(place) {
        Some(word) => word.as_str().parse::<u32>().unwrap_or(0),
        None => 0,
    }
}

// Does a job by its name.
fn carry_out(name: &str, job: Job, digest: &mut Digest) -> Result<(), AllocError> {
    match name {
        "pack" => job.pack(digest),
        "unpack" => job.unpack(digest),
        "show" => job.show(digest),
        "serve" => job.serve(digest),
        "read" => job.read(digest),
        "awkward" => job.awkward(digest),
        _ => Err(AllocError),
    }
}

fn main(rt: HostRuntime) -> ExitCode {
    let alloc = rt.alloc();
    let Ok(words) = env::args(&rt) else {
        return ExitCode::from(2);
    };
    let Ok(words) = words.collect::<Vec<String>>(alloc) else {
        return ExitCode::from(2);
    };
    let name = match words.get(1) {
        Some(name) => name.as_str(),
        None => "awkward",
    };
    let job = Job {
        alloc,
        seed: u64::from(number_of(&words, 2)),
        size: number_of(&words, 3),
    };
    let mut digest = Digest::new();
    if carry_out(name, job, &mut digest).is_err() {
        return ExitCode::from(1);
    }
    let value = digest.value();
    match println!(rt; "{name} {value:016x}") {
        Ok(()) => ExitCode::from(0),
        Err(_) => ExitCode::from(1),
    }
}
