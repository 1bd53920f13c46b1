//! The command `polytwkb`: from tables of encoded polylines to streams of TWKB blobs, and back.
#![tactic(auto)]

use std::env;
use std::io::IsTerminal;
use std::process::ExitCode;
use twkb_command::{joined_words, read_words, refuse, report_no_memory, report_unread_words};
use twkb_files::{Screen, convert_files};
use twkb_io::Tap;

// Carries out what the program's words ask for, over their files and the standard streams, and
// returns the exit status.
fn main(rt: HostRuntime) -> ExitCode {
    let mut errors = Tap::new(rt.stderr());
    let words = match env::args(&rt) {
        Ok(words) => words,
        Err(error) => return ExitCode::from(report_unread_words(&mut errors, error.kind())),
    };
    let Ok(words) = words.collect::<Vec<String>>(rt.alloc()) else {
        return ExitCode::from(report_no_memory(&mut errors));
    };
    let Ok(joined) = joined_words(rt.alloc(), &words) else {
        return ExitCode::from(report_no_memory(&mut errors));
    };
    let status = match read_words(rt.alloc(), &joined) {
        Ok(request) => {
            let (input, output, terminal) = (rt.stdin(), rt.stdout(), rt.stderr());
            // an output on a terminal leaves no line to a screen
            let is_free = request.output.is_some() || !output.is_terminal();
            let shown = is_free && terminal.is_terminal();
            let screen = Screen::new(&rt, if shown { Some(terminal) } else { None });
            convert_files(
                rt.alloc(),
                &rt,
                &request,
                input,
                output,
                &screen,
                &mut errors,
            )
        }
        Err(refusal) => refuse(&refusal, &mut Tap::new(rt.stdout()), &mut errors),
    };
    ExitCode::from(status)
}
