//! `sfu`, the program of the unit.
#![tactic(auto)]

use commands::{Cleared, Meter, explain, report_words, run_metered};
use std::process::ExitCode;
use std::rt::Env;
use std::{env, io};

fn main(rt: HostRuntime) -> ExitCode {
    let meter = Meter::new(rt);
    let mut errors = Cleared::new(&meter, rt.stderr());
    let status = match words_of(&rt) {
        Ok(words) => {
            let mut reader = rt.reader();
            let mut writer = Cleared::new(&meter, io::writer(&rt));
            let status = run_metered(
                &rt,
                words.as_slice(),
                &meter,
                &mut reader,
                &mut writer,
                &mut errors,
            );
            explain(&rt, words.as_slice(), status, &mut errors);
            status
        }
        Err(error) => report_words(&mut errors, &error),
    };
    meter.clear();
    ExitCode::from(status.code())
}

/// The words of the command line, the program's name first.
fn words_of<R: Env + AllocGlobal>(rt: &R) -> io::Result<Vec<String>> {
    let words = env::args(rt)?.collect(rt.alloc())?;
    Ok(words)
}
