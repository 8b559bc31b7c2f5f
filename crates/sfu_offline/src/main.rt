//! `sfu`, the program, without what needs a socket or a unit that runs: it is proved in half the time.
#![tactic(auto)]

use cli::{
    Action, Cleared, Status, explain_replay, read_words, refuse_words, report_words, run_offline,
    say,
};
use replay::{Shown, run_replay};
use request_text::Meter;
use std::io::{Read, Write};
use std::process::ExitCode;
use std::rt::{Env, Files};
use std::{env, io};

fn main(rt: HostRuntime) -> ExitCode {
    let meter = Meter::new(rt);
    let mut errors = Cleared::new(&meter, rt.stderr());
    let status = match words_of(&rt) {
        Ok(words) => {
            let mut reader = rt.reader();
            let mut writer = Cleared::new(&meter, io::writer(&rt));
            run_words(
                &rt,
                words.as_slice(),
                &meter,
                &mut reader,
                &mut writer,
                &mut errors,
            )
        }
        Err(error) => report_words(&mut errors, &error),
    };
    meter.clear();
    ExitCode::from(status.code())
}

/// Runs the command that the words ask for.
fn run_words<R: AllocGlobal + Files, I: Read, O: Write, E: Write>(
    rt: &R,
    words: &[String],
    meter: &Meter,
    reader: &mut I,
    writer: &mut O,
    errors: &mut E,
) -> Status {
    let alloc = rt.alloc();
    match read_words(alloc, words) {
        Ok(Action::Offline(what)) => run_offline(rt, what, meter, reader, writer, errors),
        Ok(
            Action::Replay {
                file,
                only_leg,
                only_endpoint,
                from,
                events,
                gaps,
                utc,
                other_settings,
            },
        ) => {
            let shown = Shown {
                only_leg,
                only_endpoint,
                from_ms: from.unwrap_or(0),
                events,
                gaps_ms: gaps,
                utc,
            };
            let status = run_replay(
                rt,
                file,
                shown,
                other_settings,
                meter,
                reader,
                writer,
                errors,
            );
            explain_replay(rt, file, status, errors);
            status
        }
        Ok(_) => say(
            errors,
            b"this program does not serve\n",
            Status::CommandLine,
        ),
        Err(error) => refuse_words(alloc, errors, &error),
    }
}

/// The words of the command line, the program's name first.
fn words_of<R: Env + AllocGlobal>(rt: &R) -> io::Result<Vec<String>> {
    let words = env::args(rt)?.collect(rt.alloc())?;
    Ok(words)
}
