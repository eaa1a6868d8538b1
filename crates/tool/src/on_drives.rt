// The commands over routines, traces and drives.
use files::say::Failure;
use std::io::Input;
use std::rt::Files;

// Runs one of them on the words behind it. Whether something was refused and said that did not end it.
pub(crate) fn run<'a>(
    rt: &(impl Files + Input + Print + Eprint),
    command: &str,
    words: &'a [String],
) -> Result<bool, Failure<'a>> {
    match command {
        "reverse" => drives::reverse_lines(rt, words)?,
        "stack" => drives::measure_stack(rt, words)?,
        "replay" => drives::replay_trace(rt, words)?,
        "cover" => {
            return drives::cover_map(rt, words);
        }
        _ => {
            return Err(Failure::Misused(crate::USAGE));
        }
    }
    Ok(false)
}
