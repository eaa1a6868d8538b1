// Arguments: what looks like an option, and the names of files.
use files::say::Failure;
use std::io;

// Whether an argument looks like an option. One of more than 64 bytes is none.
pub(crate) fn is_option(word: &str) -> bool {
    word.len() <= 64 && word.starts_with('-')
}

// The system's error number for a file name that is too long.
const TOO_LONG: i32 = 36;

// A path has at most so many bytes.
pub(crate) const LONGEST: usize = 4096;

// An argument that names a file is a path.
pub(crate) fn file_name<'a>(word: &'a str) -> Result<&'a str, Failure<'a>> {
    if LONGEST < word.len() {
        return Err(Failure::System {
            name: "argument",
            error: io::Error::from_raw_os_error(TOO_LONG),
        });
    }
    Ok(word)
}
