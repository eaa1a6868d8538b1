// Room for an image: 512 KiB where its file is no longer, else 8,388,608 bytes.
use crate::routines::measure_in;
use crate::traces::replay_in;
use files::say::Failure;
use std::fs;
use std::io::{Input, Seek, SeekFrom};
use std::rt::Files;

// What is done with the image of a file of this name.
#[derive(Clone, Copy)]
pub(crate) enum Work<'a> {
    Stack {
        name: &'a str,
        reduced: bool,
        entry: usize,
    },
    Replay {
        board: &'a str,
        trace: &'a str,
    },
}

fn do_work<'a>(
    rt: &(impl Files + Input + Print),
    room: &mut [u8],
    work: Work<'a>,
) -> Result<(), Failure<'a>> {
    match work {
        Work::Stack {
            name,
            reduced,
            entry,
        } => measure_in(rt, &mut *room, name, reduced, entry),
        Work::Replay { board, trace } => replay_in(rt, &mut *room, board, trace),
    }
}

// It stays a function of its own, so that no other command has these bytes on its stack.
#[inline(never)]
fn in_small_room<'a>(rt: &(impl Files + Input + Print), work: Work<'a>) -> Result<(), Failure<'a>> {
    let mut room = [0u8; 524288];
    do_work(rt, &mut room, work)
}

// The same for these 8 MiB.
#[inline(never)]
fn in_large_room<'a>(rt: &(impl Files + Input + Print), work: Work<'a>) -> Result<(), Failure<'a>> {
    let mut room = [0u8; 8388608];
    do_work(rt, &mut room, work)
}

// Whether a file has at most 524,288 bytes, as far as can be told without reading it.
fn is_small(rt: &impl Files, name: &str) -> bool {
    match fs::open(rt, name) {
        Ok(file) => {
            let mut file = file;
            match file.seek(SeekFrom::End(0)) {
                Ok(end) => end <= 524288,
                Err(_) => false,
            }
        }
        Err(_) => false,
    }
}

// The work is done on the image of the file of this name.
pub(crate) fn lend_room<'a>(
    rt: &(impl Files + Input + Print),
    name: &str,
    work: Work<'a>,
) -> Result<(), Failure<'a>> {
    if is_small(rt, name) {
        in_small_room(rt, work)
    } else {
        in_large_room(rt, work)
    }
}
