// The lift program: reads a text of tables from standard input, and prints the lift firm's copy of its
// listing. Its arguments are the numbers of the hidden attributes. What it prints is what `copies::lift_copy`
// promises; here are only the calls that read and write. Where an argument is no number or a read fails nothing
// is printed, and where a write fails the last line is not printed whole.
#![tactic(auto)]

use boxes::MAX_ATTRIBUTES;
use copies::{NoRoom, lift_copy};
use fields::{number_in, put_value};
use std::env::FillError;
use std::io;
use std::rt::Env;
use streams::{read_all, write_page};
use text::{MAX_BYTES, PAGE_BYTES};

// No attribute has this number.
const NO_ATTRIBUTE: u16 = 65535;

// Keeps each number that can be an attribute's, and answers whether all arguments are numbers. The first argument
// is the program's name. One that has no room here is no number.
fn read_numbers(rt: &impl Env, numbers: &mut [u16]) -> bool {
    for place in 1..usize::MAX {
        let mut bytes = [0u8; 8];
        let number = match rt.arg(place, &mut bytes) {
            Ok(count) => number_in(&bytes[..count]),
            Err(FillError::TooLong) => None,
            Err(FillError::NotPresent) => return true,
        };
        let Some(value) = number else {
            return false;
        };
        put_value(numbers, value as usize, value);
    }
    true
}

// Writes the copy for a text. No copy is longer than a page (`copied-short` of `copies`).
fn write_copy(rt: &(impl Print + Eprint), text: &[u8], hidden: &[u16]) {
    let mut page = [0u8; PAGE_BYTES];
    let (Ok(bytes) | Err(NoRoom { bytes })) = lift_copy(text, hidden, &mut page);
    if write_page(&mut io::writer(rt), &page, bytes as usize).is_err() {
        let _ = eprintln!(rt; "lift: the copy cannot be written");
    }
}

// Reads the text and writes its copy. One byte more than a text may have is read, so that a longer one is
// seen to be longer.
fn copy_input(rt: &HostRuntime, hidden: &[u16]) {
    let mut bytes = [0u8; MAX_BYTES + 1];
    match read_all(&mut rt.stdin(), &mut bytes) {
        Ok(count) => write_copy(rt, &bytes[..count], hidden),
        Err(_) => {
            let _ = eprintln!(rt; "lift: the input cannot be read");
        }
    }
}

fn main(rt: HostRuntime) {
    let mut numbers = [NO_ATTRIBUTE; MAX_ATTRIBUTES];
    if read_numbers(&rt, &mut numbers) {
        copy_input(&rt, &numbers);
    } else {
        let _ = eprintln!(rt;
            "lift: an argument is no number from 0 to 65,535 without leading zeros"
        );
    }
}
