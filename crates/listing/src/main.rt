// The listing program: reads a text of tables from standard input, and prints the listing of their
// natural join. What it prints is what `text::list_text` promises; here are only the calls that read
// and write. Where a read fails nothing is printed, and where a write fails the last line is not printed
// whole.
#![tactic(auto)]

use std::io;
use streams::{read_all, write_page};
use text::{MAX_BYTES, PAGE_BYTES};

// Prints what is printed for a text. No print is longer than a page (`printed-short` of `text`).
fn print_listing(rt: &(impl Print + Eprint), text: &[u8]) {
    let mut page = [0u8; PAGE_BYTES];
    let size = text::list_text(text, &mut page);
    if write_page(&mut io::writer(rt), &page, size).is_err() {
        let _ = eprintln!(rt; "listing: the listing cannot be written");
    }
}

// One byte more than a text may have is read, so that a longer one is seen to be longer.
fn main(rt: HostRuntime) {
    let mut bytes = [0u8; MAX_BYTES + 1];
    match read_all(&mut rt.stdin(), &mut bytes) {
        Ok(count) => print_listing(&rt, &bytes[..count]),
        Err(_) => {
            let _ = eprintln!(rt; "listing: the input cannot be read");
        }
    }
}
