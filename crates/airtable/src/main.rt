// The program `airtable`: reads four lines from standard input and prints the listing that `listing` makes of them. It gives no exit status, so it
// says on standard error what it could not read or write.
#![tactic(auto)]

use listing::limits::{INPUT_SIZE, OUTPUT_SIZE};
use listing::respond::respond;
use std::io;
use std::io::Read;

// Reads to the end, or until the buffer is full, and returns how many bytes that is. One read that fails, or that a signal interrupts, is a failure,
// whatever came before it: so no method of the library does, since those read again after a signal.
fn receive<R: Read>(reader: &mut R, input: &mut [u8]) -> io::Result<usize> {
    let mut done: usize = 0;
    while done < input.len() {
        match reader.read(&mut input[done..])? {
            0 => break,
            more => done += more,
        }
    }
    Ok(done)
}

// Prints the answer to the first `got` bytes.
fn answer(rt: &(impl Print + Eprint), input: &[u8; INPUT_SIZE], got: usize) {
    let mut output = [0u8; OUTPUT_SIZE];
    let size = respond(input, got, &mut output);
    if rt.write_all(&output[..size]).is_err() {
        let _ = eprintln!(rt; "airtable: cannot write standard output");
    }
}

// Reads the input and answers it, or says that it could not be read.
fn main(rt: HostRuntime) {
    let mut input = [0u8; INPUT_SIZE];
    match receive(&mut rt.stdin(), &mut input) {
        Ok(got) => answer(&rt, &input, got),
        Err(_) => {
            let _ = eprintln!(rt; "airtable: cannot read standard input");
        }
    }
}
