// Runs the compiled arithmetic on values from outside, which standard input lists, and writes for
// each kind of value how many cases there were and how many differ.
// `tests/make_float_vectors.py` makes the list and describes its records. A read or a write
// that fails ends the program with its error.
#![tactic(auto)]

mod kinds;
mod tallies;
mod verdicts;

use kinds::KINDS;
use std::io;
use std::io::Read;
use tallies::tally_of;
use verdicts::RECORD_SIZE;

// A line for each kind. The last is for records of none of them, which all count as differing.
fn write_tallies(rt: &impl Print, s: &[u8]) -> io::Result<()> {
    for kind in KINDS {
        println!(rt; "{kind} {}", tally_of(s, Some(kind)))?;
    }
    println!(rt; "unknown {}", tally_of(s, None))
}

// A list that ends within a record is no list: nothing of it is counted.
fn write_report(rt: &impl Print, s: &[u8]) -> io::Result<()> {
    if s.len() % RECORD_SIZE != 0 {
        return println!(rt; "the last record is torn");
    }
    write_tallies(rt, s)
}

fn main(rt: HostRuntime) -> io::Result<()> {
    let mut input = rt.reader();
    let mut list = Vec::new(rt.alloc());
    input.by_ref().take(65_536).read_to_end(&mut list)?;
    // Only at the end of the input does one more read give 0.
    let mut more = [0u8; 1];
    if input.read(&mut more)? != 0 {
        return println!(rt; "the list was not read to its end");
    }
    write_report(&rt, &list)
}
