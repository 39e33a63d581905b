// Replays a stored list of sheets, which standard input holds, against `sheet::check` and the entries
// of `estimates`, and writes how many cases there were of each kind and how many differ.
// `rust/list` makes the list, and `tests/make_sheet_cases.py` describes its commands. A read or a write
// that fails ends the program with its error.
#![tactic(auto)]

mod claims;
mod entries;

use sheet_claims::commands::{COMMAND_SIZE, Kind};
use sheet_claims::stores::store;
use sheet_claims::tallies::{Tally, raise, tally_of};
use sheet_claims::{LINE_COUNT, LINES};
use std::alloc::Global;
use std::io;
use std::io::{BufReader, Read};

// The two buffers that commands store in, and the tallies of the report's lines.
#[derive(Drop)]
struct Replay {
    sheet: Vec<u8>,
    answer: Vec<u8>,
    tallies: [Tally; LINE_COUNT],
}

// Where a replay stops: at the end of the list, within a command, or behind as many as it takes.
#[derive(Clone, Copy, PartialEq, Eq)]
enum Stop {
    End,
    Torn,
    Limit,
}

impl Replay {
    // One command: its verdict on the two buffers as they stand, and then what it stores.
    fn replay_one(&mut self, command: &[u8]) {
        let verdict = claims::judge(&self.sheet, &self.answer, command);
        raise(&mut self.tallies, verdict);
        store(Kind::Store, &mut self.sheet, command);
        store(Kind::StoreAnswer, &mut self.answer, command);
    }

    // The commands up to the first that is not there whole, and 1,000,000 at most.
    fn replay<R: Read>(&mut self, alloc: Global, input: &mut R) -> io::Result<Stop> {
        let mut command = Vec::new(alloc);
        for _ in 0..1_000_000 {
            command.clear();
            let n = input
                .by_ref()
                .take(COMMAND_SIZE as u64)
                .read_to_end(&mut command)?;
            if n == 0 {
                return Ok(Stop::End);
            }
            if n < COMMAND_SIZE {
                return Ok(Stop::Torn);
            }
            self.replay_one(&command);
        }
        Ok(Stop::Limit)
    }

    fn write_tallies(&self, rt: &impl Print) -> io::Result<()> {
        for line in LINES {
            println!(rt; "{line}: {}", tally_of(&self.tallies, line))?;
        }
        Ok(())
    }
}

// Says where the list was left, unless that was at its end. Only at the end does one more read
// give 0.
fn write_end<R: Read>(rt: &impl Print, input: &mut R, stop: Stop) -> io::Result<()> {
    if stop == Stop::Limit {
        return println!(rt; "the list is too long");
    }
    let mut more = [0u8; 1];
    if input.read(&mut more)? != 0 {
        return println!(rt; "the list was not read to its end");
    }
    if stop == Stop::Torn {
        return println!(rt; "the last command is torn");
    }
    Ok(())
}

fn main(rt: HostRuntime) -> io::Result<()> {
    let mut input = BufReader::new(rt.alloc(), rt.reader())?;
    let mut replay = Replay {
        sheet: vec![in rt.alloc(); 0u8; 65_536]?,
        answer: vec![in rt.alloc(); 0u8; 65_536]?,
        tallies: [Tally::default(); LINE_COUNT],
    };
    let stop = replay.replay(rt.alloc(), &mut input)?;
    write_end(&rt, &mut input, stop)?;
    replay.write_tallies(&rt)
}
