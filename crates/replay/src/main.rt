// Runs the vectors of vectors.txt, pools.txt, tables.txt and lists.txt, one a line, and says of each list how many agree: what an operation answers, and
// what it writes in the buffers lent to it, is compared with what the line expects. A line that is no vector differs.
#![tactic(auto)]

mod lent;
mod listed;
mod pooled;
mod scan;
mod tally;
mod trial;
mod vector;

ghost use Rattle.std.specs.Prelude.{◌≤◌, length, IfOk};

use scan::Scan;
use std::fs::File;
use std::io;
use std::io::Read;
use tally::Tally;
use trial::agrees;
use vector::{fields, known};

// What has been read of a line, and the counts so far.
#[derive(Drop)]
struct Run {
    scan: Scan,
    empty: bool,
    tally: Tally,
}

// Whether a whole line was read, and agrees.
fn verdict(scan: Scan, store: &[u8], lines: &mut [u8], events: &mut [u8]) -> bool {
    let done = scan.end_field();
    if done.broken {
        return false;
    }
    let vector = done.vector;
    if !known(vector.op) {
        return false;
    }
    if done.field != fields(vector.op) {
        return false;
    }
    agrees(vector, store, lines, events)
}

fn feed(run: Run, b: u8, store: &mut [u8], lines: &mut [u8], events: &mut [u8]) -> Run {
    let scan = run.scan;
    let tally = run.tally;
    if b == b'\n' {
        return Run {
            scan: Scan::new(),
            empty: true,
            tally: tally.add(verdict(scan, store, lines, events)),
        };
    }
    Run {
        scan: scan.take(b, store),
        empty: false,
        tally: tally,
    }
}

fn feed_all(run: Run, chunk: &[u8], store: &mut [u8], lines: &mut [u8], events: &mut [u8]) -> Run {
    let mut now = run;
    for i in 0..chunk.len() {
        now = feed(now, chunk[i], store, lines, events);
    }
    now
}

// The end of the file ends a last line that has no line feed.
fn finish(run: Run, store: &mut [u8], lines: &mut [u8], events: &mut [u8]) -> Tally {
    if run.empty {
        return run.tally;
    }
    let last = feed(run, b'\n', store, lines, events);
    last.tally
}

// A chunk of a file, as long as the buffer where the file goes on.
fn read_full(file: &mut File, buf: &mut [u8]) -> io::Result<usize>
    ensures { IfOk result (λ n. n ≤ length buf.new) }
{
    let mut done: usize = 0;
    while done < buf.len() {
        let more = file.read(&mut buf[done..])?;
        if more == 0 {
            break;
        }
        done += more;
    }
    Ok(done)
}

// A proved loop has to end, and nothing says that a file does: the turns count down from a number that no run uses up.
fn replay(
    file: &mut File,
    store: &mut [u8],
    lines: &mut [u8],
    events: &mut [u8],
) -> io::Result<Tally> {
    let mut run = Run {
        scan: Scan::new(),
        empty: true,
        tally: Tally::new(),
    };
    let mut turns = u64::MAX;
    let mut more = true;
    while turns > 0 && more {
        let mut buf = [0u8; 65536];
        let n = read_full(file, &mut buf)?;
        run = feed_all(run, &buf[..n], store, lines, events);
        more = n == 65536;
        turns -= 1;
    }
    Ok(finish(run, store, lines, events))
}

fn replay_file(
    rt: &HostRuntime,
    file: &str,
    store: &mut [u8],
    lines: &mut [u8],
    events: &mut [u8],
) -> io::Result<Tally> {
    let mut opened = File::open(rt, file)?;
    replay(&mut opened, store, lines, events)
}

// A list and the counts of it; of a list that cannot be read, why.
fn replay_list(
    rt: &HostRuntime,
    file: &str,
    list: &str,
    store: &mut [u8],
    lines: &mut [u8],
    events: &mut [u8],
) -> io::Result<()> {
    match replay_file(rt, file, store, lines, events) {
        Ok(tally) => tally.print(rt, list),
        Err(error) => eprintln!(rt; "{file}: {error}"),
    }
}

fn main(rt: HostRuntime) -> io::Result<()> {
    let mut store = [0u8; 65536];
    let mut lines = [0u8; 65536];
    let mut events = [0u8; 65536];
    replay_list(&rt, "vectors.txt", "", &mut store, &mut lines, &mut events)?;
    replay_list(
        &rt,
        "pools.txt",
        "pools: ",
        &mut store,
        &mut lines,
        &mut events,
    )?;
    replay_list(
        &rt,
        "tables.txt",
        "tables: ",
        &mut store,
        &mut lines,
        &mut events,
    )?;
    replay_list(
        &rt,
        "lists.txt",
        "lists: ",
        &mut store,
        &mut lines,
        &mut events,
    )
}
