// The lister: prints the table of plan.bin and case.bin in the folder in which it runs, or their refusal.
//
// A file that is longer than its buffer is listed as its beginning is, and so would the whole file be: `listing_beginning` in
// crates/listing/proofs/Beginning.antt, as 16,384 bytes are no fewer than 15,846 and 3,829 (`rooms`). No text is cut, as none is longer than
// 13,216 bytes: `Listed` in crates/listing/specs/Shown.antt.
#![tactic(auto)]

mod load;

use listing::list::list;
use load::load;
use report::event::EVENT;
use report::line::LINE;
use std::io;
use std::io::Write;

// The buffers hold 64 lines and 4,096 events.
fn print(rt: &HostRuntime, plan: &[u8], case: &[u8]) -> io::Result<()> {
    let mut lines = [0u8; 64 * LINE];
    let mut events = [0u8; 4096 * EVENT];
    let mut out = [0u8; 16384];
    let n = list(plan, case, &mut lines, &mut events, &mut out);
    rt.stdout().write_all(&out[..n])
}

fn main(rt: HostRuntime) -> io::Result<()> {
    let mut plan = [0u8; 16384];
    let first = load(&rt, "plan.bin", &mut plan);
    if !first.loaded {
        return Ok(());
    }
    let mut case = [0u8; 16384];
    let second = load(&rt, "case.bin", &mut case);
    if !second.loaded {
        return Ok(());
    }
    let m = first.count;
    let n = second.count;
    print(&rt, &plan[..m], &case[..n])
}
