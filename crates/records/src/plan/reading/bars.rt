// Bars: one record from its bit map on, and the pass over all of them.
ghost use Rattle.std.specs.Prelude.{◌≡◌, [], ◌≤◌, ◌+◌, length};
ghost use Rattle.records.specs.paper.Plan.{plan_formats};
ghost use Rattle.records.specs.code.Readers.{map_read};
ghost use Rattle.records.specs.code.Passes.{raw_of, with_bits, Passed};
ghost use Rattle.records.specs.paper.Plan.{bar_from};
ghost use Rattle.records.specs.code.PlanPasses.{plan_reading, bar_read, with_bars};
ghost use Rattle.records.specs.code.Decoded.{bars_of};

use crate::fields::judge::judged;
use crate::fields::passing::{Passing, refused};
use crate::fields::{CITATION, Field, Wide, byte_at, mask_at, opt_at};
use crate::plan::{Bar, Bars};

// The bits, the bar, and the place after it.
#[derive(Drop)]
pub enum BarSeen {
    Got(u8, Bar, usize),
    Bad,
}

pub fn bar_at(s: &[u8], at: usize) -> BarSeen
    ensures { bar_read result ≡ map_read (with_bits bar_from) (raw_of plan_formats 7 s.now at) }
{
    let Field::Got(bits, p) = byte_at(s, at, 0, 255) else {
        return BarSeen::Bad;
    };
    let Wide::Got(members, p0) = mask_at(s, p, bits % 2 == 1) else {
        return BarSeen::Bad;
    };
    let Field::Got(condition, p1) = opt_at(s, p0, bits / 2 % 2 == 1, 0, 255) else {
        return BarSeen::Bad;
    };
    let Field::Got(citation, next) = opt_at(s, p1, bits / 4 % 2 == 1, 0, CITATION) else {
        return BarSeen::Bad;
    };
    if bits / 8 == 0 {
        let bar = Bar {
            members: members,
            condition: condition,
            citation: citation,
        };
        return BarSeen::Got(bits, bar, next);
    }
    BarSeen::Bad
}

#[derive(Drop)]
pub struct BarsRead {
    pub next: Passing,
    pub bars: Bars,
}

pub fn no_bars() -> Bars
    ensures { (bars_of result ≡ []) × (result.count ≡ 0) × (length result.items ≡ 32) }
{
    let blank = Bar {
        members: 0,
        condition: 0,
        citation: 0,
    };
    Bars {
        count: 0,
        items: [blank; 32],
    }
}

pub fn read_bars(s: &[u8], from: Passing) -> BarsRead
    requires { from.record ≤ from.at }
    ensures { Passed plan_reading with_bars 7 s.now from result.next (bars_of result.bars)
        × (result.next.record ≤ result.next.at) × (result.next.headed ≡ from.headed) }
{
    let mut bars = no_bars();
    let mut here = from;
    while here.at < s.len() && here.number == 0 {
        let at = here.at;
        if s[at] != 7 {
            break;
        }
        let BarSeen::Got(bits, bar, next) = bar_at(s, at + 1) else {
            return BarsRead {
                next: refused(here, 1),
                bars: bars,
            };
        };
        let n = bars.count;
        here.number = judged(n, 32, bits & 7 == 7, from.headed);
        if here.number != 0 {
            break;
        }
        bars.items[n] = bar;
        bars.count = n + 1;
        here.at = next;
        here.record = here.record + 1;
    }
    BarsRead {
        next: here,
        bars: bars,
    }
}
