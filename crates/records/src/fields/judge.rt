// What is wrong with a record that was read, when n of its kind came before it: 2 past a limit, then 3 wrong bits or no heading, then 5, else 0.
ghost use Rattle.std.specs.Prelude.{◌≡◌, ◌&&◌, ◌||◌, not, ◌<◌, leb};
ghost use Rattle.records.specs.code.Passes.{judgement, full_judgement};

fn past(n: usize, limit: usize, over: bool) -> bool
    ensures { result ≡ (leb limit n || over) }
{
    if limit <= n {
        return true;
    }
    over
}

fn unsuited(fits: bool, headed: bool) -> bool
    ensures { result ≡ not (fits && headed) }
{
    if fits {
        return !headed;
    }
    true
}

// of a kind that has no other limit, and no other rule that could be broken
pub fn judged(n: usize, limit: usize, fits: bool, headed: bool) -> u8
    ensures { (result ≡ judgement n limit (fits && headed)) × (result ≡ 0 → n < limit) }
{
    judged_fully(n, limit, false, fits, headed, true)
}

// of facts and cuts. `over`: past the limit of unresolved decisions; `sound`: facts rise, an edge is decided once
pub fn judged_fully(n: usize, limit: usize, over: bool, fits: bool, headed: bool, sound: bool) -> u8
    ensures { (result ≡ full_judgement n limit over (fits && headed) sound) × (result ≡ 0 → n < limit) }
{
    let late = past(n, limit, over);
    let unfit = unsuited(fits, headed);
    if late {
        return 2;
    }
    if unfit {
        return 3;
    }
    if sound { 0 } else { 5 }
}
