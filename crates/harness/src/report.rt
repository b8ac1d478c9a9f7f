// What was tried, counted in a lent tally, and printed: a line for a group, and one for each trial that failed.
ghost use Rattle.std.specs.Prelude.{◌≡◌, leb};
ghost use Rattle.std.proofs.Math.ListN;
ghost use Rattle.store.specs.Head.{word};
ghost use Rattle.harness.specs.Tally.{counted, answer_place, started, tried, compared, judged, judged_outcome};

use crate::calls::{Outcome, Reply};

// The places of a tally: the group's number, the trials, those that failed, the entries accepted, and from MET on the answers by their numbers.
pub const GROUP: usize = 0;

pub const TRIED: usize = 1;

pub const FAILED: usize = 2;

pub const ENTRIES: usize = 3;

pub const MET: usize = 4;

// Failures that are printed of a group.
const SHOWN: u64 = 10;

// A count of the tally.
pub fn count(tally: &[u64], i: usize) -> u64
    ensures { result ≡ word tally.now i }
{
    if i < tally.len() {
        return tally[i];
    }
    0
}

fn set(tally: &mut [u64], i: usize, value: u64)
    ensures { tally.new ≡ ListN.set tally.old i value }
{
    if i < tally.len() {
        tally[i] = value;
    }
}

// Adds one to a count; one at its top stays.
pub fn add(tally: &mut [u64], i: usize)
    ensures { tally.new ≡ counted tally.old i }
{
    set(tally, i, count(tally, i).saturating_add(1));
}

fn answer_place(number: u32) -> usize
    ensures { result ≡ answer_place number }
{
    MET + (number % 12) as usize
}

// Starts a group: all counts are 0.
pub fn start(tally: &mut [u64], group: u64)
    ensures { tally.new ≡ started tally.old group }
{
    tally.fill(0);
    set(tally, GROUP, group);
}

// Counts a failure; whether it is to be printed, with the start of its line.
fn failure(rt: &impl Print, tally: &mut [u64]) -> bool
    ensures { (result ≡ leb (word (counted tally.old 2) 2) 10) × (tally.new ≡ counted tally.old 2) }
{
    add(tally, FAILED);
    if count(tally, FAILED) > SHOWN {
        return false;
    }
    let group = count(tally, GROUP);
    let trial = count(tally, TRIED);
    let _ = print!(rt; "  group {group}, trial {trial}: ");
    true
}

// A trial of a fact. (Out of line: where it stands in each caller, a call that is watched is not.)
#[inline(never)]
pub fn hold(rt: &impl Print, tally: &mut [u64], holds: bool, fact: &[u8])
    ensures { tally.new ≡ tried tally.old holds }
{
    add(tally, TRIED);
    if !holds {
        if failure(rt, tally) {
            let _ = print!(rt; "expected that ");
            let _ = rt.write_all(fact);
            let _ = println!(rt; ", got that not");
        }
    }
}

// A trial of a value that is not a call's answer.
pub fn compare(rt: &impl Print, tally: &mut [u64], expected: Reply, got: Reply)
    ensures { tally.new ≡ compared tally.old expected got }
{
    add(tally, TRIED);
    if expected != got {
        if failure(rt, tally) {
            let _ = println!(rt; "expected {expected}, got {got}");
        }
    }
}

// A trial of a reply.
pub fn judge(rt: &impl Print, tally: &mut [u64], expected: Reply, got: Reply)
    ensures { tally.new ≡ judged tally.old expected got }
{
    add(tally, answer_place(got.number));
    compare(rt, tally, expected, got);
}

// A trial of a reply, and of the words that the call may not change.
pub fn judge_outcome(rt: &impl Print, tally: &mut [u64], expected: Reply, got: Outcome)
    ensures { tally.new ≡ judged_outcome tally.old expected got }
{
    let reply = got.reply;
    judge(rt, tally, expected, reply);
    hold(rt, tally, got.kept, b"the words stay");
}

// Prints how many answers had a number, if any.
fn say_count(rt: &impl Print, tally: &[u64], number: u32) {
    let n = count(tally, answer_place(number));
    if n > 0 {
        let _ = print!(rt; " {number}:{n}");
    }
}

fn say_counts(rt: &impl Print, tally: &[u64]) {
    for number in 0..12u32 {
        say_count(rt, tally, number);
    }
}

fn say_entries(rt: &impl Print, tally: &[u64]) {
    let n = count(tally, ENTRIES);
    if n > 0 {
        let _ = print!(rt; ", entries accepted {n}");
    }
}

// Prints a group's line.
pub fn finish(rt: &impl Print, tally: &[u64], name: &[u8]) {
    let group = count(tally, GROUP);
    let tried = count(tally, TRIED);
    let failed = count(tally, FAILED);
    let _ = print!(rt; "{group} ");
    let _ = rt.write_all(name);
    let _ = print!(rt; ": tried {tried}, failed {failed}");
    say_entries(rt, tally);
    let _ = print!(rt; ", answers");
    say_counts(rt, tally);
    let _ = println!(rt);
}
