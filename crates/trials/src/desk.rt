// Group 1: the desk checks that are not proved.
use harness::calls::{Call, Reply};
use harness::{calls, report, script};
use store::to_index;

// On a store of 68 words: limits of set-up, a lease of 36,526 days, key 0, low = high, outputs of 0, 3, 4, 11 and 12 words.
const CALLS: [[u32; 10]; 33] = [
    [0, 0, 1, 4, 4, 4, 0, 0, 0, 0],
    [0, 7, 1, 4, 4, 4, 0, 0, 0, 0],
    [0, 1, 0, 4, 4, 4, 0, 0, 0, 0],
    [0, 1, 25, 4, 4, 4, 0, 0, 0, 0],
    [0, 1, 1, 0, 4, 4, 0, 0, 0, 0],
    [0, 1, 1, 4097, 4, 4, 0, 0, 0, 0],
    [0, 1, 1, 4, 0, 4, 0, 0, 0, 0],
    [0, 1, 1, 4, 4097, 4, 0, 0, 0, 0],
    [0, 6, 24, 4096, 4096, 5, 0, 0, 0, 0],
    [0, 1, 1, 4, 4, 0, 68, 0, 0, 0],
    [2, 0, 0, 0, 0, 1, 0, 0, 0, 0],
    [3, 0, 0, 0, 0, 1, 0, 0, 0, 0],
    [1, 2147483648, 1250000, 36525, 66000, 0, 2147483648, 1, 1, 1],
    [1, 3221225472, 90000, 0, 0, 0, 3221225472, 2, 3, 2],
    [1, 1073741824, 60000, 9131, 45999, 0, 1073741824, 2, 3, 3],
    [1, 5, 1, 36526, 0, 6, 0, 0, 0, 0],
    [6, 1, 36526, 0, 0, 6, 0, 0, 0, 0],
    [6, 1250000, 36525, 66000, 46001, 0, 684462, 0, 0, 0],
    [2, 0, 0, 0, 0, 1, 0, 0, 0, 0],
    [2, 3221225472, 0, 0, 0, 0, 3221225472, 90000, 0, 0],
    [3, 0, 0, 0, 0, 0, 1073741824, 60000, 9131, 45999],
    [3, 4294967295, 0, 0, 0, 1, 0, 0, 0, 0],
    [4, 3221225472, 3221225472, 64, 0, 0, 1, 0, 0, 0],
    [4, 5, 5, 64, 0, 0, 0, 0, 0, 0],
    [
        5, 2147483648, 2147483648, 46000, 0, 0, 1, 684496, 2147483648, 0,
    ],
    [5, 3221225472, 3221225472, 46000, 0, 0, 1, 0, 0, 0],
    [5, 5, 5, 46000, 0, 0, 0, 0, 0, 0],
    [5, 1, 4294967295, 46000, 0, 0, 3, 684496, 1073741824, 0],
    [4, 1, 4294967295, 0, 0, 0, 0, 1073741824, 0, 0],
    [4, 1, 4294967295, 3, 0, 0, 0, 1073741824, 0, 0],
    [4, 1, 4294967295, 4, 0, 0, 1, 2147483648, 0, 0],
    [4, 1, 4294967295, 11, 0, 0, 2, 3221225472, 0, 0],
    [4, 1, 4294967295, 12, 0, 0, 3, 0, 0, 0],
];

// Set-ups, each with the size as its reply.
const SIZES: [[u32; 10]; 5] = [
    [0, 1, 1, 4, 4, 0, 68, 0, 0, 0],
    [0, 1, 1, 1, 1, 0, 29, 0, 0, 0],
    [0, 6, 24, 1, 1, 0, 245, 0, 0, 0],
    [0, 3, 5, 10, 7, 0, 363, 0, 0, 0],
    [0, 6, 24, 60, 30, 0, 10846, 0, 0, 0],
];

// Makes a call on the first n words of a store.
fn call_in(
    rt: &impl Print,
    store: &mut [u32],
    n: usize,
    call: Call,
    expected: Reply,
    tally: &mut [u64],
) {
    if n > store.len() {
        return;
    }
    let outcome = calls::watched_in(&mut store[0..n], 0, call);
    report::judge_outcome(rt, tally, expected, outcome);
}

// A store of the size is set up, and one that is a word shorter is not.
fn size_row(rt: &impl Print, i: usize, store: &mut [u32], tally: &mut [u64]) {
    let rows = SIZES;
    let call = script::call_at(&rows, i);
    let n = to_index(script::cell(&rows, i, 6));
    call_in(rt, store, n, call, script::reply_at(&rows, i), tally);
    call_in(
        rt,
        store,
        n.saturating_sub(1),
        call,
        calls::refusal(5),
        tally,
    );
}

fn sizes(rt: &impl Print, store: &mut [u32], tally: &mut [u64]) {
    for i in 0..SIZES.len() {
        size_row(rt, i, store, tally);
    }
}

fn sample(rt: &impl Print, store: &mut [u32], tally: &mut [u64]) {
    let rows = CALLS;
    script::play_in(rt, &rows, store, 68, tally);
}

pub fn run(rt: &impl Print, store: &mut [u32], tally: &mut [u64]) {
    report::start(tally, 1);
    sizes(rt, store, tally);
    sample(rt, store, tally);
    report::finish(rt, tally, b"desk checks");
}
