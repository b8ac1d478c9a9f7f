// Calls and the replies to them, written as tables. A row is ten numbers without names, so that it stays one line.
ghost use Rattle.std.specs.Prelude.{◌≡◌, length};
ghost use Rattle.harness.specs.Script.{both, cell_of, call_at, reply_at, played_call, played_row, played, played_in};

use crate::calls::{Call, Kind, Reply};
use crate::{calls, report};
use raw::words;
use store::{to_index, word};

// The first number of a row that makes no call: the word at the second number gets the third.
const POKE: u32 = 9;

// A number of a table, 0 outside it.
pub fn cell(rows: &[[u32; 10]], i: usize, j: usize) -> u32
    ensures { result ≡ cell_of rows.now i j }
{
    if i < rows.len() {
        return word(&rows[i], j);
    }
    0
}

// The call of a row: kind and four numbers.
pub fn call_at(rows: &[[u32; 10]], i: usize) -> Call
    ensures { result ≡ call_at rows.now i }
{
    Call {
        kind: Kind::from(cell(rows, i, 0)),
        a: cell(rows, i, 1),
        b: cell(rows, i, 2),
        c: cell(rows, i, 3),
        d: cell(rows, i, 4),
    }
}

// The reply of a row: number and four values.
pub fn reply_at(rows: &[[u32; 10]], i: usize) -> Reply
    ensures { result ≡ reply_at rows.now i }
{
    Reply {
        number: cell(rows, i, 5),
        a: cell(rows, i, 6) as u64,
        b: cell(rows, i, 7) as u64,
        c: cell(rows, i, 8) as u64,
        d: cell(rows, i, 9) as u64,
    }
}

// Makes a call and compares its reply. A range's third number is the words of its output.
fn play_call(rt: &impl Print, store: &mut [u32], call: Call, expected: Reply, tally: &mut [u64])
    ensures { let p = played_call (both store.old tally.old) call expected in
        (store.new ≡ p.store) × (tally.new ≡ p.tally) }
{
    let outcome = calls::watched_in(store, to_index(call.c), call);
    report::judge_outcome(rt, tally, expected, outcome);
}

// Makes the call of a row, or writes its word.
fn play_row(rt: &impl Print, rows: &[[u32; 10]], i: usize, store: &mut [u32], tally: &mut [u64])
    ensures { let p = played_row rows.now (both store.old tally.old) i in
        (store.new ≡ p.store) × (tally.new ≡ p.tally) }
{
    if cell(rows, i, 0) == POKE {
        words::put(store, to_index(cell(rows, i, 1)), cell(rows, i, 2));
        return;
    }
    play_call(rt, store, call_at(rows, i), reply_at(rows, i), tally);
}

// Plays the rows of a table one after the other.
pub fn play(rt: &impl Print, rows: &[[u32; 10]], store: &mut [u32], tally: &mut [u64])
    ensures { let rs = rows.now in
        let p = played rs (both store.old tally.old) 0 (length rs) in
        (store.new ≡ p.store) × (tally.new ≡ p.tally) }
{
    for i in 0..rows.len() {
        play_row(rt, rows, i, store, tally);
    }
}

// The same on the first n words of a store.
pub fn play_in(rt: &impl Print, rows: &[[u32; 10]], store: &mut [u32], n: usize, tally: &mut [u64])
    ensures { let p = played_in rows.now (both store.old tally.old) n in
        (store.new ≡ p.store) × (tally.new ≡ p.tally) }
{
    if n <= store.len() {
        play(rt, rows, &mut store[0..n], tally);
    }
}
