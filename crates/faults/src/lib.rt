// Group 5: a sound store broken in one rule at a time, and the answer of every operation.

#![tactic(auto)]

ghost use Rattle.std.specs.Prelude.{◌≡◌, length};
ghost use Rattle.harness.specs.Script.{both};
ghost use Rattle.faults.specs.Faults.{call_on, numbered_reply, answered_in, answers_from, broken, broken_row, broken_from, node_put};
ghost use Rattle.faults.specs.Faults.{path_put, levels_put, deep_put};

use harness::calls::{Call, Kind, Reply};
use harness::{calls, report, script};
use raw::blocks::Block;
use raw::{blocks, words};
use store::to_index;

const SIZE: usize = 184;

// The sound store, θ = 2, C = 2: page 1 at 000, page 2 at 001, null at 01, page 3 at 1. Node 1 (H = 2) and node 2 (H = 0) stand
// below the root, node 3 (H = 1).
const BUILD: [[u32; 10]; 6] = [
    [0, 2, 2, 8, 8, 0, 184, 0, 0, 0],
    [1, 1, 100, 10, 50, 0, 1, 1, 1, 1],
    [1, 268435456, 100, 10, 50, 0, 268435456, 1, 1, 1],
    [1, 536870912, 100, 10, 50, 0, 536870912, 2, 3, 2],
    [1, 2147483648, 100, 10, 50, 0, 2147483648, 2, 3, 3],
    [1, 3221225472, 100, 10, 50, 0, 3221225472, 2, 3, 3],
];

// The tables of rules. A row has a word (kind of block: 1 head, 2 node, 3 page; number; offset) and its value; a key, and the answers of
// find, next, range and summary from the key on, and enter. A row with key 0 goes with the next one.
const HEAD: [[u32; 10]; 28] = [
    [1, 0, 0, 0, 1, 3, 3, 3, 3, 3],
    [1, 0, 0, 7, 1, 3, 3, 3, 3, 3],
    [1, 0, 1, 0, 1, 3, 3, 3, 3, 3],
    [1, 0, 1, 25, 1, 3, 3, 3, 3, 3],
    [1, 0, 2, 0, 1, 3, 3, 3, 3, 3],
    [1, 0, 2, 4097, 1, 3, 3, 3, 3, 3],
    [1, 0, 2, 9, 1, 3, 3, 3, 3, 3],
    [1, 0, 3, 0, 1, 3, 3, 3, 3, 3],
    [1, 0, 3, 4097, 1, 3, 3, 3, 3, 3],
    [1, 0, 3, 9, 1, 3, 3, 3, 3, 3],
    [1, 0, 4, 0, 1, 3, 3, 3, 3, 3],
    [1, 0, 4, 9, 1, 3, 3, 3, 3, 3],
    [1, 0, 5, 9, 1, 3, 3, 3, 3, 3],
    [1, 0, 6, 0, 1, 3, 3, 3, 3, 3],
    [1, 0, 6, 4, 1, 3, 3, 3, 3, 3],
    [1, 0, 7, 0, 1, 3, 3, 3, 3, 3],
    [1, 0, 7, 17, 1, 3, 3, 3, 3, 3],
    [1, 0, 8, 1, 1, 3, 3, 3, 3, 3],
    [1, 0, 9, 1, 1, 3, 3, 3, 3, 3],
    [1, 0, 10, 1, 1, 3, 3, 3, 3, 3],
    [1, 0, 11, 1, 1, 3, 3, 3, 3, 3],
    [1, 0, 12, 1, 1, 3, 3, 3, 3, 3],
    [1, 0, 13, 1, 1, 3, 3, 3, 3, 3],
    [1, 0, 14, 1, 1, 3, 3, 3, 3, 3],
    [1, 0, 15, 1, 1, 3, 3, 3, 3, 3],
    // Nothing broken.
    [1, 0, 0, 2, 1, 0, 0, 0, 0, 8],
    [1, 0, 0, 2, 536870912, 0, 0, 0, 0, 8],
    [1, 0, 0, 2, 3221225472, 0, 1, 0, 0, 8],
];

const NODES: [[u32; 10]; 35] = [
    // H above θ; level; links out of range.
    [2, 1, 0, 3, 1, 9, 9, 9, 9, 9],
    [2, 1, 1, 0, 1, 9, 9, 9, 9, 9],
    [2, 1, 1, 2, 1, 9, 9, 9, 9, 9],
    [2, 1, 2, 4, 1, 9, 9, 9, 9, 9],
    [2, 1, 3, 4, 1, 9, 9, 9, 9, 9],
    // A run that is not constant, in pointer and in depth; one that is not aligned.
    [2, 1, 11, 3, 1, 9, 9, 9, 9, 9],
    [2, 1, 10, 2, 1, 9, 9, 9, 9, 9],
    [2, 1, 6, 1, 0, 0, 0, 0, 0, 0],
    [2, 1, 8, 1, 0, 0, 0, 0, 0, 0],
    [2, 1, 9, 2, 0, 0, 0, 0, 0, 0],
    [2, 1, 10, 2, 1, 9, 9, 9, 9, 9],
    // h above H; the largest h below H.
    [2, 1, 4, 3, 1, 9, 9, 9, 9, 9],
    [2, 1, 4, 1, 0, 0, 0, 0, 0, 0],
    [2, 1, 6, 1, 0, 0, 0, 0, 0, 0],
    [2, 1, 7, 1, 1, 9, 9, 9, 9, 9],
    // Pointers out of range: the key's, another.
    [2, 1, 5, 4, 1, 9, 9, 9, 9, 9],
    [2, 1, 9, 4, 0, 0, 0, 0, 0, 0],
    [2, 1, 11, 4, 1, 9, 9, 9, 9, 9],
    // Words after the 2^H entries: seen where node 2 is visited.
    [2, 2, 6, 1, 2147483648, 9, 9, 9, 9, 9],
    [2, 2, 11, 1, 2147483648, 9, 9, 9, 9, 9],
    [2, 2, 11, 1, 1, 0, 0, 9, 9, 8],
    [2, 2, 11, 1, 536870912, 0, 9, 9, 9, 8],
    // The root: H, level, links, null, pointers out of range, words after the entries.
    [2, 3, 0, 3, 1, 9, 9, 9, 9, 9],
    [2, 3, 1, 1, 1, 9, 9, 9, 9, 9],
    [2, 3, 2, 1, 1, 9, 9, 9, 9, 9],
    [2, 3, 3, 1, 1, 9, 9, 9, 9, 9],
    [2, 3, 5, 0, 1, 9, 9, 9, 9, 9],
    [2, 3, 7, 0, 1, 9, 9, 9, 9, 9],
    [2, 3, 5, 4, 1, 9, 9, 9, 9, 9],
    [2, 3, 7, 4, 1, 9, 9, 9, 9, 9],
    [2, 3, 8, 1, 1, 9, 9, 9, 9, 9],
    // A node of another level below the root: the root itself, below a third level.
    [2, 3, 5, 3, 1, 9, 9, 9, 9, 9],
    [1, 0, 7, 3, 0, 0, 0, 0, 0, 0],
    [2, 3, 1, 3, 1, 9, 9, 9, 9, 9],
    [1, 0, 6, 1, 1, 9, 9, 9, 9, 9],
];

const PAGES: [[u32; 10]; 18] = [
    // Count.
    [3, 1, 0, 0, 1, 9, 9, 9, 9, 9],
    [3, 1, 0, 3, 1, 9, 9, 9, 9, 9],
    [3, 1, 0, 4294967295, 1, 9, 9, 9, 9, 9],
    // A lease too long, a last day too late, a last day though perpetual, key 0.
    [3, 1, 3, 36526, 1, 9, 9, 9, 9, 9],
    [3, 1, 4, 100000, 1, 9, 9, 9, 9, 9],
    [3, 1, 7, 0, 1, 9, 9, 9, 9, 9],
    [3, 1, 1, 0, 268435456, 9, 9, 9, 9, 9],
    // Not ascending: equal keys, a larger one first.
    [3, 1, 5, 1, 1, 9, 9, 9, 9, 9],
    [3, 1, 1, 285212672, 268435456, 9, 9, 9, 9, 9],
    // Words after the last record.
    [3, 1, 0, 1, 1, 9, 9, 9, 9, 9],
    [3, 2, 5, 7, 536870912, 9, 9, 9, 9, 9],
    [3, 2, 8, 7, 536870912, 9, 9, 9, 9, 9],
    // A key that does not agree in the used bits; read by next it only has to be above.
    [3, 2, 1, 1073741824, 536870912, 9, 9, 9, 9, 9],
    [3, 2, 1, 1073741824, 268435456, 0, 0, 0, 0, 8],
    [3, 2, 1, 5, 268435456, 0, 9, 9, 9, 8],
    // A broken page that is not visited.
    [3, 3, 0, 0, 1, 0, 0, 9, 9, 8],
    [3, 3, 0, 0, 536870912, 0, 9, 9, 9, 8],
    [3, 1, 0, 0, 2147483648, 0, 0, 0, 0, 8],
];

// Links, and nodes that are all null.
const LINKS: [[u32; 10]; 18] = [
    // Node 2 does not link back: met through the link, not by a descent.
    [2, 2, 2, 3, 536870912, 0, 9, 9, 9, 9],
    [2, 2, 2, 0, 536870912, 0, 9, 9, 9, 9],
    [2, 2, 2, 3, 2147483648, 0, 0, 0, 0, 8],
    // The forward neighbour's level; a neighbour that is the root; the terminal node itself.
    [2, 2, 1, 2, 536870912, 0, 9, 9, 9, 9],
    [2, 1, 3, 3, 1, 0, 0, 9, 9, 9],
    [2, 1, 2, 1, 0, 0, 0, 0, 0, 0],
    [2, 1, 3, 1, 1, 0, 0, 9, 9, 9],
    // All null: the end of the chain is reached.
    [2, 1, 5, 0, 0, 0, 0, 0, 0, 0],
    [2, 1, 7, 0, 0, 0, 0, 0, 0, 0],
    [2, 2, 5, 0, 1, 1, 1, 0, 0, 0],
    // All null, and links that go round.
    [2, 1, 5, 0, 0, 0, 0, 0, 0, 0],
    [2, 1, 7, 0, 0, 0, 0, 0, 0, 0],
    [2, 2, 5, 0, 0, 0, 0, 0, 0, 0],
    [2, 1, 2, 2, 0, 0, 0, 0, 0, 0],
    [2, 2, 3, 1, 1, 1, 9, 9, 9, 0],
    // A node 2 that is all null and links to itself.
    [2, 2, 5, 0, 0, 0, 0, 0, 0, 0],
    [2, 2, 2, 2, 0, 0, 0, 0, 0, 0],
    [2, 2, 3, 2, 2147483648, 1, 9, 9, 9, 9],
];

// The call j at a key.
pub fn call_at(key: u32, j: usize) -> Call
    ensures { result ≡ call_on key j }
{
    match j {
        0 => calls::ask(Kind::Find, key, 0, 0, 0),
        1 => calls::ask(Kind::Next, key, 0, 0, 0),
        2 => calls::ask(Kind::Range, key, 4294967295, 64, 0),
        3 => calls::ask(Kind::Summary, key, 4294967295, 40, 0),
        _ => calls::ask(Kind::Enter, key, 100, 10, 50),
    }
}

// What is expected where only the number is: a refusal has zeros, other values are not judged.
pub fn numbered(number: u32, got: Reply) -> Reply
    ensures { result ≡ numbered_reply number got }
{
    if number == 0 {
        return calls::done(got.a, got.b, got.c, got.d);
    }
    calls::refusal(number)
}

// Makes a call and compares the number of its answer.
pub fn answer(rt: &impl Print, store: &mut [u32], call: Call, number: u32, tally: &mut [u64])
    ensures { let q = answered_in (both store.old tally.old) call number in
        (store.new ≡ q.store) × (tally.new ≡ q.tally) }
{
    let outcome = calls::watched_in(store, 64, call);
    let got = outcome.reply;
    report::judge_outcome(rt, tally, numbered(number, got), outcome);
}

// Makes the calls of a row at its key; enter comes last.
fn answers(rt: &impl Print, store: &mut [u32], rows: &[[u32; 10]], i: usize, tally: &mut [u64])
    ensures { let q = answers_from rows.now i (both store.old tally.old) 0 5 in
        (store.new ≡ q.store) × (tally.new ≡ q.tally) }
{
    let key = script::cell(rows, i, 4);
    for j in 0..5usize {
        answer(
            rt,
            store,
            call_at(key, j),
            script::cell(rows, i, 5 + j),
            tally,
        );
    }
}

// Writes the word of a row.
fn break_word(store: &mut [u32], rows: &[[u32; 10]], i: usize)
    ensures { store.new ≡ broken store.old rows.now i }
{
    let kind = Block::from(script::cell(rows, i, 0));
    let block = blocks::start_of(store, kind, script::cell(rows, i, 1));
    words::put(
        store,
        block + to_index(script::cell(rows, i, 2)),
        script::cell(rows, i, 3),
    );
}

// Breaks a word; with a key, tries the operations and makes the store sound again.
fn break_row(
    rt: &impl Print,
    sound: &[u32],
    store: &mut [u32],
    rows: &[[u32; 10]],
    i: usize,
    tally: &mut [u64],
)
    ensures { let q = broken_row sound.now rows.now (both store.old tally.old) i in
        (store.new ≡ q.store) × (tally.new ≡ q.tally) }
{
    break_word(store, rows, i);
    if script::cell(rows, i, 4) != 0 {
        answers(rt, store, rows, i, tally);
        words::copy(sound, store, SIZE);
    }
}

fn break_rows(
    rt: &impl Print,
    sound: &[u32],
    store: &mut [u32],
    rows: &[[u32; 10]],
    tally: &mut [u64],
)
    ensures { let rs = rows.now in
        let q = broken_from sound.now rs (both store.old tally.old) 0 (length rs) in
        (store.new ≡ q.store) × (tally.new ≡ q.tally) }
{
    for i in 0..rows.len() {
        break_row(rt, sound, store, rows, i, tally);
    }
}

fn break_head(rt: &impl Print, sound: &[u32], store: &mut [u32], tally: &mut [u64]) {
    let rows = HEAD;
    break_rows(rt, sound, store, &rows, tally);
}

fn break_nodes(rt: &impl Print, sound: &[u32], store: &mut [u32], tally: &mut [u64]) {
    let rows = NODES;
    break_rows(rt, sound, store, &rows, tally);
}

fn break_pages(rt: &impl Print, sound: &[u32], store: &mut [u32], tally: &mut [u64]) {
    let rows = PAGES;
    break_rows(rt, sound, store, &rows, tally);
}

fn break_links(rt: &impl Print, sound: &[u32], store: &mut [u32], tally: &mut [u64]) {
    let rows = LINKS;
    break_rows(rt, sound, store, &rows, tally);
}

// The path of six nodes, θ = 6: five with H = 6 use up 30 bits; the last has the depth of the row, all its entries null.
const DEEP: [[u32; 10]; 3] = [
    [0, 0, 0, 1, 5, 1, 1, 0, 0, 0],
    [0, 0, 0, 2, 5, 1, 1, 0, 0, 0],
    [0, 0, 0, 3, 5, 9, 9, 9, 9, 9],
];

// Writes a node whose entries are all alike, each a run of its own.
fn put_node(store: &mut [u32], n: u32, depth: u32, pointer: u32)
    ensures { store.new ≡ node_put store.old n depth pointer }
{
    let at = blocks::node_at(store, n);
    words::put(store, at, depth);
    words::put(store, at + 1, n);
    for j in 0..store::pow2(depth % 7) {
        words::put(store, at + 4 + 2 * j, depth);
        words::put(store, at + 5 + 2 * j, pointer);
    }
}

// Writes the nodes above the last one: each points to the one below, whose number is its level.
fn put_path(store: &mut [u32])
    ensures { store.new ≡ path_put store.old 1 5 }
{
    for n in 1..6u32 {
        put_node(store, n + 1, 6, n);
    }
}

// Six nodes taken, the sixth the root, six levels.
fn put_levels(store: &mut [u32])
    ensures { store.new ≡ levels_put store.old }
{
    words::put(store, 4, 6);
    words::put(store, 6, 6);
    words::put(store, 7, 6);
}

fn put_deep(store: &mut [u32], depth: u32)
    ensures { store.new ≡ deep_put store.old depth }
{
    let mut out = [0u32; 1];
    calls::reply_to(store, &mut out, calls::ask(Kind::SetUp, 6, 1, 6, 1));
    put_path(store);
    put_node(store, 1, depth, 0);
    put_levels(store);
}

fn deep_paths(rt: &impl Print, store: &mut [u32], tally: &mut [u64]) {
    let rows = DEEP;
    for i in 0..rows.len() {
        put_deep(store, script::cell(&rows, i, 3));
        answers(rt, store, &rows, i, tally);
    }
}

fn tables(rt: &impl Print, sound: &mut [u32], store: &mut [u32], tally: &mut [u64]) {
    let build = BUILD;
    script::play(rt, &build, store, tally);
    words::copy(store, sound, SIZE);
    break_head(rt, sound, store, tally);
    break_nodes(rt, sound, store, tally);
    break_pages(rt, sound, store, tally);
    break_links(rt, sound, store, tally);
}

fn tables_in(rt: &impl Print, sound: &mut [u32], store: &mut [u32], tally: &mut [u64]) {
    if SIZE <= store.len() {
        tables(rt, sound, &mut store[0..SIZE], tally);
    }
}

pub fn run(rt: &impl Print, sound: &mut [u32], store: &mut [u32], tally: &mut [u64]) {
    report::start(tally, 5);
    tables_in(rt, sound, store, tally);
    deep_paths(rt, store, tally);
    report::finish(rt, tally, b"broken rules");
}
