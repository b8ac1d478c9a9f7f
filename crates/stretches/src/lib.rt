// The tree of a set, counted as document 01 defines it. A row of stretches: the count, then for each its first key and its
// prefix length; level 0 is made of the sorted list, each higher level of the one below.

#![tactic(auto)]

ghost use Rattle.std.specs.Prelude.{◌≡◌, ◌-◌, ◌^◌, ◌≤◌};
ghost use Rattle.stretches.specs.Stretches.{element_of, end_of, shortest_of, crowded_at, deep_at, halved_at, depth_of, from_on, with_stretch};
ghost use Rattle.stretches.specs.Stretches.{stepped, swept_over, taller_by, climbed_from, counts_of};

use raw::words;
use raw::words::put;
use store::{to_index, widen, word};

#[derive(Clone, Copy)]
pub struct Counts {
    pub levels: u32,
    pub nodes: u32,
    pub pages: u32,
}

// What a row is made of: the words of an element below, and the most records (level 0) or prefix bits that a stretch may hold.
#[derive(Clone, Copy)]
struct Rule {
    words: u32,
    most: u32,
}

// A sweep along the keys: where the next stretch starts, the first element at or after that, and the stretches that have any.
#[derive(Clone, Copy)]
struct Sweep {
    start: u64,
    from: u32,
    filled: u32,
}

const LEVEL_0: u32 = 4;

const KEYS: u64 = 4294967296;

const ROOM: usize = 4095;

// Elements of two words or of four: the word j of element i.
fn element(row: &[u32], words: u32, i: u32, j: usize) -> u32
    ensures { result ≡ element_of row.now words i j }
{
    if j > 1 {
        return 0;
    }
    if words == LEVEL_0 {
        return word(row, 1 + 4 * to_index(i) + j);
    }
    word(row, 1 + 2 * to_index(i) + j)
}

// The keys of a stretch.
pub fn width(depth: u32) -> u64
    ensures { (result ≡ 2 ^ (32 - depth)) × (result ≤ 2 ^ 32) }
{
    1u64 << 32u32.saturating_sub(depth)
}

fn end_of(start: u32, depth: u32) -> u64
    ensures { result ≡ end_of start depth }
{
    widen(start) + width(depth)
}

// The shortest prefix of a stretch that starts at a key.
fn shortest(start: u32) -> u32
    ensures { result ≡ shortest_of start }
{
    32 - start.trailing_zeros()
}

// Whether a level-0 stretch holds more records than a page.
fn crowded(list: &[u32], most: u32, from: u32, start: u32, depth: u32) -> bool
    ensures { result ≡ crowded_at list.now most from start depth }
{
    let i = from.saturating_add(most);
    if i >= word(list, 0) {
        return false;
    }
    widen(element(list, LEVEL_0, i, 0)) < end_of(start, depth)
}

// Whether a stretch contains one of the level below whose prefix is too long for it.
fn deep(below: &[u32], most: u32, from: u32, start: u32, depth: u32) -> bool
    ensures { result ≡ deep_at below.now most from start depth }
{
    let end = end_of(start, depth);
    let most = depth.saturating_add(most);
    for i in from..word(below, 0) {
        if widen(element(below, 2, i, 0)) >= end {
            return false;
        }
        if element(below, 2, i, 1) > most {
            return true;
        }
    }
    false
}

fn halved(row: &[u32], rule: Rule, from: u32, start: u32, depth: u32) -> bool
    ensures { result ≡ halved_at row.now rule from start depth }
{
    if rule.words == LEVEL_0 {
        return crowded(row, rule.most, from, start, depth);
    }
    deep(row, rule.most, from, start, depth)
}

// The prefix length of the stretch that starts at a key.
fn depth_at(row: &[u32], rule: Rule, from: u32, start: u32) -> u32
    ensures { result ≡ depth_of row.now rule from start }
{
    for depth in shortest(start)..32 {
        if !halved(row, rule, from, start, depth) {
            return depth;
        }
    }
    32
}

// The first element at or after a key.
fn from_on(row: &[u32], words: u32, from: u32, key: u64) -> u32
    ensures { result ≡ from_on row.now words from key }
{
    let n = word(row, 0);
    for i in from..n {
        if widen(element(row, words, i, 0)) >= key {
            return i;
        }
    }
    from.max(n)
}

fn append(row: &mut [u32], start: u32, depth: u32)
    ensures { row.new ≡ with_stretch row.old start depth }
{
    let n = word(row, 0);
    let at = 1 + 2 * to_index(n);
    put(row, at, start);
    put(row, at + 1, depth);
    put(row, 0, n.saturating_add(1));
}

// Takes the next stretch.
fn step(below: &[u32], rule: Rule, sweep: Sweep, above: &mut [u32]) -> Sweep
    ensures { let q = stepped below.now rule (record { sweep = sweep; row = above.old }) in
        (result ≡ q.sweep) × (above.new ≡ q.row) }
{
    let start = words::low(sweep.start);
    let depth = depth_at(below, rule, sweep.from, start);
    append(above, start, depth);
    let end = end_of(start, depth);
    let from = from_on(below, rule.words, sweep.from, end);
    Sweep {
        start: end,
        from,
        filled: if from > sweep.from {
            sweep.filled.saturating_add(1)
        } else {
            sweep.filled
        },
    }
}

// Makes a row of stretches; how many of them have an element.
fn sweep_over(below: &[u32], rule: Rule, above: &mut [u32]) -> u32
    ensures { let q = swept_over below.now rule above.old in
        (result ≡ q.sweep.filled) × (above.new ≡ q.row) }
{
    put(above, 0, 0);
    let mut sweep = Sweep {
        start: 0,
        from: 0,
        filled: 0,
    };
    for _turn in 0..ROOM {
        if sweep.start >= KEYS {
            return sweep.filled;
        }
        sweep = step(below, rule, sweep, above);
    }
    sweep.filled
}

// Counts with the nodes of one level more.
fn taller(counts: Counts, nodes: u32) -> Counts
    ensures { result ≡ taller_by counts nodes }
{
    Counts {
        levels: counts.levels.saturating_add(1),
        nodes: counts.nodes.saturating_add(nodes),
        pages: counts.pages,
    }
}

// The levels above a row, counted until one has a single stretch.
fn climb(row: &mut [u32], above: &mut [u32], theta: u32, pages: u32) -> Counts
    ensures { let q = climbed_from theta (record {
      row = row.old;
      above = above.old;
      counts = record { levels = 0; nodes = 0; pages = pages };
    }) 33 in
        (result ≡ q.counts) × (row.new ≡ q.row) × (above.new ≡ q.above) }
{
    let mut counts = Counts {
        levels: 0,
        nodes: 0,
        pages,
    };
    for _level in 0..33u32 {
        sweep_over(
            row,
            Rule {
                words: 2,
                most: theta,
            },
            above,
        );
        let n = word(above, 0);
        counts = taller(counts, n);
        if n == 1 {
            return counts;
        }
        words::copy(above, row, 1 + 2 * to_index(n));
    }
    counts
}

// The levels, nodes and pages of the list's tree.
pub fn counts_of(list: &[u32], theta: u32, capacity: u32) -> Counts
    ensures { result ≡ counts_of list.now theta capacity }
{
    let mut row = [0u32; 8192];
    let mut above = [0u32; 8192];
    let pages = sweep_over(
        list,
        Rule {
            words: LEVEL_0,
            most: capacity,
        },
        &mut row,
    );
    climb(&mut row, &mut above, theta, pages)
}
