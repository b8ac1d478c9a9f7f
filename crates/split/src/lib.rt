// The steps of an insertion on the words of a node block, where they stand: its run halved, the node doubled or split. A part is a block's
// words: depth, level, back link and forward link, then two words for each entry.

#![tactic(auto)]

ghost use Rattle.std.specs.Prelude.{◌≡◌, ◌+◌, ◌-◌, ◌*◌, ◌/◌, ◌%◌, ◌^◌, ◌≤◌, ◌<◌, length};
ghost use Rattle.lists.specs.Bits.{bits, index};
ghost use Rattle.lists.specs.Lists.{replaced};
ghost use Rattle.tree.specs.Trie.{Key};
ghost use Rattle.tree.specs.Node.{lowered};
ghost use Rattle.store.specs.Format.{width};
ghost use Rattle.store.specs.Head.{node_words, node_start, node_at};
ghost use Rattle.node.specs.Node.{depth_word, back_word, forward_word, entry_depth, entry_of};
ghost use Rattle.split.specs.Block.{block, like, over_run, number, run_length, halve_run, double, grow, half};
ghost use Rattle.split.specs.Block.{lower, upper, aim, linked, top};
ghost use Rattle.split.specs.Value.{with_entry, with_entries, parted, running, Shallow, local_at, Reached};

use store::{Format, Head};

// Sets entry j of a node block.
#[tactic(auto, unfolding(crate::specs::Value::with_entry))]
pub fn set_entry(part: &mut [u32], j: usize, h: u32, p: u32)
    requires { 5 + 2 * j < length part.old }
    ensures { part.new ≡ with_entry part.old j (h, p) }
{
    part[4 + 2 * j] = h;
    part[5 + 2 * j] = p;
}

// Sets n entries of a node block from `start` on.
#[tactic(auto, using(crate::proofs::ValueLaws::entry_steps))]
pub fn fill(part: &mut [u32], start: usize, n: usize, h: u32, p: u32)
    requires { 4 + 2 * (start + n) ≤ length part.old }
    ensures { part.new ≡ with_entries part.old start n (λ j. (h, p)) }
{
    for j in 0..n {
        set_entry(part, start + j, h, p);
    }
}

// Each of the first n entries twice, the last one first.
fn spread(part: &mut [u32], n: usize)
    requires { 4 + 4 * n ≤ length part.old }
    ensures { part.new ≡ with_entries part.old 0 (2 * n) (λ j. entry_of part.old 0 (j / 2)) }
{
    for j in (0..n).rev() {
        let h = part[4 + 2 * j];
        let p = part[5 + 2 * j];
        set_entry(part, 2 * j, h, p);
        set_entry(part, 2 * j + 1, h, p);
    }
}

// Of the first entries every step-th: n of them.
#[tactic(auto, using(crate::proofs::ValueLaws::entry_steps))]
pub fn thin(part: &mut [u32], step: usize, n: usize)
    requires { (1 ≤ step) × (4 + 2 * (n * step) ≤ length part.old) }
    ensures { part.new ≡ with_entries part.old 0 n (λ j. entry_of part.old 0 (j * step)) }
{
    for j in 0..n {
        let k = j * step;
        let h = part[4 + 2 * k];
        let p = part[5 + 2 * k];
        set_entry(part, j, h, p);
    }
}

// n entries of a node from `start` on, lowered, written as the first ones of another block. The largest new depth is kept as a running
// value while they are copied; no half is walked again for it.
#[tactic(auto, using(crate::proofs::ValueLaws::entry_steps, crate::proofs::ValueLaws::greatest_steps), unfolding(crate::specs::Value::running))]
fn lower_entries(node: &[u32], start: usize, n: usize, to: &mut [u32]) -> u32
    requires { (4 + 2 * (start + n) ≤ length node.now) × (4 + 2 * n ≤ length to.old) }
    ensures { (to.new ≡ with_entries to.old 0 n (λ j. lowered (entry_of node.now 0 (start + j))))
        × (result ≡ running node.now start n) }
{
    let mut largest: u32 = 0;
    for j in 0..n {
        let h = node[4 + 2 * (start + j)].saturating_sub(1);
        set_entry(to, j, h, node[5 + 2 * (start + j)]);
        largest = largest.max(h);
    }
    largest
}

// Writes a block's first four words and clears the words behind its entries in use.
#[tactic(auto, using(crate::proofs::ValueLaws::four_words))]
pub fn settle(part: &mut [u32], theta: u32, depth: u32, level: u32, back: u32, forward: u32)
    requires { (theta ≤ 6) × (depth ≤ theta) × (length part.old ≡ node_words theta) }
    ensures { part.new ≡ block theta depth level back forward (entry_of part.old 0) }
{
    part[0] = depth;
    part[1] = level;
    part[2] = back;
    part[3] = forward;
    let end = 4 + 2 * store::pow2(depth);
    part[end..].fill(0);
}

// A run of entries: where it begins, and how many they are.
#[derive(Clone, Copy)]
pub struct Run {
    pub start: usize,
    pub n: usize,
}

// The run of entry i, by the node's depth and the entry's local depth. A run of more local depth than the node has is one entry.
pub fn run_of(depth: u32, local: u32, i: usize) -> Run
    requires { (depth ≤ 6) × (i < 2 ^ depth) }
    ensures { (result.n ≡ 2 ^ (depth - local)) × (result.start ≡ i - i % result.n) × (result.start + result.n ≤ 2 ^ depth) }
{
    let n = store::pow2(depth.saturating_sub(local));
    Run {
        start: i - i % n,
        n,
    }
}

// The run of entry i gets a local depth more by `more`, and its first half the pointer a, its second half c.
#[tactic(auto, using(crate::proofs::ValueLaws::four_words))]
fn write_run(part: &mut [u32], theta: u32, i: usize, more: u32, a: u32, c: u32)
    requires { (theta ≤ 6) × (length part.old ≡ node_words theta) × (depth_word part.old 0 ≤ theta) × (i < 2 ^ depth_word part.old 0)
        × (entry_depth part.old 0 i + more ≤ theta) }
    ensures { part.new ≡ like theta part.old (depth_word part.old 0)
        (over_run (run_length part.old i) i
        (parted (run_length part.old i) (entry_depth part.old 0 i + more) a c) (entry_of part.old 0)) }
{
    let depth = part[0];
    let level = part[1];
    let back = part[2];
    let forward = part[3];
    let local = part[4 + 2 * i];
    let run = run_of(depth, local, i);
    let m = run.n / 2;
    fill(part, run.start, m, local + more, a);
    fill(part, run.start + m, run.n - m, local + more, c);
    settle(part, theta, depth, level, back, forward);
}

// The run of entry i halved, with the pointers a and c.
fn halve_run(part: &mut [u32], theta: u32, i: usize, a: u32, c: u32)
    requires { (theta ≤ 6) × (length part.old ≡ node_words theta) × (depth_word part.old 0 ≤ theta) × (i < 2 ^ depth_word part.old 0)
        × (entry_depth part.old 0 i < theta) }
    ensures { (k : Key) → index (depth_word part.old 0) k ≡ i
        → part.new ≡ halve_run theta part.old k a c }
{
    write_run(part, theta, i, 1, a, c);
}

// The run of entry i pointing to q.
fn aim_run(part: &mut [u32], theta: u32, i: usize, q: u32)
    requires { (theta ≤ 6) × (length part.old ≡ node_words theta) × (depth_word part.old 0 ≤ theta) × (i < 2 ^ depth_word part.old 0)
        × (entry_depth part.old 0 i ≤ theta) }
    ensures { (k : Key) → index (depth_word part.old 0) k ≡ i
        → part.new ≡ aim theta part.old k q }
{
    write_run(part, theta, i, 0, q, q);
}

// Each entry twice.
#[tactic(auto, using(crate::proofs::ValueLaws::four_words))]
fn double_part(part: &mut [u32], theta: u32)
    requires { (theta ≤ 6) × (length part.old ≡ node_words theta) × (depth_word part.old 0 < theta) }
    ensures { part.new ≡ double theta part.old }
{
    let depth = part[0];
    let level = part[1];
    let back = part[2];
    let forward = part[3];
    spread(part, store::pow2(depth));
    settle(part, theta, depth + 1, level, back, forward);
}

// The run of entry i halved; after a doubling if its local depth is the node's depth.
#[tactic(auto, using(crate::proofs::ValueLaws::four_words))]
fn grow_part(part: &mut [u32], theta: u32, i: usize, a: u32, c: u32)
    requires { (theta ≤ 6) × (length part.old ≡ node_words theta) × (depth_word part.old 0 ≤ theta) × (i < 2 ^ depth_word part.old 0)
        × (entry_depth part.old 0 i < theta) × (entry_depth part.old 0 i ≤ depth_word part.old 0) }
    ensures { (k : Key) → index (depth_word part.old 0) k ≡ i
        → part.new ≡ grow theta part.old k a c }
{
    if part[4 + 2 * i] < part[0] {
        halve_run(part, theta, i, a, c);
        return;
    }
    double_part(part, theta);
    halve_run(part, theta, 2 * i, a, c);
}

// The half of a node whose first bit is clear, or set, written into a block of the same size: every local depth less by one, shrunk to the
// largest of them.
#[tactic(auto, using(crate::proofs::ValueLaws::four_words))]
fn half_into(node: &[u32], theta: u32, upper: bool, to: &mut [u32])
    requires { (theta ≤ 6) × (length node.now ≡ node_words theta) × (length to.old ≡ node_words theta)
        × (1 ≤ depth_word node.now 0) × Shallow theta node.now }
    ensures { to.new ≡ half theta node.now upper }
{
    let n = store::pow2(node[0] - 1);
    let start = if upper { n } else { 0 };
    let largest = lower_entries(node, start, n, to);
    let m = store::pow2(largest);
    thin(to, n / m, m);
    settle(to, theta, largest, node[1], node[2], node[3]);
}

// The two halves of a full node. The run at the key is halved in the half that the key's next bit chooses.
fn split_into(
    node: &[u32],
    f: Format,
    theta: u32,
    key: u64,
    used: u32,
    a: u32,
    c: u32,
    low: &mut [u32],
    high: &mut [u32],
)
    requires { (1 ≤ theta) × (theta ≤ 6) × (length node.now ≡ node_words theta) × (length low.old ≡ node_words theta)
        × (length high.old ≡ node_words theta) × (key < 2 ^ width f) × Reached f theta node.now key used
        × (depth_word node.now 0 ≡ theta) }
    ensures { (low.new ≡ lower theta node.now (bits (width f - used) key) a c)
        × (high.new ≡ upper theta node.now (bits (width f - used) key) a c) }
{
    half_into(node, theta, false, low);
    half_into(node, theta, true, high);
    if node::entry_number(f, key, used, 1) == 0 {
        let i = node::entry_number(f, key, used + 1, low[0]);
        grow_part(low, theta, i, a, c);
        return;
    }
    let i = node::entry_number(f, key, used + 1, high[0]);
    grow_part(high, theta, i, a, c);
}

// Copies words over a part of as many.
pub fn copy(part: &mut [u32], words: &[u32])
    requires { length words.now ≡ length part.old }
    ensures { part.new ≡ words.now }
{
    store::copy(part, words);
}

// Writes words into block n, which is lent as a part of the store.
pub fn put_block(store: &mut [u32], head: Head, n: u32, words: &[u32])
    requires { (head.theta ≤ 6) × (length words.now ≡ node_words head.theta)
        × (node_start head n + node_words head.theta ≤ length store.old) }
    ensures { store.new
        ≡ replaced (node_start head n) (node_words head.theta) words.now store.old }
{
    let at = store::node_start(head, n);
    let end = at + store::node_words(head.theta);
    store::copy(&mut store[at..end], words);
}

// The entry of node n that a key takes.
#[tactic(auto, using(crate::proofs::ValueLaws::four_words))]
fn entry_in(store: &[u32], f: Format, head: Head, n: u32, key: u64, used: u32) -> usize
    requires { (head.theta ≤ 6) × (node_start head n + node_words head.theta ≤ length store.now) × (key < 2 ^ width f)
        × Reached f head.theta (node_at store.now head n) key used }
    ensures { number (node_at store.now head n) (bits (width f - used) key) ≡ result }
{
    let at = store::node_start(head, n);
    node::entry_number(f, key, used, store[at])
}

// The run at the key halved, in node n where it stands.
pub fn grow_block(
    store: &mut [u32],
    f: Format,
    head: Head,
    n: u32,
    key: u64,
    used: u32,
    a: u32,
    c: u32,
)
    requires { (head.theta ≤ 6) × (node_start head n + node_words head.theta ≤ length store.old) × (key < 2 ^ width f)
        × Reached f head.theta (node_at store.old head n) key used
        × (local_at (node_at store.old head n) (bits (width f - used) key) < head.theta) }
    ensures { store.new ≡ replaced (node_start head n) (node_words head.theta)
        (grow head.theta (node_at store.old head n) (bits (width f - used) key) a c) store.old }
{
    let i = entry_in(store, f, head, n, key, used);
    let at = store::node_start(head, n);
    let end = at + store::node_words(head.theta);
    grow_part(&mut store[at..end], head.theta, i, a, c);
}

// The run at the key pointing to q, in node n where it stands.
pub fn aim_block(store: &mut [u32], f: Format, head: Head, n: u32, key: u64, used: u32, q: u32)
    requires { (head.theta ≤ 6) × (node_start head n + node_words head.theta ≤ length store.old) × (key < 2 ^ width f)
        × Reached f head.theta (node_at store.old head n) key used }
    ensures { store.new ≡ replaced (node_start head n) (node_words head.theta)
        (aim head.theta (node_at store.old head n) (bits (width f - used) key) q) store.old }
{
    let i = entry_in(store, f, head, n, key, used);
    let at = store::node_start(head, n);
    let end = at + store::node_words(head.theta);
    aim_run(&mut store[at..end], head.theta, i, q);
}

// The halves of full node n, split at a key.
fn halves_of(
    store: &[u32],
    f: Format,
    head: Head,
    n: u32,
    key: u64,
    used: u32,
    a: u32,
    c: u32,
    low: &mut [u32],
    high: &mut [u32],
)
    requires { (1 ≤ head.theta) × (head.theta ≤ 6) × (node_start head n + node_words head.theta ≤ length store.now)
        × (key < 2 ^ width f) × Reached f head.theta (node_at store.now head n) key used
        × (depth_word (node_at store.now head n) 0 ≡ head.theta)
        × (length low.old ≡ node_words head.theta) × (length high.old ≡ node_words head.theta) }
    ensures { (low.new ≡ lower head.theta (node_at store.now head n) (bits (width f - used) key) a c)
        × (high.new ≡ upper head.theta (node_at store.now head n) (bits (width f - used) key) a c) }
{
    let at = store::node_start(head, n);
    let end = at + store::node_words(head.theta);
    split_into(&store[at..end], f, head.theta, key, used, a, c, low, high);
}

// Writes the left half into block n and the right half into block m.
fn put_both(store: &mut [u32], head: Head, n: u32, m: u32, low: &[u32], high: &[u32])
    requires { (head.theta ≤ 6) × (node_start head n + node_words head.theta ≤ length store.old)
        × (node_start head m + node_words head.theta ≤ length store.old)
        × (length low.now ≡ node_words head.theta) × (length high.now ≡ node_words head.theta) }
    ensures { store.new ≡ replaced (node_start head m) (node_words head.theta) high.now
        (replaced (node_start head n) (node_words head.theta) low.now store.old) }
{
    put_block(store, head, n, low);
    put_block(store, head, m, high);
}

// Full node n split: the left half keeps its block, the right half is written into block m.
pub fn split_block(
    store: &mut [u32],
    f: Format,
    head: Head,
    n: u32,
    m: u32,
    key: u64,
    used: u32,
    a: u32,
    c: u32,
)
    requires { (1 ≤ head.theta) × (head.theta ≤ 6) × (node_start head n + node_words head.theta ≤ length store.old)
        × (node_start head m + node_words head.theta ≤ length store.old) × (key < 2 ^ width f)
        × Reached f head.theta (node_at store.old head n) key used × (depth_word (node_at store.old head n) 0 ≡ head.theta) }
    ensures { store.new ≡ replaced (node_start head m) (node_words head.theta)
        (upper head.theta (node_at store.old head n) (bits (width f - used) key) a c)
        (replaced (node_start head n) (node_words head.theta)
        (lower head.theta (node_at store.old head n) (bits (width f - used) key) a c) store.old) }
{
    let w = store::node_words(head.theta);
    let mut low = [0u32; 132];
    let mut high = [0u32; 132];
    halves_of(
        store,
        f,
        head,
        n,
        key,
        used,
        a,
        c,
        &mut low[0..w],
        &mut high[0..w],
    );
    put_both(store, head, n, m, &low[0..w], &high[0..w]);
}

// Full level-1 node n split in the same way: block m stands between it and the node that was behind it.
pub fn split_linked(
    store: &mut [u32],
    f: Format,
    head: Head,
    n: u32,
    m: u32,
    key: u64,
    used: u32,
    a: u32,
    c: u32,
)
    requires { (1 ≤ head.theta) × (head.theta ≤ 6) × (node_start head n + node_words head.theta ≤ length store.old)
        × (node_start head m + node_words head.theta ≤ length store.old) × (key < 2 ^ width f)
        × Reached f head.theta (node_at store.old head n) key used × (depth_word (node_at store.old head n) 0 ≡ head.theta) }
    ensures { store.new ≡ replaced (node_start head m) (node_words head.theta)
        (linked (upper head.theta (node_at store.old head n) (bits (width f - used) key) a c) n
        (forward_word (node_at store.old head n) 0))
        (replaced (node_start head n) (node_words head.theta)
        (linked (lower head.theta (node_at store.old head n) (bits (width f - used) key) a c)
        (back_word (node_at store.old head n) 0) m) store.old) }
{
    let w = store::node_words(head.theta);
    let mut low = [0u32; 132];
    let mut high = [0u32; 132];
    halves_of(
        store,
        f,
        head,
        n,
        key,
        used,
        a,
        c,
        &mut low[0..w],
        &mut high[0..w],
    );
    low[3] = m;
    high[2] = n;
    put_both(store, head, n, m, &low[0..w], &high[0..w]);
}

// Links node q, if there is one, back to m.
#[tactic(auto, using(crate::proofs::ValueLaws::four_words))]
pub fn relink(store: &mut [u32], head: Head, q: u32, m: u32)
    requires { (head.theta ≤ 6) × (node_start head q + node_words head.theta ≤ length store.old) }
    ensures { ((q ≡ 0) → store.new ≡ store.old)
        × (((q ≡ 0) → ⊥) → store.new ≡ replaced (node_start head q) (node_words head.theta)
        (linked (node_at store.old head q) m (forward_word (node_at store.old head q) 0)) store.old) }
{
    if q == 0 {
        return;
    }
    let at = store::node_start(head, q);
    store[at + 2] = m;
}

// Writes a root at a level, with two entries.
fn write_root(part: &mut [u32], theta: u32, level: u32, a: u32, c: u32)
    requires { (1 ≤ theta) × (theta ≤ 6) × (length part.old ≡ node_words theta) }
    ensures { part.new ≡ top theta level a c }
{
    set_entry(part, 0, 1, a);
    set_entry(part, 1, 1, c);
    settle(part, theta, 1, level, 0, 0);
}

// Writes a root at a level, with two entries, into block n.
pub fn root_block(store: &mut [u32], head: Head, n: u32, level: u32, a: u32, c: u32)
    requires { (1 ≤ head.theta) × (head.theta ≤ 6) × (node_start head n + node_words head.theta ≤ length store.old) }
    ensures { store.new
        ≡ replaced (node_start head n) (node_words head.theta) (top head.theta level a c) store.old }
{
    let at = store::node_start(head, n);
    let end = at + store::node_words(head.theta);
    write_root(&mut store[at..end], head.theta, level, a, c);
}
