// Two stores compared as trees, block numbers apart: their nodes are paired from the roots down, then each pair is compared.
// `twins` has the second store's node for each of the first.
ghost use Rattle.std.specs.Prelude.{◌≡◌, ◌+◌, ◌*◌, ◌%◌, ◌^◌, ◌≤◌, ◌<◌, replicate};
ghost use Rattle.lists.specs.Lists.{every};
ghost use Rattle.store.specs.Head.{word};
ghost use Rattle.raw.specs.Twins.{node_word, entries_of, both, paired, paired_from, paired_below, paired_all, same_page, twin, same_pointer};
ghost use Rattle.raw.specs.Twins.{same_link, same_entries, same_node, apart_from, same_head, same_tree};

use crate::words::put;
use crate::{blocks, words};
use store::{to_index, word};

// The words before a node's entries.
const DEPTH: usize = 0;

const LEVEL: usize = 1;

const BACK: usize = 2;

const FORWARD: usize = 3;

// The words of a node's first entry.
const LOCAL_DEPTH: usize = 4;

const POINTER: usize = 5;

// A word of entry j of the node at a place.
fn entry_word(store: &[u32], at: usize, which: usize, j: usize) -> u32
    requires { (at < 2 ^ 34) × (which < 6) × (j < 64) }
    ensures { result ≡ word store.now (at + which + 2 * j) }
{
    word(store, at + which + 2 * j)
}

// A word of a node, by its place in the block.
fn node_word(store: &[u32], n: u32, i: usize) -> u32
    requires { i < 4 }
    ensures { result ≡ node_word store.now n i }
{
    word(store, blocks::node_at(store, n) + i)
}

// The entries of a node: 2^H.
fn entries(store: &[u32], n: u32) -> usize
    ensures { (result ≡ entries_of store.now n) × (result ≤ 64) }
{
    store::pow2(node_word(store, n, DEPTH) % 7)
}

// Pairs two nodes, and queues the first.
fn pair(twins: &mut [u32], queue: &mut [u32], a: u32, b: u32)
    ensures { let q = paired (both twins.old queue.old) a b in
        (twins.new ≡ q.twins) × (queue.new ≡ q.queue) }
{
    if word(twins, to_index(a)) != 0 {
        return;
    }
    let n = word(queue, 0).saturating_add(1);
    put(twins, to_index(a), b);
    put(queue, to_index(n), a);
    put(queue, 0, n);
}

// Pairs the nodes that two paired nodes point to.
fn pair_children(x: &[u32], y: &[u32], twins: &mut [u32], queue: &mut [u32], a: u32)
    ensures { let x = x.now in let y = y.now in
        let q = paired_from x y a (word twins.old a) (both twins.old queue.old) 0 (entries_of x a) in
        (twins.new ≡ q.twins) × (queue.new ≡ q.queue) }
{
    let ax = blocks::node_at(x, a);
    let ay = blocks::node_at(y, word(twins, to_index(a)));
    for j in 0..entries(x, a) {
        pair(
            twins,
            queue,
            entry_word(x, ax, POINTER, j),
            entry_word(y, ay, POINTER, j),
        );
    }
}

fn pair_below(x: &[u32], y: &[u32], twins: &mut [u32], queue: &mut [u32], a: u32)
    ensures { let q = paired_below x.now y.now (both twins.old queue.old) a in
        (twins.new ≡ q.twins) × (queue.new ≡ q.queue) }
{
    if node_word(x, a, LEVEL) > 1 {
        pair_children(x, y, twins, queue, a);
    }
}

// Pairs the nodes of two stores from the roots down.
fn pair_all(x: &[u32], y: &[u32], twins: &mut [u32], queue: &mut [u32])
    ensures { let q = paired_all x.now y.now (both twins.old queue.old) in
        (twins.new ≡ q.twins) × (queue.new ≡ q.queue) }
{
    pair(twins, queue, word(x, 6), word(y, 6));
    for i in 0..to_index(word(x, 4)) {
        pair_below(x, y, twins, queue, word(queue, i + 1));
    }
}

// Whether two pages have the same words.
fn same_page(x: &[u32], y: &[u32], p: u32, q: u32) -> bool
    ensures { result ≡ same_page x.now y.now p q }
{
    let px = blocks::page_at(x, p);
    let py = blocks::page_at(y, q);
    words::same(x, px, y, py, to_index(blocks::page_words(x)))
}

// Whether two numbers are of paired nodes, or both null.
fn same_twin(twins: &[u32], p: u32, q: u32) -> bool
    ensures { result ≡ twin twins.now p q }
{
    if p == 0 || q == 0 {
        return p == q;
    }
    word(twins, to_index(p)) == q
}

// Whether two pointers of a level point to the same: null, pages with the same words, or paired nodes.
fn same_pointer(x: &[u32], y: &[u32], twins: &[u32], level: u32, p: u32, q: u32) -> bool
    ensures { result ≡ same_pointer x.now y.now twins.now level p q }
{
    if level == 1 && p != 0 && q != 0 {
        return same_page(x, y, p, q);
    }
    same_twin(twins, p, q)
}

// Whether the entries of two nodes are the same.
fn same_entries(x: &[u32], y: &[u32], twins: &[u32], a: u32, b: u32) -> bool
    ensures { result ≡ same_entries x.now y.now twins.now a b }
{
    let ax = blocks::node_at(x, a);
    let ay = blocks::node_at(y, b);
    let level = node_word(x, a, LEVEL);
    (0..entries(x, a)).all(|j| {
        let p = entry_word(x, ax, POINTER, j);
        let q = entry_word(y, ay, POINTER, j);
        entry_word(x, ax, LOCAL_DEPTH, j) == entry_word(y, ay, LOCAL_DEPTH, j)
            && same_pointer(x, y, twins, level, p, q)
    })
}

// Whether a link of two nodes, back or forward, leads to paired nodes, or neither leads anywhere.
fn same_link(x: &[u32], y: &[u32], twins: &[u32], a: u32, b: u32, which: usize) -> bool
    requires { which < 4 }
    ensures { let x = x.now in let y = y.now in
        result ≡ same_link x y twins.now a b which }
{
    same_twin(twins, node_word(x, a, which), node_word(y, b, which))
}

// Whether a node and its twin are the same.
fn same_node(x: &[u32], y: &[u32], twins: &[u32], a: u32) -> bool
    ensures { result ≡ same_node x.now y.now twins.now a }
{
    let b = word(twins, to_index(a));
    if b == 0 {
        return false;
    }
    if node_word(x, a, LEVEL) != node_word(y, b, LEVEL) {
        return false;
    }
    if node_word(x, a, DEPTH) != node_word(y, b, DEPTH) {
        return false;
    }
    if !same_link(x, y, twins, a, b, BACK) {
        return false;
    }
    if !same_link(x, y, twins, a, b, FORWARD) {
        return false;
    }
    same_entries(x, y, twins, a, b)
}

fn same_nodes(x: &[u32], y: &[u32], twins: &[u32]) -> bool
    ensures { let x = x.now in result ≡ every (word x 4) (λ a. same_node x y.now twins.now (a + 1)) }
{
    (0..word(x, 4)).all(|a| same_node(x, y, twins, a + 1))
}

// Whether no node of the second store is the twin of two.
fn apart(twins: &[u32], nodes: u32) -> bool
    ensures { result ≡ apart_from twins.now (replicate 4097 0) 0 nodes }
{
    let mut seen = [0u32; 4097];
    for a in 0..nodes {
        let b = to_index(word(twins, to_index(a + 1)));
        if word(&seen, b) != 0 {
            return false;
        }
        put(&mut seen, b, 1);
    }
    true
}

// Whether two heads are the same but for the root.
fn same_head(x: &[u32], y: &[u32]) -> bool
    ensures { result ≡ same_head x.now y.now }
{
    if !words::same(x, 0, y, 0, 6) {
        return false;
    }
    word(x, 7) == word(y, 7)
}

// Whether two stores hold the same tree, block numbers apart.
pub fn same_tree(x: &[u32], y: &[u32]) -> bool
    ensures { result ≡ same_tree x.now y.now }
{
    let mut twins = [0u32; 4097];
    let mut queue = [0u32; 4097];
    pair_all(x, y, &mut twins, &mut queue);
    if !apart(&twins, word(x, 4)) {
        return false;
    }
    if !same_head(x, y) {
        return false;
    }
    same_nodes(x, y, &twins)
}
