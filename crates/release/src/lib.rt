// How a block is released: it is cleared, it names the block released before it, and the head names and counts it. Document 02, M-106.

#![tactic(auto)]

ghost use Rattle.std.specs.Prelude.{◌≡◌, ◌+◌, ◌^◌, ◌≤◌, ◌<◌, length, set, replicate};
ghost use Rattle.lists.specs.Lists.{replaced};
ghost use Rattle.store.specs.Head.{largest_capacity, word, head_of, node_words, node_start, page_words, page_start};
ghost use Rattle.split.specs.Insertion.{SameSizes};
ghost use Rattle.release.specs.Release.{release_node, release_page};

use store::{Format, Head};

// Releases block n, of so many words from `at` on: it is cleared, its word number `link` gets the number of the block released before it, and
// the head names block n in its word `last` and has the count two words on.
fn release_block(
    store: &mut [u32],
    at: usize,
    size: usize,
    link: usize,
    next: u32,
    last: usize,
    n: u32,
    count: u32,
)
    requires { (at + size ≤ length store.old) × (link < size) × (last + 2 < length store.old) }
    ensures { store.new ≡ set (set (replaced at size (set (replicate size 0) link next) store.old) last n) (last + 2) count }
{
    let block = &mut store[at..at + size];
    block.fill(0);
    block[link] = next;
    store[last] = n;
    store[last + 2] = count;
}

// Releases a node block: words 8 and 10 of the head.
pub fn release_node(store: &mut [u32], head: Head, n: u32)
    requires { SameSizes (head_of store.old) head × (head.theta ≤ 6) × (16 ≤ length store.old)
        × (node_start head n + node_words head.theta ≤ length store.old) × (word store.old 10 + 1 < 2 ^ 32) }
    ensures { store.new ≡ release_node store.old n }
{
    let at = store::node_start(head, n);
    let size = store::node_words(head.theta);
    let next = store[8];
    let count = store[10];
    release_block(store, at, size, 2, next, 8, n, count + 1);
}

// Releases a page block: words 9 and 11 of the head.
pub fn release_page(store: &mut [u32], f: Format, head: Head, p: u32)
    requires { SameSizes (head_of store.old) head × (head.theta ≤ 6) × (1 ≤ head.capacity) × (head.capacity ≤ largest_capacity)
        × (16 ≤ length store.old) × (page_start f head p + page_words f head.capacity ≤ length store.old)
        × (word store.old 11 + 1 < 2 ^ 32) }
    ensures { store.new ≡ release_page f store.old p }
{
    let at = store::page_start(f, head, p);
    let size = store::page_words(f, head.capacity);
    let next = store[9];
    let count = store[11];
    release_block(store, at, size, 1, next, 9, p, count + 1);
}
