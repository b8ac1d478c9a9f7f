// Where the blocks of a store stand, from its head.
ghost use Rattle.std.specs.Prelude.{◌≡◌, ◌+◌, ◌*◌, ◌%◌, ◌^◌, ◌≤◌, ◌<◌};
ghost use Rattle.store.specs.Head.{largest_capacity};
ghost use Rattle.raw.specs.Blocks.{node_size, node_block, page_size, page_block, block_kind, block};

use crate::words;
use plot::wide_product;
use store::{to_index, word};

// The kinds of blocks.
#[derive(Clone, Copy)]
pub enum Block {
    Head,
    Node,
    Page,
}

impl From<u32> for Block {
    ghost from_gives = { λ n k. k ≡ block_kind n };

    // The kind with a number of a table: 1 the head, 2 a node, any other a page.
    fn from(number: u32) -> Block {
        match number {
            1 => Block::Head,
            2 => Block::Node,
            _ => Block::Page,
        }
    }
}

// The words of a node block: 4 + 2 × 2^θ.
fn node_words(theta: u32) -> u32
    ensures { result ≡ node_size theta }
{
    if theta > 6 {
        return 132;
    }
    4 + 2 * (store::pow2(theta) as u32)
}

// The words of `count` blocks.
fn words_of(count: u32, words: u32) -> usize
    ensures { (result ≡ count * words % 2 ^ 32) × (result < 2 ^ 32) }
{
    to_index(words::low(wide_product(count, words)))
}

// The first word of a node block.
pub fn node_at(store: &[u32], n: u32) -> usize
    ensures { (result ≡ node_block store.now n) × (result < 2 ^ 34) }
{
    16 + words_of(n.saturating_sub(1), node_words(word(store, 0)))
}

// The words of a page block.
pub fn page_words(store: &[u32]) -> u32
    ensures { (result ≡ page_size store.now) × (result ≤ 1 + 4 * largest_capacity) }
{
    1 + 4 * (word(store, 1) % (store::LARGEST_CAPACITY + 1))
}

// The first word of a page block.
pub fn page_at(store: &[u32], p: u32) -> usize
    ensures { (result ≡ page_block store.now p) × (result < 2 ^ 34) }
{
    let nodes = words_of(word(store, 2), node_words(word(store, 0)));
    16 + nodes + words_of(p.saturating_sub(1), page_words(store))
}

// The first word of a block of a kind.
pub fn start_of(store: &[u32], kind: Block, n: u32) -> usize
    ensures { (result ≡ block store.now kind n) × (result < 2 ^ 34) }
{
    match kind {
        Block::Head => 0,
        Block::Node => node_at(store, n),
        Block::Page => page_at(store, n),
    }
}
