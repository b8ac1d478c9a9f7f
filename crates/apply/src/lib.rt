// The writes of a removal, by its plan. Nothing is tested and nothing is read that was written: what the plan says is in lent slices.

#![tactic(auto)]

ghost use Rattle.std.specs.Prelude.{◌≡◌, true, List, ℕ, ◌+◌, ◌*◌, ◌^◌, ◌≤◌, ◌<◌, length, take};
ghost use Rattle.lists.specs.Lists.{part};
ghost use Rattle.store.specs.Head.{largest_capacity, word, head_of, node_words, node_start, page_words, page_start};
ghost use Rattle.split.specs.Frame.{put_node, put_page};
ghost use Rattle.split.specs.Insertion.{SameSizes};
ghost use Rattle.store.specs.declared.Item.{Item};
ghost use Rattle.represent.specs.Image.{page_image};
ghost use Rattle.remove.specs.Remove.{Plan, put_spots, put_own, relinked, release_pages, release_nodes, written_by};
ghost use Rattle.remove.specs.Doable.{Doable};
ghost use Rattle.apply.specs.Carried.{spot_in, spots_from, Carried, Ready};

use store::{Format, Head};

// The numbers of a plan. Of its levels, so many from the lowest one on change; a page 0 is null; and so many blocks are released.
// (Counts beside the slices: those are arrays of fixed length, since there is no heap, and `Ready` speaks of them whole.)
#[derive(Clone, Copy)]
pub struct Outline {
    pub page: u32,
    pub levels: u32,
    pub changed: u32,
    pub linked: bool,
    pub pages: u32,
    pub nodes: u32,
}

// Writes the page, if there is one.
fn write_page(store: &mut [u32], f: Format, head: Head, p: u32, items: &[u32])
    requires { SameSizes (head_of store.old) head × (head.theta ≤ 6) × (head.capacity ≤ largest_capacity)
        × (((p ≡ 0) → ⊥) → (page_start f head p + page_words f head.capacity ≤ length store.old)
        × (length items.now ≡ page_words f head.capacity)) }
    ensures { ((p ≡ 0) → store.new ≡ store.old)
        × (((p ≡ 0) → ⊥) → store.new ≡ put_page f store.old p items.now) }
{
    if p == 0 {
        return;
    }
    let at = store::page_start(f, head, p);
    let end = at + store::page_words(f, head.capacity);
    store::copy(&mut store[at..end], items);
}

// Writes a carried block, whose words begin at `at`, into node block n.
fn write_block(store: &mut [u32], head: Head, n: u32, blocks: &[u32], at: usize)
    requires { SameSizes (head_of store.old) head × (head.theta ≤ 6) × (node_start head n + node_words head.theta ≤ length store.old)
        × (at + node_words head.theta ≤ length blocks.now) }
    ensures { store.new ≡ put_node store.old n (part blocks.now at (node_words head.theta)) }
{
    let end = at + store::node_words(head.theta);
    split::put_block(store, head, n, &blocks[at..end]);
}

// Writes the carried blocks with these numbers, the lowest level first.
fn write_blocks(store: &mut [u32], head: Head, numbers: &[u32], blocks: &[u32])
    requires { SameSizes (head_of store.old) head × (head.theta ≤ 6) × (8 ≤ length store.old)
        × (132 * length numbers.now ≤ length blocks.now)
        × ((i : ℕ) → i < length numbers.now → node_start head (word numbers.now i) + node_words head.theta ≤ length store.old) }
    ensures { (store.new
        ≡ put_spots store.old (spots_from head.theta numbers.now blocks.now 0 (length numbers.now)))
        × SameSizes (head_of store.new) head }
{
    for (i, number) in numbers.iter().enumerate() {
        write_block(store, head, *number, blocks, 132 * i);
    }
}

// Links the node behind joined level-1 nodes, if there is one, back to the node that stays.
fn write_back(store: &mut [u32], head: Head, linked: bool, numbers: &[u32], blocks: &[u32])
    requires { SameSizes (head_of store.old) head × (head.theta ≤ 6)
        × ((linked ≡ true) → (1 ≤ length numbers.now) × (132 ≤ length blocks.now)
        × (node_start head (word blocks.now 3) + node_words head.theta ≤ length store.old)) }
    ensures { store.new
        ≡ relinked store.old linked (spot_in head.theta numbers.now blocks.now 0) }
{
    if !linked {
        return;
    }
    split::relink(store, head, blocks[3], numbers[0]);
}

// Releases pages, in order.
fn release_pages(store: &mut [u32], f: Format, head: Head, pages: &[u32])
    requires { SameSizes (head_of store.old) head × (head.theta ≤ 6) × (1 ≤ head.capacity) × (head.capacity ≤ largest_capacity)
        × (16 ≤ length store.old) × (word store.old 11 + length pages.now < 2 ^ 32)
        × ((i : ℕ) → i < length pages.now → page_start f head (word pages.now i) + page_words f head.capacity ≤ length store.old) }
    ensures { (store.new ≡ release_pages f store.old pages.now)
        × SameSizes (head_of store.new) head × (word store.new 10 ≡ word store.old 10) }
{
    for page in pages {
        release::release_page(store, f, head, *page);
    }
}

// Releases nodes, in order. (A loop of its own: one over a closure would need the two laws of `release_pages` and this one all the same.)
fn release_nodes(store: &mut [u32], head: Head, nodes: &[u32])
    requires { SameSizes (head_of store.old) head × (head.theta ≤ 6) × (16 ≤ length store.old)
        × (word store.old 10 + length nodes.now < 2 ^ 32)
        × ((i : ℕ) → i < length nodes.now → node_start head (word nodes.now i) + node_words head.theta ≤ length store.old) }
    ensures { store.new ≡ release_nodes store.old nodes.now }
{
    for node in nodes {
        release::release_node(store, head, *node);
    }
}

// Writes what stays: the page, the blocks that change, and the back link of the node behind joined level-1 nodes.
fn write_kept(
    store: &mut [u32],
    f: Format,
    head: Head,
    o: Outline,
    items: &[u32],
    numbers: &[u32],
    blocks: &[u32],
)
    requires { SameSizes (head_of store.old) head × (head.theta ≤ 6) × (head.capacity ≤ largest_capacity) × (8 ≤ length store.old)
        × ((o.page ≡ 0 → ⊥) → (page_start f head o.page + page_words f head.capacity ≤ length store.old)
        × (length items.now ≡ page_words f head.capacity))
        × (o.changed ≤ length numbers.now) × (132 * o.changed ≤ length blocks.now)
        × ((i : ℕ) → i < o.changed → node_start head (word numbers.now i) + node_words head.theta ≤ length store.old)
        × ((o.linked ≡ true) → (1 ≤ length numbers.now) × (132 ≤ length blocks.now)
        × (node_start head (word blocks.now 3) + node_words head.theta ≤ length store.old)) }
    ensures { (rs : List Item) → ((o.page ≡ 0 → ⊥) → items.now ≡ page_image f head.capacity rs)
        → store.new ≡ relinked (put_spots (put_own f head.capacity store.old o.page rs)
        (spots_from head.theta numbers.now blocks.now 0 o.changed)) o.linked
        (spot_in head.theta numbers.now blocks.now 0) }
{
    write_page(store, f, head, o.page, items);
    write_blocks(store, head, &numbers[..store::to_index(o.changed)], blocks);
    write_back(store, head, o.linked, numbers, blocks);
}

// Releases the pages, then the nodes.
fn release_both(store: &mut [u32], f: Format, head: Head, o: Outline, pages: &[u32], nodes: &[u32])
    requires { SameSizes (head_of store.old) head × (head.theta ≤ 6) × (1 ≤ head.capacity) × (head.capacity ≤ largest_capacity)
        × (16 ≤ length store.old) × (o.pages ≤ length pages.now) × (o.nodes ≤ length nodes.now)
        × (word store.old 11 + o.pages < 2 ^ 32) × (word store.old 10 + o.nodes < 2 ^ 32)
        × ((i : ℕ) → i < o.pages → page_start f head (word pages.now i) + page_words f head.capacity ≤ length store.old)
        × ((i : ℕ) → i < o.nodes → node_start head (word nodes.now i) + node_words head.theta ≤ length store.old) }
    ensures { store.new ≡ release_nodes (release_pages f store.old (take o.pages pages.now))
        (take o.nodes nodes.now) }
{
    release_pages(store, f, head, &pages[..store::to_index(o.pages)]);
    release_nodes(store, head, &nodes[..store::to_index(o.nodes)]);
}

// Carries a plan out.
pub fn carry_out(
    store: &mut [u32],
    f: Format,
    head: Head,
    o: Outline,
    items: &[u32],
    numbers: &[u32],
    blocks: &[u32],
    pages: &[u32],
    nodes: &[u32],
)
    requires { Ready f store.old head o items.now numbers.now blocks.now pages.now nodes.now }
    ensures { (p : Plan) → Doable f store.old p
        → Carried f store.old head o items.now numbers.now blocks.now pages.now
        nodes.now p
        → store.new ≡ written_by f store.old head p }
{
    write_kept(store, f, head, o, items, numbers, blocks);
    release_both(store, f, head, o, pages, nodes);
    let top = store::to_index(o.levels) - 1;
    insert::name_root(store, numbers[top], o.levels);
}
