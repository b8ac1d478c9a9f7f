// A store in a lent slice of words: its head, where its blocks stand, and set-up.
#![tactic(auto)]

ghost use Rattle.std.specs.Prelude.{◌≡◌, ◌+◌, ◌-◌, ◌*◌, ◌/◌, ◌^◌, ◌≤◌, ◌<◌, length, get_or, replicate};
ghost use Rattle.lists.specs.Lists.{part};
ghost use Rattle.tree.specs.Book.{log2, level_bound};
ghost use Rattle.store.specs.Format.{width, words};
ghost use Rattle.store.specs.Head.{largest_capacity, zeros, head_of, node_words, page_words, size, node_start, node_at, page_start, page_at};
ghost use Rattle.store.specs.Head.{lawful_sizes, lawful_counts, released_of, named, lawful_released, InUse, head_rule, Under};
ghost use Rattle.store.specs.Released.{node_form, page_form, node_next, page_next, passed, member, link_ok, nodes_ok, pages_ok};
ghost use Rattle.store.specs.SetUp.{marked, set_up, reply};

use answers::Refusal;

#[derive(Clone, Copy)]
pub enum Format {
    Plots,
}

// A record of any format: its key, and what else it holds (0 where a format has no such word).
#[derive(Clone, Copy)]
pub struct Item {
    pub key: u64,
    pub price: u32,
    pub lease: u32,
    pub last: u32,
}

// The first eight words.
#[derive(Clone, Copy)]
pub struct Head {
    pub theta: u32,
    pub capacity: u32,
    pub node_blocks: u32,
    pub page_blocks: u32,
    pub nodes_taken: u32,
    pub pages_taken: u32,
    pub root: u32,
    pub levels: u32,
}

// The words 8 to 11 of the head: the last released node and page, and how many are released of each.
#[derive(Clone, Copy)]
pub struct Released {
    pub node: u32,
    pub page: u32,
    pub nodes: u32,
    pub pages: u32,
}

// The bits of a key.
pub fn width_of(f: Format) -> u32
    ensures { (result ≡ width f) × (32 ≤ result) × (result ≤ 64) }
{
    match f {
        Format::Plots => 32,
    }
}

// The words of a record.
pub fn words_of(f: Format) -> usize
    ensures { (result ≡ words f) × (1 ≤ result) × (result ≤ 4) }
{
    match f {
        Format::Plots => 4,
    }
}

// A word as an index.
pub fn to_index(x: u32) -> usize
    ensures { (result ≡ x) × (result < 2 ^ 32) }
{
    x as usize
}

// A word in 64 bits.
pub fn widen(x: u32) -> u64
    ensures { (result ≡ x) × (result < 2 ^ 32) }
{
    x as u64
}

// A word of the store, 0 past its end.
pub fn word(store: &[u32], i: usize) -> u32
    ensures { result ≡ get_or store.now i 0 }
{
    if i < store.len() {
        return store[i];
    }
    0
}

// 2 to the k.
pub fn pow2(k: u32) -> usize
    requires { k ≤ 6 }
    ensures { (result ≡ 2 ^ k) × (1 ≤ result) × (result ≤ 64) }
{
    1usize << k
}

// Whether every word of a part is 0: their bits are gathered, without a branch at each word.
pub fn is_zero(part: &[u32]) -> bool
    ensures { result ≡ zeros part.now 0 (length part.now) }
{
    let mut bits: u32 = 0;
    for word in part {
        bits |= *word;
    }
    bits == 0
}

// The first eight words of a store.
pub fn head_of(store: &[u32]) -> Head
    requires { 8 ≤ length store.now }
    ensures { result ≡ head_of store.now }
{
    Head {
        theta: store[0],
        capacity: store[1],
        node_blocks: store[2],
        page_blocks: store[3],
        nodes_taken: store[4],
        pages_taken: store[5],
        root: store[6],
        levels: store[7],
    }
}

// The most records that a page may have room for.
pub const LARGEST_CAPACITY: u32 = 24;

// Whether θ, C, N and P are within their limits.
fn sizes_ok(theta: u32, capacity: u32, nodes: u32, pages: u32) -> bool
    ensures { result ≡ lawful_sizes theta capacity nodes pages }
{
    if theta < 1 {
        return false;
    }
    if theta > 6 {
        return false;
    }
    if capacity < 1 {
        return false;
    }
    if capacity > LARGEST_CAPACITY {
        return false;
    }
    if nodes < 1 {
        return false;
    }
    if nodes > 4096 {
        return false;
    }
    if pages < 1 {
        return false;
    }
    pages <= 4096
}

// The words of a node block.
pub fn node_words(theta: u32) -> usize
    requires { theta ≤ 6 }
    ensures { (result ≡ node_words theta) × (6 ≤ result) × (result ≤ 132) }
{
    4 + 2 * pow2(theta)
}

// The words of a page block.
pub fn page_words(f: Format, capacity: u32) -> usize
    requires { capacity ≤ largest_capacity }
    ensures { (result ≡ page_words f capacity) × (result ≤ 1 + 4 * largest_capacity) }
{
    1 + words_of(f) * to_index(capacity)
}

// The words of a store.
fn size_of(f: Format, theta: u32, capacity: u32, nodes: u32, pages: u32) -> usize
    requires { (theta ≤ 6) × (capacity ≤ largest_capacity) × (nodes ≤ 4096) × (pages ≤ 4096) }
    ensures { (result ≡ size f theta capacity nodes pages) × (result < 2 ^ 21) }
{
    16 + to_index(nodes) * node_words(theta) + to_index(pages) * page_words(f, capacity)
}

// The largest f with 2^f ≤ c.
fn floor_log2(c: u32) -> u32
    requires { (1 ≤ c) × (c ≤ largest_capacity) }
    ensures { (result ≡ log2 c) × (result ≤ 4) }
{
    c.ilog2()
}

// The bound on the levels, document 01's L.
fn level_bound(f: Format, theta: u32, capacity: u32) -> u32
    requires { (1 ≤ theta) × (theta ≤ 6) × (1 ≤ capacity) × (capacity ≤ largest_capacity) }
    ensures { result ≡ level_bound (width f) theta capacity }
{
    (width_of(f) - floor_log2(capacity) + (theta - 1)) / theta
}

// Whether the counts, the root and the levels of a head are within their limits.
fn counts_ok(f: Format, head: Head) -> bool
    requires { (1 ≤ head.theta) × (head.theta ≤ 6) × (1 ≤ head.capacity) × (head.capacity ≤ largest_capacity) }
    ensures { result ≡ lawful_counts f head }
{
    if head.nodes_taken < 1 {
        return false;
    }
    if head.nodes_taken > head.node_blocks {
        return false;
    }
    if head.pages_taken > head.page_blocks {
        return false;
    }
    if head.root < 1 {
        return false;
    }
    if head.root > head.nodes_taken {
        return false;
    }
    if head.levels < 1 {
        return false;
    }
    head.levels <= level_bound(f, head.theta, head.capacity)
}

// What a head says of released blocks.
pub fn released_of(store: &[u32]) -> Released
    requires { 16 ≤ length store.now }
    ensures { result ≡ released_of store.now }
{
    Released {
        node: store[8],
        page: store[9],
        nodes: store[10],
        pages: store[11],
    }
}

// Whether the name of a chain with so many blocks is a taken number, or 0 just when there is none.
fn name_ok(name: u32, count: u32, taken: u32) -> bool
    ensures { result ≡ named name count taken }
{
    if count == 0 {
        return name == 0;
    }
    if name == 0 {
        return false;
    }
    name <= taken
}

// Whether the names and counts of released blocks are within their limits.
fn released_ok(head: Head, r: Released) -> bool
    ensures { result ≡ lawful_released head r }
{
    if r.nodes >= head.nodes_taken {
        return false;
    }
    if r.pages > head.pages_taken {
        return false;
    }
    if !name_ok(r.node, r.nodes, head.nodes_taken) {
        return false;
    }
    name_ok(r.page, r.pages, head.pages_taken)
}

// Whether a store keeps the head rule.
pub fn head_ok(store: &[u32], f: Format) -> bool
    ensures { result ≡ head_rule f store.now }
{
    if store.len() < 16 {
        return false;
    }
    let head = head_of(store);
    if !sizes_ok(
        head.theta,
        head.capacity,
        head.node_blocks,
        head.page_blocks,
    ) {
        return false;
    }
    if size_of(
        f,
        head.theta,
        head.capacity,
        head.node_blocks,
        head.page_blocks,
    ) > store.len()
    {
        return false;
    }
    if !is_zero(&store[12..16]) {
        return false;
    }
    if !counts_ok(f, head) {
        return false;
    }
    released_ok(head, released_of(store))
}

// A block's number counted from 0.
fn from_zero(n: u32) -> usize
    ensures { (result ≡ n - 1) × (result < 2 ^ 32) }
{
    to_index(n.saturating_sub(1))
}

// The first word of a node block.
pub fn node_start(head: Head, n: u32) -> usize
    requires { head.theta ≤ 6 }
    ensures { (result ≡ node_start head n) × (result < 2 ^ 40) }
{
    16 + from_zero(n) * node_words(head.theta)
}

// The first word of a page block.
pub fn page_start(f: Format, head: Head, p: u32) -> usize
    requires { (head.theta ≤ 6) × (head.capacity ≤ largest_capacity) }
    ensures { (result ≡ page_start f head p) × (result < 2 ^ 42) }
{
    16 + to_index(head.node_blocks) * node_words(head.theta)
        + from_zero(p) * page_words(f, head.capacity)
}

// The words of a node block in use, in place.
pub fn node_at(store: &[u32], f: Format, head: Head, n: u32) -> &[u32]
    requires { (Under f store.now head) × (InUse head n) }
    ensures { result.now ≡ node_at store.now head n }
{
    let start = node_start(head, n);
    let end = start + node_words(head.theta);
    &store[start..end]
}

// The words of a page block, in place.
pub fn page_at(store: &[u32], f: Format, head: Head, p: u32) -> &[u32]
    requires { (head.theta ≤ 6) × (head.capacity ≤ largest_capacity) }
    ensures { result.now ≡ page_at f store.now head p }
{
    let start = page_start(f, head, p);
    let end = start + page_words(f, head.capacity);
    if end <= store.len() {
        return &store[start..end];
    }
    &store[0..0]
}

// Whether a node block has the form of a released one.
fn node_form(store: &[u32], f: Format, head: Head, n: u32) -> bool
    requires { (Under f store.now head) × (InUse head n) }
    ensures { result ≡ node_form store.now n }
{
    let at = node_start(head, n);
    let links = at + 2;
    if !is_zero(&store[at..links]) {
        return false;
    }
    let rest = at + 3;
    let end = at + node_words(head.theta);
    is_zero(&store[rest..end])
}

// Whether a page block has the form of a released one.
fn page_form(store: &[u32], f: Format, head: Head, p: u32) -> bool
    requires { (Under f store.now head) × (1 ≤ p) × (p ≤ head.pages_taken) }
    ensures { result ≡ page_form f store.now p }
{
    let at = page_start(f, head, p);
    if store[at] != 0 {
        return false;
    }
    let rest = at + 2;
    let end = at + page_words(f, head.capacity);
    is_zero(&store[rest..end])
}

// The next one of a released node.
fn node_next(store: &[u32], head: Head, n: u32) -> u32
    requires { (head.theta ≤ 6) × (head ≡ head_of store.now) }
    ensures { result ≡ node_next store.now n }
{
    word(store, node_start(head, n) + 2)
}

// The next one of a released page.
fn page_next(store: &[u32], f: Format, head: Head, p: u32) -> u32
    requires { (head.theta ≤ 6) × (head.capacity ≤ largest_capacity) × (head ≡ head_of store.now) }
    ensures { result ≡ page_next f store.now p }
{
    word(store, page_start(f, head, p) + 1)
}

// Whether a node is one of n in the chain from `first` on.
fn node_seen(store: &[u32], head: Head, name: u32, first: u32, n: u32) -> bool
    requires { (head.theta ≤ 6) × (head ≡ head_of store.now) }
    ensures { result ≡ member name (passed (node_next store.now) n first) }
{
    let mut x = first;
    for _i in 0..n {
        if x == name {
            return true;
        }
        x = node_next(store, head, x);
    }
    false
}

// Whether the node `name` behind n others of a chain from `first` on may be taken, where so many are left behind it.
fn link_ok(store: &[u32], f: Format, head: Head, name: u32, first: u32, n: u32, left: u32) -> bool
    requires { (Under f store.now head) × (InUse head name) }
    ensures { result ≡ link_ok (node_form store.now) (node_next store.now) head.nodes_taken name
        (passed (node_next store.now) n first) left }
{
    if !node_form(store, f, head, name) {
        return false;
    }
    if node_seen(store, head, name, first, n) {
        return false;
    }
    name_ok(node_next(store, head, name), left, head.nodes_taken)
}

// Whether the last n released nodes may be taken, or all if they are fewer.
pub fn nodes_ok(store: &[u32], f: Format, head: Head, n: u32) -> bool
    requires { Under f store.now head }
    ensures { result ≡ nodes_ok store.now n }
{
    let r = released_of(store);
    let mut name = r.node;
    for i in 0..n {
        if i == r.nodes {
            return true;
        }
        if !link_ok(store, f, head, name, r.node, i, r.nodes - 1 - i) {
            return false;
        }
        name = node_next(store, head, name);
    }
    true
}

// Whether the last released page may be taken, if there is one and one is asked for.
pub fn pages_ok(store: &[u32], f: Format, head: Head, n: u32) -> bool
    requires { (Under f store.now head) × (n ≤ 1) }
    ensures { result ≡ pages_ok f store.now n }
{
    if n == 0 {
        return true;
    }
    let r = released_of(store);
    if r.pages == 0 {
        return true;
    }
    if !page_form(store, f, head, r.page) {
        return false;
    }
    name_ok(
        page_next(store, f, head, r.page),
        r.pages - 1,
        head.pages_taken,
    )
}

// Sets every word of a part to 0.
pub fn clear(part: &mut [u32])
    ensures { part.new ≡ replicate (length part.old) 0 }
{
    part.fill(0);
}

// Copies words over a part of as many. (Word by word: the library's copy of a slice calls memmove, which the archive for C then needs.)
pub fn copy(part: &mut [u32], words: &[u32])
    requires { length part.old ≡ length words.now }
    ensures { part.new ≡ words.now }
{
    for (i, word) in words.iter().enumerate() {
        part[i] = *word;
    }
}

// Writes the words of a store just set up that are not 0: its head, and the level of node 1.
fn mark(part: &mut [u32], theta: u32, capacity: u32, nodes: u32, pages: u32)
    requires { 18 ≤ length part.old }
    ensures { part.new ≡ marked part.old theta capacity nodes pages }
{
    part[0] = theta;
    part[1] = capacity;
    part[2] = nodes;
    part[3] = pages;
    part[4] = 1;
    part[6] = 1;
    part[7] = 1;
    part[17] = 1;
}

// Sets a store up: refused with 4 or 5, or cleared and headed. Words beyond the size stay.
pub fn set_up(
    store: &mut [u32],
    f: Format,
    theta: u32,
    capacity: u32,
    nodes: u32,
    pages: u32,
) -> Result<u32, Refusal>
    ensures { (reply result ≡ (set_up f theta capacity nodes pages store.old).reply)
        × (store.new ≡ (set_up f theta capacity nodes pages store.old).words) }
{
    if !sizes_ok(theta, capacity, nodes, pages) {
        return Err(Refusal::SizesOutside);
    }
    let n = size_of(f, theta, capacity, nodes, pages);
    if store.len() < n {
        return Err(Refusal::TooShort);
    }
    clear(&mut store[..n]);
    mark(store, theta, capacity, nodes, pages);
    Ok(n as u32)
}
