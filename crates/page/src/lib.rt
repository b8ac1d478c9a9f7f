// A page in place: a reader that stands in it, the rule of a visited page, and the search for a key.
#![tactic(auto)]

ghost use Rattle.std.specs.Prelude.{◌≡◌, true, ◌++◌, ◌+◌, ◌*◌, ◌/◌, ◌%◌, ◌^◌, ◌≤◌, ◌<◌, ltb, length, get_or, drop};
ghost use Rattle.store.specs.Format.{width, words};
ghost use Rattle.page.specs.Page.{count, item_at, item_words, lawful_item, in_turn};
ghost use Rattle.store.specs.Head.{largest_capacity};
ghost use Rattle.page.specs.Page.{ordered, page_rule, agrees, above, first_above, Lent, Filled};

use plot::Record;
use store::{Format, Item};

// A reader stands at a record of a page.
#[derive(Clone, Copy)]
pub struct Reader<'a> {
    pub page: &'a [u32],
    pub at: usize,
}

// How many records a page says that it has.
pub fn count_of(page: &[u32]) -> usize
    ensures { (result ≡ get_or page.now 0 0) × (result < 2 ^ 32) }
{
    store::to_index(store::word(page, 0))
}

// Record number i of a page, and that its key has the format's width.
#[tactic(auto, using(crate::proofs::Flat::plot_words, crate::proofs::Flat::plot_bits, crate::proofs::Flat::plot_item))]
fn item_at(page: &[u32], f: Format, i: usize) -> Item
    requires { (i < 2 ^ 32) × (words f * (i + 1) < length page.now) }
    ensures { (result ≡ item_at f page.now i) × (result.key < 2 ^ width f) }
{
    match f {
        Format::Plots => Item {
            key: store::widen(page[4 * i + 1]),
            price: page[4 * i + 2],
            lease: page[4 * i + 3],
            last: page[4 * i + 4],
        },
    }
}

impl<'a> Reader<'a> {
    // One step: the record at the reader, which then stands at the next one.
    fn step(&mut self, f: Format) -> Item
        requires { (self.old.at < 2 ^ 32) × (words f * (self.old.at + 1) < length self.old.page.now) }
        ensures { (result ≡ item_at f self.old.page.now self.old.at) × (result.key < 2 ^ width f)
            × (self.new.page ≡ self.old.page) × (self.new.at ≡ self.old.at + 1) }
    {
        let item = item_at(self.page, f, self.at);
        self.at += 1;
        item
    }
}

// A reader opened at a record, and one step.
pub fn read_one(page: &[u32], f: Format, at: usize) -> Item
    requires { (at < 2 ^ 32) × (words f * (at + 1) < length page.now) }
    ensures { result ≡ item_at f page.now at }
{
    let mut reader = Reader { page, at };
    reader.step(f)
}

// Writes a record at the front of a part.
#[tactic(auto, using(crate::proofs::Flat::plot_words, crate::proofs::Flat::written))]
pub fn write_item(part: &mut [u32], f: Format, item: Item)
    requires { words f ≤ length part.old }
    ensures { part.new ≡ item_words f item ++ drop (words f) part.old }
{
    match f {
        Format::Plots => {
            part[0] = (item.key % 4294967296) as u32;
            part[1] = item.price;
            part[2] = item.lease;
            part[3] = item.last;
        }
    }
}

// Whether a record may be held. (The one place where an item becomes a plot's record: both types are of other crates, so no `From` can
// stand here.)
#[tactic(auto, using(crate::proofs::Flat::plot_bits, crate::proofs::Flat::plot_lawful))]
pub fn lawful_item(f: Format, item: Item) -> bool
    requires { item.key < 2 ^ width f }
    ensures { result ≡ lawful_item f item }
{
    match f {
        Format::Plots => plot::lawful_record(Record {
            key: item.key as u32,
            price: item.price,
            lease: item.lease,
            last: item.last,
        }),
    }
}

// Whether a key is below another. Keys of 32 bits are compared as such, so that the compiler can test four at a time.
#[tactic(auto, using(crate::proofs::Flat::plot_bits))]
fn key_below(f: Format, a: u64, b: u64) -> bool
    requires { (a < 2 ^ width f) × (b < 2 ^ width f) }
    ensures { result ≡ ltb a b }
{
    match f {
        Format::Plots => (a as u32) < (b as u32),
    }
}

// Whether a record is lawful and its key is above another.
#[tactic(auto, unfolding(crate::specs::Page::in_turn))]
fn in_turn(f: Format, key: u64, item: Item) -> bool
    requires { (key < 2 ^ width f) × (item.key < 2 ^ width f) }
    ensures { result ≡ in_turn f key item }
{
    lawful_item(f, item) & key_below(f, key, item.key)
}

// Whether the first n records are lawful and their keys ascend: one reader goes through them, and all are checked, so that no branch waits
// for a test. 0 is below every lawful key.
#[tactic(auto, using(crate::proofs::Order::next))]
fn in_order(page: &[u32], f: Format, n: usize) -> bool
    requires { (n < 2 ^ 32) × (words f * n < length page.now) }
    ensures { result ≡ ordered f page.now n }
{
    let mut good = true;
    let mut key = 0;
    let mut reader = Reader { page, at: 0 };
    for _i in 0..n {
        let item = reader.step(f);
        good &= in_turn(f, key, item);
        key = item.key;
    }
    good
}

// Whether a page keeps the rule of a visited one.
pub fn page_ok(page: &[u32], f: Format, capacity: u32) -> bool
    requires { (capacity ≤ largest_capacity) × (Lent f capacity page.now) }
    ensures { result ≡ page_rule f capacity page.now }
{
    let n = count_of(page);
    let c = store::to_index(capacity);
    if n < 1 {
        return false;
    }
    if n > c {
        return false;
    }
    if !in_order(page, f, n) {
        return false;
    }
    let end = 1 + store::words_of(f) * n;
    store::is_zero(&page[end..])
}

// A key without its low bits.
#[tactic(auto, using(crate::proofs::Flat::none_left))]
pub fn prefix(key: u64, low: u32) -> u64
    ensures { result ≡ key / 2 ^ low }
{
    key.checked_shr(low).unwrap_or(0)
}

// Whether all keys of a page agree with a key in its first bits: they ascend, so the first and the last speak for all.
pub fn keys_agree(page: &[u32], f: Format, key: u64, used: u32) -> bool
    requires { (used ≤ width f) × (1 ≤ count page.now) × (Filled f page.now) }
    ensures { result ≡ agrees f page.now key used }
{
    let n = count_of(page);
    let low = store::width_of(f) - used;
    let sought = prefix(key, low);
    let first = read_one(page, f, 0);
    if prefix(first.key, low) != sought {
        return false;
    }
    let last = read_one(page, f, n - 1);
    prefix(last.key, low) == sought
}

// Whether a key is above another, or, if not strict, at or above it.
#[tactic(auto, unfolding(crate::specs::Page::above))]
pub fn is_above(strict: bool, key: u64, x: u64) -> bool
    ensures { result ≡ above strict key x }
{
    if strict { key < x } else { key <= x }
}

// The number of the first record whose key is above, or the count. By halves: `left` records from `from` on are open.
pub fn first_above(page: &[u32], f: Format, strict: bool, key: u64) -> usize
    requires { Filled f page.now }
    ensures { (result ≡ first_above f page.now strict key) × (result ≤ count page.now) }
{
    let mut from: usize = 0;
    let mut left = count_of(page);
    while left > 0 {
        let half = left / 2;
        let item = read_one(page, f, from + half);
        if is_above(strict, key, item.key) {
            left = half;
        } else {
            from += half + 1;
            left -= half + 1;
        }
    }
    from
}
