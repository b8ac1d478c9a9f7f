// What enter writes into pages: a record put in order, a page halved, a page of one record.

#![tactic(auto)]

ghost use Rattle.std.specs.Prelude.{◌≡◌, true, false, List, [], ◌∷◌, ℕ, suc, ◌+◌, ◌*◌, ◌≤◌, ◌<◌, length, take, drop};
ghost use Rattle.lists.specs.Bits.{bit as bit_of};
ghost use Rattle.lists.specs.Lists.{All, replaced, part};
ghost use Rattle.lists.specs.Keyed.{Sorted, Prefix, insert};
ghost use Rattle.tree.specs.Build.{side};
ghost use Rattle.store.specs.Format.{width, words};
ghost use Rattle.store.specs.Head.{page_words};
ghost use Rattle.page.specs.Page.{count, lawful_item, Filled};
ghost use Rattle.page.specs.Schema.{key_of};
ghost use Rattle.represent.specs.Image.{page_image};
ghost use Rattle.put.specs.Put.{Halvable, cut_to};

use store::{Format, Item};

// Moves n words up by so many places.
pub fn move_up(part: &mut [u32], from: usize, n: usize, by: usize)
    requires { from + n + by ≤ length part.old }
    ensures { part.new ≡ replaced (from + by) n (take n (drop from part.old)) part.old }
{
    part.copy_within(from..from + n, from + by);
}

// Puts a record in order into a page that has room. Only the records behind it are moved.
pub fn put_record(part: &mut [u32], f: Format, capacity: u32, item: Item)
    requires { (length part.old ≡ page_words f capacity) × (count part.old < capacity) × (Filled f part.old) }
    ensures { (rs : List Item) → part.old ≡ page_image f capacity rs → All (λ it. lawful_item f it ≡ true) rs
        → part.new ≡ page_image f capacity (insert key_of item rs) }
{
    let n = page::count_of(part);
    let i = page::first_above(part, f, true, item.key);
    let w = store::words_of(f);
    let at = 1 + w * i;
    move_up(part, at, w * (n - i), w);
    page::write_item(&mut part[at..], f, item);
    part[0] = (n + 1) as u32;
}

// Writes a page of one record, whole.
#[tactic(auto, using(crate::proofs::PutLaws::first_room))]
pub fn write_first(part: &mut [u32], f: Format, capacity: u32, item: Item)
    requires { (1 ≤ capacity) × (length part.old ≡ page_words f capacity) }
    ensures { part.new ≡ page_image f capacity (item ∷ []) }
{
    part.fill(0);
    part[0] = 1;
    page::write_item(&mut part[1..], f, item);
}

// Whether a bit of a key is set; bit 0 is the lowest.
#[tactic(auto, unfolding(lists::specs::Bits::bit))]
pub fn bit_set(key: u64, bit: u32) -> bool
    requires { bit < 64 }
    ensures { result ≡ bit_of bit key }
{
    (key >> bit) % 2 == 1
}

// How many records of a page have a bit clear. Keys ascend, so these come first.
pub fn low_count(page: &[u32], f: Format, bit: u32) -> usize
    requires { (bit < width f) × (words f * count page.now < length page.now) }
    ensures { (result ≤ count page.now)
        × ((C q : ℕ) (rs : List Item) → page.now ≡ page_image f C rs → All (λ it. lawful_item f it ≡ true) rs → Sorted key_of rs
        → Prefix key_of (suc bit) q rs → (take result rs ≡ side key_of false bit rs) × (drop result rs ≡ side key_of true bit rs)) }
{
    let n = page::count_of(page);
    for i in 0..n {
        let item = page::read_one(page, f, i);
        if bit_set(item.key, bit) {
            return i;
        }
    }
    n
}

// Copies n words to another place.
pub fn copy_words(store: &mut [u32], from: usize, to: usize, n: usize)
    requires { (from + n ≤ length store.old) × (to + n ≤ length store.old) }
    ensures { store.new ≡ replaced to n (take n (drop from store.old)) store.old }
{
    store.copy_within(from..from + n, to);
}

// Gives a page n records: its first n stay, and all words behind them are cleared.
pub fn cut_page(part: &mut [u32], f: Format, capacity: u32, n: usize)
    requires { (n ≤ capacity) × (length part.old ≡ page_words f capacity) }
    ensures { part.new ≡ cut_to f capacity n part.old }
{
    part[0] = n as u32;
    let rest = 1 + store::words_of(f) * n;
    part[rest..].fill(0);
}

// The records of the page at `from`, from number i on, go to the page at `to`, which is written whole; the others stay.
pub fn halve_page(store: &mut [u32], f: Format, capacity: u32, from: usize, to: usize, i: usize)
    requires { Halvable f store.old capacity from to i }
    ensures { (rs : List Item) → part store.old from (page_words f capacity) ≡ page_image f capacity rs
        → store.new ≡ replaced to (page_words f capacity) (page_image f capacity (drop i rs))
        (replaced from (page_words f capacity) (page_image f capacity (take i rs)) store.old) }
{
    let w = store::words_of(f);
    let n = store::to_index(store::word(store, from));
    let size = store::page_words(f, capacity);
    let high = n - i;
    copy_words(store, from + 1 + w * i, to + 1, w * high);
    let from_end = from + size;
    cut_page(&mut store[from..from_end], f, capacity, i);
    let to_end = to + size;
    cut_page(&mut store[to..to_end], f, capacity, high);
}
