// What remove does to the words of a page: a record taken out, another page's records added in front or behind.

#![tactic(auto)]

ghost use Rattle.std.specs.Prelude.{◌≡◌, true, List, ◌+◌, ◌≤◌, ◌<◌, length};
ghost use Rattle.lists.specs.Lists.{All};
ghost use Rattle.lists.specs.Keyed.{Sorted};
ghost use Rattle.store.specs.Head.{page_words};
ghost use Rattle.page.specs.Page.{count, key_at, lawful_item};
ghost use Rattle.page.specs.Schema.{key_of};
ghost use Rattle.represent.specs.Image.{page_image};
ghost use Rattle.joins.specs.Joins.{without};
ghost use Rattle.merge.specs.Added.{added};

use store::{Format, Item};

// Takes record i out of a page: the later ones move down, and the last place is cleared.
pub fn take_out(part: &mut [u32], f: Format, capacity: u32, i: usize)
    requires { (length part.old ≡ page_words f capacity) × (count part.old ≤ capacity) × (i < count part.old) }
    ensures { (rs : List Item) → part.old ≡ page_image f capacity rs → All (λ it. lawful_item f it ≡ true) rs → Sorted key_of rs
        → part.new ≡ page_image f capacity (without key_of (key_at f part.old i) rs) }
{
    let n = page::count_of(part);
    let w = store::words_of(f);
    let at = 1 + w * i;
    part.copy_within(at + w..1 + w * n, at);
    put::cut_page(part, f, capacity, n - 1);
}

// Adds the records of another page, in front or behind.
pub fn add_page(part: &mut [u32], f: Format, capacity: u32, other: &[u32], before: bool)
    requires { (length part.old ≡ page_words f capacity) × (length other.now ≡ page_words f capacity)
        × (count part.old + count other.now ≤ capacity) }
    ensures { (rs its : List Item) → part.old ≡ page_image f capacity rs → other.now ≡ page_image f capacity its
        → part.new ≡ page_image f capacity (added before rs its) }
{
    let n = page::count_of(part);
    let m = page::count_of(other);
    let w = store::words_of(f);
    let mut at = 1 + w * n;
    if before {
        part.copy_within(1..at, 1 + w * m);
        at = 1;
    }
    store::copy(&mut part[at..at + w * m], &other[1..1 + w * m]);
    put::cut_page(part, f, capacity, n + m);
}
