// The page half of a removal's plan: the key's page without its record, joined with the pages that are named, in hand.

#![tactic(auto)]

ghost use Rattle.std.specs.Prelude.{◌≡◌, List, ℕ, ◌+◌, ◌^◌, ◌≤◌, ◌<◌, length, take};
ghost use Rattle.lists.specs.Lists.{All};
ghost use Rattle.store.specs.Format.{width};
ghost use Rattle.store.specs.Head.{page_words, page_at, Under};
ghost use Rattle.page.specs.Page.{count, key_at};
ghost use Rattle.page.specs.Schema.{key_of};
ghost use Rattle.insert.specs.Enter.{own_items};
ghost use Rattle.joins.specs.Joins.{without};
ghost use Rattle.remove.specs.Remove.{Reach, Pages};
ghost use Rattle.siblings.specs.Pages.{pages_by, Joinable, records_in};
ghost use Rattle.gather.specs.Gather.{OwnPage, Holds, start_of, joined_by};

use store::{Format, Head};

// The page of a stretch after its joins: its number (0: null), and how many pages are released. (A count beside the lent numbers: no heap.)
#[derive(Clone, Copy)]
pub struct Gathered {
    pub page: u32,
    pub lost: usize,
}

// The key's page in hand, without its record i. An emptied page is released.
fn first_page(
    store: &[u32],
    f: Format,
    head: Head,
    page: u32,
    i: usize,
    items: &mut [u32],
    lost: &mut [u32],
) -> Gathered
    requires { (Under f store.now head) × OwnPage f store.now head page i × (length items.old ≡ page_words f head.capacity)
        × (1 ≤ length lost.old) }
    ensures { (length items.new ≡ length items.old) × (length lost.new ≡ length lost.old)
        × (result.lost ≤ 1)
        × ((k used : ℕ) (rs : List Reach) → key_at f (page_at f store.now head page) i ≡ k
        → Holds f head.capacity (start_of f store.now head k used page rs) result items.new lost.new) }
{
    store::copy(items, store::page_at(store, f, head, page));
    merge::take_out(items, f, head.capacity, i);
    if page::count_of(items) != 0 {
        return Gathered { page, lost: 0 };
    }
    lost[0] = page;
    Gathered { page: 0, lost: 1 }
}

// One join: the page in hand with page p, on its left or on its right. The left number stays; null has none.
fn gather_turn(
    store: &[u32],
    f: Format,
    head: Head,
    left: bool,
    p: u32,
    hand: Gathered,
    items: &mut [u32],
    lost: &mut [u32],
) -> Gathered
    requires { (Under f store.now head) × Joinable f store.now head p × (length items.old ≡ page_words f head.capacity)
        × (count items.old + length (own_items f store.now head p) ≤ head.capacity) × (hand.lost < length lost.old)
        × (length lost.old < 2 ^ 32) }
    ensures { (length items.new ≡ length items.old) × (length lost.new ≡ length lost.old)
        × (result.lost ≤ hand.lost + 1)
        × ((g : Pages) → Holds f head.capacity g hand items.old lost.old
        → Holds f head.capacity (joined_by f store.now head g left p) result items.new lost.new) }
{
    if p == 0 {
        return hand;
    }
    merge::add_page(
        items,
        f,
        head.capacity,
        store::page_at(store, f, head, p),
        left,
    );
    let end = hand.lost;
    if hand.page == 0 {
        return Gathered { page: p, lost: end };
    }
    lost[end] = siblings::pick(left, hand.page, p);
    Gathered {
        page: siblings::pick(left, p, hand.page),
        lost: end + 1,
    }
}

// The page of the key's stretch, in hand: without the key's record i, and joined with the first n pages of `mates`. The pages that are
// released are numbered in `lost`.
pub fn gather_page(
    store: &[u32],
    f: Format,
    head: Head,
    key: u64,
    used: u32,
    page: u32,
    i: usize,
    mates: &[u32],
    n: usize,
    items: &mut [u32],
    lost: &mut [u32],
) -> Gathered
    requires { (Under f store.now head) × (key < 2 ^ width f) × (used ≤ width f) × (n ≤ used) × (n ≤ length mates.now)
        × OwnPage f store.now head page i × (key_at f (page_at f store.now head page) i ≡ key)
        × All (Joinable f store.now head) (take n mates.now)
        × (length (without key_of key (own_items f store.now head page)) + records_in f store.now head (take n mates.now) ≤ head.capacity)
        × (length items.old ≡ page_words f head.capacity) × (n + 1 ≤ length lost.old) × (length lost.old < 2 ^ 32) }
    ensures { (length items.new ≡ length items.old) × (length lost.new ≡ length lost.old)
        × (result.lost ≤ n + 1)
        × ((rs : List Reach) → Holds f head.capacity
        (pages_by f store.now head key (start_of f store.now head key used page rs) (take n mates.now)) result
        items.new lost.new) }
{
    let mut hand = first_page(store, f, head, page, i, items, lost);
    let mut left = used;
    for mate in &mates[..n] {
        let side = siblings::on_left(f, key, left);
        hand = gather_turn(store, f, head, side, *mate, hand, items, lost);
        left -= 1;
    }
    hand
}
