// A removal after which nothing joins. The key's page and the stretch beside it in the same terminal node decide, and the record is taken
// out in place.

#![tactic(auto)]

ghost use Rattle.std.specs.Prelude.{◌≡◌, ◌^◌, ◌≤◌, ◌<◌, length};
ghost use Rattle.store.specs.Format.{width};
ghost use Rattle.store.specs.Head.{page_at, Under};
ghost use Rattle.page.specs.Page.{key_at};
ghost use Rattle.search.specs.Way.{sound_end};
ghost use Rattle.search.specs.Descent.{descent, end_of};
ghost use Rattle.split.specs.Insertion.{put_items};
ghost use Rattle.gather.specs.Gather.{OwnPage};
ghost use Rattle.near.specs.Near.{left_in, root_stays, beside, near_of, near_result, near_words};

use answers::Refusal;
use search::End;
use store::{Format, Head};

// Whether the root is not to be released: there is one level, or the root has several entries.
fn root_stays(store: &[u32], head: Head) -> bool
    requires { head.theta ≤ 6 }
    ensures { result ≡ root_stays store.now head }
{
    head.levels == 1 || store::word(store, store::node_start(head, head.root)) != 0
}

// Whether the page at the end of a key's way, with so many records left in it, stays apart from its sibling. The sibling's entry is in the
// same terminal node.
fn stays_apart(
    store: &[u32],
    f: Format,
    head: Head,
    key: u64,
    e: End,
    left: usize,
) -> Result<bool, Refusal>
    requires { (Under f store.now head) × (key < 2 ^ width f) × (sound_end e ≡ end_of (descent f store.now head key))
        × (e.before < e.used) × (left ≤ head.capacity) }
    ensures { result ≡ near_result (beside f store.now head key (sound_end e) left) }
{
    let m = e.used;
    let other = siblings::sibling_key(f, key, m);
    let v = search::visit_node(store, f, head, other, 1, e.node, e.before, false)?;
    if e.before + v.depth > m {
        return Ok(true);
    }
    let p = v.pointer;
    if p == 0 {
        return Ok(false);
    }
    if !insert::own_ok(store, f, head, other, p, m) {
        return Err(Refusal::DamageMet);
    }
    let held = page::count_of(store::page_at(store, f, head, p));
    Ok(left + held > store::to_index(head.capacity))
}

// Whether the removal of a key's record, which leaves so many in its page, joins nothing, as far as that is seen from the page's terminal
// node.
fn nothing_joins(
    store: &[u32],
    f: Format,
    head: Head,
    key: u64,
    e: End,
    left: usize,
) -> Result<bool, Refusal>
    requires { (Under f store.now head) × (key < 2 ^ width f) × (sound_end e ≡ end_of (descent f store.now head key))
        × (left ≤ head.capacity) }
    ensures { result ≡ near_result (near_of f store.now head key (sound_end e) left) }
{
    if left == 0 || e.used <= e.before || !root_stays(store, head) {
        return Ok(false);
    }
    stays_apart(store, f, head, key, e, left)
}

// Takes record i out of page p.
fn take_record(store: &mut [u32], f: Format, head: Head, p: u32, i: usize)
    requires { (Under f store.old head) × OwnPage f store.old head p i }
    ensures { store.new ≡ put_items f head.capacity store.old p
        (left_in f store.old head (key_at f (page_at f store.old head p) i) p) }
{
    let capacity = head.capacity;
    let at = store::page_start(f, head, p);
    let end = at + store::page_words(f, capacity);
    merge::take_out(&mut store[at..end], f, capacity, i);
}

// Takes record i, with the key, out of the page at the end of the key's way, if the removal joins nothing and that is seen from the page's
// terminal node, and tells whether the removal is done so. Else it is not decided here, and nothing is written.
pub fn take_near(
    store: &mut [u32],
    f: Format,
    head: Head,
    key: u64,
    e: End,
    i: usize,
) -> Result<bool, Refusal>
    requires { (Under f store.old head) × (key < 2 ^ width f) × (sound_end e ≡ end_of (descent f store.old head key))
        × OwnPage f store.old head e.page i × (key_at f (page_at f store.old head e.page) i ≡ key) }
    ensures { (result ≡ near_result (near_of f store.old head key (sound_end e) (length (left_in f store.old head key e.page))))
        × (store.new ≡ near_words f store.old head key (sound_end e)) }
{
    let count = page::count_of(store::page_at(store, f, head, e.page));
    let done = nothing_joins(store, f, head, key, e, count - 1)?;
    if done {
        take_record(store, f, head, e.page, i);
    }
    Ok(done)
}
