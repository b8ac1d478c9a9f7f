// Remove on the words of a store. It tests first and plans all that it changes, and writes then: nothing can be refused after the first
// write.

#![tactic(auto)]

ghost use Rattle.std.specs.Prelude.{◌≡◌, List, ℕ, ◌+◌, ◌*◌, ◌^◌, ◌≤◌, ◌<◌, true, ltb, length, take, IfOk};
ghost use Rattle.store.specs.Format.{width};
ghost use Rattle.store.specs.Head.{page_words, page_at, Under};
ghost use Rattle.page.specs.Page.{key_at};
ghost use Rattle.page.specs.Schema.{key_of};
ghost use Rattle.search.specs.Way.{sound_end};
ghost use Rattle.search.specs.Descent.{descent, end_of};
ghost use Rattle.search.specs.Find.{reply};
ghost use Rattle.insert.specs.Enter.{own_items};
ghost use Rattle.joins.specs.Joins.{without};
ghost use Rattle.remove.specs.Remove.{Reach, page_joins, emptied, levels_from, remove_of};
ghost use Rattle.siblings.specs.Marks.{Tracks, Passed};
ghost use Rattle.gather.specs.Gather.{OwnPage};
ghost use Rattle.removal.specs.Removal.{Located, Seated, PagesDone, LevelsDone, PartFits, DraftFits, Drawn, Executed};

use answers::Refusal;
use apply::Outline;
use search::{End, Step};
use store::{Format, Head, Item};

// The record of a key: its number in its page, and the record.
#[derive(Clone, Copy)]
pub struct Seat {
    pub i: usize,
    pub item: Item,
}

// The page half of a plan: the bits of the key's stretch after its joins, its page (0: null), and how many pages are released.
#[derive(Clone, Copy)]
pub struct PagePart {
    pub bits: u32,
    pub page: u32,
    pub pages: u32,
}

// The page of the key without its record i, joined with the pages beside it as long as they fit, in hand. The pages that are released are
// numbered in `pages`.
fn plan_page(
    store: &[u32],
    f: Format,
    head: Head,
    key: u64,
    used: u32,
    page: u32,
    i: usize,
    marks: &mut [u8],
    items: &mut [u32],
    pages: &mut [u32],
) -> Result<PagePart, Refusal>
    requires { (Under f store.now head) × (key < 2 ^ width f) × (used ≤ width f) × OwnPage f store.now head page i
        × (key_at f (page_at f store.now head page) i ≡ key) × (head.nodes_taken < length marks.old)
        × (length items.old ≡ page_words f head.capacity) × (65 ≤ length pages.old) × (length pages.old < 2 ^ 32)
        × Passed f store.now head marks.old }
    ensures { IfOk result (PartFits used) × ((rs : List Reach) → Tracks (width f) key rs marks.old
        → PagesDone f head.capacity key (page_joins f store.now head key used
        (emptied used page (without key_of key (own_items f store.now head page)) rs)) result items.new pages.new
        marks.new) × Passed f store.now head marks.new }
{
    let count = page::count_of(store::page_at(store, f, head, page)) - 1;
    let mut mates = [0u32; 64];
    let n = siblings::join_pages(store, f, head, key, used, count, marks, &mut mates)?;
    let hand = gather::gather_page(store, f, head, key, used, page, i, &mates, n, items, pages);
    Ok(PagePart {
        bits: used - n as u32,
        page: hand.page,
        pages: hand.lost as u32,
    })
}

// The levels over the page part of a plan, joined as long as the one below joined, and without the roots of one entry: the whole plan.
fn plan_levels(
    store: &[u32],
    f: Format,
    head: Head,
    key: u64,
    steps: [Step; 32],
    used: u32,
    p: PagePart,
    marks: &mut [u8],
    numbers: &mut [u32],
    blocks: &mut [u32],
    gone: &mut [u32],
) -> Result<Outline, Refusal>
    requires { (Under f store.now head) × (key < 2 ^ width f) × ((descent f store.now head key).ok ≡ true)
        × (steps ≡ (descent f store.now head key).steps) × (used ≡ (descent f store.now head key).used) × (p.bits ≤ used)
        × (head.nodes_taken < length marks.old) × (head.levels ≤ length numbers.old) × (132 * head.levels ≤ length blocks.old)
        × (width f * head.levels + head.levels ≤ length gone.old) × (length gone.old < 2 ^ 32) × Passed f store.now head marks.old }
    ensures { IfOk result (DraftFits f head p)
        × ((rs : List Reach) → Tracks (width f) key rs marks.old
        → LevelsDone store.now head (take head.levels steps)
        (levels_from f store.now head key 1 (take head.levels steps) p.bits p.page (ltb p.bits used) rs) result
        numbers.new blocks.new gone.new) }
{
    let w = store::node_words(head.theta);
    let mut spare = [0u32; 132];
    let z = levels::join_levels(
        store,
        f,
        head,
        key,
        steps,
        used,
        p.bits,
        p.page,
        numbers,
        blocks,
        &mut spare[0..w],
        marks,
        gone,
    )?;
    let kept = levels::kept_levels(store, head, numbers, blocks, z.changed, head.levels);
    let end = levels::release_roots(numbers, kept, head.levels, gone, z.end);
    Ok(Outline {
        page: p.page,
        levels: kept,
        changed: z.changed.min(kept),
        linked: z.linked,
        pages: p.pages,
        nodes: end as u32,
    })
}

// The plan of the removal of a key, whose record is number i of its page, with so many marks for the nodes that are reached. Only the slices
// are written.
fn draw_with<const MARKS: usize>(
    store: &[u32],
    f: Format,
    head: Head,
    key: u64,
    i: usize,
    items: &mut [u32],
    numbers: &mut [u32],
    blocks: &mut [u32],
    pages: &mut [u32],
    gone: &mut [u32],
) -> Result<Outline, Refusal>
    requires { Located f store.now head key i × (length items.old ≡ page_words f head.capacity)
        × (head.levels ≤ length numbers.old) × (132 * head.levels ≤ length blocks.old) × (65 ≤ length pages.old)
        × (length pages.old < 2 ^ 32) × (width f * head.levels + head.levels ≤ length gone.old) × (length gone.old < 2 ^ 32)
        × (head.nodes_taken < MARKS) × (MARKS < 2 ^ 32) }
    ensures { Drawn f store.now head key result items.new numbers.new blocks.new pages.new gone.new }
{
    let down = search::descend(store, f, head, key, false)?;
    let mut marks = [0u8; MARKS];
    levels::note_path(down.steps, head.levels, &mut marks);
    let p = plan_page(
        store, f, head, key, down.used, down.page, i, &mut marks, items, pages,
    )?;
    plan_levels(
        store, f, head, key, down.steps, down.used, p, &mut marks, numbers, blocks, gone,
    )
}

// The plan: few nodes in use need few marks.
fn draw_plan(
    store: &[u32],
    f: Format,
    head: Head,
    key: u64,
    i: usize,
    items: &mut [u32],
    numbers: &mut [u32],
    blocks: &mut [u32],
    pages: &mut [u32],
    gone: &mut [u32],
) -> Result<Outline, Refusal>
    requires { Located f store.now head key i × (length items.old ≡ page_words f head.capacity)
        × (head.levels ≤ length numbers.old) × (132 * head.levels ≤ length blocks.old) × (65 ≤ length pages.old)
        × (length pages.old < 2 ^ 32) × (width f * head.levels + head.levels ≤ length gone.old) × (length gone.old < 2 ^ 32) }
    ensures { Drawn f store.now head key result items.new numbers.new blocks.new pages.new gone.new }
{
    if head.nodes_taken <= 1024 {
        return draw_with::<1025>(store, f, head, key, i, items, numbers, blocks, pages, gone);
    }
    draw_with::<4097>(store, f, head, key, i, items, numbers, blocks, pages, gone)
}

// Removes the record by its plan, which is drawn in the slices.
fn follow_plan(
    store: &mut [u32],
    f: Format,
    head: Head,
    key: u64,
    i: usize,
    items: &mut [u32],
    blocks: &mut [u32],
    gone: &mut [u32],
) -> Result<(), Refusal>
    requires { Located f store.old head key i × (length items.old ≡ page_words f head.capacity)
        × (132 * head.levels ≤ length blocks.old) × (width f * head.levels + head.levels ≤ length gone.old)
        × (length gone.old < 2 ^ 32) }
    ensures { Executed f store.old head key result store.new }
{
    let mut numbers = [0u32; 32];
    let mut pages = [0u32; 65];
    let outline = draw_plan(
        store,
        f,
        head,
        key,
        i,
        items,
        &mut numbers,
        blocks,
        &mut pages,
        gone,
    )?;
    apply::carry_out(
        store, f, head, outline, items, &numbers, blocks, &pages, gone,
    );
    Ok(())
}

// Removes the record number i of the key's page by its plan: it has room for so many words of blocks of the levels that change, and for so
// many numbers of released nodes.
fn plan_with<const BLOCKS: usize, const GONE: usize>(
    store: &mut [u32],
    f: Format,
    head: Head,
    key: u64,
    i: usize,
) -> Result<(), Refusal>
    requires { Located f store.old head key i × (132 * head.levels ≤ BLOCKS) × (width f * head.levels + head.levels ≤ GONE)
        × (BLOCKS < 2 ^ 32) × (GONE < 2 ^ 32) }
    ensures { Executed f store.old head key result store.new }
{
    let n = store::page_words(f, head.capacity);
    let mut items = [0u32; 97];
    let mut blocks = [0u32; BLOCKS];
    let mut gone = [0u32; GONE];
    follow_plan(
        store,
        f,
        head,
        key,
        i,
        &mut items[0..n],
        &mut blocks,
        &mut gone,
    )
}

// Removes the record number i of the key's page, whatever joins. A low tree needs little room.
fn remove_far(store: &mut [u32], f: Format, head: Head, key: u64, i: usize) -> Result<(), Refusal>
    requires { Located f store.old head key i }
    ensures { Executed f store.old head key result store.new }
{
    if head.levels <= 4 {
        return plan_with::<528, 260>(store, f, head, key, i);
    }
    if head.levels <= 8 {
        return plan_with::<1056, 520>(store, f, head, key, i);
    }
    plan_with::<4224, 2080>(store, f, head, key, i)
}

// Finds the record of a key in its page, where the way of the key ends.
fn seat_of(store: &[u32], f: Format, head: Head, key: u64, e: End) -> Result<Option<Seat>, Refusal>
    requires { (Under f store.now head) × (sound_end e ≡ end_of (descent f store.now head key)) × (e.used ≤ width f) }
    ensures { Seated f store.now head key result }
{
    if e.page == 0 {
        return Ok(None);
    }
    let page = store::page_at(store, f, head, e.page);
    if !search::page_sound(page, f, head, key, e.used, true) {
        return Err(Refusal::DamageMet);
    }
    let i = page::first_above(page, f, false, key);
    if i >= page::count_of(page) {
        return Ok(None);
    }
    let item = page::read_one(page, f, i);
    if item.key != key {
        return Ok(None);
    }
    Ok(Some(Seat { i, item }))
}

// Removes the record of a key, whose way ends so, and which is number i of its page.
fn remove_at(
    store: &mut [u32],
    f: Format,
    head: Head,
    key: u64,
    e: End,
    i: usize,
) -> Result<(), Refusal>
    requires { Located f store.old head key i × (sound_end e ≡ end_of (descent f store.old head key)) }
    ensures { Executed f store.old head key result store.new }
{
    if near::take_near(store, f, head, key, e, i)? {
        return Ok(());
    }
    remove_far(store, f, head, key, i)
}

// Removes the record of a key: tests 3, 9 and 1 in this order, as find has them; then 9 for the blocks beside those of the key. The answer
// is that of find.
pub fn remove(store: &mut [u32], f: Format, key: u64) -> Result<Option<Item>, Refusal>
    requires { key < 2 ^ width f }
    ensures { (reply result ≡ (remove_of f store.old key).reply)
        × (store.new ≡ (remove_of f store.old key).words) }
{
    if !store::head_ok(store, f) {
        return Err(Refusal::HeadBroken);
    }
    let head = store::head_of(store);
    let e = search::end_of(store, f, head, key)?;
    let Some(seat) = seat_of(store, f, head, key, e)? else {
        return Ok(None);
    };
    remove_at(store, f, head, key, e, seat.i)?;
    Ok(Some(seat.item))
}
