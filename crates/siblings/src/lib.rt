// The plan of a removal: all that is read and decided before the first write. Nodes that are reached are marked by their numbers.

#![tactic(auto)]

ghost use Rattle.std.specs.Prelude.{◌≡◌, true, false, ◌&&◌, ◌||◌, List, [], ℕ, suc, ◌+◌, ◌-◌, ◌*◌, ◌^◌, ◌≤◌, ◌<◌, max, eqb, length, get_or, set, take, IfErr};
ghost use Rattle.answers.specs.declared.Refusal.TheVariants.{DamageMet};
ghost use Rattle.lists.specs.Lists.{All};
ghost use Rattle.store.specs.Format.{width};
ghost use Rattle.store.specs.Head.{largest_capacity, node_words, node_start, node_at, page_at, InUse, Under};
ghost use Rattle.node.specs.Node.{depth_word, level_word};
ghost use Rattle.page.specs.Page.{page_rule};
ghost use Rattle.search.specs.Way.{visit_result};
ghost use Rattle.search.specs.Descent.{sound_node, step_of};
ghost use Rattle.split.specs.Value.{Shallow};
ghost use Rattle.insert.specs.Enter.{own_items};
ghost use Rattle.remove.specs.Remove.{Reach, Pages, on_left, sibling_key, sibling, beside_ok, links_ok, page_joins, covered, node_joins};
ghost use Rattle.siblings.specs.Outcome.{found_of, mate_of, joins_of, nodes_of};
ghost use Rattle.siblings.specs.Marks.{mark_at, Tracks, Passed, SoughtIs};
ghost use Rattle.siblings.specs.Pairs.{pair_ok, in_hand};
ghost use Rattle.siblings.specs.Nodes.{NodesR, NodeMated, paired, Decided, spot_is, linked_pair, HandFine, Noded};
ghost use Rattle.siblings.specs.Pages.{Mated, Paged, Joinable, records_in};

use answers::Refusal;
use search::Visit;
use store::{Format, Head};

// Whether the sibling of the key's first m bits is the left one of the pair.
pub fn on_left(f: Format, key: u64, m: u32) -> bool
    requires { m ≤ width f }
    ensures { result ≡ on_left (width f) key m }
{
    page::prefix(key, store::width_of(f) - m) % 2 == 1
}

// The sibling of the key's first m bits, and zeros after.
pub fn sibling_key(f: Format, key: u64, m: u32) -> u64
    requires { (1 ≤ m) × (m ≤ width f) × (key < 2 ^ width f) }
    ensures { (result ≡ sibling_key (width f) key m) × (result < 2 ^ width f) }
{
    let low = store::width_of(f) - m;
    let p = page::prefix(key, low);
    if p % 2 == 1 {
        return (p - 1) << low;
    }
    (p + 1) << low
}

// The mark of a node that is reached after the used bits, on the way to the sibling of m bits: a byte, since all nodes have theirs in one lent slice of fixed size.
fn mark_of(used: u32, m: u32) -> u8
    requires { used ≤ 64 }
    ensures { result ≡ mark_at used m }
{
    if used == m {
        return (2 * used + 2) as u8;
    }
    (2 * used + 1) as u8
}

// Marks a node. It must have had no other mark.
fn note_node(marks: &mut [u8], n: u32, mark: u8) -> bool
    requires { n < length marks.old }
    ensures { (result ≡ (eqb (get_or marks.old n 0) 0 || eqb (get_or marks.old n 0) mark))
        × (marks.new ≡ set marks.old n mark) }
{
    let i = store::to_index(n);
    let before = marks[i];
    marks[i] = mark;
    before == 0 || before == mark
}

// Whether node n has the mark, and its block the level.
fn seen(store: &[u32], head: Head, level: u32, n: u32, marks: &[u8], mark: u8) -> bool
    requires { (head.theta ≤ 6) × (n < length marks.now) }
    ensures { result ≡ (eqb (get_or marks.now n 0) mark && eqb (level_word store.now (node_start head n)) level) }
{
    marks[store::to_index(n)] == mark && store::word(store, store::node_start(head, n) + 1) == level
}

// Visits node n at this level, after the used bits. One that has the mark of these bits was checked at the level of its block before.
fn visit(
    store: &[u32],
    f: Format,
    head: Head,
    key: u64,
    level: u32,
    n: u32,
    used: u32,
    marks: &[u8],
    mark: u8,
) -> Result<Visit, Refusal>
    requires { (Under f store.now head) × (InUse head n) × (used ≤ width f) × (head.nodes_taken < length marks.now)
        × (get_or marks.now n 0 ≡ mark → sound_node f store.now head (level_word store.now (node_start head n)) n used ≡ true) }
    ensures { result ≡ visit_result (step_of f store.now head key level n used) }
{
    let known = seen(store, head, level, n, marks, mark);
    search::visit_node(store, f, head, key, level, n, used, !known)
}

// The descent with the key of a sibling of m bits, down to the level `target` (0: the pages): the pointer to the sibling, or none where a longer
// prefix is met.
fn seek(
    store: &[u32],
    f: Format,
    head: Head,
    key: u64,
    m: u32,
    target: u32,
    marks: &mut [u8],
) -> Result<Option<u32>, Refusal>
    requires { (Under f store.now head) × (m ≤ width f) × (target ≤ head.levels) × (head.nodes_taken < length marks.old)
        × Passed f store.now head marks.old }
    ensures { (length marks.new ≡ length marks.old)
        × ((k : ℕ) (rs : List Reach) → key ≡ sibling_key (width f) k m → Tracks (width f) k rs marks.old
        → SoughtIs (width f) k (found_of result) (sibling f store.now head k m target rs) marks.new)
        × ((found_of result).found ≡ true → 1 ≤ target → InUse head (found_of result).pointer)
        × ((found_of result).found ≡ true → target ≡ 0 → (found_of result).pointer ≤ head.pages_taken)
        × Passed f store.now head marks.new × IfErr result (λ e. e ≡ DamageMet) }
{
    let mut node = head.root;
    let mut used: u32 = 0;
    for below in (target..head.levels).rev() {
        let mark = mark_of(used, m);
        let v = visit(store, f, head, key, below + 1, node, used, marks, mark)?;
        if !note_node(marks, node, mark) {
            return Err(Refusal::DamageMet);
        }
        used += v.depth;
        if used > m {
            return Ok(None);
        }
        node = v.pointer;
    }
    Ok(Some(node))
}

// Whether node m, the neighbour of node n at its back link (`back`) or at its forward link, if there is one, is another level-1 node that
// links to `to`.
fn beside_ok(store: &[u32], head: Head, m: u32, n: u32, to: u32, back: bool) -> bool
    requires { head.theta ≤ 6 }
    ensures { result ≡ beside_ok store.now head m n to back }
{
    if m == 0 {
        return true;
    }
    let at = store::node_start(head, m);
    let link = if back { at + 3 } else { at + 2 };
    m != n && store::word(store, at + 1) == 1 && store::word(store, link) == to
}

// Whether two level-1 nodes may be joined: the left one, which stands for those from a to b, with the links lb and lf, and the right one,
// for those from c to d, with the links rb and rf.
fn pair_ok(
    store: &[u32],
    head: Head,
    lb: u32,
    lf: u32,
    rb: u32,
    rf: u32,
    a: u32,
    b: u32,
    c: u32,
    d: u32,
) -> bool
    requires { head.theta ≤ 6 }
    ensures { result ≡ pair_ok store.now head lb lf rb rf a b c d }
{
    lf == c
        && rb == b
        && rf != a
        && lb != c
        && beside_ok(store, head, lb, a, a, true)
        && beside_ok(store, head, rf, c, d, false)
}

// Whether the level-1 node in hand, which stands for those from `number` to `last`, and its sibling p may be joined.
fn links_ok(
    store: &[u32],
    head: Head,
    block: &[u32],
    number: u32,
    last: u32,
    p: u32,
    left: bool,
) -> bool
    requires { head.theta ≤ 6 }
    ensures { result ≡ links_ok store.now head (in_hand number last block.now) p left }
{
    let at = store::node_start(head, p);
    let back = store::word(store, at + 2);
    let forward = store::word(store, at + 3);
    let own_back = store::word(block, 2);
    let own_forward = store::word(block, 3);
    if left {
        return pair_ok(
            store,
            head,
            back,
            forward,
            own_back,
            own_forward,
            p,
            p,
            number,
            last,
        );
    }
    pair_ok(
        store,
        head,
        own_back,
        own_forward,
        back,
        forward,
        number,
        last,
        p,
        p,
    )
}

// The page beside a stretch: the pointer to it (0: null) and the count of its records.
#[derive(Clone, Copy)]
pub struct Mate {
    pub pointer: u32,
    pub count: usize,
}

// How many records a page has that keeps the page rule; null has none.
fn count_at(store: &[u32], f: Format, head: Head, p: u32) -> usize
    requires { (head.theta ≤ 6) × (head.capacity ≤ largest_capacity)
        × ((p ≡ 0 → ⊥) → page_rule f head.capacity (page_at f store.now head p) ≡ true) }
    ensures { (result ≡ length (own_items f store.now head p)) × (result ≤ head.capacity) }
{
    if p == 0 {
        return 0;
    }
    page::count_of(store::page_at(store, f, head, p))
}

// The page under the sibling of the key's first m bits, checked, or none.
fn page_mate(
    store: &[u32],
    f: Format,
    head: Head,
    key: u64,
    m: u32,
    marks: &mut [u8],
) -> Result<Option<Mate>, Refusal>
    requires { (Under f store.now head) × (1 ≤ m) × (m ≤ width f) × (key < 2 ^ width f) × (head.nodes_taken < length marks.old)
        × Passed f store.now head marks.old }
    ensures { (length marks.new ≡ length marks.old) × ((mate_of result).count ≤ head.capacity)
        × ((g : Pages) → g.used ≡ m → Tracks (width f) key g.reached marks.old
        → Mated f store.now head key g (mate_of result) marks.new)
        × ((mate_of result).found ≡ true → Joinable f store.now head (mate_of result).pointer)
        × ((mate_of result).found ≡ true → (mate_of result).count ≡ length (own_items f store.now head (mate_of result).pointer))
        × Passed f store.now head marks.new × IfErr result (λ e. e ≡ DamageMet) }
{
    let other = sibling_key(f, key, m);
    let Some(pointer) = seek(store, f, head, other, m, 0, marks)? else {
        return Ok(None);
    };
    if !insert::own_ok(store, f, head, other, pointer, m) {
        return Err(Refusal::DamageMet);
    }
    let count = count_at(store, f, head, pointer);
    Ok(Some(Mate { pointer, count }))
}

// The pages of a removal joined, the longest prefix first, until a pair stays apart, and how often. The stretch has so many bits and records;
// nothing is moved: the pages that are joined with it are named in `mates`.
// (A lent slice of fixed size and how much of it is filled, since there is no heap; `gone` below likewise.)
pub fn join_pages(
    store: &[u32],
    f: Format,
    head: Head,
    key: u64,
    used: u32,
    count: usize,
    marks: &mut [u8],
    mates: &mut [u32],
) -> Result<usize, Refusal>
    requires { (Under f store.now head) × (used ≤ width f) × (key < 2 ^ width f) × (count ≤ head.capacity)
        × (head.nodes_taken < length marks.old) × (64 ≤ length mates.old) × Passed f store.now head marks.old }
    ensures { (length marks.new ≡ length marks.old) × (length mates.new ≡ length mates.old)
        × ((joins_of result).n ≤ used)
        × ((g : Pages) → g.ok ≡ true → g.used ≡ used → length g.items ≡ count → Tracks (width f) key g.reached marks.old
        → Paged f store.now head key g (page_joins f store.now head key g.used g) (joins_of result) mates.new marks.new)
        × All (Joinable f store.now head) (take (joins_of result).n mates.new)
        × (count + records_in f store.now head (take (joins_of result).n mates.new) ≤ head.capacity)
        × Passed f store.now head marks.new × IfErr result (λ e. e ≡ DamageMet) }
{
    let capacity = store::to_index(head.capacity);
    let mut held = count;
    for n in 0..used {
        let Some(mate) = page_mate(store, f, head, key, used - n, marks)? else {
            return Ok(n as usize);
        };
        held += mate.count;
        if held > capacity {
            return Ok(n as usize);
        }
        mates[n as usize] = mate.pointer;
    }
    Ok(used as usize)
}

// The node beside the node in hand on a level, under the sibling of the key's first `used` bits, checked, or none.
fn node_mate(
    store: &[u32],
    f: Format,
    head: Head,
    key: u64,
    used: u32,
    level: u32,
    marks: &mut [u8],
) -> Result<Option<u32>, Refusal>
    requires { (Under f store.now head) × (1 ≤ used) × (used ≤ width f) × (key < 2 ^ width f) × (1 ≤ level) × (level ≤ head.levels)
        × (head.nodes_taken < length marks.old) × Passed f store.now head marks.old }
    ensures { (length marks.new ≡ length marks.old)
        × ((g : NodesR) → g.spot.used ≡ used → Tracks (width f) key g.reached marks.old
        → NodeMated f store.now head key level g (found_of result) marks.new)
        × ((found_of result).found ≡ true → InUse head (found_of result).pointer
        × ((step_of f store.now head (sibling_key (width f) key used) level (found_of result).pointer used).ok ≡ true))
        × Passed f store.now head marks.new × IfErr result (λ e. e ≡ DamageMet) }
{
    let other = sibling_key(f, key, used);
    let Some(p) = seek(store, f, head, other, used, level, marks)? else {
        return Ok(None);
    };
    let mark = mark_of(used, used);
    visit(store, f, head, other, level, p, used, marks, mark)?;
    if !note_node(marks, p, mark) {
        return Err(Refusal::DamageMet);
    }
    Ok(Some(p))
}

// The first of two numbers, or the second.
pub fn pick(first: bool, x: u32, y: u32) -> u32
    ensures { ((first ≡ true) → result ≡ x) × ((first ≡ false) → result ≡ y) }
{
    if first {
        return x;
    }
    y
}

// Writes the run of the stretch below, of m bits and with the pointer q, into the node in hand, which is at the key's first `used` bits.
pub fn cover_hand(hand: &mut [u32], f: Format, theta: u32, key: u64, used: u32, m: u32, q: u32)
    requires { (theta ≤ 6) × (length hand.old ≡ node_words theta) × Shallow theta hand.old × (key < 2 ^ width f)
        × (used + depth_word hand.old 0 ≤ width f) × (m - used ≤ depth_word hand.old 0) }
    ensures { hand.new ≡ covered (width f) theta key used m q hand.old }
{
    let i = node::entry_number(f, key, used, hand[0]);
    fuse::cover_part(hand, theta, i, m.saturating_sub(used), q);
}

// The node in hand joined with its sibling, on its left or on its right.
fn join_pair(node: &[u32], hand: &mut [u32], theta: u32, left: bool, spare: &mut [u32])
    requires { (theta ≤ 6) × (length node.now ≡ node_words theta) × (length hand.old ≡ node_words theta)
        × (length spare.old ≡ node_words theta) × Shallow theta node.now × Shallow theta hand.old
        × (suc (max (depth_word hand.old 0) (depth_word node.now 0)) ≤ theta) }
    ensures { hand.new ≡ paired theta node.now hand.old left }
{
    if left {
        fuse::join_into(node, hand, theta, spare);
    } else {
        fuse::join_into(hand, node, theta, spare);
    }
    store::copy(hand, spare);
}

// Whether the links of the node in hand, on a level, allow a join with its sibling p.
fn may_join(
    store: &[u32],
    head: Head,
    level: u32,
    block: &[u32],
    number: u32,
    last: u32,
    p: u32,
    left: bool,
) -> bool
    requires { head.theta ≤ 6 }
    ensures { result ≡ linked_pair store.now head level number last block.now p left }
{
    level != 1 || links_ok(store, head, block, number, last, p, left)
}

// The sibling that the node in hand on a level joins with, or none.
fn node_turn(
    store: &[u32],
    f: Format,
    head: Head,
    key: u64,
    used: u32,
    level: u32,
    hand: &[u32],
    number: u32,
    last: u32,
    marks: &mut [u8],
) -> Result<Option<u32>, Refusal>
    requires { (Under f store.now head) × (1 ≤ used) × (used ≤ width f) × (key < 2 ^ width f) × (1 ≤ level) × (level ≤ head.levels)
        × (head.nodes_taken < length marks.old) × (length hand.now ≡ node_words head.theta) × Passed f store.now head marks.old }
    ensures { (length marks.new ≡ length marks.old)
        × ((g : NodesR) → g.spot ≡ spot_is number used last hand.now → Tracks (width f) key g.reached marks.old
        → Decided f store.now head key level g (found_of result) marks.new)
        × ((found_of result).found ≡ true → InUse head (found_of result).pointer
        × ((step_of f store.now head (sibling_key (width f) key used) level (found_of result).pointer used).ok ≡ true)
        × (suc (max (depth_word hand.now 0) (depth_word (node_at store.now head (found_of result).pointer) 0)) ≤ head.theta))
        × Passed f store.now head marks.new × IfErr result (λ e. e ≡ DamageMet) }
{
    let Some(p) = node_mate(store, f, head, key, used, level, marks)? else {
        return Ok(None);
    };
    let node = store::node_at(store, f, head, p);
    let deeper = hand[0].max(node[0]);
    if deeper >= head.theta {
        return Ok(None);
    }
    let left = on_left(f, key, used);
    if !may_join(store, head, level, hand, number, last, p, left) {
        return Err(Refusal::DamageMet);
    }
    Ok(Some(p))
}

// The node in hand joined with its sibling p, and the run of the stretch below in it: of m bits, with the pointer q.
fn join_hand(
    store: &[u32],
    f: Format,
    head: Head,
    hand: &mut [u32],
    spare: &mut [u32],
    p: u32,
    left: bool,
    key: u64,
    used: u32,
    m: u32,
    q: u32,
)
    requires { (Under f store.now head) × (InUse head p) × (length hand.old ≡ node_words head.theta)
        × (length spare.old ≡ node_words head.theta) × Shallow head.theta hand.old
        × Shallow head.theta (node_at store.now head p)
        × (suc (max (depth_word hand.old 0) (depth_word (node_at store.now head p) 0)) ≤ head.theta) × (key < 2 ^ width f)
        × (used + suc (max (depth_word hand.old 0) (depth_word (node_at store.now head p) 0)) ≤ width f)
        × (m - used ≤ suc (max (depth_word hand.old 0) (depth_word (node_at store.now head p) 0))) }
    ensures { (hand.new ≡ covered (width f) head.theta key used m q
        (paired head.theta (node_at store.now head p) hand.old left))
        × HandFine f head.theta m used hand.new }
{
    let node = store::node_at(store, f, head, p);
    join_pair(node, hand, head.theta, left, spare);
    cover_hand(hand, f, head.theta, key, used, m, q);
}

// A level after its joins: the number of the node in hand, the bits used before it, the last node of those joined, and the end of the
// released ones.
#[derive(Clone, Copy)]
pub struct NodeJoins {
    pub number: u32,
    pub used: u32,
    pub last: u32,
    pub end: usize,
}

// The node in hand on a level joined as long as it can, over a stretch below of m bits with the pointer q. The nodes released are
// numbered in `gone`, from `at` on.
pub fn join_nodes(
    store: &[u32],
    f: Format,
    head: Head,
    key: u64,
    level: u32,
    m: u32,
    q: u32,
    first: u32,
    used: u32,
    hand: &mut [u32],
    spare: &mut [u32],
    marks: &mut [u8],
    gone: &mut [u32],
    at: usize,
) -> Result<NodeJoins, Refusal>
    requires { (Under f store.now head) × (used ≤ width f) × (key < 2 ^ width f) × (1 ≤ level) × (level ≤ head.levels)
        × (head.nodes_taken < length marks.old) × (length hand.old ≡ node_words head.theta) × (length spare.old ≡ node_words head.theta)
        × HandFine f head.theta m used hand.old × (at + used ≤ length gone.old) × (length gone.old < 2 ^ 32)
        × Passed f store.now head marks.old }
    ensures { ((g : NodesR) → g.ok ≡ true → g.spot ≡ spot_is first used first hand.old → g.released ≡ []
        → Tracks (width f) key g.reached marks.old
        → Noded f key (node_joins f store.now head key level m q used g) (nodes_of result) hand.new gone.old at gone.new
        marks.new) × ((nodes_of result).ok ≡ true → (nodes_of result).end + (nodes_of result).used ≡ at + used)
        × Passed f store.now head marks.new × IfErr result (λ e. e ≡ DamageMet) }
{
    let mut number = first;
    let mut last = first;
    for n in 0..used {
        let end = at + n as usize;
        let before = used - n;
        let Some(p) = node_turn(
            store, f, head, key, before, level, hand, number, last, marks,
        )?
        else {
            return Ok(NodeJoins {
                number,
                used: before,
                last,
                end,
            });
        };
        let side = on_left(f, key, before);
        join_hand(store, f, head, hand, spare, p, side, key, before - 1, m, q);
        gone[end] = pick(side, number, p);
        number = pick(side, p, number);
        last = pick(side, last, p);
    }
    Ok(NodeJoins {
        number,
        used: 0,
        last,
        end: at + used as usize,
    })
}
