// Readings of a store: the descent with a key, find and next. Nothing is trusted: every visited block is checked. A function that may be
// told not to (`checked` false) is told so only of blocks that were found sound, on the same words, before.
#![tactic(auto)]

ghost use Rattle.std.specs.Prelude.{◌≡◌, Ok, true, false, ◌+◌, ◌-◌, ◌*◌, ◌^◌, ◌≤◌, ◌<◌, length};
ghost use Rattle.store.specs.Format.{width, words};
ghost use Rattle.store.specs.Head.{largest_capacity, node_words, node_start, page_at, InUse, Under};
ghost use Rattle.node.specs.Node.{depth_word, node_rule};
ghost use Rattle.page.specs.Page.{page_rule, Lent, Filled};
ghost use Rattle.search.specs.Way.{Ends, Page, Broken, sound_visit, sound_terminal, sound_span};
ghost use Rattle.search.specs.Way.{visit_result, descent_result, terminal_result, end_result, span_result, sought_result, reached_result, hop_result};
ghost use Rattle.search.specs.Descent.{limited, sound_node, TerminalNode, step_of, descent, end_of, terminal, own_visit};
ghost use Rattle.search.specs.Find.{reply, sound_page, in_page, find_of, find_reply};
ghost use Rattle.search.specs.Next.{first_pointer, run_after, run_behind, linked, pointer_from, onward, reach, next_of, next_reply};
ghost use Rattle.search.specs.Span.{first_row, reached_rows, reached_span, span_at, span_of, GoesBehind};

use answers::Refusal;
use store::{Format, Head, Item};

// One node on a key's path: its number, the key's entry in it, that entry's local depth, and the bits used before the node.
#[derive(Clone, Copy)]
pub struct Step {
    pub node: u32,
    pub entry: u32,
    pub depth: u32,
    pub used: u32,
}

// What a visit of a node on the path gives: the key's entry in it, that entry's local depth and its pointer.
#[derive(Clone, Copy)]
pub struct Visit {
    pub entry: u32,
    pub depth: u32,
    pub pointer: u32,
}

// The way of a key down: the page (0: null), the bits used, and the step of each level, level 1 first.
#[derive(Clone, Copy)]
pub struct Descent {
    pub page: u32,
    pub used: u32,
    pub steps: [Step; 32],
}

// The terminal node of a key, and the bits used before the node.
#[derive(Clone, Copy)]
pub struct Terminal {
    pub node: u32,
    pub used: u32,
}

// Where the way of a key ends: the terminal node and the bits used before it, the page (0: null) and the bits used before that.
#[derive(Clone, Copy)]
pub struct End {
    pub node: u32,
    pub before: u32,
    pub page: u32,
    pub used: u32,
}

// Records of one page that next gives in turn, numbers `from` up to `to`, and the key of the last one. The terminal node of the key that
// they follow is `node`, reached after the `used` bits. After the last record next goes on with the node's run that begins at entry
// `behind`; 0: not known. (No two fields of one width are neighbours: a copy would take them as one word, and wait for their two stores.)
#[derive(Clone, Copy)]
pub struct Span {
    pub from: usize,
    pub page: u32,
    pub to: usize,
    pub node: u32,
    pub behind: usize,
    pub used: u32,
    pub last: u64,
}

// A head with just the numbers that the node rule asks for.
fn limits(theta: u32, nodes: u32, pages: u32) -> Head
    ensures { result ≡ limited theta nodes pages }
{
    Head {
        theta,
        capacity: 0,
        node_blocks: 0,
        page_blocks: 0,
        nodes_taken: nodes,
        pages_taken: pages,
        root: 0,
        levels: 0,
    }
}

// Whether a node block keeps the rule of a visited node of this level. The head's numbers are handed on one by one: a head that is handed on
// as a whole is copied by wider words than it was stored by, and the copy waits for them.
fn node_passes(node: &[u32], theta: u32, nodes: u32, pages: u32, level: u32, checked: bool) -> bool
    requires { (theta ≤ 6) × (nodes ≤ 4096) × (pages ≤ 4096) × (length node.now ≡ node_words theta)
        × (checked ≡ false → node_rule (limited theta nodes pages) node.now 0 level ≡ true) }
    ensures { result ≡ node_rule (limited theta nodes pages) node.now 0 level }
{
    if checked {
        return node::node_ok(node, limits(theta, nodes, pages), level);
    }
    true
}

// Whether node n, reached after the used bits, is sound at this level.
fn passes(
    store: &[u32],
    f: Format,
    head: Head,
    level: u32,
    n: u32,
    used: u32,
    checked: bool,
) -> bool
    requires { (Under f store.now head) × (InUse head n) × (used ≤ width f)
        × (checked ≡ false → sound_node f store.now head level n used ≡ true) }
    ensures { result ≡ sound_node f store.now head level n used }
{
    if !checked {
        return true;
    }
    let node = store::node_at(store, f, head, n);
    if !node_passes(
        node,
        head.theta,
        head.nodes_taken,
        head.pages_taken,
        level,
        true,
    ) {
        return false;
    }
    used + node[0] <= store::width_of(f)
}

// The key's entry in node n, reached after the used bits.
fn own_entry(store: &[u32], f: Format, head: Head, key: u64, n: u32, used: u32) -> Visit
    requires { (Under f store.now head) × (InUse head n) × (depth_word store.now (node_start head n) ≤ head.theta)
        × (used + depth_word store.now (node_start head n) ≤ width f) }
    ensures { sound_visit result ≡ own_visit f store.now head key n used }
{
    let node = store::node_at(store, f, head, n);
    let i = node::entry_number(f, key, used, node[0]);
    Visit {
        entry: i as u32,
        depth: node[4 + 2 * i],
        pointer: node[5 + 2 * i],
    }
}

// Visits node n at this level, after the used bits.
pub fn visit_node(
    store: &[u32],
    f: Format,
    head: Head,
    key: u64,
    level: u32,
    n: u32,
    used: u32,
    checked: bool,
) -> Result<Visit, Refusal>
    requires { (Under f store.now head) × (InUse head n) × (used ≤ width f)
        × (checked ≡ false → (step_of f store.now head key level n used).ok ≡ true) }
    ensures { result ≡ visit_result (step_of f store.now head key level n used) }
{
    if !passes(store, f, head, level, n, used, checked) {
        return Err(Refusal::DamageMet);
    }
    Ok(own_entry(store, f, head, key, n, used))
}

// The way of a key from the root down to its page.
pub fn descend(
    store: &[u32],
    f: Format,
    head: Head,
    key: u64,
    checked: bool,
) -> Result<Descent, Refusal>
    requires { (Under f store.now head) × (checked ≡ false → (descent f store.now head key).ok ≡ true) }
    ensures { (result ≡ descent_result (descent f store.now head key)) × ((descent f store.now head key).used ≤ width f) }
{
    let blank = Step {
        node: 0,
        entry: 0,
        depth: 0,
        used: 0,
    };
    let mut steps = [blank; 32];
    let mut node = head.root;
    let mut used: u32 = 0;
    for below in (0..head.levels).rev() {
        let v = visit_node(store, f, head, key, below + 1, node, used, checked)?;
        steps[below as usize] = Step {
            node,
            entry: v.entry,
            depth: v.depth,
            used,
        };
        node = v.pointer;
        used += v.depth;
    }
    Ok(Descent {
        page: node,
        used,
        steps,
    })
}

// The terminal node of a key: the way down without its steps.
pub fn terminal_of(
    store: &[u32],
    f: Format,
    head: Head,
    key: u64,
    checked: bool,
) -> Result<Terminal, Refusal>
    requires { (Under f store.now head) × (checked ≡ false → (terminal f store.now head key).ok ≡ true) }
    ensures { result ≡ terminal_result (terminal f store.now head key) }
{
    let mut node = head.root;
    let mut used: u32 = 0;
    for below in (1..head.levels).rev() {
        let v = visit_node(store, f, head, key, below + 1, node, used, checked)?;
        node = v.pointer;
        used += v.depth;
    }
    if !passes(store, f, head, 1, node, used, checked) {
        return Err(Refusal::DamageMet);
    }
    Ok(Terminal { node, used })
}

// Where the way of a key ends.
pub fn end_of(store: &[u32], f: Format, head: Head, key: u64) -> Result<End, Refusal>
    requires { Under f store.now head }
    ensures { (result ≡ end_result (end_of (descent f store.now head key))) × ((descent f store.now head key).used ≤ width f) }
{
    let t = terminal_of(store, f, head, key, true)?;
    let v = own_entry(store, f, head, key, t.node, t.used);
    Ok(End {
        node: t.node,
        before: t.used,
        page: v.pointer,
        used: t.used + v.depth,
    })
}

// Whether a page keeps the rule of a visited one.
fn page_passes(page: &[u32], f: Format, capacity: u32, checked: bool) -> bool
    requires { (capacity ≤ largest_capacity) × (Lent f capacity page.now) × (checked ≡ false → page_rule f capacity page.now ≡ true) }
    ensures { result ≡ page_rule f capacity page.now }
{
    if checked {
        return page::page_ok(page, f, capacity);
    }
    true
}

// Whether the sought key's own page is sound.
pub fn page_sound(page: &[u32], f: Format, head: Head, key: u64, used: u32, checked: bool) -> bool
    requires { (head.capacity ≤ largest_capacity) × (used ≤ width f) × (Lent f head.capacity page.now)
        × (checked ≡ false → page_rule f head.capacity page.now ≡ true) }
    ensures { result ≡ sound_page f head page.now key used }
{
    if !page_passes(page, f, head.capacity, checked) {
        return false;
    }
    page::keys_agree(page, f, key, used)
}

// The record with the key in a page, or none.
pub fn find_in(page: &[u32], f: Format, key: u64) -> Option<Item>
    requires { Filled f page.now }
    ensures { Ok result ≡ sought_result (in_page f page.now key) }
{
    let i = page::first_above(page, f, false, key);
    if i >= page::count_of(page) {
        return None;
    }
    let item = page::read_one(page, f, i);
    if item.key != key {
        return None;
    }
    Some(item)
}

// Find, in a store that keeps the head rule.
fn find_under(store: &[u32], f: Format, head: Head, key: u64) -> Result<Option<Item>, Refusal>
    requires { Under f store.now head }
    ensures { result ≡ sought_result (find_of f store.now head key) }
{
    let t = terminal_of(store, f, head, key, true)?;
    let v = own_entry(store, f, head, key, t.node, t.used);
    if v.pointer == 0 {
        return Ok(None);
    }
    let page = store::page_at(store, f, head, v.pointer);
    if !page_sound(page, f, head, key, t.used + v.depth, true) {
        return Err(Refusal::DamageMet);
    }
    Ok(find_in(page, f, key))
}

// The record with a key, or none.
pub fn find(store: &[u32], f: Format, key: u64) -> Result<Option<Item>, Refusal>
    ensures { reply result ≡ find_reply f store.now key }
{
    if !store::head_ok(store, f) {
        return Err(Refusal::HeadBroken);
    }
    find_under(store, f, store::head_of(store), key)
}

// The first pointer of a node that is not null, from entry `start` on; 0 if there is none.
fn first_pointer(node: &[u32], depth: u32, start: usize) -> u32
    requires { (depth ≤ 6) × (4 + 2 * 2 ^ depth ≤ length node.now) × (start < 2 ^ 40) }
    ensures { result ≡ first_pointer node.now 0 depth 64 start }
{
    let n = store::pow2(depth);
    let mut i = start;
    while i < n {
        let p = node[5 + 2 * i];
        if p != 0 {
            return p;
        }
        i += store::pow2(depth.saturating_sub(node[4 + 2 * i]));
    }
    0
}

// Where the run after that of entry i starts.
fn run_after(depth: u32, local: u32, i: u32) -> usize
    requires { depth ≤ 6 }
    ensures { (result ≡ run_after depth local i) × (result < 2 ^ 33) }
{
    let n = store::pow2(depth.saturating_sub(local));
    let at = store::to_index(i);
    at - at % n + n
}

// Whether node m, reached by a forward link, is sound and links back to n.
fn is_linked(store: &[u32], f: Format, head: Head, m: u32, n: u32, checked: bool) -> bool
    requires { (Under f store.now head) × (InUse head m) × (checked ≡ false → linked head store.now m n ≡ true) }
    ensures { result ≡ linked head store.now m n }
{
    let node = store::node_at(store, f, head, m);
    if !node_passes(
        node,
        head.theta,
        head.nodes_taken,
        head.pages_taken,
        1,
        checked,
    ) {
        return false;
    }
    node[2] == n
}

// The node after n, or none, with so many links left.
fn go_on(
    store: &[u32],
    f: Format,
    head: Head,
    n: u32,
    left: u32,
    checked: bool,
) -> Result<Option<u32>, Refusal>
    requires { (Under f store.now head) × (TerminalNode head store.now n)
        × (checked ≡ false → onward head store.now n left ≡ Ends Broken → ⊥) }
    ensures { result ≡ hop_result (onward head store.now n left) }
{
    let node = store::node_at(store, f, head, n);
    let m = node[3];
    if m == 0 {
        return Ok(None);
    }
    if left == 0 {
        return Err(Refusal::DamageMet);
    }
    if !is_linked(store, f, head, m, n, checked) {
        return Err(Refusal::DamageMet);
    }
    Ok(Some(m))
}

// The first pointer of node n that is not null, from entry i on; 0 if there is none.
fn pointer_from(store: &[u32], f: Format, head: Head, n: u32, i: usize) -> u32
    requires { (Under f store.now head) × (TerminalNode head store.now n) × (i < 2 ^ 40) }
    ensures { result ≡ pointer_from store.now head n i }
{
    let node = store::node_at(store, f, head, n);
    first_pointer(node, node[0], i)
}

// The page that follows an entry of a node, along the forward links, or none.
fn reach_from(
    store: &[u32],
    f: Format,
    head: Head,
    first: u32,
    start: usize,
    checked: bool,
) -> Result<Option<u32>, Refusal>
    requires { (Under f store.now head) × (TerminalNode head store.now first) × (start < 2 ^ 40)
        × (checked ≡ false → reach store.now head (head.nodes_taken + 1) first start ≡ Broken → ⊥) }
    ensures { result ≡ reached_result (reach store.now head (head.nodes_taken + 1) first start) }
{
    let mut n = first;
    let mut i = start;
    for left in (0..head.nodes_taken + 1).rev() {
        let p = pointer_from(store, f, head, n, i);
        if p != 0 {
            return Ok(Some(p));
        }
        let Some(m) = go_on(store, f, head, n, left, checked)? else {
            return Ok(None);
        };
        n = m;
        i = 0;
    }
    Err(Refusal::DamageMet)
}

// Where the run after that of a key's entry v begins in its terminal node n.
fn run_behind(store: &[u32], f: Format, head: Head, n: u32, v: Visit) -> usize
    requires { (Under f store.now head) × (TerminalNode head store.now n) }
    ensures { (result ≡ run_behind store.now head n v.depth v.entry) × (result < 2 ^ 33) }
{
    let node = store::node_at(store, f, head, n);
    run_after(node[0], v.depth, v.entry)
}

// The first record of page p, with this key, reached from the terminal node t.
fn first_row(t: Terminal, p: u32, key: u64) -> Span
    ensures { sound_span result ≡ first_row t.node t.used p key }
{
    Span {
        page: p,
        from: 0,
        to: 1,
        last: key,
        node: t.node,
        used: t.used,
        behind: 0,
    }
}

// The records of page p that follow one another, p being reached from the terminal node t of the key: the first one alone, if its key does
// not come back to the page from the same node.
fn reached_rows(store: &[u32], f: Format, head: Head, key: u64, t: Terminal, p: u32) -> Span
    requires { (Under f store.now head) × (sound_terminal t ≡ terminal f store.now head key)
        × (page_rule f head.capacity (page_at f store.now head p) ≡ true) }
    ensures { sound_span result ≡ reached_rows f store.now head key t.node t.used p }
{
    let page = store::page_at(store, f, head, p);
    let item = page::read_one(page, f, 0);
    let low = store::width_of(f) - t.used;
    if page::prefix(item.key, low) != page::prefix(key, low) {
        return first_row(t, p, item.key);
    }
    let v = own_entry(store, f, head, item.key, t.node, t.used);
    if v.pointer != p {
        return first_row(t, p, item.key);
    }
    if !page::keys_agree(page, f, item.key, t.used + v.depth) {
        return first_row(t, p, item.key);
    }
    let to = page::count_of(page);
    let last = page::read_one(page, f, to - 1);
    Span {
        page: p,
        from: 0,
        to,
        last: last.key,
        node: t.node,
        used: t.used,
        behind: run_behind(store, f, head, t.node, v),
    }
}

// The records of a page that was reached after the sought key's own, from its terminal node t. Its keys ascend, so the first one speaks for
// all.
fn reached_span(
    store: &[u32],
    f: Format,
    head: Head,
    strict: bool,
    key: u64,
    t: Terminal,
    p: u32,
    checked: bool,
) -> Result<Option<Span>, Refusal>
    requires { (Under f store.now head) × (sound_terminal t ≡ terminal f store.now head key) × (p ≡ 0 → ⊥)
        × (checked ≡ false → (reached_span f store.now head strict key t.node t.used (Page p)).ok ≡ true) }
    ensures { result ≡ span_result (reached_span f store.now head strict key t.node t.used (Page p)) }
{
    let page = store::page_at(store, f, head, p);
    if !page_passes(page, f, head.capacity, checked) {
        return Err(Refusal::DamageMet);
    }
    let item = page::read_one(page, f, 0);
    if !page::is_above(strict, key, item.key) {
        return Err(Refusal::DamageMet);
    }
    Ok(Some(reached_rows(store, f, head, key, t, p)))
}

// The records above a key, whose terminal node is t, where next goes on with the run that begins at entry `start`.
pub fn span_behind(
    store: &[u32],
    f: Format,
    head: Head,
    strict: bool,
    key: u64,
    t: Terminal,
    start: usize,
    checked: bool,
) -> Result<Option<Span>, Refusal>
    requires { (Under f store.now head) × (sound_terminal t ≡ terminal f store.now head key) × (start < 2 ^ 40)
        × GoesBehind f store.now head strict key (sound_terminal t) start
        × (checked ≡ false → (span_at f store.now head strict key (sound_terminal t)).ok ≡ true) }
    ensures { result ≡ span_result (span_at f store.now head strict key (sound_terminal t)) }
{
    let Some(p) = reach_from(store, f, head, t.node, start, checked)? else {
        return Ok(None);
    };
    reached_span(store, f, head, strict, key, t, p, checked)
}

// The records that follow a key, whose terminal node is t, in its own page or the one after it.
fn span_from(
    store: &[u32],
    f: Format,
    head: Head,
    strict: bool,
    key: u64,
    t: Terminal,
    checked: bool,
) -> Result<Option<Span>, Refusal>
    requires { (Under f store.now head) × (sound_terminal t ≡ terminal f store.now head key)
        × (checked ≡ false → (span_at f store.now head strict key (sound_terminal t)).ok ≡ true) }
    ensures { result ≡ span_result (span_at f store.now head strict key (sound_terminal t)) }
{
    let v = own_entry(store, f, head, key, t.node, t.used);
    let behind = run_behind(store, f, head, t.node, v);
    let p = v.pointer;
    if p != 0 {
        let page = store::page_at(store, f, head, p);
        if !page_sound(page, f, head, key, t.used + v.depth, checked) {
            return Err(Refusal::DamageMet);
        }
        let from = page::first_above(page, f, strict, key);
        let to = page::count_of(page);
        if from < to {
            let last = page::read_one(page, f, to - 1);
            return Ok(Some(Span {
                page: p,
                from,
                to,
                last: last.key,
                node: t.node,
                used: t.used,
                behind,
            }));
        }
    }
    let own = Terminal {
        node: t.node,
        used: t.used,
    };
    span_behind(store, f, head, strict, key, own, behind, checked)
}

// The records that follow a key, whose terminal node is t, in its own page or the one after it; damage on the way to the node is handed up.
pub fn span_at(
    store: &[u32],
    f: Format,
    head: Head,
    strict: bool,
    key: u64,
    t: Result<Terminal, Refusal>,
    checked: bool,
) -> Result<Option<Span>, Refusal>
    requires { (Under f store.now head) × (t ≡ terminal_result (terminal f store.now head key))
        × (checked ≡ false → (span_of f store.now head strict key).ok ≡ true) }
    ensures { result ≡ span_result (span_of f store.now head strict key) }
{
    span_from(store, f, head, strict, key, t?, checked)
}

// Next, in a store that keeps the head rule: the first record above the key, or, if not strict, at or above it.
fn next_under(
    store: &[u32],
    f: Format,
    head: Head,
    strict: bool,
    key: u64,
) -> Result<Option<Item>, Refusal>
    requires { Under f store.now head }
    ensures { result ≡ sought_result (next_of f store.now head strict key) }
{
    let t = terminal_of(store, f, head, key, true);
    let Some(r) = span_at(store, f, head, strict, key, t, true)? else {
        return Ok(None);
    };
    let page = store::page_at(store, f, head, r.page);
    Ok(Some(page::read_one(page, f, r.from)))
}

// The record with the smallest key above the given one, or none.
pub fn next(store: &[u32], f: Format, key: u64) -> Result<Option<Item>, Refusal>
    ensures { reply result ≡ next_reply f store.now key }
{
    if !store::head_ok(store, f) {
        return Err(Refusal::HeadBroken);
    }
    next_under(store, f, store::head_of(store), true, key)
}
