// The levels of a removal's plan: the nodes of the key's path, joined upward from the lowest as long as the level below joined.

#![tactic(auto)]

ghost use Rattle.std.specs.Prelude.{◌≡◌, true, false, List, ◌++◌, ℕ, suc, ◌+◌, ◌-◌, ◌*◌, ◌^◌, ◌≤◌, ◌<◌, ltb, length, get_or, set, take, IfOk, IfErr};
ghost use Rattle.answers.specs.declared.Refusal.TheVariants.{DamageMet};
ghost use Rattle.store.specs.Format.{width};
ghost use Rattle.store.specs.Head.{word, head_of, node_words, node_at, InUse, Under};
ghost use Rattle.node.specs.Node.{depth_word};
ghost use Rattle.search.specs.Descent.{no_step, descent};
ghost use Rattle.remove.specs.Remove.{Reach, Spot, covered, levels_from, kept_levels, gone_roots};
ghost use Rattle.siblings.specs.Outcome.{nodes_of};
ghost use Rattle.siblings.specs.Marks.{Tracks, Passed};
ghost use Rattle.siblings.specs.Nodes.{HandFine, Noded};
ghost use Rattle.siblings.specs.Paths.{path_marks};
ghost use Rattle.apply.specs.Carried.{block_in, LevelIs};
ghost use Rattle.levels.specs.Outcome.{sound_rise, rise_of, levels_of};
ghost use Rattle.levels.specs.Levels.{NumbersAre, LevelsAre, StaysIn, level_nodes, Turned, Levelled};

use answers::Refusal;
use search::Step;
use siblings::NodeJoins;
use store::{Format, Head};

// The way up: whether the level below joined, the bits of its stretch and the pointer to it, and the end of the released nodes.
#[derive(Clone, Copy)]
pub struct Rise {
    pub joins: bool,
    pub bits: u32,
    pub pointer: u32,
    pub end: usize,
}

// The levels after their joins: so many of them change, from the lowest on; whether level-1 nodes joined; and the end of the released nodes.
#[derive(Clone, Copy)]
pub struct LevelJoins {
    pub changed: u32,
    pub linked: bool,
    pub end: usize,
}

// Marks the nodes of a path. (A path is an array of fixed size of which the lowest levels are in use, since there is no heap.)
pub fn note_path(steps: [Step; 32], levels: u32, marks: &mut [u8])
    requires { (levels ≤ length steps) × (length steps ≡ 32)
        × ((i : ℕ) → i < levels → ((get_or steps i no_step).node < length marks.old) × ((get_or steps i no_step).used ≤ 64)) }
    ensures { marks.new ≡ path_marks (take levels steps) marks.old }
{
    for step in &steps[..levels as usize] {
        marks[step.node as usize] = (2 * step.used + 1) as u8;
    }
}

// The depth of the node of a level, counted from 0.
fn depth_of(store: &[u32], head: Head, numbers: &[u32], blocks: &[u32], changed: u32, l: u32) -> u32
    requires { (head ≡ head_of store.now) × (head.theta ≤ 6) × (132 * changed ≤ length blocks.now)
        × StaysIn store.now head changed (suc l) numbers.now }
    ensures { (x : Spot) → LevelIs store.now head.theta changed numbers.now blocks.now l x
        → result ≡ depth_word x.block 0 }
{
    let i = store::to_index(l);
    if l < changed {
        return store::word(blocks, 132 * i);
    }
    store::word(store, store::node_start(head, store::word(numbers, i)))
}

// How many levels stay: from the top down, roots above level 1 with one entry do not.
pub fn kept_levels(
    store: &[u32],
    head: Head,
    numbers: &[u32],
    blocks: &[u32],
    changed: u32,
    levels: u32,
) -> u32
    requires { (head ≡ head_of store.now) × (head.theta ≤ 6) × (132 * changed ≤ length blocks.now)
        × StaysIn store.now head changed levels numbers.now }
    ensures { ((xs : List Spot)
        → LevelsAre store.now head.theta changed numbers.now blocks.now levels xs
        → result ≡ length (kept_levels xs))
        × (result ≤ levels) × (1 ≤ levels → 1 ≤ result) }
{
    for l in (1..levels).rev() {
        if depth_of(store, head, numbers, blocks, changed, l) != 0 {
            return l + 1;
        }
    }
    levels.min(1)
}

// Numbers the roots that do not stay among the released nodes, from the top down.
pub fn release_roots(numbers: &[u32], kept: u32, levels: u32, gone: &mut [u32], at: usize) -> usize
    requires { (kept ≤ levels) × (levels ≤ length numbers.now) × (at + (levels - kept) ≤ length gone.old)
        × (length gone.old < 2 ^ 32) }
    ensures { (result ≡ at + (levels - kept))
        × ((xs : List Spot) → NumbersAre levels numbers.now xs → kept ≡ length (kept_levels xs)
        → take result gone.new ≡ take at gone.old ++ gone_roots xs) }
{
    let end = at + (levels - kept) as usize;
    let roots = &mut gone[at..end];
    store::copy(roots, &numbers[kept as usize..levels as usize]);
    roots.reverse();
    end
}

// The numbers of a path's nodes, the lowest level first.
fn path_numbers(steps: &[Step], numbers: &mut [u32])
    requires { length steps.now ≤ length numbers.old }
    ensures { (l : ℕ) → l < length steps.now → word numbers.new l ≡ (get_or steps.now l no_step).node }
{
    for (i, step) in steps.iter().enumerate() {
        numbers[i] = step.node;
    }
}

// The node of a path taken in hand, with the run of a stretch below of m bits and the pointer q.
fn take_node(
    store: &[u32],
    f: Format,
    head: Head,
    key: u64,
    t: Step,
    m: u32,
    q: u32,
    hand: &mut [u32],
)
    requires { (Under f store.now head) × (InUse head t.node) × (key < 2 ^ width f) × (length hand.old ≡ node_words head.theta)
        × HandFine f head.theta m t.used (node_at store.now head t.node) }
    ensures { (hand.new ≡ covered (width f) head.theta key t.used m q (node_at store.now head t.node))
        × HandFine f head.theta m t.used hand.new }
{
    let node = store::node_at(store, f, head, t.node);
    store::copy(hand, node);
    siblings::cover_hand(hand, f, head.theta, key, t.used, m, q);
}

// The node of a path over a stretch below of m bits with the pointer q, joined as long as it can if that one joined. The nodes released
// are numbered in `gone`, from `at` on.
fn join_level(
    store: &[u32],
    f: Format,
    head: Head,
    key: u64,
    level: u32,
    t: Step,
    m: u32,
    q: u32,
    joins: bool,
    hand: &mut [u32],
    spare: &mut [u32],
    marks: &mut [u8],
    gone: &mut [u32],
    at: usize,
) -> Result<NodeJoins, Refusal>
    requires { (Under f store.now head) × (InUse head t.node) × (t.used ≤ width f) × (key < 2 ^ width f) × (1 ≤ level)
        × (level ≤ head.levels) × (head.nodes_taken < length marks.old) × (length hand.old ≡ node_words head.theta)
        × (length spare.old ≡ node_words head.theta) × HandFine f head.theta m t.used (node_at store.now head t.node)
        × (at + t.used ≤ length gone.old) × (length gone.old < 2 ^ 32) × Passed f store.now head marks.old }
    ensures { ((rs : List Reach) → Tracks (width f) key rs marks.old
        → Noded f key (level_nodes f store.now head key level t m q joins rs) (nodes_of result) hand.new gone.old at
        gone.new marks.new) × ((nodes_of result).ok ≡ true → (nodes_of result).end + (nodes_of result).used ≡ at + t.used)
        × Passed f store.now head marks.new × IfErr result (λ e. e ≡ DamageMet) }
{
    take_node(store, f, head, key, t, m, q, hand);
    if !joins {
        return Ok(NodeJoins {
            number: t.node,
            used: t.used,
            last: t.node,
            end: at,
        });
    }
    siblings::join_nodes(
        store, f, head, key, level, m, q, t.node, t.used, hand, spare, marks, gone, at,
    )
}

// One level, counted from 0, of the way up.
fn level_turn(
    store: &[u32],
    f: Format,
    head: Head,
    key: u64,
    l: usize,
    t: Step,
    w: Rise,
    numbers: &mut [u32],
    blocks: &mut [u32],
    spare: &mut [u32],
    marks: &mut [u8],
    gone: &mut [u32],
) -> Result<Rise, Refusal>
    requires { (Under f store.now head) × (InUse head t.node) × (t.used ≤ width f) × (key < 2 ^ width f) × (l < head.levels)
        × (l < length numbers.old) × (132 * l + 132 ≤ length blocks.old) × (length spare.old ≡ node_words head.theta)
        × (head.nodes_taken < length marks.old) × HandFine f head.theta w.bits t.used (node_at store.now head t.node)
        × (w.end + t.used ≤ length gone.old) × (length gone.old < 2 ^ 32) × Passed f store.now head marks.old }
    ensures { ((rs : List Reach) → Tracks (width f) key rs marks.old
        → Turned f key head.theta l (level_nodes f store.now head key (l + 1) t w.bits w.pointer w.joins rs) (sound_rise w)
        (rise_of result) blocks.new gone.old gone.new marks.new)
        × IfOk result (λ r. (r.joins ≡ ltb r.bits t.used) × (r.end + r.bits ≡ w.end + t.used)
        × (numbers.new ≡ set numbers.old l r.pointer))
        × ((j : ℕ) → (j ≡ l → ⊥) → block_in head.theta blocks.new j ≡ block_in head.theta blocks.old j)
        × Passed f store.now head marks.new × IfErr result (λ e. e ≡ DamageMet) }
{
    let from = 132 * l;
    let to = from + store::node_words(head.theta);
    let level = l as u32 + 1;
    let r = join_level(
        store,
        f,
        head,
        key,
        level,
        t,
        w.bits,
        w.pointer,
        w.joins,
        &mut blocks[from..to],
        spare,
        marks,
        gone,
        w.end,
    )?;
    numbers[l] = r.number;
    Ok(Rise {
        joins: r.used < t.used,
        bits: r.used,
        pointer: r.number,
        end: r.end,
    })
}

// The levels of a removal joined upward, over a page stretch of m bits with the pointer q, from the path of the key. The nodes of all levels
// are numbered in `numbers`, the blocks of those that change stand in `blocks`, 132 words a level, and the nodes released are numbered in
// `gone`.
// (Three lent slices of fixed size beside one another, since there is no heap.)
pub fn join_levels(
    store: &[u32],
    f: Format,
    head: Head,
    key: u64,
    steps: [Step; 32],
    used: u32,
    m: u32,
    q: u32,
    numbers: &mut [u32],
    blocks: &mut [u32],
    spare: &mut [u32],
    marks: &mut [u8],
    gone: &mut [u32],
) -> Result<LevelJoins, Refusal>
    requires { (Under f store.now head) × (key < 2 ^ width f) × ((descent f store.now head key).ok ≡ true)
        × (steps ≡ (descent f store.now head key).steps) × (used ≡ (descent f store.now head key).used) × (m ≤ used)
        × (head.levels ≤ length numbers.old) × (132 * head.levels ≤ length blocks.old)
        × (length spare.old ≡ node_words head.theta) × (head.nodes_taken < length marks.old) × (width f * head.levels ≤ length gone.old)
        × (length gone.old < 2 ^ 32) × Passed f store.now head marks.old }
    ensures { ((rs : List Reach) → Tracks (width f) key rs marks.old
        → Levelled store.now head (take head.levels steps)
        (levels_from f store.now head key 1 (take head.levels steps) m q (ltb m used) rs) (levels_of result)
        numbers.new blocks.new gone.new)
        × IfOk result (λ r. (1 ≤ r.changed) × (r.changed ≤ head.levels) × (r.end ≤ width f * head.levels)
        × (r.end ≤ length gone.old) × StaysIn store.now head r.changed head.levels numbers.new)
        × IfErr result (λ e. e ≡ DamageMet) }
{
    path_numbers(&steps[..head.levels as usize], numbers);
    let mut w = Rise {
        joins: m < used,
        bits: m,
        pointer: q,
        end: 0,
    };
    for l in 0..head.levels as usize {
        w = level_turn(
            store, f, head, key, l, steps[l], w, numbers, blocks, spare, marks, gone,
        )?;
        if !w.joins {
            return Ok(LevelJoins {
                changed: l as u32 + 1,
                linked: l > 0,
                end: w.end,
            });
        }
    }
    Ok(LevelJoins {
        changed: head.levels,
        linked: true,
        end: w.end,
    })
}
