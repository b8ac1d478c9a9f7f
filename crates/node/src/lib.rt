// A node block of a store: the rule that a visited one keeps, and the entry that a key takes in it.
#![tactic(auto)]

ghost use Rattle.std.specs.Prelude.{◌≡◌, ◌+◌, ◌-◌, ◌*◌, ◌^◌, ◌<◌, ◌≤◌, length};
ghost use Rattle.store.specs.Format.{width};
ghost use Rattle.store.specs.Head.{node_words};
ghost use Rattle.node.specs.Node.{back_word, entry_of, good_runs, link_rule, pointer_low, pointer_high, node_rule, entry_number};
ghost use Rattle.node.specs.Faults.{behind_of, outside_of, torn_of, gathered_of, before_of};

use store::{Format, Head};

// The trailing zeros of each entry's number: entries i - 1 and i lie in one aligned run of 2^s entries just when s is above them. No run
// holds an entry before entry 0. A table: with `i.trailing_zeros()` the loop over 64 entries takes 1.8 times as long.
const ALIGNED: [u32; 64] = [
    6, 0, 1, 0, 2, 0, 1, 0, 3, 0, 1, 0, 2, 0, 1, 0, 4, 0, 1, 0, 2, 0, 1, 0, 3, 0, 1, 0, 2, 0, 1, 0,
    5, 0, 1, 0, 2, 0, 1, 0, 3, 0, 1, 0, 2, 0, 1, 0, 4, 0, 1, 0, 2, 0, 1, 0, 3, 0, 1, 0, 2, 0, 1, 0,
];

// What the tests of a node's entries have gathered: `outside` has its top bit set where an entry is outside its limits, `torn` is not 0
// where two neighbours of one run differ, and `full` is not 0 where a local depth is the node's.
#[derive(Clone, Copy)]
struct Faults {
    outside: u32,
    torn: u32,
    full: u32,
}

// x - y modulo 2^32. Of numbers below 2^31: its top bit is set where x is below y.
#[tactic(auto, unfolding(crate::specs::Faults::behind_of))]
fn behind(x: u32, y: u32) -> u32
    ensures { result ≡ behind_of x y }
{
    x.wrapping_sub(y)
}

// Its top bit is set where a local depth is above the node's, or a pointer not from low to high.
#[tactic(auto, unfolding(crate::specs::Faults::outside_of))]
fn outside(h: u32, p: u32, depth: u32, low: u32, high: u32) -> u32
    ensures { result ≡ outside_of depth low high (h, p) }
{
    h | behind(depth, h) | behind(p, low) | behind(high, p)
}

// The bits in which two neighbours differ, where a run of either holds both: its local depth is below `apart`.
#[tactic(auto, using(crate::proofs::FaultLaws::torn_set, crate::proofs::FaultLaws::torn_clear))]
fn torn(h: u32, p: u32, before: u32, pointer: u32, apart: u32) -> u32
    ensures { result ≡ torn_of apart (before, pointer) (h, p) }
{
    if (behind(h, apart) | behind(before, apart)) >= 2147483648 {
        return (h ^ before) | (p ^ pointer);
    }
    0
}

// The tests of entry i gathered. (The links stand where an entry before entry 0 would.)
#[tactic(auto, unfolding(crate::specs::Faults::gathered_of))]
fn gathered(
    g: Faults,
    node: &[u32],
    i: usize,
    depth: u32,
    low: u32,
    high: u32,
    apart: u32,
) -> Faults
    requires { (i < 64) × (6 + 2 * i ≤ length node.now) }
    ensures { result ≡ gathered_of depth low high apart (before_of node.now i) (entry_of node.now 0 i) g }
{
    let h = node[4 + 2 * i];
    let p = node[5 + 2 * i];
    Faults {
        outside: g.outside | outside(h, p, depth, low, high),
        torn: g.torn | torn(h, p, node[2 + 2 * i], node[3 + 2 * i], apart),
        full: g.full | u32::from(h == depth),
    }
}

// Whether the entries of a node fall into lawful runs, the largest local depth being the node's: without a branch at each entry.
fn runs_ok(node: &[u32], depth: u32, low: u32, high: u32) -> bool
    requires { (depth ≤ 6) × (low ≤ 1) × (high ≤ 4096) × (4 + 2 * 2 ^ depth ≤ length node.now) × (back_word node.now 0 ≤ 4096) }
    ensures { result ≡ good_runs depth low high (entry_of node.now 0) }
{
    let n = store::pow2(depth);
    let aligned = ALIGNED;
    let mut g = Faults {
        outside: 0,
        torn: 0,
        full: 0,
    };
    // Not `for i in 0..n`, which takes three times as long: the compiler tests i < 2^depth by a shift, and makes no vector code.
    let mut i = 0;
    while i != n {
        g = gathered(g, node, i, depth, low, high, behind(depth, aligned[i]));
        i += 1;
    }
    g.outside < 2147483648 && g.torn == 0 && g.full != 0
}

// Whether the links of a node are lawful at its level.
#[tactic(auto, unfolding(crate::specs::Node::link_rule))]
fn links_ok(head: Head, level: u32, back: u32, forward: u32) -> bool
    ensures { result ≡ link_rule head level back forward }
{
    if level == 1 {
        back <= head.nodes_taken && forward <= head.nodes_taken
    } else {
        back == 0 && forward == 0
    }
}

// The least pointer that is lawful at a level.
#[tactic(auto, unfolding(crate::specs::Node::pointer_low))]
fn pointer_low(level: u32) -> u32
    ensures { result ≡ pointer_low level }
{
    if level == 1 { 0 } else { 1 }
}

// The largest pointer that is lawful at a level.
#[tactic(auto, unfolding(crate::specs::Node::pointer_high))]
fn pointer_high(head: Head, level: u32) -> u32
    ensures { result ≡ pointer_high head level }
{
    if level == 1 {
        head.pages_taken
    } else {
        head.nodes_taken
    }
}

// Whether a node block keeps the rule of a visited node of this level.
#[tactic(auto, using(crate::proofs::NodeLaws::block_words))]
pub fn node_ok(node: &[u32], head: Head, level: u32) -> bool
    requires { (head.theta ≤ 6) × (head.nodes_taken ≤ 4096) × (head.pages_taken ≤ 4096)
        × (length node.now ≡ node_words head.theta) }
    ensures { result ≡ node_rule head node.now 0 level }
{
    let depth = node[0];
    if depth > head.theta {
        return false;
    }
    if node[1] != level {
        return false;
    }
    if !links_ok(head, level, node[2], node[3]) {
        return false;
    }
    if !runs_ok(node, depth, pointer_low(level), pointer_high(head, level)) {
        return false;
    }
    let end = 4 + 2 * store::pow2(depth);
    store::is_zero(&node[end..])
}

// The entry that a key takes in a node: the next `depth` bits after the used ones.
pub fn entry_number(f: Format, key: u64, used: u32, depth: u32) -> usize
    requires { (depth ≤ width f - used) × (depth ≤ 6) }
    ensures { (result ≡ entry_number (width f) key used depth) × (result < 2 ^ depth) × (result < 64) }
{
    if depth == 0 {
        return 0;
    }
    let mask = (1u64 << depth) - 1;
    let n = (key >> (store::width_of(f) - used - depth)) & mask;
    n as usize
}
