// Group 2: random sets in stores of many sizes, every reply compared with the plain sorted list.
ghost use Rattle.std.specs.Prelude.{◌≡◌, [], ◌∷◌, ◌%◌, ◌^◌};
ghost use Rattle.harness.specs.Calls.{ran_of, reply_to};
ghost use Rattle.harness.specs.Script.{both};
ghost use Rattle.groups.specs.Sets.{pattern_of, setting_of, joined_in, booked_in, accepted_in, entered_in, set_up_call, part_in, part_of, read_in, parts_of};
ghost use Rattle.groups.specs.Sets.{all_parts};

use harness::calls::{Call, Kind, Reply};
use harness::{calls, random, report, script};
use plot::Record;
use raw::words;
use store::{to_index, widen, word};

// How keys are drawn: anywhere, in bursts of neighbours, with long common prefixes, at the ends of stretches.
#[derive(Clone, Copy)]
pub enum Pattern {
    Uniform,
    Bursts,
    Prefixes,
    Extremes,
}

impl From<u32> for Pattern {
    ghost from_gives = { λ n p. p ≡ pattern_of n };

    // The pattern with a number of a table.
    fn from(number: u32) -> Pattern {
        match number {
            0 => Pattern::Uniform,
            1 => Pattern::Bursts,
            2 => Pattern::Prefixes,
            _ => Pattern::Extremes,
        }
    }
}

// A store and the set that is entered: θ, C, N, P, how keys are drawn, how many records, the seed.
#[derive(Clone, Copy)]
pub struct Setting {
    pub theta: u32,
    pub capacity: u32,
    pub nodes: u32,
    pub pages: u32,
    pub pattern: Pattern,
    pub records: u32,
    pub seed: u32,
}

// θ, C, N, P, pattern, records.
const SETTINGS: [[u32; 10]; 32] = [
    [1, 1, 1200, 120, 0, 120, 0, 0, 0, 0],
    [1, 1, 1600, 100, 1, 90, 0, 0, 0, 0],
    [1, 1, 1600, 100, 2, 90, 0, 0, 0, 0],
    [1, 1, 1600, 100, 3, 60, 0, 0, 0, 0],
    [1, 1, 600, 20, 1, 60, 0, 0, 0, 0],
    [1, 2, 900, 90, 2, 120, 0, 0, 0, 0],
    [1, 5, 200, 60, 0, 160, 0, 0, 0, 0],
    [1, 24, 300, 40, 1, 200, 0, 0, 0, 0],
    [1, 24, 60, 12, 2, 240, 0, 0, 0, 0],
    [2, 1, 800, 120, 0, 120, 0, 0, 0, 0],
    [2, 1, 900, 100, 2, 120, 0, 0, 0, 0],
    [2, 2, 500, 90, 1, 140, 0, 0, 0, 0],
    [2, 5, 20, 60, 0, 160, 0, 0, 0, 0],
    [2, 24, 100, 6, 0, 200, 0, 0, 0, 0],
    [3, 1, 400, 100, 3, 60, 0, 0, 0, 0],
    [3, 1, 300, 100, 1, 120, 0, 0, 0, 0],
    [3, 2, 60, 90, 0, 160, 0, 0, 0, 0],
    [3, 5, 90, 60, 2, 200, 0, 0, 0, 0],
    [3, 24, 40, 12, 0, 240, 0, 0, 0, 0],
    [4, 1, 250, 100, 2, 120, 0, 0, 0, 0],
    [4, 2, 150, 90, 1, 160, 0, 0, 0, 0],
    [4, 5, 100, 30, 0, 200, 0, 0, 0, 0],
    [4, 24, 60, 20, 3, 100, 0, 0, 0, 0],
    [5, 1, 150, 100, 1, 120, 0, 0, 0, 0],
    [5, 2, 100, 90, 2, 160, 0, 0, 0, 0],
    [5, 5, 80, 60, 1, 200, 0, 0, 0, 0],
    [6, 1, 75, 100, 2, 120, 0, 0, 0, 0],
    [6, 1, 80, 100, 3, 60, 0, 0, 0, 0],
    [6, 2, 70, 90, 1, 160, 0, 0, 0, 0],
    [6, 5, 60, 60, 2, 200, 0, 0, 0, 0],
    [6, 24, 40, 20, 0, 240, 0, 0, 0, 0],
    [6, 24, 40, 12, 1, 300, 0, 0, 0, 0],
];

// The setting of a row; its seed is made of the row's number.
pub fn setting_of(rows: &[[u32; 10]], i: usize) -> Setting
    ensures { result ≡ setting_of rows.now i }
{
    Setting {
        theta: script::cell(rows, i, 0),
        capacity: script::cell(rows, i, 1),
        nodes: script::cell(rows, i, 2),
        pages: script::cell(rows, i, 3),
        pattern: Pattern::from(script::cell(rows, i, 4)),
        records: script::cell(rows, i, 5),
        seed: words::low(1000 * (i % 1000) as u64),
    }
}

// A power of two, or a number beside it: the ends of stretches.
fn extreme(n: u32) -> u32 {
    words::low(stretches::width(n / 3 % 33))
        .wrapping_add(n % 3)
        .wrapping_sub(1)
}

// The key at a place.
fn key_at(pattern: Pattern, seed: u32, i: u32) -> u32 {
    let x = random::draw(seed, i);
    match pattern {
        Pattern::Uniform => x,
        Pattern::Bursts => random::draw(seed, i / 12).wrapping_add(i % 12),
        Pattern::Prefixes => random::draw(seed, 70000 + i / 40)
            ^ (x >> (random::draw(seed, i.saturating_add(80000)) % 32)),
        Pattern::Extremes => extreme(x),
    }
}

// Prices and terms: some perpetual, ended or with equal last days, a few outside their limits.
pub fn record_at(pattern: Pattern, seed: u32, i: u32) -> Record {
    let key = key_at(pattern, seed, i);
    let price = random::draw(seed, i.saturating_add(10000));
    let days = random::draw(seed, i.saturating_add(20000));
    let kind = random::below(seed, i.saturating_add(30000), 16);
    match kind {
        0 | 1 | 2 => calls::record(key, price, 0, 0),
        3 | 4 | 5 => calls::record(key, price, 1 + days % 36525, 61000),
        6 => calls::record(key, price, 36525, 99999),
        7 => calls::record(key, 4294967295, 1, days % 100000),
        8 => calls::record(key, price, 36526 + days % 2, 61000),
        9 => calls::record(key, price, days % 3, 99999 + days % 2),
        _ => calls::record(key, price, 1 + days % 36525, days / 65536 % 100000),
    }
}

// The record of try i; one in eight tries repeats an earlier key.
fn tried_at(setting: Setting, i: u32) -> Record {
    let seed = setting.seed;
    if random::below(seed, i.saturating_add(40000), 8) == 0 {
        return record_at(setting.pattern, seed, i / 2);
    }
    record_at(setting.pattern, seed, i)
}

// A lawful record that is not held joins the list, unless the tree does not fit then.
fn joined(list: &mut [u32], setting: Setting, plot: Record) -> Reply
    ensures { let q = joined_in list.old setting plot in
        (result ≡ q.reply) × (list.new ≡ q.list) }
{
    model::insert(list, plot);
    let counts = stretches::counts_of(list, setting.theta, setting.capacity);
    if (counts.nodes > setting.nodes) | (counts.pages > setting.pages) {
        model::remove(list, plot.key);
        return calls::refusal(10);
    }
    calls::done(
        plot.key as u64,
        counts.levels as u64,
        counts.nodes as u64,
        counts.pages as u64,
    )
}

// The book's reply to an entry, with the list brought up to date.
pub fn booked(list: &mut [u32], setting: Setting, plot: Record) -> Reply
    ensures { let q = booked_in list.old setting plot in
        (result ≡ q.reply) × (list.new ≡ q.list) }
{
    if !model::lawful(plot) {
        return calls::refusal(6);
    }
    if model::holds(list, plot.key) {
        return calls::refusal(8);
    }
    joined(list, setting, plot)
}

// An accepted entry is counted, and its reply compared with the head's words.
fn accepted(rt: &impl Print, store: &[u32], reply: Reply, tally: &mut [u64])
    ensures { tally.new ≡ accepted_in store.now reply tally.old }
{
    let levels = word(store, 7) as u64;
    let nodes = word(store, 4) as u64;
    let pages = word(store, 5) as u64;
    report::add(tally, report::ENTRIES);
    report::compare(rt, tally, calls::done(reply.a, levels, nodes, pages), reply);
}

// Enters a record, and compares the reply with the book's.
fn entry(rt: &impl Print, store: &mut [u32], expected: Reply, plot: Record, tally: &mut [u64])
    ensures { let q = entered_in (both store.old tally.old) expected plot in
        (store.new ≡ q.store) × (tally.new ≡ q.tally) }
{
    let outcome = calls::watched_in(store, 64, calls::entry(plot));
    let reply = outcome.reply;
    report::judge_outcome(rt, tally, expected, outcome);
    if reply.number == 0 {
        accepted(rt, store, reply, tally);
    }
}

// A range, with the records that it lists; the first key not written.
fn part_in(
    rt: &impl Print,
    store: &mut [u32],
    list: &[u32],
    out: &mut [u32],
    call: Call,
    tally: &mut [u64],
) -> u32
    ensures { let q = part_in list.now (both store.old tally.old) out.old call in
        (result ≡ q.next) × (store.new ≡ q.store) × (out.new ≡ q.out) × (tally.new ≡ q.tally) }
{
    let n = to_index(call.c);
    if n > out.len() {
        return 0;
    }
    let outcome = calls::watched(store, &mut out[0..n], call);
    let reply = outcome.reply;
    report::judge_outcome(rt, tally, model::reply_to(list, call), outcome);
    report::hold(
        rt,
        tally,
        model::lists(list, call.a, out, words::low(reply.a)),
        b"the records are listed",
    );
    words::low(reply.b)
}

// The same with an output of its own, of at most 1,024 words.
fn part(rt: &impl Print, store: &mut [u32], list: &[u32], call: Call, tally: &mut [u64]) -> u32
    ensures { let q = part_of list.now (both store.old tally.old) call in
        (result ≡ q.next) × (store.new ≡ q.store) × (tally.new ≡ q.tally) }
{
    let mut out = [0u32; 1024];
    part_in(rt, store, list, &mut out, call, tally)
}

// A reading, compared with the list's.
fn reading(rt: &impl Print, store: &mut [u32], list: &[u32], call: Call, tally: &mut [u64])
    ensures { let q = read_in list.now (both store.old tally.old) call in
        (store.new ≡ q.store) × (tally.new ≡ q.tally) }
{
    if call.kind.is_range() {
        part(rt, store, list, call, tally);
        return;
    }
    let outcome = calls::watched_in(store, 0, call);
    report::judge_outcome(rt, tally, model::reply_to(list, call), outcome);
}

// The reading j after an entry: finds and nexts at the key, beside it and elsewhere; ranges and summaries over windows.
fn reading_at(key: u32, seed: u32, j: u32) -> Call {
    let x = random::draw(seed, j);
    let y = random::draw(seed, j.saturating_add(1));
    let near = key.wrapping_add(j / 2).wrapping_sub(2);
    let seek = if j % 2 == 0 { Kind::Find } else { Kind::Next };
    match j {
        0..=7 => calls::ask(seek, near, 0, 0, 0),
        8 | 9 => calls::ask(seek, x, 0, 0, 0),
        10 => calls::ask(Kind::Range, x, y, x % 64, 0),
        11 => calls::ask(Kind::Range, near, 4294967295, x % 12, 0),
        12 => calls::ask(Kind::Summary, x, y, x % 100002, 0),
        13 => calls::ask(Kind::Summary, 0, key, 60998 + x % 4, 0),
        _ => calls::ask(Kind::Summary, 0, 4294967295, 60000, 0),
    }
}

fn readings(
    rt: &impl Print,
    store: &mut [u32],
    list: &[u32],
    key: u32,
    seed: u32,
    tally: &mut [u64],
) {
    for j in 0..15u32 {
        reading(rt, store, list, reading_at(key, seed, j), tally);
    }
}

// One try: the entry, and readings after it.
fn try_at(
    rt: &impl Print,
    store: &mut [u32],
    list: &mut [u32],
    setting: Setting,
    i: u32,
    tally: &mut [u64],
) {
    let record = tried_at(setting, i);
    let expected = booked(list, setting, record);
    entry(rt, store, expected, record, tally);
    readings(
        rt,
        store,
        list,
        record.key,
        setting.seed.saturating_add(i),
        tally,
    );
}

fn tries(
    rt: &impl Print,
    store: &mut [u32],
    list: &mut [u32],
    setting: Setting,
    tally: &mut [u64],
) {
    for i in 0..setting.records {
        try_at(rt, store, list, setting, i, tally);
    }
}

// The whole range in parts, each from the first key that the one before did not write.
pub fn parts(rt: &impl Print, store: &mut [u32], list: &[u32], room: u32, tally: &mut [u64])
    ensures { let q = parts_of list.now room (both store.old tally.old) in
        (store.new ≡ q.store) × (tally.new ≡ q.tally) }
{
    let mut low: u32 = 0;
    for _turn in 0..1024u32 {
        low = part(
            rt,
            store,
            list,
            calls::ask(Kind::Range, low, 4294967295, room, 0),
            tally,
        );
        if low == 0 {
            return;
        }
    }
    report::hold(rt, tally, false, b"the parts end");
}

// Sets a store up for a setting; the size, 0 if refused.
pub fn prepare(store: &mut [u32], setting: Setting) -> u32
    ensures { let s = store.old in
        (result ≡ (reply_to (set_up_call setting) s (0 ∷ [])).a % 2 ^ 32) × (store.new ≡ (ran_of (set_up_call setting) s (0 ∷ [])).store) }
{
    let call = calls::ask(
        Kind::SetUp,
        setting.theta,
        setting.capacity,
        setting.nodes,
        setting.pages,
    );
    let mut out = [0u32; 1];
    words::low(calls::reply_to(store, &mut out, call).a)
}

fn all_parts(rt: &impl Print, store: &mut [u32], list: &[u32], tally: &mut [u64])
    ensures { let q = all_parts list.now (both store.old tally.old) in
        (store.new ≡ q.store) × (tally.new ≡ q.tally) }
{
    parts(rt, store, list, 1023, tally);
    parts(rt, store, list, 30, tally);
    parts(rt, store, list, 4, tally);
}

// One set: entries with readings, then the whole range in parts of several sizes.
fn set_of(
    rt: &impl Print,
    store: &mut [u32],
    list: &mut [u32],
    setting: Setting,
    tally: &mut [u64],
) {
    report::hold(
        rt,
        tally,
        prepare(store, setting) > 0,
        b"the store is set up",
    );
    list.fill(0);
    tries(rt, store, list, setting, tally);
    all_parts(rt, store, list, tally);
}

fn setting_at(i: usize) -> Setting {
    let rows = SETTINGS;
    setting_of(&rows, i)
}

fn sets(rt: &impl Print, store: &mut [u32], list: &mut [u32], tally: &mut [u64]) {
    for i in 0..SETTINGS.len() {
        set_of(rt, store, list, setting_at(i), tally);
    }
}

pub fn run(rt: &impl Print, store: &mut [u32], list: &mut [u32], tally: &mut [u64]) {
    report::start(tally, 2);
    sets(rt, store, list, tally);
    report::finish(rt, tally, b"random sets");
}
