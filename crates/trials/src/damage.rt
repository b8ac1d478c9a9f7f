// Group 6: sound stores with one to three words changed at random, and what holds of every call all the same.
use groups::orders::Order;
use groups::sets::Setting;
use groups::{orders, sets};
use harness::calls::{Call, Kind, Reply};
use harness::{calls, random, report};
use raw::words;
use store::{to_index, widen, word};

// θ, C, N, P, pattern, records.
const SETTINGS: [[u32; 10]; 10] = [
    [1, 1, 60, 12, 0, 12, 0, 0, 0, 0],
    [1, 1, 300, 6, 2, 12, 0, 0, 0, 0],
    [1, 2, 30, 12, 0, 20, 0, 0, 0, 0],
    [2, 1, 50, 16, 3, 20, 0, 0, 0, 0],
    [2, 3, 20, 10, 0, 24, 0, 0, 0, 0],
    [3, 2, 20, 12, 2, 24, 0, 0, 0, 0],
    [3, 1, 12, 24, 0, 30, 0, 0, 0, 0],
    [4, 5, 8, 12, 0, 40, 0, 0, 0, 0],
    [6, 1, 12, 24, 0, 30, 0, 0, 0, 0],
    [6, 24, 3, 6, 2, 60, 0, 0, 0, 0],
];

// Damaged stores of a setting.
const TIMES: u32 = 3000;

// A word's new value: a random one, a small one, one bit or one step away, or another word of the store.
fn damaged(store: &[u32], value: u32, seed: u32, i: u32) -> u32 {
    let x = random::draw(seed, i);
    match x % 6 {
        0 => random::draw(seed, i.saturating_add(1)),
        1 | 2 => x / 6 % 9,
        3 => value ^ (1u32 << (x / 6 % 32)),
        4 => value.saturating_add(1),
        _ => word(store, to_index(x / 6 % 256)),
    }
}

// The place of a word: of the head, or of the whole store.
fn place(size: u32, seed: u32, i: u32) -> usize {
    if random::below(seed, i, 5) == 0 {
        return to_index(random::below(seed, i.saturating_add(1), 16));
    }
    to_index(random::below(seed, i.saturating_add(1), size))
}

fn damage(store: &mut [u32], size: u32, seed: u32, i: u32) {
    let at = place(size, seed, i.saturating_add(100));
    let value = damaged(store, word(store, at), seed, i.saturating_add(200));
    words::put(store, at, value);
}

// Changes one to three words.
fn damage_some(store: &mut [u32], size: u32, seed: u32) {
    let n = 1 + random::below(seed, 1, 3) % 3;
    for i in 0..n {
        damage(store, size, seed, 2 * (i % 3));
    }
}

// A key at, beside or far from one that is held.
fn key_near(list: &[u32], seed: u32, j: u32) -> u32 {
    let x = random::draw(seed, j.saturating_add(300));
    let record = model::record_at(list, words::remainder(widen(x), model::size(list)));
    match x / 65536 % 4 {
        0 => x,
        1 => record.key.saturating_add(1),
        _ => record.key,
    }
}

// What holds of a done reply on any words: find gives the key that was sought, next and range's first key not written are not below.
fn sensible(call: Call, reply: Reply) -> bool {
    match call.kind {
        Kind::Find => reply.a == widen(call.a),
        Kind::Next => reply.a > widen(call.a),
        Kind::Range => reply.a <= 16 && (reply.b == 0 || reply.b >= widen(call.a)),
        _ => true,
    }
}

// An accepted entry is found again.
fn found_again(rt: &impl Print, store: &mut [u32], call: Call, tally: &mut [u64]) {
    let find = faults::call_at(call.a, 0);
    let outcome = calls::watched_in(store, 64, find);
    report::add(tally, report::ENTRIES);
    report::judge_outcome(rt, tally, calls::held(calls::record_of(call)), outcome);
}

// What holds after a call that was done.
fn judge_done(rt: &impl Print, store: &mut [u32], call: Call, reply: Reply, tally: &mut [u64]) {
    report::hold(rt, tally, sensible(call, reply), b"the reply fits the key");
    if call.kind == Kind::Enter {
        found_again(rt, store, call, tally);
    }
}

// A call on a damaged store.
fn call_damaged(rt: &impl Print, store: &mut [u32], call: Call, tally: &mut [u64]) {
    let outcome = calls::watched_in(store, 64, call);
    let reply = outcome.reply;
    report::judge_outcome(rt, tally, faults::numbered(reply.number, reply), outcome);
    if reply.number == 0 {
        judge_done(rt, store, call, reply, tally);
    }
}

// Every operation on a store damaged anew; enter comes last.
fn calls_damaged(rt: &impl Print, store: &mut [u32], list: &[u32], seed: u32, tally: &mut [u64]) {
    for j in 0..5u32 {
        call_damaged(
            rt,
            store,
            faults::call_at(key_near(list, seed, j), to_index(j)),
            tally,
        );
    }
}

fn damage_once(
    rt: &impl Print,
    sound: &[u32],
    size: u32,
    store: &mut [u32],
    list: &[u32],
    seed: u32,
    tally: &mut [u64],
) {
    words::copy(sound, store, to_index(size));
    damage_some(store, size, seed);
    calls_damaged(rt, store, list, seed, tally);
}

fn damage_often(
    rt: &impl Print,
    sound: &[u32],
    store: &mut [u32],
    list: &[u32],
    seed: u32,
    tally: &mut [u64],
) {
    let size = words::low(store.len() as u64);
    for i in 0..TIMES {
        damage_once(rt, sound, size, store, list, seed.saturating_add(i), tally);
    }
}

// On a store of exactly the size.
fn damage_in(
    rt: &impl Print,
    sound: &[u32],
    store: &mut [u32],
    n: usize,
    list: &[u32],
    seed: u32,
    tally: &mut [u64],
) {
    if n <= store.len() {
        damage_often(rt, sound, &mut store[0..n], list, seed, tally);
    }
}

// One setting: a sound store with the records that the book accepts, and damaged copies of it.
fn damage_setting(
    rt: &impl Print,
    sound: &mut [u32],
    store: &mut [u32],
    list: &mut [u32],
    drawn: &mut [u32],
    setting: Setting,
    tally: &mut [u64],
) {
    orders::draw_set(list, drawn, setting);
    let size = orders::fill_store(rt, sound, list, drawn, setting, Order::Drawn, tally);
    let seed = setting.seed.wrapping_mul(100).wrapping_add(5000000);
    damage_in(rt, sound, store, to_index(size), list, seed, tally);
}

fn setting_at(i: usize) -> Setting {
    let rows = SETTINGS;
    sets::setting_of(&rows, i)
}

fn damage_settings(
    rt: &impl Print,
    sound: &mut [u32],
    store: &mut [u32],
    list: &mut [u32],
    drawn: &mut [u32],
    tally: &mut [u64],
) {
    for i in 0..SETTINGS.len() {
        damage_setting(rt, sound, store, list, drawn, setting_at(i), tally);
    }
}

pub fn run(
    rt: &impl Print,
    sound: &mut [u32],
    store: &mut [u32],
    list: &mut [u32],
    drawn: &mut [u32],
    tally: &mut [u64],
) {
    report::start(tally, 6);
    damage_settings(rt, sound, store, list, drawn, tally);
    report::finish(rt, tally, b"damaged stores");
}
