// The plain sorted list: the count, then four words for each record, keys ascending, zeros after the last.

#![tactic(auto)]

ghost use Rattle.std.specs.Prelude.{◌≡◌, ◌-◌};
ghost use Rattle.plot.specs.Money.{days_left, amount};
ghost use Rattle.plot.specs.Plot;
ghost use Rattle.store.specs.Head.{word};
ghost use Rattle.model.specs.Model.{place_of, record_at, with_record, rank_of, rank_after, moved_up, moved_down, inserted, appended};
ghost use Rattle.model.specs.Model.{removed, holds_key, found_in, next_in, between_of, range_in, ahead_of, added_to, no_sheet, sheet_from};
ghost use Rattle.model.specs.Model.{summary_in, model_reply, listed_in};

use harness::calls;
use harness::calls::{Call, Kind, Reply};
use plot::Record;
use raw::words;
use raw::words::put;
use store::{to_index, widen, word};

// A summary so far: count, total, and of the record that ends first the last day, the price and the key.
#[derive(Clone, Copy)]
struct Sheet {
    count: u64,
    total: u64,
    last: u32,
    price: u32,
    key: u32,
}

// How many records there are.
pub fn size(list: &[u32]) -> u32
    ensures { result ≡ word list.now 0 }
{
    word(list, 0)
}

// The first word of a record.
fn place(i: u32) -> usize
    ensures { result ≡ place_of i }
{
    1 + 4 * to_index(i)
}

// The record at a place, zeros past the end.
pub fn record_at(list: &[u32], i: u32) -> Record
    ensures { result ≡ record_at list.now i }
{
    let at = place(i);
    Record {
        key: word(list, at),
        price: word(list, at + 1),
        lease: word(list, at + 2),
        last: word(list, at + 3),
    }
}

fn put_record(list: &mut [u32], i: u32, plot: Record)
    ensures { list.new ≡ with_record list.old i plot }
{
    let at = place(i);
    put(list, at, plot.key);
    put(list, at + 1, plot.price);
    put(list, at + 2, plot.lease);
    put(list, at + 3, plot.last);
}

// How many keys are below a key.
fn rank(list: &[u32], key: u32) -> u32
    ensures { result ≡ rank_of list.now key }
{
    let n = size(list);
    (0..n).find(|i| word(list, place(*i)) >= key).unwrap_or(n)
}

// How many keys are at most a key.
fn rank_after(list: &[u32], key: u32) -> u32
    ensures { result ≡ rank_after list.now key }
{
    if key == 4294967295 {
        return size(list);
    }
    rank(list, key + 1)
}

// Moves the records from a place on up by one.
fn make_room(list: &mut [u32], at: u32)
    ensures { let s = list.old in list.new ≡ moved_up s at (word s 0 - at) }
{
    for i in (at..size(list)).rev() {
        let record = record_at(list, i);
        put_record(list, i + 1, record);
    }
}

// Puts a record in order.
pub fn insert(list: &mut [u32], plot: Record)
    ensures { list.new ≡ inserted list.old plot }
{
    let n = size(list);
    let at = rank(list, plot.key);
    if n < 4294967295 {
        make_room(list, at);
        put_record(list, at, plot);
        put(list, 0, n + 1);
    }
}

// Puts a record at the end.
pub fn append(list: &mut [u32], plot: Record)
    ensures { list.new ≡ appended list.old plot }
{
    let n = size(list);
    put_record(list, n, plot);
    put(list, 0, n.saturating_add(1));
}

// Moves the records after a place down by one.
fn close_up(list: &mut [u32], at: u32)
    ensures { let s = list.old in list.new ≡ moved_down s at (word s 0 - at) }
{
    for i in at..size(list) {
        let record = record_at(list, i + 1);
        put_record(list, i, record);
    }
}

// Takes the record with a key out.
pub fn remove(list: &mut [u32], key: u32)
    ensures { list.new ≡ removed list.old key }
{
    let n = size(list);
    let at = rank(list, key);
    if n > 0 {
        close_up(list, at);
        put(list, 0, n - 1);
    }
}

// Whether a key is held.
pub fn holds(list: &[u32], key: u32) -> bool
    ensures { result ≡ holds_key list.now key }
{
    key != 0 && record_at(list, rank(list, key)).key == key
}

// Whether a record is within its limits.
pub fn lawful(plot: Record) -> bool
    ensures { result ≡ Plot.lawful plot }
{
    if plot.key == 0 {
        return false;
    }
    if plot.lease == 0 {
        return plot.last == 0;
    }
    plot.lease < 36526 && plot.last < 100000
}

// The days of a lease that are left; the last day counts.
fn days_left(plot: Record, today: u32) -> u32
    ensures { result ≡ days_left plot.lease plot.last today }
{
    if plot.last < today {
        return 0;
    }
    plot.lease.min((plot.last - today).saturating_add(1))
}

// Price × days left / lease days, 0 if perpetual.
pub fn balance(plot: Record, today: u32) -> u64
    ensures { result ≡ amount plot.price plot.lease plot.last today }
{
    let days = widen(plot.lease);
    if days == 0 {
        return 0;
    }
    plot::wide_product(plot.price, days_left(plot, today)) / days
}

fn find(list: &[u32], key: u32) -> Reply
    ensures { result ≡ found_in list.now key }
{
    if holds(list, key) {
        return calls::held(record_at(list, rank(list, key)));
    }
    calls::refusal(1)
}

fn next(list: &[u32], key: u32) -> Reply
    ensures { result ≡ next_in list.now key }
{
    let at = rank_after(list, key);
    if at < size(list) {
        return calls::held(record_at(list, at));
    }
    calls::refusal(1)
}

// How many records stand from low to high.
fn between(list: &[u32], low: u32, high: u32) -> u32
    ensures { result ≡ between_of list.now low high }
{
    rank_after(list, high).saturating_sub(rank(list, low))
}

fn range(list: &[u32], low: u32, high: u32, room: u32) -> Reply
    ensures { result ≡ range_in list.now low high room }
{
    if low > high {
        return calls::refusal(7);
    }
    let n = between(list, low, high);
    let fit = room / 4;
    if n <= fit {
        return calls::listing(n, 0);
    }
    let more = record_at(list, rank(list, low).saturating_add(fit));
    calls::listing(fit, more.key)
}

// Whether a record ends before the first so far, or with it at a higher price.
fn ahead(sheet: Sheet, plot: Record) -> bool
    ensures { result ≡ ahead_of sheet plot }
{
    if plot.last == sheet.last {
        return plot.price > sheet.price;
    }
    plot.last < sheet.last
}

// A sheet with one record more.
fn added(sheet: Sheet, plot: Record, today: u32) -> Sheet
    ensures { result ≡ added_to sheet plot today }
{
    let earlier = (plot.lease > 0) & ((sheet.key == 0) | ahead(sheet, plot));
    let count = sheet.count.saturating_add(1);
    let total = sheet.total.saturating_add(balance(plot, today));
    if earlier {
        return Sheet {
            count,
            total,
            last: plot.last,
            price: plot.price,
            key: plot.key,
        };
    }
    Sheet {
        count,
        total,
        last: sheet.last,
        price: sheet.price,
        key: sheet.key,
    }
}

fn sheet_over(list: &[u32], low: u32, high: u32, today: u32) -> Sheet
    ensures { let s = list.now in result ≡ sheet_from s today no_sheet (rank_of s low) (between_of s low high) }
{
    let end = rank_after(list, high);
    let mut sheet = Sheet {
        count: 0,
        total: 0,
        last: 0,
        price: 0,
        key: 0,
    };
    for i in rank(list, low)..end {
        sheet = added(sheet, record_at(list, i), today);
    }
    sheet
}

fn summary(list: &[u32], low: u32, high: u32, today: u32) -> Reply
    ensures { result ≡ summary_in list.now low high today }
{
    if low > high {
        return calls::refusal(7);
    }
    if today > 99999 {
        return calls::refusal(6);
    }
    let sheet = sheet_over(list, low, high, today);
    calls::done(sheet.count, sheet.total, widen(sheet.key), 0)
}

// The reply to a reading of the list: find, next, range with an output of so many words, or summary.
pub fn reply_to(list: &[u32], call: Call) -> Reply
    ensures { result ≡ model_reply list.now call }
{
    match call.kind {
        Kind::Find => find(list, call.a),
        Kind::Next => next(list, call.a),
        Kind::Range => range(list, call.a, call.b, call.c),
        _ => summary(list, call.a, call.b, call.c),
    }
}

// Whether words are the list's records from low on.
pub fn lists(list: &[u32], low: u32, out: &[u32], count: u32) -> bool
    ensures { result ≡ listed_in list.now low out.now count }
{
    let from = place(rank(list, low));
    words::same(out, 0, list, from, 4 * to_index(count))
}
