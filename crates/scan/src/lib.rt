// Readings of many records: range and summary, each a walk by next, some records of one page at a time.
#![tactic(auto)]

ghost use Rattle.std.specs.Prelude.{◌≡◌, true, false, ◌++◌, ◌+◌, ◌-◌, ◌*◌, ◌^◌, ◌≤◌, ◌<◌, length, drop};
ghost use Rattle.lists.specs.Lists.{part};
ghost use Rattle.plot.specs.Plot.{lawful_day};
ghost use Rattle.store.specs.Format.{words};
ghost use Rattle.store.specs.Head.{page_at, Under};
ghost use Rattle.page.specs.Page.{count, flat, Filled};
ghost use Rattle.totals.specs.Totals.{Room, Bounded, updated_of, totals_of};
ghost use Rattle.search.specs.Way.{sound_span, span_result};
ghost use Rattle.search.specs.Span.{span_of};
ghost use Rattle.scan.specs.Outcome.{listing_result, totals_result};
ghost use Rattle.scan.specs.Walk.{last_key, Standing, end_of, rows};
ghost use Rattle.scan.specs.Range.{ranged, listing, firsts, range_reply, range_of};
ghost use Rattle.scan.specs.Summary.{summed, summary_reply, summary_of};

use answers::Refusal;
use search::{Span, Terminal};
use store::{Format, Head};
use totals::Totals;

// The first records above a key, or, if not strict, at or above it: where a walk by next begins.
fn walk_from(
    store: &[u32],
    f: Format,
    head: Head,
    strict: bool,
    key: u64,
    checked: bool,
) -> Result<Option<Span>, Refusal>
    requires { (Under f store.now head) × (checked ≡ false → (span_of f store.now head strict key).ok ≡ true) }
    ensures { result ≡ span_result (span_of f store.now head strict key) }
{
    let t = search::terminal_of(store, f, head, key, checked);
    search::span_at(store, f, head, strict, key, t, checked)
}

// A span, field by field: copied as a whole it would wait for the stores of its fields.
fn copied(next: Option<Span>) -> Option<Span>
    ensures { result ≡ next }
{
    let r = next?;
    Some(Span {
        page: r.page,
        from: r.from,
        node: r.node,
        to: r.to,
        used: r.used,
        behind: r.behind,
        last: r.last,
    })
}

// The records after the last one of a span: on with the run behind its page, where that is known, without that record's way down.
fn advance(
    store: &[u32],
    f: Format,
    head: Head,
    r: Span,
    checked: bool,
) -> Result<Option<Span>, Refusal>
    requires { (Under f store.now head) × (Standing f store.now head (sound_span r))
        × (checked ≡ false → (span_of f store.now head true (last_key f store.now head (sound_span r))).ok ≡ true) }
    ensures { result ≡ span_result (span_of f store.now head true (last_key f store.now head (sound_span r))) }
{
    if r.behind != 0 {
        let t = Terminal {
            node: r.node,
            used: r.used,
        };
        return Ok(copied(search::span_behind(store, f, head, true, r.last, t, r.behind, checked)?));
    }
    Ok(copied(walk_from(store, f, head, true, r.last, checked)?))
}

// Where the records of a span that are not above high end.
fn end_of(store: &[u32], f: Format, head: Head, r: Span, high: u64) -> usize
    requires { (Under f store.now head) × (Standing f store.now head (sound_span r)) }
    ensures { (result ≡ end_of f (page_at f store.now head r.page) r.from r.to high) × (r.from ≤ result) × (result ≤ r.to) }
{
    if r.last <= high {
        return r.to;
    }
    let page = store::page_at(store, f, head, r.page);
    r.from.max(page::first_above(page, f, true, high))
}

// How a range ends: how many records it writes, and the first key not written, 0 if none, as the range's reply has it.
#[derive(Clone, Copy)]
pub struct Listing {
    pub count: u64,
    pub more: u64,
}

// The outcome of a range with room for so many records; nothing is written.
fn list(
    store: &[u32],
    f: Format,
    head: Head,
    low: u64,
    high: u64,
    room: u64,
) -> Result<Listing, Refusal>
    requires { (Under f store.now head) × (low ≤ high) }
    ensures { result ≡ listing_result (listing (ranged f store.now head low high room)) }
{
    let mut count: u64 = 0;
    let mut next = walk_from(store, f, head, false, low, true)?;
    while let Some(r) = next {
        let end = end_of(store, f, head, r, high);
        let n = (end - r.from) as u64;
        if n > room - count {
            let page = store::page_at(store, f, head, r.page);
            let first = r.from + (room - count) as usize;
            let item = page::read_one(page, f, first);
            return Ok(Listing {
                count: room,
                more: item.key,
            });
        }
        count += n;
        if r.last >= high {
            return Ok(Listing { count, more: 0 });
        }
        next = advance(store, f, head, r, true)?;
    }
    Ok(Listing { count, more: 0 })
}

// Copies n records of a page, from number i on, to the front of the output: their words as they stand.
fn copy_rows(page: &[u32], f: Format, i: usize, n: usize, out: &mut [u32])
    requires { (i + n < 2 ^ 32) × (words f * (i + n) < length page.now) × (words f * n ≤ length out.old) }
    ensures { out.new ≡ part page.now (1 + words f * i) (words f * n) ++ drop (words f * n) out.old }
{
    let w = store::words_of(f);
    let first = 1 + w * i;
    let size = w * n;
    store::copy(&mut out[0..size], &page[first..first + size]);
}

// Writes the first n records at or above low. They were found before, on the same words, so no block is checked again.
fn fill(store: &[u32], f: Format, head: Head, low: u64, n: u64, out: &mut [u32])
    requires { (Under f store.now head) × (words f * n ≤ length out.old) × (length (firsts f store.now head false low n) ≡ n) }
    ensures { out.new ≡ flat f (firsts f store.now head false low n) ++ drop (words f * n) out.old }
{
    if n == 0 {
        return;
    }
    let words = store::words_of(f);
    let mut at: usize = 0;
    let mut left = n;
    let mut next = walk_from(store, f, head, false, low, false);
    while let Ok(Some(r)) = next {
        let page = store::page_at(store, f, head, r.page);
        let m = left.min((r.to - r.from) as u64);
        copy_rows(page, f, r.from, m as usize, &mut out[at..]);
        at += words * m as usize;
        left -= m;
        if left == 0 {
            return;
        }
        next = advance(store, f, head, r, false);
    }
}

// Lists the records from low to high in the lent output: as many whole ones as fit. A first pass finds the outcome, a second one writes.
pub fn range(
    store: &[u32],
    f: Format,
    low: u64,
    high: u64,
    out: &mut [u32],
) -> Result<Listing, Refusal>
    ensures { (range_reply result ≡ (range_of f store.now low high out.old).reply)
        × (out.new ≡ (range_of f store.now low high out.old).words) }
{
    if !store::head_ok(store, f) {
        return Err(Refusal::HeadBroken);
    }
    if high < low {
        return Err(Refusal::LowAboveHigh);
    }
    let head = store::head_of(store);
    let room = (out.len() / store::words_of(f)) as u64;
    let l = list(store, f, head, low, high, room)?;
    fill(store, f, head, low, l.count, out);
    Ok(l)
}

// The totals with the records of a page from number `from` up to `to`.
fn add_rows(page: &[u32], f: Format, from: usize, to: usize, today: u32, totals: Totals) -> Totals
    requires { (Filled f page.now) × (from ≤ to) × (to ≤ count page.now) × (to < 2 ^ 32) × (lawful_day today ≡ true) × (Bounded totals)
        × (totals.count + (to - from) ≤ 2 ^ 32) }
    ensures { (result ≡ totals_of totals (rows f page.now from (to - from)) today) × (Bounded result)
        × (result.count ≡ totals.count + (to - from)) }
{
    let mut t = totals;
    for i in from..to {
        totals::add(&mut t, page::read_one(page, f, i), today);
    }
    t
}

// The totals of the records from low to high: one sheet, brought up to date record by record.
fn sum(
    store: &[u32],
    f: Format,
    head: Head,
    low: u64,
    high: u64,
    today: u32,
) -> Result<Totals, Refusal>
    requires { (Under f store.now head) × (low ≤ high) × (high < 2 ^ 32) × (lawful_day today ≡ true) }
    ensures { result ≡ totals_result (summed f store.now head low high today) }
{
    let mut t = totals::no_totals();
    let mut next = walk_from(store, f, head, false, low, true)?;
    while let Some(r) = next {
        let page = store::page_at(store, f, head, r.page);
        let end = end_of(store, f, head, r, high);
        t = add_rows(page, f, r.from, end, today, t);
        if r.last >= high {
            return Ok(t);
        }
        next = advance(store, f, head, r, true)?;
    }
    Ok(t)
}

// A summary: how many records, their balances together, and the key of the one that is first to end, 0 if none is leased.
#[derive(Clone, Copy)]
pub struct Summed {
    pub count: u64,
    pub total: u64,
    pub key: u64,
}

// Counts the records from low to high, adds up their balances today, and names the earliest to end.
pub fn summary(store: &[u32], f: Format, low: u32, high: u32, today: u32) -> Result<Summed, Refusal>
    ensures { summary_reply result ≡ summary_of f store.now low high today }
{
    if !store::head_ok(store, f) {
        return Err(Refusal::HeadBroken);
    }
    if high < low {
        return Err(Refusal::LowAboveHigh);
    }
    if !plot::lawful_day(today) {
        return Err(Refusal::RecordOutside);
    }
    let t = sum(
        store,
        f,
        store::head_of(store),
        u64::from(low),
        u64::from(high),
        today,
    )?;
    Ok(Summed {
        count: t.count,
        total: t.total,
        key: t.key,
    })
}
