// The plot index for other languages: each public operation with numbers and slices only. A function returns the answer's number and
// writes the answer's values into the lent slice `reply`, as far as they fit. Crate exports_c hands them to C under the same names.

#![tactic(auto)]

ghost use Rattle.std.specs.Prelude.{◌≡◌};
ghost use Rattle.plot.specs.Money.{balance_reply};
ghost use Rattle.plot.specs.Label.{key_reply, key_of_reply, label_of_reply, convert_reply};
ghost use Rattle.store.specs.declared.Format.TheVariants.{Plots};
ghost use Rattle.store.specs.SetUp.{set_up};
ghost use Rattle.search.specs.Find.{find_reply};
ghost use Rattle.search.specs.Next.{next_reply};
ghost use Rattle.scan.specs.Range.{range_of};
ghost use Rattle.scan.specs.Summary.{summary_of};
ghost use Rattle.insert.specs.Enter.{enter_of};
ghost use Rattle.remove.specs.Remove.{remove_of};
ghost use Rattle.index.specs.Answers;
ghost use Rattle.exports.specs.Reply.{filled, size_values, enter_values, record_values, range_values};
ghost use Rattle.exports.specs.Reply.{summary_values, balance_values, key_values, label_values};

use answers::Refusal;
use plot::{Label, Record};

// Writes an answer's values at the front of the reply, as far as they fit, and gives its number. (Word by word: how many values there are is
// known at each call, so the loop goes, and no memory is copied by a call.)
fn told(reply: &mut [u64], number: u32, values: &[u64]) -> u32
    ensures { (result ≡ number) × (reply.new ≡ filled values.now reply.old) }
{
    for (i, value) in values.iter().enumerate() {
        if i < reply.len() {
            reply[i] = *value;
        }
    }
    number
}

// A record, or none: number 1.
fn told_record(reply: &mut [u64], answer: Result<Option<Record>, Refusal>) -> u32
    ensures { let a = Answers.reply answer in
        (result ≡ a.number) × (reply.new ≡ filled (record_values a) reply.old) }
{
    match answer {
        Ok(Some(r)) => told(
            reply,
            0,
            &[r.key as u64, r.price as u64, r.lease as u64, r.last as u64],
        ),
        Ok(None) => told(reply, 1, &[0; 4]),
        Err(refusal) => told(reply, refusal.number(), &[0; 4]),
    }
}

// A key.
fn told_key(reply: &mut [u64], answer: Result<u32, Refusal>) -> u32
    ensures { let a = key_reply answer in
        (result ≡ a.number) × (reply.new ≡ filled (key_values a) reply.old) }
{
    match answer {
        Ok(key) => told(reply, 0, &[key as u64]),
        Err(refusal) => told(reply, refusal.number(), &[0]),
    }
}

// Sets a store up: refused with 4 or 5, or cleared and headed. Words beyond the size stay.
#[tactic(auto, unfolding(crate::specs::Reply::size_values))]
pub fn plots_set_up(
    store: &mut [u32],
    theta: u32,
    capacity: u32,
    nodes: u32,
    pages: u32,
    reply: &mut [u64],
) -> u32
    ensures { let a = set_up Plots theta capacity nodes pages store.old in
        (result ≡ a.reply.number) × (store.new ≡ a.words)
        × (reply.new ≡ filled (size_values a.reply) reply.old) }
{
    match index::set_up(store, theta, capacity, nodes, pages) {
        Ok(size) => told(reply, 0, &[size as u64]),
        Err(refusal) => told(reply, refusal.number(), &[0]),
    }
}

// Enters a record: refused with 3, 6, 9, 8 or 10 before any word of the store is written, or done.
pub fn plots_enter(
    store: &mut [u32],
    key: u32,
    price: u32,
    lease: u32,
    last: u32,
    reply: &mut [u64],
) -> u32
    ensures { let a = enter_of Plots store.old (record { key = key; price = price; lease = lease; last = last }) in
        (result ≡ a.reply.number) × (store.new ≡ a.words)
        × (reply.new ≡ filled (enter_values a.reply) reply.old) }
{
    let record = Record {
        key: key,
        price: price,
        lease: lease,
        last: last,
    };
    match index::enter(store, record) {
        Ok(e) => told(
            reply,
            0,
            &[
                e.key as u64,
                e.levels as u64,
                e.nodes as u64,
                e.pages as u64,
            ],
        ),
        Err(refusal) => told(reply, refusal.number(), &[0; 4]),
    }
}

// Removes the record with a key and gives it, or none: refused with 3 or 9 before any word of the store is written.
pub fn plots_remove(store: &mut [u32], key: u32, reply: &mut [u64]) -> u32
    ensures { let a = remove_of Plots store.old key in
        (result ≡ a.reply.number) × (store.new ≡ a.words)
        × (reply.new ≡ filled (record_values a.reply) reply.old) }
{
    told_record(reply, index::remove(store, key))
}

// The record with a key, or none.
pub fn plots_find(store: &[u32], key: u32, reply: &mut [u64]) -> u32
    ensures { let a = find_reply Plots store.now key in
        (result ≡ a.number) × (reply.new ≡ filled (record_values a) reply.old) }
{
    told_record(reply, index::find(store, key))
}

// The record with the smallest key above the given one, or none.
pub fn plots_next(store: &[u32], key: u32, reply: &mut [u64]) -> u32
    ensures { let a = next_reply Plots store.now key in
        (result ≡ a.number) × (reply.new ≡ filled (record_values a) reply.old) }
{
    told_record(reply, index::next(store, key))
}

// Lists the records from low to high in the lent output: as many whole ones as fit.
pub fn plots_range(store: &[u32], low: u32, high: u32, out: &mut [u32], reply: &mut [u64]) -> u32
    ensures { let a = range_of Plots store.now low high out.old in
        (result ≡ a.reply.number) × (out.new ≡ a.words)
        × (reply.new ≡ filled (range_values a.reply) reply.old) }
{
    match index::range(store, low, high, out) {
        Ok(l) => told(reply, 0, &[l.count, l.more as u64]),
        Err(refusal) => told(reply, refusal.number(), &[0; 2]),
    }
}

// Counts the records from low to high, adds up their balances today, and names the earliest to end.
pub fn plots_summary(store: &[u32], low: u32, high: u32, today: u32, reply: &mut [u64]) -> u32
    ensures { let a = summary_of Plots store.now low high today in
        (result ≡ a.number) × (reply.new ≡ filled (summary_values a) reply.old) }
{
    match index::summary(store, low, high, today) {
        Ok(s) => told(reply, 0, &[s.count, s.total, s.key as u64]),
        Err(refusal) => told(reply, refusal.number(), &[0; 3]),
    }
}

// What is left of a price today.
#[tactic(auto, unfolding(crate::specs::Reply::balance_values))]
pub fn plots_balance(price: u32, lease: u32, last: u32, today: u32, reply: &mut [u64]) -> u32
    ensures { let a = balance_reply price lease last today in
        (result ≡ a.number) × (reply.new ≡ filled (balance_values a) reply.old) }
{
    match index::balance(price, lease, last, today) {
        Ok(pence) => told(reply, 0, &[pence as u64]),
        Err(refusal) => told(reply, refusal.number(), &[0]),
    }
}

// The key of a label.
pub fn plots_key_of(section: u32, row: u32, place: u32, letter: u32, reply: &mut [u64]) -> u32
    ensures { let a = key_of_reply (record { section = section; row = row; place = place; letter = letter }) in
        (result ≡ a.number) × (reply.new ≡ filled (key_values a) reply.old) }
{
    let label = Label {
        section: section,
        row: row,
        place: place,
        letter: letter,
    };
    told_key(reply, index::key_of(label))
}

// The label of a key.
pub fn plots_label_of(key: u32, reply: &mut [u64]) -> u32
    ensures { let a = label_of_reply key in
        (result ≡ a.number) × (reply.new ≡ filled (label_values a) reply.old) }
{
    match index::label_of(key) {
        Ok(l) => told(
            reply,
            0,
            &[
                l.section as u64,
                l.row as u64,
                l.place as u64,
                l.letter as u64,
            ],
        ),
        Err(refusal) => told(reply, refusal.number(), &[0; 4]),
    }
}

// The key of a key of the old packing.
pub fn plots_convert(key: u32, reply: &mut [u64]) -> u32
    ensures { let a = convert_reply key in
        (result ≡ a.number) × (reply.new ≡ filled (key_values a) reply.old) }
{
    told_key(reply, index::convert(key))
}
