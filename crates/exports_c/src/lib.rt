// The plot index for C: each function of crate exports under its own name, as a symbol of the archive.

#![tactic(auto)]

ghost use Rattle.std.specs.Prelude.{◌≡◌};
ghost use Rattle.plot.specs.Money.{balance_reply};
ghost use Rattle.plot.specs.Label.{key_of_reply, label_of_reply, convert_reply};
ghost use Rattle.store.specs.declared.Format.TheVariants.{Plots};
ghost use Rattle.store.specs.SetUp.{set_up};
ghost use Rattle.search.specs.Find.{find_reply};
ghost use Rattle.search.specs.Next.{next_reply};
ghost use Rattle.scan.specs.Range.{range_of};
ghost use Rattle.scan.specs.Summary.{summary_of};
ghost use Rattle.insert.specs.Enter.{enter_of};
ghost use Rattle.remove.specs.Remove.{remove_of};
ghost use Rattle.exports.specs.Reply.{filled, size_values, enter_values, record_values, range_values};
ghost use Rattle.exports.specs.Reply.{summary_values, balance_values, key_values, label_values};

// Sets a store up: refused with 4 or 5, or cleared and headed. Words beyond the size stay.
#[unsafe(no_mangle)]
pub extern "C" fn plots_set_up(
    store: &mut [u32],
    theta: u32,
    capacity: u32,
    nodes: u32,
    pages: u32,
    reply: &mut [u64],
) -> u32
    ensures { let a = set_up Plots theta capacity nodes pages store.old in
        (result ≡ a.reply.number) × (store.new ≡ a.words)
        × (reply.new ≡ filled (size_values a.reply) reply.old) }
{
    exports::plots_set_up(store, theta, capacity, nodes, pages, reply)
}

// Enters a record: refused with 3, 6, 9, 8 or 10 before any word of the store is written, or done.
#[unsafe(no_mangle)]
pub extern "C" fn plots_enter(
    store: &mut [u32],
    key: u32,
    price: u32,
    lease: u32,
    last: u32,
    reply: &mut [u64],
) -> u32
    ensures { let a = enter_of Plots store.old (record { key = key; price = price; lease = lease; last = last }) in
        (result ≡ a.reply.number) × (store.new ≡ a.words)
        × (reply.new ≡ filled (enter_values a.reply) reply.old) }
{
    exports::plots_enter(store, key, price, lease, last, reply)
}

// Removes the record with a key and gives it, or none: refused with 3 or 9 before any word of the store is written.
#[unsafe(no_mangle)]
pub extern "C" fn plots_remove(store: &mut [u32], key: u32, reply: &mut [u64]) -> u32
    ensures { let a = remove_of Plots store.old key in
        (result ≡ a.reply.number) × (store.new ≡ a.words)
        × (reply.new ≡ filled (record_values a.reply) reply.old) }
{
    exports::plots_remove(store, key, reply)
}

// The record with a key, or none.
#[unsafe(no_mangle)]
pub extern "C" fn plots_find(store: &[u32], key: u32, reply: &mut [u64]) -> u32
    ensures { let a = find_reply Plots store.now key in
        (result ≡ a.number) × (reply.new ≡ filled (record_values a) reply.old) }
{
    exports::plots_find(store, key, reply)
}

// The record with the smallest key above the given one, or none.
#[unsafe(no_mangle)]
pub extern "C" fn plots_next(store: &[u32], key: u32, reply: &mut [u64]) -> u32
    ensures { let a = next_reply Plots store.now key in
        (result ≡ a.number) × (reply.new ≡ filled (record_values a) reply.old) }
{
    exports::plots_next(store, key, reply)
}

// Lists the records from low to high in the lent output: as many whole ones as fit.
#[unsafe(no_mangle)]
pub extern "C" fn plots_range(
    store: &[u32],
    low: u32,
    high: u32,
    out: &mut [u32],
    reply: &mut [u64],
) -> u32
    ensures { let a = range_of Plots store.now low high out.old in
        (result ≡ a.reply.number) × (out.new ≡ a.words)
        × (reply.new ≡ filled (range_values a.reply) reply.old) }
{
    exports::plots_range(store, low, high, out, reply)
}

// Counts the records from low to high, adds up their balances today, and names the earliest to end.
#[unsafe(no_mangle)]
pub extern "C" fn plots_summary(
    store: &[u32],
    low: u32,
    high: u32,
    today: u32,
    reply: &mut [u64],
) -> u32
    ensures { let a = summary_of Plots store.now low high today in
        (result ≡ a.number) × (reply.new ≡ filled (summary_values a) reply.old) }
{
    exports::plots_summary(store, low, high, today, reply)
}

// What is left of a price today.
#[unsafe(no_mangle)]
pub extern "C" fn plots_balance(
    price: u32,
    lease: u32,
    last: u32,
    today: u32,
    reply: &mut [u64],
) -> u32
    ensures { let a = balance_reply price lease last today in
        (result ≡ a.number) × (reply.new ≡ filled (balance_values a) reply.old) }
{
    exports::plots_balance(price, lease, last, today, reply)
}

// The key of a label.
#[unsafe(no_mangle)]
pub extern "C" fn plots_key_of(
    section: u32,
    row: u32,
    place: u32,
    letter: u32,
    reply: &mut [u64],
) -> u32
    ensures { let a = key_of_reply (record { section = section; row = row; place = place; letter = letter }) in
        (result ≡ a.number) × (reply.new ≡ filled (key_values a) reply.old) }
{
    exports::plots_key_of(section, row, place, letter, reply)
}

// The label of a key.
#[unsafe(no_mangle)]
pub extern "C" fn plots_label_of(key: u32, reply: &mut [u64]) -> u32
    ensures { let a = label_of_reply key in
        (result ≡ a.number) × (reply.new ≡ filled (label_values a) reply.old) }
{
    exports::plots_label_of(key, reply)
}

// The key of a key of the old packing.
#[unsafe(no_mangle)]
pub extern "C" fn plots_convert(key: u32, reply: &mut [u64]) -> u32
    ensures { let a = convert_reply key in
        (result ≡ a.number) × (reply.new ≡ filled (key_values a) reply.old) }
{
    exports::plots_convert(key, reply)
}
