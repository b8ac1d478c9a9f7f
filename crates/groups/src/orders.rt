// Group 3: a set entered in several orders gives the same listing and, block numbers apart, the same tree.
ghost use Rattle.std.specs.Prelude.{◌≡◌};
ghost use Rattle.store.specs.Head.{word};
ghost use Rattle.harness.specs.Script.{both};
ghost use Rattle.groups.specs.Orders.{order_of, placed_in, entered_once, entered_from, filled_in, compared_in, ordered_from};

use crate::sets;
use crate::sets::Setting;
use harness::{calls, report};
use plot::Record;
use raw::{twins, words};

// θ, C, N, P, pattern, records.
const SETTINGS: [[u32; 10]; 16] = [
    [1, 1, 1600, 120, 0, 100, 0, 0, 0, 0],
    [1, 1, 1900, 60, 1, 48, 0, 0, 0, 0],
    [1, 1, 1900, 60, 2, 40, 0, 0, 0, 0],
    [1, 2, 1500, 120, 1, 120, 0, 0, 0, 0],
    [1, 24, 900, 60, 1, 200, 0, 0, 0, 0],
    [2, 1, 1200, 120, 0, 150, 0, 0, 0, 0],
    [2, 5, 900, 80, 2, 200, 0, 0, 0, 0],
    [2, 24, 700, 20, 0, 240, 0, 0, 0, 0],
    [3, 1, 700, 100, 3, 100, 0, 0, 0, 0],
    [3, 2, 600, 120, 1, 160, 0, 0, 0, 0],
    [4, 5, 300, 80, 1, 200, 0, 0, 0, 0],
    [4, 1, 400, 100, 2, 90, 0, 0, 0, 0],
    [5, 24, 150, 40, 2, 240, 0, 0, 0, 0],
    [5, 1, 200, 150, 0, 150, 0, 0, 0, 0],
    [6, 2, 110, 120, 0, 220, 0, 0, 0, 0],
    [6, 24, 80, 18, 1, 240, 0, 0, 0, 0],
];

// Draws a record; one that the book accepts joins the list and, in the order of drawing, another.
fn draw_record(list: &mut [u32], drawn: &mut [u32], setting: Setting, i: u32) {
    let record = sets::record_at(setting.pattern, setting.seed, i);
    let reply = sets::booked(list, setting, record);
    if reply.number == 0 {
        model::append(drawn, record);
    }
}

pub fn draw_set(list: &mut [u32], drawn: &mut [u32], setting: Setting) {
    list.fill(0);
    drawn.fill(0);
    for i in 0..setting.records {
        draw_record(list, drawn, setting, i);
    }
}

// An order of entry: by key, up or down, as drawn, or with a stride.
#[derive(Clone, Copy)]
pub enum Order {
    Ascending,
    Descending,
    Drawn,
    Stride,
}

impl From<u32> for Order {
    ghost from_gives = { λ n o. o ≡ order_of n };

    fn from(number: u32) -> Order {
        match number {
            0 => Order::Ascending,
            1 => Order::Descending,
            2 => Order::Drawn,
            _ => Order::Stride,
        }
    }
}

// The record at place i of an order.
fn record_in(list: &[u32], drawn: &[u32], order: Order, i: u32) -> Record
    ensures { result ≡ placed_in list.now drawn.now order i }
{
    let n = model::size(list);
    match order {
        Order::Ascending => model::record_at(list, i),
        Order::Descending => model::record_at(list, n.saturating_sub(i.saturating_add(1))),
        Order::Drawn => model::record_at(drawn, i),
        Order::Stride => model::record_at(list, words::remainder(plot::wide_product(i, 7919), n)),
    }
}

// An entry is done; levels and blocks are compared at the end.
fn enter(rt: &impl Print, store: &mut [u32], plot: Record, tally: &mut [u64])
    ensures { let q = entered_once (both store.old tally.old) plot in
        (store.new ≡ q.store) × (tally.new ≡ q.tally) }
{
    let mut out = [0u32; 1];
    let got = calls::reply_to(store, &mut out, calls::entry(plot));
    let expected = calls::done(plot.key as u64, got.b, got.c, got.d);
    report::judge(rt, tally, expected, got);
    if got.number == 0 {
        report::add(tally, report::ENTRIES);
    }
}

fn enter_all(
    rt: &impl Print,
    store: &mut [u32],
    list: &[u32],
    drawn: &[u32],
    order: Order,
    tally: &mut [u64],
)
    ensures { let l = list.now in
        let q = entered_from l drawn.now order (both store.old tally.old) 0 (word l 0) in
        (store.new ≡ q.store) × (tally.new ≡ q.tally) }
{
    for i in 0..model::size(list) {
        enter(rt, store, record_in(list, drawn, order, i), tally);
    }
}

// Sets a store up and enters the set in an order; the size.
pub fn fill_store(
    rt: &impl Print,
    store: &mut [u32],
    list: &[u32],
    drawn: &[u32],
    setting: Setting,
    order: Order,
    tally: &mut [u64],
) -> u32
    ensures { let p = both store.old tally.old in
        let q = filled_in list.now drawn.now setting order p in
        (result ≡ q.size) × (store.new ≡ q.played.store) × (tally.new ≡ q.played.tally) }
{
    let size = sets::prepare(store, setting);
    report::hold(rt, tally, size > 0, b"the store is set up");
    enter_all(rt, store, list, drawn, order, tally);
    size
}

// The listing is the list, and the tree is that of the first store.
fn compare(rt: &impl Print, first: &[u32], store: &mut [u32], list: &[u32], tally: &mut [u64])
    ensures { let q = compared_in first.now list.now (both store.old tally.old) in
        (store.new ≡ q.store) × (tally.new ≡ q.tally) }
{
    sets::parts(rt, store, list, 1023, tally);
    report::hold(
        rt,
        tally,
        twins::same_tree(first, store),
        b"the trees are the same",
    );
}

// The other orders of a set, each in a second store.
fn other_orders(
    rt: &impl Print,
    first: &[u32],
    store: &mut [u32],
    list: &[u32],
    drawn: &[u32],
    setting: Setting,
    tally: &mut [u64],
)
    ensures { let p = both store.old tally.old in
        let q = ordered_from first.now list.now drawn.now setting p 1 3 in
        (store.new ≡ q.store) × (tally.new ≡ q.tally) }
{
    for order in 1..4u32 {
        fill_store(rt, store, list, drawn, setting, Order::from(order), tally);
        compare(rt, first, store, list, tally);
    }
}

// One set: ascending into the first store, and every other order compared with that.
fn set_of(
    rt: &impl Print,
    first: &mut [u32],
    store: &mut [u32],
    list: &mut [u32],
    drawn: &mut [u32],
    setting: Setting,
    tally: &mut [u64],
) {
    draw_set(list, drawn, setting);
    fill_store(rt, first, list, drawn, setting, Order::Ascending, tally);
    sets::parts(rt, first, list, 1023, tally);
    other_orders(rt, first, store, list, drawn, setting, tally);
}

fn setting_at(i: usize) -> Setting {
    let rows = SETTINGS;
    sets::setting_of(&rows, i)
}

fn sets_of(
    rt: &impl Print,
    first: &mut [u32],
    store: &mut [u32],
    list: &mut [u32],
    drawn: &mut [u32],
    tally: &mut [u64],
) {
    for i in 0..SETTINGS.len() {
        set_of(rt, first, store, list, drawn, setting_at(i), tally);
    }
}

pub fn run(
    rt: &impl Print,
    first: &mut [u32],
    store: &mut [u32],
    list: &mut [u32],
    drawn: &mut [u32],
    tally: &mut [u64],
) {
    report::start(tally, 3);
    sets_of(rt, first, store, list, drawn, tally);
    report::finish(rt, tally, b"orders of entry");
}
