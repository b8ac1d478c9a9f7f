// A summary's running totals, lent to be brought up to date record by record.
#![tactic(auto)]

ghost use Rattle.std.specs.Prelude.{◌≡◌, true, ◌+◌, ◌<◌, ◌^◌};
ghost use Rattle.plot.specs.Plot.{lawful_day, lawful_term};
ghost use Rattle.totals.specs.Totals.{Room, no_totals, worth, ahead, earlier, updated_of};

use store::Item;

// How many records, their balances together, and of the leased one that ends first the key (0: none, as the reply to a
// summary has it), the day and the price.
#[derive(Clone, Copy, Default)]
pub struct Totals {
    pub count: u64,
    pub total: u64,
    pub key: u64,
    pub last: u32,
    pub price: u32,
}

// The totals of no record.
#[tactic(auto, unfolding(crate::specs::Totals::no_totals))]
pub fn no_totals() -> Totals
    ensures { result ≡ no_totals }
{
    Totals::default()
}

// The balance of a record.
#[tactic(auto, using(crate::proofs::Laws::worth_lawful))]
fn worth_of(item: Item, today: u32) -> u64
    requires { (lawful_term item.lease item.last ≡ true) × (lawful_day today ≡ true) }
    ensures { (result ≡ worth item today) × (result < 2 ^ 32) }
{
    store::widen(plot::amount_left(item.price, item.lease, item.last, today))
}

// Whether a record ends before a day, or on it at a higher price, without a branch.
#[tactic(auto, unfolding(crate::specs::Totals::ahead))]
fn is_ahead(item: Item, day: u32, price: u32) -> bool
    ensures { result ≡ ahead item day price }
{
    (item.last < day) | ((item.last == day) & (price < item.price))
}

// Whether a record is leased, and the first to end so far, without a branch.
#[tactic(auto, unfolding(crate::specs::Totals::earlier))]
fn is_earlier(totals: Totals, item: Item) -> bool
    ensures { result ≡ earlier totals item }
{
    (item.lease != 0) & ((totals.key == 0) | is_ahead(item, totals.last, totals.price))
}

// The work: the totals with a record added.
#[tactic(auto, using(crate::proofs::Laws::updated_taken, crate::proofs::Laws::updated_kept))]
fn updated(totals: Totals, item: Item, today: u32) -> Totals
    requires { Room totals item today }
    ensures { result ≡ updated_of totals item today }
{
    let counted = Totals {
        count: totals.count + 1,
        total: totals.total + worth_of(item, today),
        ..totals
    };
    if is_earlier(totals, item) {
        Totals {
            key: item.key,
            last: item.last,
            price: item.price,
            ..counted
        }
    } else {
        counted
    }
}

// The totals are lent, and the update is handed through.
pub fn add(totals: &mut Totals, item: Item, today: u32)
    requires { Room totals.old item today }
    ensures { totals.new ≡ updated_of totals.old item today }
{
    *totals = updated(*totals, item, today);
}
