// Numbers that look random: each is made of a seed and a place, so no state is carried.
fn scrambled(x: u32) -> u32 {
    x.wrapping_mul(2246822507).wrapping_add(3266489909)
}

// The number at a place.
pub fn draw(seed: u32, i: u32) -> u32 {
    let a = scrambled(seed) ^ scrambled(i ^ (i >> 15));
    let b = scrambled(a ^ (a >> 16));
    let c = scrambled(b ^ (b >> 13));
    c ^ (c >> 16)
}

// The number at a place, cut to 0 .. n - 1; 0 where n is 0.
pub fn below(seed: u32, i: u32, n: u32) -> u32 {
    draw(seed, i).checked_rem(n).unwrap_or(0)
}
