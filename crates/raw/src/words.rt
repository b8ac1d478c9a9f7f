// Lent words, read and written at any place: past the end a read gives 0 and a write does nothing.
ghost use Rattle.std.specs.Prelude.{◌≡◌, true, false, ◌+◌, ◌%◌, ◌^◌, ◌<◌, eqb, set};
ghost use Rattle.store.specs.Head.{word};
ghost use Rattle.raw.specs.Words.{written, alike, all_from};

use store::{widen, word};

// Writes a word.
pub fn put(words: &mut [u32], i: usize, value: u32)
    ensures { words.new ≡ set words.old i value }
{
    if i < words.len() {
        words[i] = value;
    }
}

// Copies the first n words.
pub fn copy(from: &[u32], to: &mut [u32], n: usize)
    ensures { to.new ≡ written (word from.now) to.old n }
{
    let n = n.min(to.len());
    let known = n.min(from.len());
    to[..known].copy_from_slice(&from[..known]);
    to[known..n].fill(0);
}

// Whether n words of one slice, from word i on, are those of another from word j on.
pub fn same(a: &[u32], i: usize, b: &[u32], j: usize, n: usize) -> bool
    requires { (i + n < 2 ^ 64) × (j + n < 2 ^ 64) }
    ensures { result ≡ alike a.now i b.now j n }
{
    (0..n).all(|t| word(a, i + t) == word(b, j + t))
}

// Whether every word from a place on has one value.
pub fn all_from(words: &[u32], from: usize, value: u32) -> bool
    ensures { result ≡ all_from words.now from value }
{
    words.iter().skip(from).all(|word| *word == value)
}

// The low 32 bits of a number: `as` alone must lose none.
pub fn low(x: u64) -> u32
    ensures { result ≡ x % 2 ^ 32 }
{
    (x % 4294967296) as u32
}

// The remainder of a division, 0 where the divisor is 0.
pub fn remainder(a: u64, n: u32) -> u32
    ensures { result ≡ elim (eqb n 0) [ true ↦ 0 | false ↦ a % n ] }
{
    low(a.checked_rem(widen(n)).unwrap_or(0))
}
