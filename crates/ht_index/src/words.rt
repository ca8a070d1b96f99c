ghost use Rattle.std.specs.Prelude.{ℕ, ◌≡◌, ◌≤◌, ◌<◌, ◌*◌, ◌/◌, ◌^◌, ◌==◌, ◌||◌, ◌&&◌, not, length, OnOk};
ghost use Rattle.ht_index.specs.Sets.{IsFirst, word_at};
ghost use Rattle.ht_index.specs.Sets as spec;

use ht_base::Memory;

// The word at a place. Behind the last it is 0.
#[inline(always)]
pub(crate) fn word(words: &[u64], place: u32) -> u64
    ensures { result ≡ word_at place words.now }
{
    match words.get(place as usize) {
        Some(word) => *word,
        None => 0,
    }
}

// Bit `number` of the words is set.
#[inline(always)]
pub(crate) fn is_set(words: &[u64], number: u32) -> bool
    ensures { result ≡ spec.is_set number words.now }
{
    (word(words, number / 64) >> (number % 64)) & 1 == 1
}

#[inline(always)]
pub(crate) fn set(words: &mut Vec<u64>, number: u32)
    requires { number < 64 * length words.old.items }
    ensures bits { (k : ℕ) → spec.is_set k words.new.items
        ≡ ((number == k) || spec.is_set k words.old.items) }
    ensures others { (place : ℕ) → (place ≡ number / 64 → ⊥)
        → word_at place words.new.items ≡ word_at place words.old.items }
    ensures len { length words.new.items ≡ length words.old.items }
{
    let place = (number / 64) as usize;
    let word = words[place];
    words[place] = word | (1u64 << (number % 64));
}

// Behind the last word it is clear already.
#[inline(always)]
pub(crate) fn clear(words: &mut Vec<u64>, number: u32)
    ensures bits { (k : ℕ) → spec.is_set k words.new.items
        ≡ (not (number == k) && spec.is_set k words.old.items) }
    ensures others { (place : ℕ) → (place ≡ number / 64 → ⊥)
        → word_at place words.new.items ≡ word_at place words.old.items }
    ensures less { word_at (number / 64) words.new.items ≤ word_at (number / 64) words.old.items }
    ensures len { length words.new.items ≡ length words.old.items }
{
    let place = (number / 64) as usize;
    if place < words.len() {
        let word = words[place];
        words[place] = word & !(1u64 << (number % 64));
    }
}

// Makes zeros up to so many words.
pub(crate) fn grow(words: &mut Vec<u64>, count: usize) -> Result<(), Memory>
    ensures words { (place : ℕ) → word_at place words.new.items ≡ word_at place words.old.items }
    ensures kept { length words.old.items ≤ length words.new.items }
    ensures few { (most : ℕ) → count ≤ most → length words.old.items ≤ most
        → length words.new.items ≤ most }
    ensures there { OnOk result (count ≤ length words.new.items) }
{
    if count > words.len() {
        words.resize(count, 0)?;
    }
    Ok(())
}

// The first bit that is set, from a number on.
#[inline(never)]
pub(crate) fn first_from(words: &[u64], from: u32) -> Option<u32>
    requires { length words.now ≤ 2 ^ 26 }
    ensures { IsFirst from words.now result }
{
    let bits = word(words, from / 64) >> (from % 64);
    if bits != 0 {
        return Some(from + bits.trailing_zeros());
    }
    for place in (from / 64) as usize + 1..words.len() {
        let bits = words[place];
        if bits != 0 {
            return Some(64 * place as u32 + bits.trailing_zeros());
        }
    }
    None
}
