// Which records of slotted pages are left to be reached.
ghost use Rattle.std.specs.Prelude.{◌≡◌, ◌≢◌, ◌==◌, ◌/◌, ◌+◌, ◌*◌, ◌<◌, ◌≤◌, ℕ, true, false, if◌then◌else◌, None, is_some, slice_index_or, length, IfOk, OnOk};
ghost use Rattle.nx_slots.specs.Slots.{IsSlotted, count_of, slots_of};
ghost use Rattle.nx_check.specs.Words.{has_bit, is_bit_set, words_for};

use nx_lists::NoMemory;
use nx_numbers::u16_at;
use nx_slots::{PageBytes, read_in};
use std::alloc::Global;

// So many records of a page have their marks in one word.
const WORD: usize = 8;

// A bit for each slot of the slotted pages that a walk has come to. It is set where a record is left.
#[derive(Drop)]
pub struct Left {
    words: Vec<u8>,
}

impl Left {
    // None.
    pub fn new(alloc: Global) -> Left {
        Left {
            words: Vec::new(alloc),
        }
    }

    // Adds a slotted page, each of whose records is left. It gives the first of its words.
    pub fn add_page(&mut self, bytes: &PageBytes) -> Result<u32, NoMemory>
        requires { IsSlotted bytes.now.bytes }
        ensures first { IfOk result (λ first. (first ≡ length self.old.words.items) × (length self.new.words.items ≡ first + words_for (count_of bytes.now.bytes))) }
        ensures stay { OnOk result ((i : ℕ) → i < 8 * length self.old.words.items → is_bit_set self.new.words.items i ≡ is_bit_set self.old.words.items i) }
        ensures here { IfOk result (λ first. (slot : ℕ) → slot < count_of bytes.now.bytes → is_bit_set self.new.words.items (8 * first + slot) ≡ is_some (slice_index_or (slots_of bytes.now.bytes) slot None)) }
    {
        let words = self.words.len();
        let Ok(first) = u32::try_from(words) else {
            return Err(NoMemory);
        };
        let count = slot_count(bytes);
        self.words
            .resize(words + (count as usize).div_ceil(WORD), 0)?;
        for slot in 0..count {
            if read_in(bytes, slot).is_some() {
                self.set(WORD * first as usize + slot as usize);
            }
        }
        Ok(first)
    }

    // Sets a bit.
    fn set(&mut self, bit: usize)
        requires { bit < 8 * length self.old.words.items }
        ensures length { length self.new.words.items ≡ length self.old.words.items }
        ensures now { (i : ℕ) → is_bit_set self.new.words.items i ≡ (if i == bit then true else is_bit_set self.old.words.items i) }
    {
        let index = bit / WORD;
        self.words[index] = with_bit(self.words[index], bit % WORD);
    }

    // Clears the bit of a slot of the page whose words begin so, and says whether it was set.
    pub fn take(&mut self, first: u32, slot: u16) -> bool
        ensures length { length self.new.words.items ≡ length self.old.words.items }
        ensures was { result ≡ is_bit_set self.old.words.items (8 * first + slot) }
        ensures now { (i : ℕ) → is_bit_set self.new.words.items i ≡ (if i == 8 * first + slot then false else is_bit_set self.old.words.items i) }
    {
        let bit = WORD * first as usize + slot as usize;
        let was = self.is_set(bit);
        if was {
            let index = bit / WORD;
            self.words[index] = without_bit(self.words[index], bit % WORD);
        }
        was
    }

    // Whether a bit of so many slots is set.
    pub fn has_any(&self, first: u32, count: u16) -> bool
        ensures yes { result ≡ true → (slot : ℕ) × (slot < count) × (is_bit_set self.now.words.items (8 * first + slot) ≡ true) }
        ensures no { result ≡ false → (slot : ℕ) → slot < count → is_bit_set self.now.words.items (8 * first + slot) ≡ false }
    {
        for slot in 0..count {
            if self.is_set(WORD * first as usize + slot as usize) {
                return true;
            }
        }
        false
    }

    // Whether a bit is set.
    fn is_set(&self, bit: usize) -> bool
        ensures is { result ≡ is_bit_set self.now.words.items bit }
        ensures within { result ≡ true → bit / 8 < length self.now.words.items }
    {
        let index = bit / WORD;
        index < self.words.len() && has_bit(self.words[index], bit % WORD)
    }
}

// How many slots a slotted page has.
#[tactic(auto, unfolding(nx_slots::specs::Slots::count_of))]
pub fn slot_count(bytes: &PageBytes) -> u16
    requires { IsSlotted bytes.now.bytes }
    ensures { result ≡ count_of bytes.now.bytes }
{
    u16_at(&bytes.bytes, 2)
}

// Whether a bit of a word is set.
fn has_bit(word: u8, bit: usize) -> bool
    requires { bit < 8 }
    ensures { result ≡ has_bit word bit }
{
    (word >> bit) & 1 == 1
}

// The word with a bit set.
fn with_bit(word: u8, bit: usize) -> u8
    requires { bit < 8 }
    ensures here { has_bit result bit ≡ true }
    ensures other { (i : ℕ) → i < 8 → i ≢ bit → has_bit result i ≡ has_bit word i }
{
    word | 1u8 << bit
}

// The word without a bit.
fn without_bit(word: u8, bit: usize) -> u8
    requires { bit < 8 }
    ensures here { has_bit result bit ≡ false }
    ensures other { (i : ℕ) → i < 8 → i ≢ bit → has_bit result i ≡ has_bit word i }
{
    word & !(1u8 << bit)
}
