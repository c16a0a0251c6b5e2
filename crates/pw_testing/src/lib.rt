//! For tests alone: an allocator that refuses the growths that a test chooses, and helpers that the
//! test crates share. They lend registries and declarations, make facts and texts, and draw random
//! numbers.
#![tactic(auto)]

ghost use Rattle.std.specs.Prelude.{◌≡◌, ℕ, ◌<◌, ◌≤◌, ◌^◌, ◌↔◌, IsTrue};

use std::alloc::{AllocError, Allocator};
use std::cell::Cell;

pub mod facts;
pub mod procedures;
pub mod random;
pub mod texts;
pub mod worlds;

/// An allocator that passes each call to the one it holds, but refuses some growths. It counts the
/// bytes that it grants and the bytes that it gets back.
///
/// A growth is a request for memory, granted or not: a first allocation, a larger block for a list,
/// a text or a map, and a smaller block that shrinks one to fit. Growths count from 1. Lend the
/// allocator as `&refusing`, which is an allocator and `Copy`.
#[derive(Drop)]
pub struct Refusing<B: Allocator> {
    inner: B,
    growths: Growths,
}

impl<B: Allocator> Refusing<B> {
    /// Refuses the growth whose number is `at`, and no other. At 0 it refuses none.
    pub fn nth(inner: B, at: u64) -> Refusing<B>
        ensures inner { result.inner ≡ inner }
        ensures refused { (n : ℕ) → 0 < n →
            (((result.growths.first ≤ n) × (n ≤ result.growths.last)) ↔ (n ≡ at)) }
    {
        let growths = Growths::refused(at, at);
        Refusing { inner, growths }
    }

    /// Refuses the growth whose number is `at` and every later one. At 0 it refuses none.
    pub fn all_from(inner: B, at: u64) -> Refusing<B>
        ensures inner { result.inner ≡ inner }
        ensures refused { (n : ℕ) → 0 < n → n < 2 ^ 64 →
            (((result.growths.first ≤ n) × (n ≤ result.growths.last)) ↔ ((0 < at) × (at ≤ n))) }
    {
        let last = if at == 0 { 0 } else { u64::MAX };
        let growths = Growths::refused(at, last);
        Refusing { inner, growths }
    }

    /// The number of growths asked for so far, refused ones included.
    ///
    /// If it is below `at`, no growth was refused: a loop that raises `at` from 1 can stop there.
    pub fn calls(&self) -> u64 {
        self.growths.asked.get()
    }

    /// The number of bytes granted so far.
    pub fn taken(&self) -> u64 {
        self.growths.taken.get()
    }

    /// The number of bytes that came back so far. It equals `taken()` once everything made with
    /// this allocator is dropped.
    pub fn given_back(&self) -> u64 {
        self.growths.given_back.get()
    }
}

/// The number of growths asked for, the first and the last number that is refused, the bytes
/// granted, and the bytes that came back.
#[derive(Drop)]
struct Growths {
    asked: Cell<u64>,
    first: u64,
    last: u64,
    taken: Cell<u64>,
    given_back: Cell<u64>,
}

impl Growths {
    /// No growth asked for yet.
    fn refused(first: u64, last: u64) -> Growths
        ensures first { result.first ≡ first }
        ensures last { result.last ≡ last }
    {
        Growths {
            asked: Cell::new(0),
            first,
            last,
            taken: Cell::new(0),
            given_back: Cell::new(0),
        }
    }

    /// Counts one more growth, of `size` bytes, and answers whether it is granted.
    fn grants_next(&self, size: usize) -> bool {
        let number = self.asked.get().saturating_add(1);
        self.asked.set(number);
        if self.refuses(number) {
            return false;
        }
        self.taken.set(self.taken.get().saturating_add(size as u64));
        true
    }

    /// Counts `size` bytes that came back.
    fn take_back(&self, size: usize) {
        let before = self.given_back.get();
        self.given_back.set(before.saturating_add(size as u64));
    }

    /// Whether the growth of this number is refused.
    fn refuses(&self, number: u64) -> bool
        ensures { IsTrue result ↔ ((self.now.first ≤ number) × (number ≤ self.now.last)) }
    {
        self.first <= number && number <= self.last
    }
}

unsafe impl<B: Allocator> Allocator for Refusing<B> {
    ghost dealloc_token = { λ heap ty ptr. B.dealloc_token heap.inner ty ptr };

    fn allocate(&self, size: usize, align: usize) -> Result<*mut u8, AllocError> {
        if self.growths.grants_next(size) {
            return self.inner.allocate(size, align);
        } else {
            return Err(AllocError);
        }
    }

    unsafe fn deallocate(&self, ptr: *mut u8, size: usize, align: usize) {
        self.growths.take_back(size);
        self.inner.deallocate(ptr, size, align);
    }
}
