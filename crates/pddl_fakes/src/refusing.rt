//! An allocator that refuses chosen growths.

use crate::growths::{Growths, Refused};
use std::alloc::{AllocError, Allocator};

/// Passes each call on to another allocator, but for the growths that it refuses.
///
/// A growth is a call that asks for a block, also a larger one in place of another. Growths are counted from 1, over
/// all that is made with this allocator. A call under test is given `&refusing`, and its answer is compared with
/// `has_refused`: a refusal may be harmless, where the growth would only have spared time.
#[derive(Drop)]
pub struct Refusing<B: Allocator> {
    inner: B,
    growths: Growths,
}

impl<B: Allocator> Refusing<B> {
    /// Refuses the growth of this number, counted from 1, and no other; none at 0.
    pub fn nth(inner: B, n: u64) -> Self {
        Refusing {
            inner,
            growths: Growths::new(Refused::Nth(n)),
        }
    }

    /// Refuses each growth.
    pub fn each(inner: B) -> Self {
        Refusing {
            inner,
            growths: Growths::new(Refused::Each),
        }
    }

    /// How many growths were asked for, those that were refused among them.
    pub fn asked(&self) -> u64 {
        self.growths.asked()
    }

    /// Whether a growth was refused.
    pub fn has_refused(&self) -> bool {
        self.growths.has_refused()
    }
}

unsafe impl<B: Allocator> Allocator for Refusing<B> {
    ghost dealloc_token = { λ heap ty ptr. B.dealloc_token heap.inner ty ptr };

    fn allocate(&self, size: usize, align: usize) -> Result<*mut u8, AllocError> {
        if self.growths.refuses_next() {
            return Err(AllocError);
        }
        self.inner.allocate(size, align)
    }

    unsafe fn deallocate(&self, ptr: *mut u8, size: usize, align: usize) {
        self.inner.deallocate(ptr, size, align);
    }
}
