//! An allocator that refuses all requests after the first few.

use std::alloc::{AllocError, Allocator};
use std::cell::Cell;

/// An allocator that passes on some requests, and refuses those after them.
pub struct Rationed<B: Allocator> {
    inner: B,
    left: Cell<u64>,
}

impl<B: Allocator> Rationed<B> {
    /// Creates an allocator that passes on so many requests.
    pub fn new(inner: B, requests: u64) -> Rationed<B> {
        Rationed {
            inner,
            left: Cell::new(requests),
        }
    }

    /// Returns the number of requests that it would still pass on.
    pub fn left(&self) -> u64 {
        self.left.get()
    }
}

impl<B: Allocator> Drop for Rationed<B> {
    fn drop(self) {
        let Self { inner: _, left: _ } = self;
    }
}

// Counts one request off those that are left, or returns `true` if none is left.
fn is_spent(left: &Cell<u64>) -> bool {
    let requests = left.get();
    left.set(requests.saturating_sub(1));
    requests == 0
}

unsafe impl<B: Allocator> Allocator for Rationed<B> {
    ghost dealloc_token = { λ heap ty ptr. B.dealloc_token heap.inner ty ptr };

    fn allocate(&self, size: usize, align: usize) -> Result<*mut u8, AllocError> {
        if is_spent(&self.left) {
            return Err(AllocError);
        }
        self.inner.allocate(size, align)
    }

    unsafe fn deallocate(&self, ptr: *mut u8, size: usize, align: usize) {
        self.inner.deallocate(ptr, size, align);
    }
}
