//! One value in a block of raw memory of its own.
ghost use Rattle.std.specs.Prelude.{◌≡◌, MatchResult};
ghost use Rattle.std.specs.Borrow.{sem};
ghost use denote.Struct.Lending.{lent_at};
ghost use Rattle.buf_pool.specs.Ownership.{block_owns};

use std::alloc::Allocator;
use std::marker::Model;
use std::mem::{align_of, size_of};

/// A block that owns one value. No other pointer to it is kept.
pub(crate) struct Block<T, A: Allocator> {
    ptr: *const T,
    alloc: A,
    pub(crate) ghost value: { T },
}

impl<T, A: Allocator> Model for Block<T, A> {
    ghost also_owns = { λ b. block_owns (A.dealloc_token b.alloc) T.row b.ptr b.value };

    ghost also_shares = { λ b _ κ. lent_at T.row b.ptr b.value κ };
}

impl<T: Drop, A: Allocator + Drop> Drop for Block<T, A> {
    fn drop(self) {
        let (value, alloc) = self.give_back();
        drop(value);
        drop(alloc);
    }
}

impl<T, A: Allocator> Block<T, A> {
    ghost use Rattle.buf_pool.specs.Block.{block_follows};

    /// The value is put into a new block. It comes back, with the allocator, where there is no memory.
    pub(crate) fn put(alloc: A, value: T) -> Result<Block<T, A>, (T, A)>
        ensures { MatchResult result (λ b. b.value ≡ value) (λ e. e.0 ≡ value) }
    {
        match alloc.allocate(size_of::<T>(), align_of::<T>()) {
            Ok(p) => {
                let ptr = p as *mut T;
                unsafe {
                    ptr.write(value);
                }
                Ok(Block { ptr, alloc })
            }
            Err(_) => Err((value, alloc)),
        }
    }

    /// The value, to be read.
    pub(crate) fn get(&self) -> &T
        ensures { result.now ≡ self.now.value }
    {
        unsafe { &*self.ptr }
    }

    /// The value, lent to be changed in place.
    pub(crate) fn share(&mut self) -> &mut T
        ensures* writes_back { sem 𝓛 (block_follows T.row A.row A.Allocator self.entry result) }
        ensures value { result.now ≡ self.old.value }
    {
        unsafe { &mut *self.ptr.cast_mut() }
    }

    /// The block's memory goes back to the allocator. The value comes out, and the allocator with it.
    pub(crate) fn give_back(self) -> (T, A)
        ensures { result.0 ≡ self.value }
    {
        let ptr = self.ptr.cast_mut();
        let value = unsafe { ptr.read() };
        unsafe {
            self.alloc
                .deallocate(ptr as *mut u8, size_of::<T>(), align_of::<T>());
        }
        let Block { ptr: _, alloc } = self;
        (value, alloc)
    }
}
