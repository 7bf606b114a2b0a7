//! A box taken apart: its pointer, with the right to make the box again.
ghost use Rattle.std.specs.Prelude.{◌≡◌};
ghost use Rattle.std.specs.Box.Ownership.{box_owns};

use std::alloc::Allocator;
use std::marker::Model;

/// A box taken apart. Contracts see what lies at the pointer as `value`.
pub struct Lone<T, A: Allocator> {
    /// The pointer of the box.
    pub at: *mut T,
    /// The allocator of its block.
    pub alloc: A,
    pub ghost value: { T },
}

impl<T, A: Allocator> Model for Lone<T, A> {
    ghost also_owns = { λ lone. box_owns (A.dealloc_token lone.alloc) T.row lone.at lone.value };
}

impl<T: Drop, A: Allocator> Lone<T, A> {
    /// Takes a box apart.
    pub fn apart(whole: Box<T, A>) -> Lone<T, A>
        ensures { result.value ≡ whole.value }
    {
        let (at, alloc) = Box::into_raw_with_allocator(whole);
        Lone { at, alloc }
    }

    /// Makes the box again.
    pub fn whole(self) -> Box<T, A>
        ensures { result.value ≡ self.value }
    {
        let Lone { at, alloc } = self;
        unsafe { Box::from_raw(alloc, at) }
    }
}
