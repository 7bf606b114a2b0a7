//! A machine on the heap, as C holds it.
ghost use Rattle.std.specs.Prelude.{◌≡◌};
ghost use Rattle.std.specs.Coded.{coded_option};
ghost use Rattle.std.specs.Option.{MatchOption};
ghost use Rattle.std.specs.declared.option.Option.{Option};
ghost use Rattle.std.specs.declared.option.Option.TheVariants.{None, Some};
ghost use Rattle.fr_part.specs.declared.seat.Seat.{Seat};
ghost use Rattle.fr_part.specs.contracts.seat.Seat.{the_row as seat_row};
ghost use Rattle.fr_part.specs.Held.{holds};

use crate::lone::Lone;
use crate::seat::Seat;
use std::alloc::Global;
use std::marker::{Model, Send};
use std::mem;

/// A handle: empty, or the only pointer to a machine. In C an empty one is NULL.
#[repr(C)]
pub struct Handle {
    at: *mut u8,
    alloc: Global,
    pub ghost value: { Option Seat } by { coded_option seat_row.coded },
}

impl Model for Handle {
    ghost also_owns = { λ h. holds seat_row h.alloc h.at h.value };
}

impl Drop for Handle {
    fn drop(self) {
        drop(self.into_box());
    }
}

impl Handle {
    /// An empty handle.
    pub fn none(alloc: Global) -> Handle
        ensures { result.value ≡ None }
    {
        Handle {
            at: std::ptr::null_mut(),
            alloc,
        }
    }

    /// The handle of a box that was taken apart.
    fn of_lone(lone: Lone<Seat, Global>) -> Handle
        ensures { result.value ≡ Some lone.value }
    {
        let Lone { at, alloc } = lone;
        Handle {
            at: at as *mut u8,
            alloc,
        }
    }

    /// The box of this handle, taken apart, if it is not empty.
    fn into_lone(self) -> Option<Lone<Seat, Global>>
        ensures { MatchOption result (self.value ≡ None) (λ lone. self.value ≡ Some lone.value) }
    {
        let Handle { at, alloc } = self;
        if at.is_null() {
            None
        } else {
            Some(Lone {
                at: at as *mut Seat,
                alloc,
            })
        }
    }

    /// The handle of this machine.
    pub fn of(whole: Box<Seat, Global>) -> Handle
        ensures { result.value ≡ Some whole.value }
    {
        Handle::of_lone(Lone::apart(whole))
    }

    /// The machine of this handle, if it is not empty.
    pub fn into_box(self) -> Option<Box<Seat, Global>>
        ensures { MatchOption result (self.value ≡ None) (λ whole. self.value ≡ Some whole.value) }
    {
        match self.into_lone() {
            None => None,
            Some(lone) => Some(lone.whole()),
        }
    }

    /// Takes the machine out of this handle, which is then empty, if it was not so before.
    pub fn take(&mut self, alloc: Global) -> Option<Box<Seat, Global>>
        ensures taken { MatchOption result (self.old.value ≡ None) (λ whole. self.old.value ≡ Some whole.value) }
        ensures empty { self.new.value ≡ None }
    {
        mem::replace(self, Handle::none(alloc)).into_box()
    }

    /// Puts a machine into this handle. One that it had before is freed.
    pub fn put(&mut self, whole: Box<Seat, Global>)
        ensures { self.new.value ≡ Some whole.value }
    {
        *self = Handle::of(whole);
    }
}

unsafe impl Send for Handle {}
