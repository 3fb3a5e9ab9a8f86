//! A judge that C holds: a pointer that only this library follows.

ghost use Rattle.std.specs.{Prelude.{◌≡◌, MatchOption, Option, None, Some}, Box.Ownership.box_owns, Coded.coded_option};
ghost use denote.RattleType.{RattleType};
ghost use Rattle.tagmem.specs.contracts.page_store.{PageStore.the_row as pages, PageStoreTaggedStore.TheImpl.ghosts};
ghost use Rattle.cap_judge.specs.contracts.judges.Judge.{the_row as judge_row};
ghost use Rattle.capcheck_judge.specs.Holding.{held_by};

use crate::held::{KeptBox, keep, own};
use cap_judge::Judge;
use std::alloc::{Allocator, Global};
use std::marker::Model;
use std::{mem, ptr};
use tagmem::PageStore;

/// A judge, or none (in C `capcheck_judge`). All bytes 0 is none. It isn't `Drop`: a judge that is put in has to be
/// taken out, and dropped, before the handle can be given up.
#[repr(C)]
pub struct Handle {
    at: *mut u8,
    held: bool,
    alloc: Global,
    ghost judge: { Option (RattleType.Denot (judge_row pages ghosts)) } by { coded_option (RattleType.coded (judge_row pages ghosts)) },
}

impl Model for Handle {
    ghost also_owns = { λ h. held_by (box_owns (⟦<Global as Allocator>⟧.dealloc_token h.alloc)
        (judge_row pages ghosts) h.at) h.held h.judge };
}

impl Handle {
    /// Takes the judge out, if there is one, and leaves none.
    pub(crate) fn take(&mut self, alloc: Global) -> Option<Box<Judge<PageStore>>>
        ensures taken { MatchOption result (self.old.judge ≡ None) (λ judge. self.old.judge ≡ Some judge.value) }
        ensures left { self.new.judge ≡ None }
    {
        match mem::replace(self, Handle::none(alloc)).into_held() {
            Some(judge) => Some(own(judge)),
            None => None,
        }
    }

    /// Puts a judge in if there is none.
    pub(crate) fn put(&mut self, judge: Box<Judge<PageStore>>)
        requires empty { self.old.judge ≡ None }
        ensures { self.new.judge ≡ Some judge.value }
    {
        let _none = mem::replace(self, Handle::of(keep(judge))).into_held();
    }

    // No judge.
    fn none(alloc: Global) -> Handle
        ensures { result.judge ≡ None }
    {
        Handle {
            at: ptr::null_mut(),
            held: false,
            alloc,
        }
    }

    // A handle of a judge.
    fn of(judge: KeptBox<Judge<PageStore>, Global>) -> Handle
        ensures { result.judge ≡ Some judge.value }
    {
        let KeptBox { at, alloc } = judge;
        Handle {
            at: at as *mut u8,
            held: true,
            alloc,
        }
    }

    // The judge of a handle, if there is one.
    fn into_held(self) -> Option<KeptBox<Judge<PageStore>, Global>>
        ensures { MatchOption result (self.judge ≡ None) (λ judge. self.judge ≡ Some judge.value) }
    {
        let Handle { at, held, alloc } = self;
        if held {
            Some(KeptBox {
                at: at as *mut Judge<PageStore>,
                alloc,
            })
        } else {
            None
        }
    }
}
