//! A pointer that owns an open bank, or nothing.
ghost use Rattle.std.specs.Prelude.{◌≡◌, ◌∷◌, [], List, length};
ghost use Rattle.sfbank_c.specs.declared.open_bank.OpenBank.{OpenBank};
ghost use Rattle.sfbank_c.specs.Owned.{bank_coded, bank_owned};

use crate::open_bank::OpenBank;
use c_loans::Parts;
use std::alloc::Global;
use std::marker::Model;
use std::ptr;

/// A pointer to an open bank on the heap, which it owns, or a pointer that owns nothing. C sees the pointer alone.
// The derived drop is for one that owns nothing: it frees no bank.
#[repr(C)]
#[derive(Drop)]
pub struct SealedBank {
    at: *mut u8,
    alloc: Global,
    pub ghost held: { List OpenBank } by { bank_coded },
}

impl Model for SealedBank {
    ghost also_owns = { λ s. bank_owned s.alloc s.at s.held };
}

impl SealedBank {
    /// Owns nothing.
    pub fn empty(alloc: Global) -> SealedBank
        ensures { result.held ≡ [] }
    {
        SealedBank {
            at: ptr::null_mut(),
            alloc,
        }
    }

    /// Owns what the parts of a box own.
    pub fn of_parts(parts: Parts<OpenBank, Global>) -> SealedBank
        ensures { result.held ≡ parts.value ∷ [] }
    {
        let Parts { ptr, alloc } = parts;
        SealedBank {
            at: ptr.cast::<u8>(),
            alloc,
        }
    }

    /// The parts of the box.
    pub fn into_parts(self) -> Parts<OpenBank, Global>
        requires { length self.held ≡ 1 }
        ensures { self.held ≡ result.value ∷ [] }
    {
        let SealedBank { at, alloc } = self;
        Parts {
            ptr: at.cast::<OpenBank>(),
            alloc,
        }
    }
}

unsafe impl Send for SealedBank {}
