//! A session that C holds, and what it is lent of it.
ghost use Rattle.std.specs.Prelude.{◌≡◌, true, Option, Some, is_some};
ghost use Rattle.std.specs.contracts.impls.GlobalAllocator.TheImpl.{ghosts};
ghost use Rattle.cobix_inside.specs.declared.open_session.OpenSession.{OpenSession};
ghost use Rattle.cobix_inside.specs.contracts.open_session.OpenSession.{the_row as session_row};
ghost use Rattle.std.specs.Coded.{coded_option};
ghost use Rattle.cobix_inside.specs.Lending.{lent_owns};

use crate::open_session::OpenSession;
use crate::raw_box::RawBox;
use std::alloc::Global;
use std::marker::Model;

/// A session, or nothing: then the pointer may be any. C sees a pointer, and keeps it as it is.
#[repr(C)]
#[derive(Drop)]
pub struct Handle {
    at: *mut u8,
    alloc: Global,
    pub ghost value: { Option OpenSession } by { coded_option session_row.coded },
}

impl Model for Handle {
    ghost also_owns = { λ h. lent_owns (ghosts.dealloc_token h.alloc) session_row h.at h.value };
}

// A session may be used by another thread, since nothing that it holds belongs to one.
unsafe impl Send for Handle {}

impl Handle {
    ghost use types.Logic.{sem};
    ghost use Rattle.cobix_inside.specs.Holding.{handle_follows};

    // The same pointer, of a type that C knows.
    fn seal(raw: RawBox<OpenSession, Global>) -> Handle
        ensures { result.value ≡ Some raw.value }
    {
        let RawBox { at, alloc } = raw;
        Handle {
            at: at as *mut u8,
            alloc,
        }
    }

    fn unseal(self) -> RawBox<OpenSession, Global>
        requires { is_some self.value ≡ true }
        ensures { self.value ≡ Some result.value }
    {
        let Handle { at, alloc } = self;
        RawBox {
            at: at as *mut OpenSession,
            alloc,
        }
    }

    /// Hands a session to C.
    pub(crate) fn of(value: Box<OpenSession>) -> Handle
        ensures { result.value ≡ Some value.value }
    {
        Handle::seal(RawBox::of(value))
    }

    /// Lends the session, and keeps it.
    pub(crate) fn lend(&mut self) -> &mut OpenSession
        requires { is_some self.old.value ≡ true }
        ensures* writes_back { sem 𝓛 (handle_follows self.entry result) }
        ensures value { self.old.value ≡ Some result.now }
    {
        unsafe { &mut *(self.at as *mut OpenSession) }
    }

    /// Takes a session back from C.
    pub(crate) fn into_box(self) -> Box<OpenSession>
        requires { is_some self.value ≡ true }
        ensures { self.value ≡ Some result.value }
    {
        self.unseal().into_box()
    }
}
