//! A session as a pointer that C keeps.

ghost use Rattle.std.specs.Prelude.{◌≡◌};
ghost use Rattle.std.specs.Borrow.{sem};
ghost use Rattle.calvin_c.specs.declared.opened.Opened.{Opened};
ghost use Rattle.calvin_c.specs.Handles.{opened_code};

use crate::loose::Loose;
use crate::opened::Opened;
use std::alloc::Global;
use std::marker::Model;

/// What C sees of a session: nothing.
#[repr(C)]
#[derive(Drop)]
pub struct Opaque {
    unused: u8,
}

/// A pointer that `calvin_c_open` gave and that `calvin_c_close` has not taken. Whoever passes one passes the session
/// that lies there, and has it back when the call returns, but for `calvin_c_close`.
#[repr(C)]
pub struct Handle {
    at: *mut Opaque,
    pub ghost opened: { Opened } by { opened_code },
}

impl Model for Handle {
    ghost use Rattle.calvin_c.specs.Handles.{lies};

    ghost also_owns = { λ h. lies h.at h.opened };
}

impl Handle {
    ghost use Rattle.calvin_c.specs.Sessions.{LendsOpened};

    /// What lies there.
    pub(crate) fn opened(&mut self) -> &mut Opened
        ensures* writes_back { sem 𝓛 (LendsOpened self.entry result) }
        ensures value { result.now ≡ self.old.opened }
    {
        unsafe { &mut *(self.at as *mut Opened) }
    }

    /// What the handle owns, as a box is made of it.
    fn loosen(self, alloc: Global) -> Loose<Opened, Global> {
        let Handle { at } = self;
        Loose {
            at: at as *mut Opened,
            alloc,
        }
    }

    /// What lies there, in its box.
    pub(crate) fn into_box(self, alloc: Global) -> Box<Opened> {
        self.loosen(alloc).into_box()
    }
}

/// A session as the pointer that C is given.
pub(crate) fn pointer_to(opened: Box<Opened>) -> *mut Opaque {
    Box::into_raw(opened) as *mut Opaque
}
