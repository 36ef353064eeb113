//! Contracts that have names from one request to the next.
ghost use Rattle.std.specs.Prelude.{◌≡◌, Bool, true, false, List};
ghost use Rattle.definitions.specs.declared.definition.Definition.{Definition};
ghost use Rattle.marlowe_library.specs.Held.{names_coded, session_owns};

use crate::parts::Parts;
use definitions::Definitions;
use std::alloc::Global;
use std::marker::Model;
use std::mem;
use std::ptr::null_mut;

/// The names of contracts, in the hands of a caller who doesn't look into it. A session that is closed has no memory of its own: in C it
/// begins with all bytes 0.
#[repr(C)]
#[derive(Drop)]
pub struct Session {
    at: *mut u8,
    alloc: Global,
    pub ghost is_open: { Bool },
    pub ghost names: { List Definition } by { names_coded },
}

impl Model for Session {
    ghost also_owns = { λ s. session_owns s.is_open s.alloc s.at s.names };
}

impl Session {
    fn closed(alloc: Global) -> Session
        ensures { result.is_open ≡ false }
    {
        Session {
            at: null_mut(),
            alloc,
        }
    }

    fn of_parts(parts: Parts<Definitions, Global>) -> Session
        ensures { (result.is_open ≡ true) × (result.names ≡ parts.value) }
    {
        let Parts { ptr, alloc } = parts;
        Session {
            at: ptr as *mut u8,
            alloc,
        }
    }

    fn into_parts(self) -> Parts<Definitions, Global>
        requires { self.is_open ≡ true }
        ensures { result.value ≡ self.names }
    {
        let Session { at, alloc } = self;
        Parts {
            ptr: at as *mut Definitions,
            alloc,
        }
    }

    // Takes the names out of a session, which is closed then.
    pub(crate) fn take(&mut self, alloc: Global) -> Box<Definitions, Global>
        requires { self.old.is_open ≡ true }
        ensures closed { self.new.is_open ≡ false }
        ensures names { result.value ≡ self.old.names }
    {
        let open = mem::replace(self, Session::closed(alloc));
        open.into_parts().into_box()
    }

    // Opens a session with these names. One that was open before loses its memory, so none is.
    pub(crate) fn put(&mut self, names: Box<Definitions, Global>)
        requires { self.old.is_open ≡ false }
        ensures open { self.new.is_open ≡ true }
        ensures names { self.new.names ≡ names.value }
    {
        *self = Session::of_parts(Parts::of(names));
    }
}

// It may go to another thread, since its names may.
unsafe impl Send for Session {}
