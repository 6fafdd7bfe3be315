//! Handles, each of which owns a host or none.
ghost use Rattle.std.specs.Prelude.{◌≡◌, Option, Some, None, is_some, IsSome, IsNone};
ghost use Rattle.std.specs.Option.{option_map};
ghost use Rattle.iface_host.specs.declared.host.IfaceHost.{IfaceHost};
ghost use Rattle.iface_c.specs.Owned.{host_coded, is_tag, slot_owns};

use crate::raw_box::RawBox;
use iface_host::IfaceHost;
use std::alloc::Global;
use std::marker::Model;

/// The tag of a handle that owns a host: the letters of `iface_c1`.
pub const TAG: u64 = 0x6966_6163_655f_6331;

/// A place that owns a boxed host, or none.
#[repr(C)]
pub struct Slot {
    at: *mut u8,
    alloc: Global,
    pub ghost host: { Option IfaceHost } by { host_coded },
}

impl Model for Slot {
    ghost also_owns = { λ s. slot_owns s.alloc s.at s.host };
}

impl Slot {
    /// A place that owns none.
    fn empty(alloc: Global) -> Slot
        ensures { result.host ≡ None }
    {
        Slot {
            at: std::ptr::null_mut(),
            alloc,
        }
    }

    /// A place that owns a host.
    fn of(host: RawBox<IfaceHost, Global>) -> Slot
        ensures { result.host ≡ Some host.value }
    {
        let RawBox { at, alloc } = host;
        Slot {
            at: at as *mut u8,
            alloc,
        }
    }

    /// Gives up a place that owns none.
    fn forget(self)
        requires { IsNone self.host }
    {
        let Slot { at: _, alloc: _ } = self;
    }

    /// The host that a place owns.
    fn into_raw_box(self) -> RawBox<IfaceHost, Global>
        requires { IsSome self.host }
        ensures { Some result.value ≡ self.host }
    {
        let Slot { at, alloc } = self;
        RawBox {
            at: at as *mut IfaceHost,
            alloc,
        }
    }
}

unsafe impl Send for Slot {}

/// A handle, which C keeps. It owns a host exactly if it has the tag.
#[repr(C)]
pub struct Iface {
    tag: u64,
    pub slot: Slot,
    ghost tagged: { is_some slot.host ≡ is_tag tag },
}

impl Iface {
    ghost use Rattle.iface_c.specs.Handle.{host_in};

    /// Whether it owns a host.
    pub fn is_made(&self) -> bool
        ensures { result ≡ is_some (host_in self.now) }
    {
        self.tag == TAG
    }

    /// Takes the host out, if it owns one.
    pub fn take(&mut self, alloc: Global) -> Option<Box<IfaceHost>>
        ensures host { option_map (λ b. b.value) result ≡ host_in self.old }
        ensures rest { host_in self.new ≡ None }
    {
        if self.tag != TAG {
            return None;
        }
        let empty = Iface {
            tag: 0,
            slot: Slot::empty(alloc),
        };
        let Iface { tag: _, slot } = std::mem::replace(self, empty);
        Some(slot.into_raw_box().into_box())
    }

    /// Puts a host in, where it owns none.
    pub fn put(&mut self, host: Box<IfaceHost>)
        requires { host_in self.old ≡ None }
        ensures { host_in self.new ≡ Some host.value }
    {
        let full = Iface {
            tag: TAG,
            slot: Slot::of(RawBox::of(host)),
        };
        let Iface { tag: _, slot } = std::mem::replace(self, full);
        slot.forget();
    }
}

/// What may go to another thread.
pub(crate) fn crosses<T: Send>(_: &T) {}

/// A handle may go to another thread: what it owns is the same for each.
pub fn handle_crosses(handle: &Iface) {
    crosses(handle);
}
