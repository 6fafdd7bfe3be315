//! Handles of clients of DHCP, each of which owns a client or none.
ghost use Rattle.std.specs.Prelude.{◌≡◌, Option, Some, None, is_some, IsSome, IsNone};
ghost use Rattle.std.specs.Option.{option_map};
ghost use Rattle.iface_dhcp.specs.declared.dhcp.Dhcp.{Dhcp};
ghost use Rattle.iface_c.specs.OwnedDhcp.{dhcp_coded, is_tag, slot_owns};

use crate::handle::crosses;
use crate::raw_box::RawBox;
use iface_dhcp::Dhcp;
use std::alloc::Global;
use std::marker::Model;

/// The tag of a handle that owns a client: the letters of `iface_d1`.
pub const TAG: u64 = 0x6966_6163_655f_6431;

/// A place that owns a boxed client, or none.
#[repr(C)]
pub struct DhcpSlot {
    at: *mut u8,
    alloc: Global,
    pub ghost client: { Option Dhcp } by { dhcp_coded },
}

impl Model for DhcpSlot {
    ghost also_owns = { λ s. slot_owns s.alloc s.at s.client };
}

impl DhcpSlot {
    /// A place that owns none.
    fn empty(alloc: Global) -> DhcpSlot
        ensures { result.client ≡ None }
    {
        DhcpSlot {
            at: std::ptr::null_mut(),
            alloc,
        }
    }

    /// A place that owns a client.
    fn of(client: RawBox<Dhcp, Global>) -> DhcpSlot
        ensures { result.client ≡ Some client.value }
    {
        let RawBox { at, alloc } = client;
        DhcpSlot {
            at: at as *mut u8,
            alloc,
        }
    }

    /// Gives up a place that owns none.
    fn forget(self)
        requires { IsNone self.client }
    {
        let DhcpSlot { at: _, alloc: _ } = self;
    }

    /// The client that a place owns.
    fn into_raw_box(self) -> RawBox<Dhcp, Global>
        requires { IsSome self.client }
        ensures { Some result.value ≡ self.client }
    {
        let DhcpSlot { at, alloc } = self;
        RawBox {
            at: at as *mut Dhcp,
            alloc,
        }
    }
}

unsafe impl Send for DhcpSlot {}

/// A handle, which C keeps. It owns a client exactly if it has the tag.
#[repr(C)]
pub struct IfaceDhcp {
    tag: u64,
    pub slot: DhcpSlot,
    ghost tagged: { is_some slot.client ≡ is_tag tag },
}

impl IfaceDhcp {
    ghost use Rattle.iface_c.specs.DhcpHandle.{dhcp_in};

    /// Whether it owns a client.
    pub fn is_made(&self) -> bool
        ensures { result ≡ is_some (dhcp_in self.now) }
    {
        self.tag == TAG
    }

    /// Takes the client out, if it owns one.
    pub fn take(&mut self, alloc: Global) -> Option<Box<Dhcp>>
        ensures client { option_map (λ b. b.value) result ≡ dhcp_in self.old }
        ensures rest { dhcp_in self.new ≡ None }
    {
        if self.tag != TAG {
            return None;
        }
        let empty = IfaceDhcp {
            tag: 0,
            slot: DhcpSlot::empty(alloc),
        };
        let IfaceDhcp { tag: _, slot } = std::mem::replace(self, empty);
        Some(slot.into_raw_box().into_box())
    }

    /// Puts a client in, where it owns none.
    pub fn put(&mut self, client: Box<Dhcp>)
        requires { dhcp_in self.old ≡ None }
        ensures { dhcp_in self.new ≡ Some client.value }
    {
        let full = IfaceDhcp {
            tag: TAG,
            slot: DhcpSlot::of(RawBox::of(client)),
        };
        let IfaceDhcp { tag: _, slot } = std::mem::replace(self, full);
        slot.forget();
    }
}

/// A handle may go to another thread: what it owns is the same for each.
pub fn dhcp_handle_crosses(handle: &IfaceDhcp) {
    crosses(handle);
}
