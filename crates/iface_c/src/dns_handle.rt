//! Handles of clients of DNS, each of which owns a client or none.
ghost use Rattle.std.specs.Prelude.{◌≡◌, Option, Some, None, is_some, IsSome, IsNone};
ghost use Rattle.std.specs.Option.{option_map};
ghost use Rattle.iface_dns.specs.declared.dns.Dns.{Dns};
ghost use Rattle.iface_c.specs.OwnedDns.{dns_coded, is_tag, slot_owns};

use crate::handle::crosses;
use crate::raw_box::RawBox;
use iface_dns::Dns;
use std::alloc::Global;
use std::marker::Model;

/// The tag of a handle that owns a client: the letters of `iface_n1`.
pub const TAG: u64 = 0x6966_6163_655f_6e31;

/// A place that owns a boxed client, or none.
#[repr(C)]
pub struct DnsSlot {
    at: *mut u8,
    alloc: Global,
    pub ghost client: { Option Dns } by { dns_coded },
}

impl Model for DnsSlot {
    ghost also_owns = { λ s. slot_owns s.alloc s.at s.client };
}

impl DnsSlot {
    /// A place that owns none.
    fn empty(alloc: Global) -> DnsSlot
        ensures { result.client ≡ None }
    {
        DnsSlot {
            at: std::ptr::null_mut(),
            alloc,
        }
    }

    /// A place that owns a client.
    fn of(client: RawBox<Dns, Global>) -> DnsSlot
        ensures { result.client ≡ Some client.value }
    {
        let RawBox { at, alloc } = client;
        DnsSlot {
            at: at as *mut u8,
            alloc,
        }
    }

    /// Gives up a place that owns none.
    fn forget(self)
        requires { IsNone self.client }
    {
        let DnsSlot { at: _, alloc: _ } = self;
    }

    /// The client that a place owns.
    fn into_raw_box(self) -> RawBox<Dns, Global>
        requires { IsSome self.client }
        ensures { Some result.value ≡ self.client }
    {
        let DnsSlot { at, alloc } = self;
        RawBox {
            at: at as *mut Dns,
            alloc,
        }
    }
}

unsafe impl Send for DnsSlot {}

/// A handle, which C keeps. It owns a client exactly if it has the tag.
#[repr(C)]
pub struct IfaceDns {
    tag: u64,
    pub slot: DnsSlot,
    ghost tagged: { is_some slot.client ≡ is_tag tag },
}

impl IfaceDns {
    ghost use Rattle.iface_c.specs.DnsHandle.{dns_in};

    /// Whether it owns a client.
    pub fn is_made(&self) -> bool
        ensures { result ≡ is_some (dns_in self.now) }
    {
        self.tag == TAG
    }

    /// Takes the client out, if it owns one.
    pub fn take(&mut self, alloc: Global) -> Option<Box<Dns>>
        ensures client { option_map (λ b. b.value) result ≡ dns_in self.old }
        ensures rest { dns_in self.new ≡ None }
    {
        if self.tag != TAG {
            return None;
        }
        let empty = IfaceDns {
            tag: 0,
            slot: DnsSlot::empty(alloc),
        };
        let IfaceDns { tag: _, slot } = std::mem::replace(self, empty);
        Some(slot.into_raw_box().into_box())
    }

    /// Puts a client in, where it owns none.
    pub fn put(&mut self, client: Box<Dns>)
        requires { dns_in self.old ≡ None }
        ensures { dns_in self.new ≡ Some client.value }
    {
        let full = IfaceDns {
            tag: TAG,
            slot: DnsSlot::of(RawBox::of(client)),
        };
        let IfaceDns { tag: _, slot } = std::mem::replace(self, full);
        slot.forget();
    }
}

/// A handle may go to another thread: what it owns is the same for each.
pub fn dns_handle_crosses(handle: &IfaceDns) {
    crosses(handle);
}
