//! Handles of connections, each of which owns those of a host or none.
ghost use Rattle.std.specs.Prelude.{◌≡◌, Option, Some, None, is_some, IsSome, IsNone};
ghost use Rattle.std.specs.Option.{option_map};
ghost use Rattle.iface_streams.specs.declared.streams.Streams.{Streams};
ghost use Rattle.iface_c.specs.OwnedStreams.{streams_coded, is_tag, slot_owns};

use crate::handle::crosses;
use crate::raw_box::RawBox;
use iface_streams::Streams;
use std::alloc::Global;
use std::marker::Model;

/// The tag of a handle that owns connections: the letters of `iface_t1`.
pub const TAG: u64 = 0x6966_6163_655f_7431;

/// A place that owns boxed connections, or none.
#[repr(C)]
pub struct StreamsSlot {
    at: *mut u8,
    alloc: Global,
    pub ghost streams: { Option Streams } by { streams_coded },
}

impl Model for StreamsSlot {
    ghost also_owns = { λ s. slot_owns s.alloc s.at s.streams };
}

impl StreamsSlot {
    /// A place that owns none.
    fn empty(alloc: Global) -> StreamsSlot
        ensures { result.streams ≡ None }
    {
        StreamsSlot {
            at: std::ptr::null_mut(),
            alloc,
        }
    }

    /// A place that owns connections.
    fn of(streams: RawBox<Streams, Global>) -> StreamsSlot
        ensures { result.streams ≡ Some streams.value }
    {
        let RawBox { at, alloc } = streams;
        StreamsSlot {
            at: at as *mut u8,
            alloc,
        }
    }

    /// Gives up a place that owns none.
    fn forget(self)
        requires { IsNone self.streams }
    {
        let StreamsSlot { at: _, alloc: _ } = self;
    }

    /// The connections that a place owns.
    fn into_raw_box(self) -> RawBox<Streams, Global>
        requires { IsSome self.streams }
        ensures { Some result.value ≡ self.streams }
    {
        let StreamsSlot { at, alloc } = self;
        RawBox {
            at: at as *mut Streams,
            alloc,
        }
    }
}

unsafe impl Send for StreamsSlot {}

/// A handle, which C keeps. It owns connections exactly if it has the tag.
#[repr(C)]
pub struct IfaceStreams {
    tag: u64,
    pub slot: StreamsSlot,
    ghost tagged: { is_some slot.streams ≡ is_tag tag },
}

impl IfaceStreams {
    ghost use Rattle.iface_c.specs.StreamsHandle.{streams_in};

    /// Whether it owns connections.
    pub fn is_made(&self) -> bool
        ensures { result ≡ is_some (streams_in self.now) }
    {
        self.tag == TAG
    }

    /// Takes the connections out, if it owns any.
    pub fn take(&mut self, alloc: Global) -> Option<Box<Streams>>
        ensures streams { option_map (λ b. b.value) result ≡ streams_in self.old }
        ensures rest { streams_in self.new ≡ None }
    {
        if self.tag != TAG {
            return None;
        }
        let empty = IfaceStreams {
            tag: 0,
            slot: StreamsSlot::empty(alloc),
        };
        let IfaceStreams { tag: _, slot } = std::mem::replace(self, empty);
        Some(slot.into_raw_box().into_box())
    }

    /// Puts connections in, where it owns none.
    pub fn put(&mut self, streams: Box<Streams>)
        requires { streams_in self.old ≡ None }
        ensures { streams_in self.new ≡ Some streams.value }
    {
        let full = IfaceStreams {
            tag: TAG,
            slot: StreamsSlot::of(RawBox::of(streams)),
        };
        let IfaceStreams { tag: _, slot } = std::mem::replace(self, full);
        slot.forget();
    }
}

/// A handle may go to another thread: what it owns is the same for each.
pub fn streams_handle_crosses(handle: &IfaceStreams) {
    crosses(handle);
}
