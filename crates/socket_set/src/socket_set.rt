//! Sets of sockets, each with a handle.
ghost use Rattle.std.specs.Prelude.{◌≡◌, ◌≢◌, ◌<◌, ◌≤◌, ℕ, Bool, true, false, not, Some, None, IsOk, IsErr, IsSome};
ghost use Rattle.std.specs.Prelude.{IsNone, IfSome, IfOk, IfErr, OnOk, OnErr, is_some, length, map, vec_capacity};
ghost use Rattle.std.specs.Option.{option_copied, option_copied_mut, option_and_then};
ghost use Rattle.net_base.specs.Time.{IsMoment, silence_from};
ghost use Rattle.sockets.specs.Kinds.{own_port, poll_at as own_poll_at};
ghost use Rattle.sockets.specs.declared.poll_at.PollAt.TheVariants.{Ingress};
ghost use Rattle.socket_set.specs.Details.Alike.{waits_like};
ghost use Rattle.socket_set.specs.Details.Busy.{IsIdle};
ghost use Rattle.socket_set.specs.Details.Datagrams.{after_datagram, is_udp};
ghost use Rattle.socket_set.specs.Details.Keys.{AllHavePorts, key_of};
ghost use Rattle.socket_set.specs.SocketMeta.{poll_at as poll_at_of, IsAnswerFor, after_asking, is_permitted, is_wait};
ghost use Rattle.socket_set.specs.SocketSet.{set_after_add, first_free, given_back, handles, has_free, is_full};
ghost use Rattle.socket_set.specs.SocketSet.{over, pairs, socket_at, wait_at, wait_of, with_place, with_wait};

use crate::busy::BusyMarks;
use crate::iter::{HandlesOf, IterOf};
use crate::keys::{Keys, NOBODY, UNKNOWN, key_of};
use crate::socket_meta::Meta;
use ip_wire::IpAddress;
use net_base::time::Instant;
use sockets::socket::{AnySocketOf, SocketOf};
use sockets::{IpEndpoint, PollAt, udp};
use std::marker::Model;
use std::{error, fmt};

/// Storage for one socket, with its lifetime as a type parameter.
///
/// In contracts it is the socket in it, if there is one, and whether that waits.
#[derive(Drop)]
pub struct SocketStorageOf<L> {
    inner: Option<SocketOf<L>>,
    // Says nothing where the place is free.
    meta: Meta,
}

/// Storage for one socket.
pub type SocketStorage<'a> = SocketStorageOf<&'a ()>;

impl<L> Model for SocketStorageOf<L> {
    ghost use Rattle.socket_set.specs.SocketSet.{Storage};

    ghost Value = { Storage L };

    ghost view = { λ s. record { socket = s.inner; wait = s.meta } };
}

impl SocketStorageOf<&'static ()> {
    /// Storage without a socket.
    pub const EMPTY: SocketStorage<'static> = SocketStorageOf {
        inner: None,
        meta: Meta::ACTIVE,
    };
}

impl<L> SocketStorageOf<L> {
    ghost use Rattle.std.specs.Borrow.{sem, LendsIf};
    ghost use Rattle.sockets.specs.contracts.socket.SocketOf.{the_row as socket_row};
    ghost use Rattle.socket_set.specs.contracts.socket_set.SocketStorageOf.{the_row as storage_row};

    // A place with a socket that doesn't wait.
    fn holding(socket: SocketOf<L>) -> SocketStorageOf<L>
        ensures { result ≡ record { socket = Some socket; wait = None } }
    {
        SocketStorageOf {
            inner: Some(socket),
            meta: Meta::default(),
        }
    }

    // The wait of its socket, if there is one and it waits.
    pub(crate) fn wait(&self) -> Option<(IpAddress, Instant)>
        ensures { result ≡ option_and_then (λ socket. self.now.wait) self.now.socket }
    {
        if self.inner.is_none() {
            return None;
        }
        self.meta.wait()
    }

    // Whether its socket, if there is one, waits.
    #[inline(always)]
    fn is_waiting(&self) -> bool
        ensures { result ≡ is_some (option_and_then (λ socket. self.now.wait) self.now.socket) }
    {
        self.inner.is_some() && self.meta.is_waiting()
    }

    // Whether its socket, if there is one, waits for the next hop to a destination, until an instant.
    #[inline(always)]
    fn is_wait(&self, destination: &IpAddress, until: Instant) -> bool
        ensures { result
            ≡ is_wait destination.now until (option_and_then (λ socket. self.now.wait) self.now.socket) }
    {
        self.inner.is_some() && self.meta.is_wait(destination, until)
    }

    // The socket, if there is one.
    pub(crate) fn socket(&self) -> Option<&SocketOf<L>>
        ensures { option_copied result ≡ self.now.socket }
    {
        self.inner.as_ref()
    }

    // The same, for writing.
    fn socket_mut(&mut self) -> Option<&mut SocketOf<L>>
        ensures* lends { sem 𝓛 (LendsIf (storage_row L.row) (socket_row L.row) self.entry result
            (λ w. record self.old { socket = Some w }) self.old) }
        ensures value { option_copied_mut result ≡ self.old.socket }
    {
        self.inner.as_mut()
    }
}

impl<L: Drop> SocketStorageOf<L> {
    ghost use Rattle.std.specs.Borrow.{sem, LendsIf};
    ghost use Rattle.socket_set.specs.contracts.socket_set.SocketStorageOf.{the_row as storage_row};

    // The socket, if it is of a kind, for writing.
    fn kind_mut<T: AnySocketOf<L>>(&mut self) -> Option<&mut T>
        ensures* lends { sem 𝓛 (LendsIf (storage_row L.row) T.row self.entry result
            (λ w. record self.old { socket = Some (T.up w) }) self.old) }
        ensures value { option_copied_mut result ≡ option_and_then T.down self.old.socket }
        ensures whole { IfSome (option_copied_mut result) (λ s. self.old.socket ≡ Some (T.up s)) }
        ensures ports { IfSome (option_copied_mut result) (λ s. (other : T) →
            IfSome self.old.socket (λ old. is_some (own_port (T.up other)) ≡ is_some (own_port old))) }
    {
        let socket = self.socket_mut()?;
        T::downcast_mut(socket)
    }

    // Queues a datagram received from an endpoint at its socket, if that is a UDP socket. Returns whether it is.
    #[inline(always)]
    fn process_udp(&mut self, remote: IpEndpoint, payload: &[u8]) -> bool
        ensures there { result ≡ is_udp self.old.socket }
        ensures heard { self.new ≡ record self.old { socket = after_datagram remote payload.now self.old.socket } }
    {
        match self.kind_mut::<udp::SocketOf<L>>() {
            Some(socket) => {
                socket.process(remote, payload);
                true
            }
            None => false,
        }
    }

    // Whether it has a socket that waits or has something to send.
    #[inline(always)]
    fn is_busy(&self) -> bool
        ensures { result ≡ false → IfSome self.now.socket (λ s. (own_poll_at s ≡ Ingress) × (self.now.wait ≡ None)) }
    {
        match self.socket() {
            None => false,
            Some(socket) => self.meta.is_waiting() || is_due(socket.poll_at()),
        }
    }

    // Its key.
    #[inline(always)]
    fn key(&self) -> u16
        ensures { IfSome self.now.socket (λ s. result ≡ key_of (own_port s)) }
    {
        match self.socket() {
            None => NOBODY,
            Some(socket) => key_of(socket.own_port()),
        }
    }

    // Whether it has a socket of a kind without ports.
    fn is_portless(&self) -> bool
        ensures { result ≡ false → IfSome self.now.socket (λ s. own_port s ≢ None) }
    {
        match self.socket() {
            Some(socket) => socket.own_port().is_none(),
            None => false,
        }
    }

    // When its socket wants to be asked for a packet.
    fn poll_at<F: Fn(IpAddress) -> bool>(&self, timestamp: Instant, has_neighbor: F) -> PollAt
        requires { F.IsAlwaysCallable has_neighbor }
        ensures socket { IfSome self.now.socket
            (λ s. (known : Bool) × IsAnswerFor (F.post has_neighbor) self.now.wait known
            × (result ≡ poll_at_of self.now.wait known timestamp (own_poll_at s))) }
        ensures nobody { IsNone self.now.socket → result ≡ Ingress }
    {
        match self.socket() {
            None => PollAt::Ingress,
            Some(socket) => self.meta.poll_at(socket.poll_at(), has_neighbor, timestamp),
        }
    }
}

impl<L> Default for SocketStorageOf<L> {
    fn default() -> SocketStorageOf<L>
        ensures { result ≡ record { socket = None; wait = None } }
    {
        SocketStorageOf {
            inner: None,
            meta: Meta::default(),
        }
    }
}

/// The name of a socket in a set: its index. It prints as `#` and that number.
#[derive(Clone, Copy, Debug, PartialEq, Eq, PartialOrd, Ord, Hash)]
pub struct SocketHandle(usize);

impl Model for SocketHandle {
    ghost use Rattle.std.specs.Prelude.{ℕ};

    ghost Value = { ℕ };

    ghost view = { λ h. h.0 };

    ghost inverse = { λ n. record { 0 = n } };
}

impl SocketHandle {
    // The name of the socket at an index.
    #[inline(always)]
    pub(crate) fn from_index(index: usize) -> SocketHandle
        ensures { result ≡ index }
    {
        SocketHandle(index)
    }

    // The index of its place.
    #[inline(always)]
    pub(crate) fn index(self) -> usize
        ensures { result ≡ self }
    {
        self.0
    }
}

impl Default for SocketHandle {
    fn default() -> SocketHandle
        ensures { result ≡ 0 }
    {
        SocketHandle(0)
    }
}

impl fmt::Display for SocketHandle {
    ghost use Rattle.socket_set.specs.SocketSet.{handle_text};

    ghost output = { λ h. Some (handle_text h) };

    fn fmt<W: fmt::Write>(&self, f: &mut fmt::Formatter<W>) -> fmt::Result {
        write!(f, "#{}", self.0)
    }
}

/// A set of sockets, with their lifetime as a type parameter.
///
/// In contracts it is the list of the sockets by index, the list of their waits, whether more indices may be added,
/// and for how many of them memory is reserved.
#[derive(Drop)]
pub struct SocketSetOf<L> {
    sockets: Vec<SocketStorageOf<L>>,
    grows: bool,
    busy: BusyMarks,
    keys: Keys,
    // Whether a socket may be there whose kind has no ports.
    portless: bool,
}

/// A set of sockets.
pub type SocketSet<'a> = SocketSetOf<&'a ()>;

impl<L> Model for SocketSetOf<L> {
    ghost use Rattle.std.specs.Prelude.{◌≡◌, false, vec_capacity};
    ghost use Rattle.socket_set.specs.Details.Busy.{AreTrue};
    ghost use Rattle.socket_set.specs.Details.Keys.{AllHavePorts, AreKeysOf};
    ghost use Rattle.socket_set.specs.SocketSet.{Sockets, over};

    ghost Value = { Sockets L };

    ghost view = { λ s. over s.sockets.items s.grows (vec_capacity s.sockets) };

    // Where a mark is clear, the place is idle; each key that isn't 0 is that of its place's socket; and where no
    // socket without ports may be there, none is.
    ghost invariant = { λ s. AreTrue s.busy (over s.sockets.items s.grows (vec_capacity s.sockets))
        × AreKeysOf s.keys (over s.sockets.items s.grows (vec_capacity s.sockets))
        × (s.portless ≡ false → AllHavePorts (over s.sockets.items s.grows (vec_capacity s.sockets))) };
}

/// Why a socket wasn't added. Each gives it back. They print as their names.
#[derive(Drop)]
pub enum AddError<T> {
    /// No index is free, and the set never grows.
    Full(T),
    /// No index is free, and the memory for another one was refused.
    NoMemory(T),
}

impl<T> fmt::Display for AddError<T> {
    ghost use Rattle.socket_set.specs.SocketSet.{error_text};

    ghost output = { λ e. Some (error_text e) };

    fn fmt<W: fmt::Write>(&self, f: &mut fmt::Formatter<W>) -> fmt::Result {
        match self {
            AddError::Full(_) => write!(f, "Full"),
            AddError::NoMemory(_) => write!(f, "NoMemory"),
        }
    }
}

impl<T> fmt::Debug for AddError<T> {
    /// As its name, without the socket.
    fn fmt<W: fmt::Write>(&self, f: &mut fmt::Formatter<W>) -> fmt::Result {
        write!(f, "{self}")
    }
}

impl<T: Drop> error::Error for AddError<T> {}

impl<L: Drop> SocketSetOf<L> {
    /// Creates a set over this storage, which grows where no index is free.
    pub fn new(sockets: Vec<SocketStorageOf<L>>) -> SocketSetOf<L>
        ensures { result ≡ over sockets.items true (vec_capacity sockets) }
    {
        SocketSetOf {
            grows: true,
            busy: BusyMarks::all(),
            keys: Keys::unknown(),
            portless: has_portless(sockets.as_slice()),
            sockets,
        }
    }

    /// Creates a set over this storage, which never grows.
    pub fn fixed(sockets: Vec<SocketStorageOf<L>>) -> SocketSetOf<L>
        ensures { result ≡ over sockets.items false (vec_capacity sockets) }
    {
        SocketSetOf {
            grows: false,
            busy: BusyMarks::all(),
            keys: Keys::unknown(),
            portless: has_portless(sockets.as_slice()),
            sockets,
        }
    }
}

impl<L> SocketSetOf<L> {
    /// A lemma for proofs about a set: there are as many waits as indices. It does nothing.
    pub fn has_a_wait_for_each(&self)
        ensures { length self.now.waits ≡ length self.now.places }
    {
        self.sockets.len();
    }
}

impl<L: Drop> SocketSetOf<L> {
    ghost use Rattle.std.specs.Borrow.{sem, LendsIf};
    ghost use Rattle.sockets.specs.contracts.socket.SocketOf.{the_row as socket_row};
    ghost use Rattle.socket_set.specs.contracts.socket_set.SocketSetOf.{the_row as set_row};

    /// Adds a socket at the least free index, else at a new one after all others, and returns its handle. Where no
    /// index is free: `Full` if the set never grows, `NoMemory` if the memory for another index was refused. Both give
    /// the socket back, and then the set stays as it was. Where an index is free it takes no memory, and where memory
    /// for another one is reserved it isn't refused.
    pub fn add<T: AnySocketOf<L>>(&mut self, socket: T) -> Result<SocketHandle, AddError<T>>
        ensures free { has_free self.old ≡ true → IsOk result }
        ensures reserved { self.old.grows ≡ true → length self.old.places < self.old.room → IsOk result }
        ensures full { has_free self.old ≡ false → self.old.grows ≡ false → IsErr result }
        ensures handle { IfOk result (λ h. h ≡ first_free self.old.places) }
        ensures added { OnOk result (self.new ≡ set_after_add self.old (T.up socket) self.new.room) }
        ensures kind { IfErr result (λ e. is_full e ≡ not self.old.grows) }
        ensures given_back { IfErr result (λ e. given_back e ≡ socket) }
        ensures unchanged { OnErr result (self.new ≡ self.old) }
    {
        let index = first_free(self.sockets.as_slice());
        self.busy.set(index);
        self.keys.set(index, UNKNOWN);
        if index < self.sockets.len() {
            let socket = socket.upcast();
            self.portless |= socket.own_port().is_none();
            self.sockets[index] = SocketStorageOf::holding(socket);
            return Ok(SocketHandle(index));
        }
        if !self.grows {
            return Err(AddError::Full(socket));
        }
        if self.sockets.try_reserve(1).is_err() {
            return Err(AddError::NoMemory(socket));
        }
        let socket = socket.upcast();
        self.portless |= socket.own_port().is_none();
        self.sockets.push_reserved(SocketStorageOf::holding(socket));
        Ok(SocketHandle(index))
    }

    /// Returns the socket of a handle. `None` exactly for a free index, a socket of another kind, or an index out of
    /// range.
    pub fn get<T: AnySocketOf<L>>(&self, handle: SocketHandle) -> Option<&T>
        ensures { option_copied result ≡ option_and_then T.down (socket_at self.now handle) }
    {
        let socket = self.sockets.get(handle.0)?.socket()?;
        T::downcast(socket)
    }

    /// Whether there is a socket, of whatever kind, at the index of a handle.
    pub fn is_open(&self, handle: SocketHandle) -> bool
        ensures { result ≡ is_some (socket_at self.now handle) }
    {
        self.socket(handle.index()).is_some()
    }

    /// Returns the destination whose next hop the socket of a handle waits for, and when it may be asked again. `None`
    /// exactly where it doesn't wait, for a free index, or one out of range. A wait whose end has passed stays recorded
    /// until its next hop is known or another wait begins.
    pub fn wait(&self, handle: SocketHandle) -> Option<(IpAddress, Instant)>
        ensures { result ≡ wait_of self.now handle }
    {
        self.wait_at(handle.index())
    }

    /// Returns the socket of a handle for writing, or `None` as [`SocketSetOf::get`] does; then the set stays as it
    /// was. Who only reads takes `get`: a socket that was lent for writing is tested by the next frames and the next
    /// round.
    pub fn get_mut<T: AnySocketOf<L>>(&mut self, handle: SocketHandle) -> Option<&mut T>
        ensures* lends { sem 𝓛 (LendsIf (set_row L.row) T.row self.entry result
            (λ w. with_place self.old handle (Some (T.up w))) self.old) }
        ensures value { option_copied_mut result ≡ option_and_then T.down (socket_at self.old handle) }
        ensures whole { IfSome (option_copied_mut result) (λ s. socket_at self.old handle ≡ Some (T.up s)) }
    {
        self.kind_mut(handle.index())
    }

    /// Returns the socket at an index, if it is of a kind. `None` exactly for a free index, a socket of another kind,
    /// or an index out of range.
    #[inline(always)]
    pub(crate) fn kind<T: AnySocketOf<L>>(&self, index: usize) -> Option<&T>
        ensures { option_copied result ≡ option_and_then T.down (socket_at self.now index) }
    {
        let socket = self.sockets.get(index)?.socket()?;
        T::downcast(socket)
    }

    /// Returns the socket at an index, of whatever kind. `None` exactly for a free index or one out of range.
    pub(crate) fn socket(&self, index: usize) -> Option<&SocketOf<L>>
        ensures { option_copied result ≡ socket_at self.now index }
    {
        self.sockets.get(index)?.socket()
    }

    /// Returns the destination whose next hop the socket at an index waits for, and until when, if it waits.
    pub(crate) fn wait_at(&self, index: usize) -> Option<(IpAddress, Instant)>
        ensures { result ≡ wait_of self.now index }
    {
        match self.sockets.get(index) {
            Some(storage) => storage.wait(),
            None => None,
        }
    }

    /// Returns until when the socket at an index waits, if it waits for the destination that the one at another index
    /// waits for, and this isn't over at a moment.
    #[inline(always)]
    pub(crate) fn waits_like(
        &self,
        index: usize,
        other: usize,
        timestamp: Instant,
    ) -> Option<Instant>
        ensures { result ≡ waits_like self.now index other timestamp }
    {
        let other = self.sockets.get(other)?;
        let storage = self.sockets.get(index)?;
        if other.inner.is_none() || storage.inner.is_none() {
            return None;
        }
        storage.meta.waits_like(&other.meta, timestamp)
    }

    /// Returns the socket at an index for writing, if it is of a kind. At `None` the set stays as it was.
    pub(crate) fn kind_mut<T: AnySocketOf<L>>(&mut self, index: usize) -> Option<&mut T>
        ensures* lends { sem 𝓛 (LendsIf (set_row L.row) T.row self.entry result
            (λ w. with_place self.old index (Some (T.up w))) self.old) }
        ensures value { option_copied_mut result ≡ option_and_then T.down (socket_at self.old index) }
        ensures whole { IfSome (option_copied_mut result) (λ s. socket_at self.old index ≡ Some (T.up s)) }
    {
        self.busy.set(index);
        self.keys.set(index, UNKNOWN);
        let storage = self.sockets.get_mut(index)?;
        // Only what is lent has to keep its kind.
        let socket = storage.kind_mut()?;
        Some(socket)
    }

    /// Returns the socket at an index, of whatever kind, for writing. `None` exactly for a free index or one out of
    /// range; then the set stays as it was.
    pub(crate) fn socket_mut(&mut self, index: usize) -> Option<&mut SocketOf<L>>
        ensures* lends { sem 𝓛 (LendsIf (set_row L.row) (socket_row L.row) self.entry result
            (λ w. with_place self.old index (Some w)) self.old) }
        ensures value { option_copied_mut result ≡ socket_at self.old index }
    {
        self.busy.set(index);
        self.keys.set(index, UNKNOWN);
        self.portless = true;
        let storage = self.sockets.get_mut(index)?;
        storage.socket_mut()
    }

    /// Queues a datagram received from an endpoint at the UDP socket of an index, or drops it for lack of room. Returns
    /// whether there is such a socket. Mark and key stay: it gets neither another port nor anything to send.
    #[inline(always)]
    pub(crate) fn process_udp(&mut self, index: usize, remote: IpEndpoint, payload: &[u8]) -> bool
        ensures there { result ≡ is_udp (socket_at self.old index) }
        ensures heard { self.new
            ≡ with_place self.old index (after_datagram remote payload.now (socket_at self.old index)) }
    {
        let Some(storage) = self.sockets.get_mut(index) else {
            return false;
        };
        storage.process_udp(remote, payload)
    }

    /// Returns how many indices there are, free or not.
    pub(crate) fn places(&self) -> usize
        ensures { result ≡ length self.now.places }
    {
        self.sockets.len()
    }

    /// The sockets with their handles, by rising index.
    pub fn iter(&self) -> IterOf<'_, L>
        ensures { result ≡ pairs self.now }
    {
        IterOf {
            places: self.sockets.as_slice(),
            next: 0,
        }
    }

    /// The handles of the sockets, by rising index.
    pub fn handles(&self) -> HandlesOf<'_, L>
        ensures { result ≡ handles self.now }
    {
        HandlesOf { iter: self.iter() }
    }

    /// Whether the socket at an index may be asked for packets at a moment: it doesn't wait, or the next hop that it
    /// waits for is known, which ends the wait, or the wait has passed. `false` for a free index, and one out of range.
    pub(crate) fn egress_permitted<F: Fn(IpAddress) -> bool>(
        &mut self,
        index: usize,
        timestamp: Instant,
        has_neighbor: F,
    ) -> bool
        requires { F.IsAlwaysCallable has_neighbor }
        ensures socket { IsSome (socket_at self.old index) →
            (known : Bool) × IsAnswerFor (F.post has_neighbor) (wait_at self.old index) known
            × (result ≡ is_permitted (wait_at self.old index) known timestamp)
            × (self.new ≡ with_wait self.old index (after_asking (wait_at self.old index) known)) }
        ensures nobody { IsNone (socket_at self.old index) → (result ≡ false) × (self.new ≡ self.old) }
    {
        let Some(storage) = self.sockets.get_mut(index) else {
            return false;
        };
        if storage.inner.is_none() {
            return false;
        }
        storage.meta.egress_permitted(timestamp, has_neighbor)
    }

    /// Returns the first index from one on whose socket may have something to send, now or later, or waits; the number
    /// of indices, where there is none. The sockets at the indices between are idle.
    #[inline(always)]
    pub(crate) fn next_busy(&self, from: usize) -> usize
        ensures within { result ≤ length self.now.places }
        ensures after { from ≤ length self.now.places → from ≤ result }
        ensures idle { (i : ℕ) → from ≤ i → i < result → IsIdle self.now i }
    {
        self.busy.next(from, self.sockets.len())
    }

    /// Whether a raw or ICMP socket may be in the set. Where it returns `false`, there is none.
    #[inline(always)]
    pub(crate) fn may_have_portless(&self) -> bool
        ensures { result ≡ false → AllHavePorts self.now }
    {
        self.portless
    }

    /// Returns the first index from one on whose socket may have this own port, or no port for `None`; the number of
    /// indices, where there is none. The indices between have other sockets, or none.
    #[inline(always)]
    pub(crate) fn next_at(&self, from: usize, port: Option<u16>) -> usize
        ensures within { result ≤ length self.now.places }
        ensures after { from ≤ length self.now.places → from ≤ result }
        ensures passed { (i : ℕ) → from ≤ i → i < result → IfSome (socket_at self.now i) (λ s. own_port s ≢ port) }
    {
        self.keys.next(from, self.sockets.len(), key_of(port))
    }

    /// Records whether the socket at an index is idle, and its own port, until it is lent for writing again: an idle
    /// one is skipped. Returns whether it is idle.
    #[inline(always)]
    pub(crate) fn rest(&mut self, index: usize) -> bool
        ensures idle { result ≡ true → IsIdle self.old index }
        ensures unchanged { self.new ≡ self.old }
    {
        let Some(storage) = self.sockets.get(index) else {
            return true;
        };
        if storage.is_busy() {
            return false;
        }
        let key = storage.key();
        self.keys.set(index, key);
        self.busy.clear(index);
        true
    }

    /// Returns when the socket at an index wants to be asked for a packet: by its own answer, or at the end of its wait
    /// where it has to wait. `has_neighbor` says whether the next hop to a destination is known. A free index, and one
    /// out of range, has no socket that does.
    pub(crate) fn poll_at<F: Fn(IpAddress) -> bool>(
        &self,
        index: usize,
        timestamp: Instant,
        has_neighbor: F,
    ) -> PollAt
        requires { F.IsAlwaysCallable has_neighbor }
        ensures socket { IfSome (socket_at self.now index)
            (λ s. (known : Bool) × IsAnswerFor (F.post has_neighbor) (wait_at self.now index) known
            × (result ≡ poll_at_of (wait_at self.now index) known timestamp (own_poll_at s))) }
        ensures nobody { IsNone (socket_at self.now index) → result ≡ Ingress }
    {
        let Some(storage) = self.sockets.get(index) else {
            return PollAt::Ingress;
        };
        storage.poll_at(timestamp, has_neighbor)
    }

    /// Lets the socket at an index wait for the next hop to a destination, until 1 s after the moment.
    pub(crate) fn neighbor_missing(&mut self, index: usize, timestamp: Instant, neighbor: IpAddress)
        requires { IsMoment timestamp }
        ensures { self.new ≡ with_wait self.old index (Some (neighbor, silence_from timestamp)) }
    {
        self.busy.set(index);
        let Some(storage) = self.sockets.get_mut(index) else {
            return;
        };
        storage.meta.neighbor_missing(timestamp, neighbor);
    }

    /// Lets the socket at an index wait for the next hop to a destination until an instant, or not wait.
    pub(crate) fn set_wait(&mut self, index: usize, wait: Option<(IpAddress, Instant)>)
        ensures { self.new ≡ with_wait self.old index wait }
    {
        self.busy.set(index);
        let Some(storage) = self.sockets.get_mut(index) else {
            return;
        };
        storage.meta = Meta::of(wait);
    }

    /// Whether the socket at an index waits.
    #[inline(always)]
    pub(crate) fn is_waiting(&self, index: usize) -> bool
        ensures { result ≡ is_some (wait_of self.now index) }
    {
        match self.sockets.get(index) {
            Some(storage) => storage.is_waiting(),
            None => false,
        }
    }

    /// Whether the socket at an index waits for the next hop to a destination, until an instant.
    #[inline(always)]
    pub(crate) fn is_wait_at(&self, index: usize, destination: &IpAddress, until: Instant) -> bool
        ensures { result ≡ is_wait destination.now until (wait_of self.now index) }
    {
        match self.sockets.get(index) {
            Some(storage) => storage.is_wait(destination, until),
            None => false,
        }
    }

    /// Removes the socket of a handle, and returns it. `None` exactly for a free index or one out of range; then the
    /// set stays as it was.
    pub fn remove(&mut self, handle: SocketHandle) -> Option<SocketOf<L>>
        ensures value { result ≡ socket_at self.old handle }
        ensures freed { handle < length self.old.places → self.new ≡ with_place self.old handle None }
        ensures unchanged { IsNone result → self.new ≡ self.old }
    {
        let socket = self.take(handle)?;
        if socket.own_port().is_none() {
            self.portless = has_portless(self.sockets.as_slice());
        }
        Some(socket)
    }

    // The same; what is known of kinds stays as it was.
    fn take(&mut self, handle: SocketHandle) -> Option<SocketOf<L>>
        ensures value { result ≡ socket_at self.old handle }
        ensures freed { handle < length self.old.places → self.new ≡ with_place self.old handle None }
        ensures unchanged { IsNone result → self.new ≡ self.old }
    {
        let storage = self.sockets.get_mut(handle.0)?;
        storage.inner.take()
    }
}

// Whether some socket is of a kind without ports.
fn has_portless<L: Drop>(places: &[SocketStorageOf<L>]) -> bool
    ensures { result ≡ false → AllHavePorts (over places.now false 0) }
{
    for index in 0..places.len() {
        if places[index].is_portless() {
            return true;
        }
    }
    false
}

// The least free index, or the number of places.
fn first_free<L>(places: &[SocketStorageOf<L>]) -> usize
    ensures { result ≡ first_free (map (λ p. p.socket) places.now) }
{
    for (i, place) in places.iter().enumerate() {
        if place.socket().is_none() {
            return i;
        }
    }
    places.len()
}

// Whether something is due at once or at a moment.
#[inline(always)]
fn is_due(at: PollAt) -> bool
    ensures { result ≡ false → at ≡ Ingress }
{
    match at {
        PollAt::Now | PollAt::Time(_) => true,
        PollAt::Ingress => false,
    }
}
