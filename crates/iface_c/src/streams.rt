//! Connections of TCP: how they are made and polled, and how each begins.
ghost use Rattle.std.specs.Prelude.{◌≡◌, ◌≢◌, None, IsSomeAnd};
ghost use Rattle.iface_c.specs.Addresses.{end_in, listen_end_in};
ghost use Rattle.iface_c.specs.Handle.{host_in};
ghost use Rattle.iface_c.specs.Status.{IsDueOrMemory};
ghost use Rattle.iface_c.specs.Streams as spec;
ghost use Rattle.iface_c.specs.StreamsHandle.{streams_in};
ghost use Rattle.iface_host.specs.Refusals.{moment_refusal};
ghost use Rattle.iface_streams.specs.Connect.{ClosesListener, Listens, listen_refusal, listener_refusal};
ghost use Rattle.iface_streams.specs.Poll.{Polls};

use crate::addresses::IfaceEndpoint;
use crate::handle::Iface;
use crate::status::{BAD_ARGUMENT, HAS_STREAMS, IN_USE, NO_HOST, NO_STREAMS, OK, code};
use crate::streams_handle::IfaceStreams;
use iface_host::Room;
use iface_streams::{ConnectRefusal, StreamSettings, Streams};
use std::alloc::Global;
use tcp_host::calls::Handle;
use tcp_host::sip_hash::SipKey;
use tcp_machine::settings::Settings;

/// How connections are to be made.
#[repr(C)]
#[derive(Drop)]
pub struct IfaceStreamsConfig {
    /// The secret of initial numbers.
    pub number_key: [u8; 32],
    /// The secret by which ends are hashed: its two words.
    pub table_key: [u64; 2],
    /// How long nothing arrives before a peer is probed, in microseconds; 0 for never.
    pub keep_alive: u64,
    /// The same of a peer that asked for the connection.
    pub accepted_keep_alive: u64,
    /// How long what was sent may stay unacknowledged, in microseconds; with 0 the number of tries decides.
    pub timeout: u64,
    /// How long an acknowledgement of octets in order may wait, in microseconds.
    pub ack_delay: u64,
    /// The shortest time after which something is sent again, in microseconds.
    pub shortest_timeout: u64,
    /// How long TIME-WAIT lasts, in microseconds.
    pub time_wait: u64,
    /// How long a connection may go on that was released, in microseconds.
    pub release_timeout: u64,
    /// How many connections there are at most.
    pub places: u32,
    /// How many octets each may hold that aren't acknowledged.
    pub send_room: u32,
    /// How many octets each may hold that aren't read.
    pub receive_room: u32,
    /// How many packets wait between the connections and the host at most, each way and family.
    pub packets: u32,
    /// How many octets they have together.
    pub packet_octets: u32,
    /// How many octets packets have together that wait for peers that haven't answered.
    pub far_octets: u32,
    /// Whether they go over IPv4: 0, or not.
    pub ipv4: u8,
    /// Whether they go over IPv6.
    pub ipv6: u8,
    /// Whether short segments wait while something is unacknowledged.
    pub nagle: u8,
    /// Whether a congestion window narrows what is sent.
    pub congestion_control: u8,
}

/// The name of a connection.
#[repr(C)]
#[derive(Drop)]
pub struct IfaceStream {
    /// Its place.
    pub place: usize,
    /// How often the place was given away before.
    pub generation: u64,
}

impl IfaceStream {
    /// The name as connections know it.
    pub fn handle(&self) -> Handle
        ensures { result ≡ spec.handle_in self.now }
    {
        Handle {
            place: self.place,
            generation: self.generation,
        }
    }

    /// A name as C reads it.
    pub fn of(handle: Handle) -> IfaceStream
        ensures { result ≡ spec.handle_for_c handle }
    {
        IfaceStream {
            place: handle.place,
            generation: handle.generation,
        }
    }
}

/// A time in microseconds, unless it is 0.
pub(crate) fn time_unless_0(micros: u64) -> Option<u64>
    ensures { result ≡ spec.time_in micros }
{
    if micros == 0 { None } else { Some(micros) }
}

impl IfaceStreamsConfig {
    /// What each connection begins with.
    fn connection(&self) -> Settings
        ensures { result ≡ spec.connection_in self.now }
    {
        Settings {
            nagle: self.nagle != 0,
            ack_delay: self.ack_delay,
            keep_alive: time_unless_0(self.keep_alive),
            timeout: time_unless_0(self.timeout),
            shortest_timeout: self.shortest_timeout,
            congestion_control: self.congestion_control != 0,
            time_wait: self.time_wait,
            own_mss: 0,
            own_scale: 0,
        }
    }

    /// The settings.
    fn settings(&self) -> StreamSettings
        ensures { result ≡ spec.settings_in self.now }
    {
        let [k0, k1] = self.table_key;
        StreamSettings {
            places: self.places as usize,
            send_room: self.send_room as usize,
            receive_room: self.receive_room as usize,
            ipv4: self.ipv4 != 0,
            ipv6: self.ipv6 != 0,
            near: Room {
                packets: self.packets as usize,
                octets: self.packet_octets as usize,
            },
            far_octets: self.far_octets as usize,
            connection: self.connection(),
            accepted_keep_alive: time_unless_0(self.accepted_keep_alive),
            release_timeout: self.release_timeout,
            number_key: self.number_key,
            table_key: SipKey { k0, k1 },
        }
    }
}

/// Writes the configuration that most programs want, without the two secrets.
#[unsafe(no_mangle)]
pub extern "C" fn iface_streams_config_init(config: &mut IfaceStreamsConfig)
    ensures { config.new ≡ spec.usual }
{
    *config = IfaceStreamsConfig {
        number_key: [0; 32],
        table_key: [0; 2],
        keep_alive: 0,
        accepted_keep_alive: 120_000_000,
        timeout: 0,
        ack_delay: 10_000,
        shortest_timeout: 200_000,
        time_wait: 60_000_000,
        release_timeout: 120_000_000,
        places: 8,
        send_room: 4_096,
        receive_room: 4_096,
        packets: 8,
        packet_octets: 1_536,
        far_octets: 1_024,
        ipv4: 1,
        ipv6: 1,
        nagle: 1,
        congestion_control: 1,
    };
}

/// Makes connections for a host, which their handle owns from then on.
#[unsafe(no_mangle)]
pub extern "C" fn iface_streams_new(
    handle: &mut IfaceStreams,
    host_handle: &mut Iface,
    alloc: Global,
    config: &IfaceStreamsConfig,
) -> u32
    ensures made { spec.Made result config.now handle.old handle.new host_handle.old host_handle.new }
    ensures code { IsDueOrMemory (spec.code_for_new (spec.settings_in config.now) (streams_in handle.old)
        (host_in host_handle.old)) result }
{
    if handle.is_made() {
        return HAS_STREAMS;
    }
    let settings = config.settings();
    if !settings.is_proper() {
        return BAD_ARGUMENT;
    }
    let Some(mut host) = host_handle.take(alloc) else {
        return NO_HOST;
    };
    let done = Streams::new(alloc, &mut host, &settings);
    host_handle.put(host);
    match done {
        Ok(made) => {
            handle.put(made);
            OK
        }
        Err(refusal) => code(refusal),
    }
}

/// Lets connections do what is due at a moment.
#[unsafe(no_mangle)]
pub extern "C" fn iface_streams_poll(
    handle: &mut IfaceStreams,
    host_handle: &mut Iface,
    alloc: Global,
    now: i64,
) -> u32
    ensures done { spec.DidBoth result (Polls now) handle.old handle.new host_handle.old host_handle.new }
    ensures code { result ≡ spec.code_of_both (λ _ _. moment_refusal now) (streams_in handle.old) (host_in host_handle.old) }
{
    let Some(mut streams) = handle.take(alloc) else {
        return NO_STREAMS;
    };
    let Some(mut host) = host_handle.take(alloc) else {
        handle.put(streams);
        return NO_HOST;
    };
    let done = streams.poll(&mut host, now);
    host_handle.put(host);
    handle.put(streams);
    match done {
        Ok(()) => OK,
        Err(refusal) => code(refusal),
    }
}

/// Writes when connections are to be polled next, the last number for never.
#[unsafe(no_mangle)]
pub extern "C" fn iface_streams_poll_at(
    handle: &mut IfaceStreams,
    alloc: Global,
    at: &mut i64,
) -> u32
    ensures done { spec.DidOne result (spec.ShowsPollAt at.new) handle.old handle.new }
    ensures code { result ≡ spec.code_of_one (λ _. None) (streams_in handle.old) }
    ensures kept { result ≢ 0 → at.new ≡ at.old }
{
    let Some(streams) = handle.take(alloc) else {
        return NO_STREAMS;
    };
    let due = streams.poll_at();
    handle.put(streams);
    *at = due.unwrap_or(i64::MAX);
    OK
}

/// Frees connections, and closes their sockets of a host, if there is one: their handle owns none from then on.
#[unsafe(no_mangle)]
pub extern "C" fn iface_streams_free(
    handle: &mut IfaceStreams,
    host_handle: &mut Iface,
    alloc: Global,
) -> u32
    ensures freed { streams_in handle.new ≡ None }
    ensures host { spec.Frees (streams_in handle.old) (host_in host_handle.old) (host_in host_handle.new) }
    ensures code { result ≡ spec.code_of_one (λ _. None) (streams_in handle.old) }
{
    let Some(mut streams) = handle.take(alloc) else {
        return NO_STREAMS;
    };
    if let Some(mut host) = host_handle.take(alloc) {
        streams.close(&mut host);
        host_handle.put(host);
    }
    drop(streams);
    OK
}

/// Listens at a port, and writes the listener's number.
#[unsafe(no_mangle)]
pub extern "C" fn iface_stream_listen(
    handle: &mut IfaceStreams,
    alloc: Global,
    local: &IfaceEndpoint,
    backlog: u32,
    listener: &mut usize,
) -> u32
    ensures done { spec.DidOne result (λ old new. IsSomeAnd (listen_end_in local.now)
        (λ end. Listens end backlog listener.new old new)) handle.old handle.new }
    ensures code { IsDueOrMemory (spec.code_with listen_refusal (listen_end_in local.now) (streams_in handle.old)) result }
    ensures kept { result ≢ 0 → listener.new ≡ listener.old }
{
    let Some(local) = local.listen_end() else {
        return BAD_ARGUMENT;
    };
    let Some(mut streams) = handle.take(alloc) else {
        return NO_STREAMS;
    };
    let done = streams.listen(alloc, local, backlog as usize);
    handle.put(streams);
    match done {
        Ok(number) => {
            *listener = number;
            OK
        }
        Err(refusal) => code(refusal),
    }
}

/// Takes the connection of a listener that waits longest, and writes its name.
#[unsafe(no_mangle)]
pub extern "C" fn iface_stream_accept(
    handle: &mut IfaceStreams,
    alloc: Global,
    listener: usize,
    stream: &mut IfaceStream,
) -> u32
    ensures accepted { spec.Accepted result listener stream.old stream.new (streams_in handle.old) (streams_in handle.new) }
{
    let Some(mut streams) = handle.take(alloc) else {
        return NO_STREAMS;
    };
    let done = streams.accept(listener);
    handle.put(streams);
    match done {
        Ok(accepted) => {
            *stream = IfaceStream::of(accepted);
            OK
        }
        Err(refusal) => code(refusal),
    }
}

/// Writes the name of a connection that changed.
#[unsafe(no_mangle)]
pub extern "C" fn iface_streams_changed(
    handle: &mut IfaceStreams,
    alloc: Global,
    stream: &mut IfaceStream,
) -> u32
    ensures changed { spec.Changed result stream.old stream.new (streams_in handle.old) (streams_in handle.new) }
{
    let Some(mut streams) = handle.take(alloc) else {
        return NO_STREAMS;
    };
    let done = streams.changed();
    handle.put(streams);
    match done {
        Ok(changed) => {
            *stream = IfaceStream::of(changed);
            OK
        }
        Err(refusal) => code(refusal),
    }
}

/// Closes a listener.
#[unsafe(no_mangle)]
pub extern "C" fn iface_stream_close_listener(
    handle: &mut IfaceStreams,
    alloc: Global,
    listener: usize,
) -> u32
    ensures done { spec.DidOne result (ClosesListener listener) handle.old handle.new }
    ensures code { result ≡ spec.code_of_one (listener_refusal listener) (streams_in handle.old) }
{
    let Some(mut streams) = handle.take(alloc) else {
        return NO_STREAMS;
    };
    let done = streams.close_listener(listener);
    handle.put(streams);
    match done {
        Ok(()) => OK,
        Err(refusal) => code(refusal),
    }
}

/// Opens a connection, and writes its name.
#[unsafe(no_mangle)]
pub extern "C" fn iface_stream_connect(
    handle: &mut IfaceStreams,
    host_handle: &mut Iface,
    alloc: Global,
    now: i64,
    local: &IfaceEndpoint,
    remote: &IfaceEndpoint,
    stream: &mut IfaceStream,
) -> u32
    ensures done { spec.Connected result now (listen_end_in local.now) (end_in remote.now) stream.new
        (streams_in handle.old) (streams_in handle.new) (host_in host_handle.old) }
    ensures code { spec.IsConnectCode now (listen_end_in local.now) (end_in remote.now)
        (streams_in handle.old) (host_in host_handle.old) result }
    ensures kept { result ≢ 0 → stream.new ≡ stream.old }
    ensures host { host_in host_handle.new ≡ host_in host_handle.old }
{
    let Some(local) = local.listen_end() else {
        return BAD_ARGUMENT;
    };
    let Some(remote) = remote.end() else {
        return BAD_ARGUMENT;
    };
    let Some(mut streams) = handle.take(alloc) else {
        return NO_STREAMS;
    };
    let Some(host) = host_handle.take(alloc) else {
        handle.put(streams);
        return NO_HOST;
    };
    let done = streams.connect(&host, now, local, remote);
    host_handle.put(host);
    handle.put(streams);
    match done {
        Ok(opened) => {
            *stream = IfaceStream::of(opened);
            OK
        }
        Err(ConnectRefusal::InUse) => IN_USE,
        Err(ConnectRefusal::Refused(refusal)) => code(refusal),
    }
}
