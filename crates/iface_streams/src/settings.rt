//! How connections are to be made.
ghost use Rattle.std.specs.Prelude.{◌≡◌, ◌≤◌};
ghost use Rattle.iface_streams.specs.Settings as spec;

use iface_host::Room;
use tcp_host::config::Config;
use tcp_host::sip_hash::SipKey;
use tcp_machine::settings::Settings;

/// The most connections, and the most octets of each that a host keeps each way.
pub const MOST: usize = 1 << 30;

/// How connections are to be made.
#[derive(Clone, Copy, Debug)]
pub struct StreamSettings {
    /// How many there are at most: from 1 to 2^30.
    pub places: usize,
    /// How many octets each may hold that aren't acknowledged, at most 2^30.
    pub send_room: usize,
    /// How many octets each may hold that aren't read, at most 2^30.
    pub receive_room: usize,
    /// Whether they go over IPv4.
    pub ipv4: bool,
    /// Whether they go over IPv6. One of the two has to be.
    pub ipv6: bool,
    /// What the raw socket of each family holds each way for peers that have answered.
    pub near: Room,
    /// How many octets the one for other peers holds.
    pub far_octets: usize,
    /// What each begins with. Its MSS and window scale are set by the link and by the room.
    pub connection: Settings,
    /// How long nothing arrives before the peer of a connection is probed that a listener began, in microseconds, in place of
    /// `connection.keep_alive`. With `None` it never is.
    pub accepted_keep_alive: Option<u64>,
    /// How long a connection may go on that was released, in microseconds.
    pub release_timeout: u64,
    /// The secret of initial numbers (RFC 6528 3).
    pub number_key: [u8; 32],
    /// The secret by which ends are hashed.
    pub table_key: SipKey,
}

impl StreamSettings {
    /// Whether connections can be made by them. A secret of zeros was forgotten.
    pub fn is_proper(&self) -> bool
        ensures { result ≡ spec.is_proper self.now }
    {
        self.places >= 1
            && self.places <= MOST
            && self.send_room <= MOST
            && self.receive_room <= MOST
            && (self.ipv4 || self.ipv6)
            && has_secret(&self.number_key)
            && (self.table_key.k0 != 0 || self.table_key.k1 != 0)
    }

    /// How many sockets of a host they take: two for each family.
    pub fn sockets(&self) -> usize
        ensures { result ≡ spec.sockets self.now }
    {
        match (self.ipv4, self.ipv6) {
            (true, true) => 4,
            (true, false) | (false, true) => 2,
            (false, false) => 0,
        }
    }

    /// What a host of connections is made with, over a link whose longest packets have so many octets.
    pub(crate) fn config(&self, ip_mtu: usize) -> Config
        ensures value { result ≡ spec.config_for self.now ip_mtu }
        ensures scale { result.settings.own_scale ≤ 14 }
    {
        Config {
            send_room: self.send_room,
            receive_room: self.receive_room,
            mss_v4: octets_less(ip_mtu, 40),
            mss_v6: octets_less(ip_mtu, 60),
            settings: Settings {
                own_scale: scale_for(self.receive_room),
                ..self.connection
            },
            accepted_keep_alive: self.accepted_keep_alive,
            release_timeout: self.release_timeout,
            number_key: self.number_key,
            table_key: self.table_key,
        }
    }
}

/// Whether a secret has been set: not all of its octets are 0.
fn has_secret(key: &[u8]) -> bool
    ensures { result ≡ spec.has_secret key.now }
{
    key.iter().any(|octet| *octet != 0)
}

/// So many octets less those of headers, at most 65,535.
fn octets_less(octets: usize, headers: usize) -> u16
    ensures { result ≡ spec.octets_less octets headers }
{
    octets.saturating_sub(headers).min(65_535) as u16
}

/// The least window scale by which so much room can be told in 16 bits, at most 14 (RFC 7323 2.2, 2.3).
#[tactic(auto, using(crate::proofs::Shares::few_zeros))]
fn scale_for(room: usize) -> u8
    ensures value { result ≡ spec.scale_for room }
    ensures within { result ≤ 14 }
{
    let bits = usize::BITS - (room >> 16).leading_zeros();
    bits.min(14) as u8
}
