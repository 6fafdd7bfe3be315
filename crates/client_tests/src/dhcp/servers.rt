//! What servers answer in these tests: those of 192.168.69.1 and of 192.168.69.2, to the client 02-00-00-00-00-01.
use dhcp_client::{DhcpLease, DhcpMessageType, DhcpOptions, DhcpRepr};
use ip_address::{EthernetAddress, Ipv4Address};

pub const HARDWARE: EthernetAddress = EthernetAddress([2, 0, 0, 0, 0, 1]);

pub const NOBODY: Ipv4Address = Ipv4Address { bits: 0 };

pub const EVERYBODY: Ipv4Address = Ipv4Address { bits: 0xffff_ffff };

pub const SERVER: Ipv4Address = Ipv4Address { bits: 0xc0a8_4501 };

pub const OTHER: Ipv4Address = Ipv4Address { bits: 0xc0a8_4502 };

pub const ADDRESS: Ipv4Address = Ipv4Address { bits: 0xc0a8_4569 };

pub const MASK: Ipv4Address = Ipv4Address { bits: 0xffff_ff00 };

/// A second, in microseconds.
pub const SECOND: u64 = 1_000_000;

/// A message of a server, about this address and for so many seconds.
pub fn answer(
    message_type: DhcpMessageType,
    transaction_id: u32,
    server: Ipv4Address,
    your_ip: Ipv4Address,
    lease_duration: Option<u32>,
) -> DhcpRepr {
    let mut options = DhcpOptions::new();
    options.server_identifier = Some(server);
    options.lease_duration = lease_duration;
    options.subnet_mask = Some(MASK);
    options.router = Some(server);
    DhcpRepr {
        message_type,
        transaction_id,
        secs: 0,
        broadcast: true,
        client_ip: NOBODY,
        your_ip,
        server_ip: server,
        relay_agent_ip: NOBODY,
        client_hardware_address: HARDWARE,
        options,
    }
}

/// An offer of the address, for so many seconds.
pub fn offer(transaction_id: u32, server: Ipv4Address) -> DhcpRepr {
    answer(
        DhcpMessageType::Offer,
        transaction_id,
        server,
        ADDRESS,
        Some(120),
    )
}

/// An agreement to lease the address, for so many seconds.
pub fn ack(transaction_id: u32, server: Ipv4Address, seconds: u32) -> DhcpRepr {
    answer(
        DhcpMessageType::Ack,
        transaction_id,
        server,
        ADDRESS,
        Some(seconds),
    )
}

/// A refusal.
pub fn nak(transaction_id: u32, server: Ipv4Address) -> DhcpRepr {
    answer(DhcpMessageType::Nak, transaction_id, server, NOBODY, None)
}

/// Whether a lease is of the address, of this server, and has these times in seconds: T1, T2 and its end.
pub fn is_leased(lease: Option<DhcpLease>, server: Ipv4Address, seconds: [u128; 3]) -> bool {
    let Some(lease) = lease else {
        return false;
    };
    let Some(times) = lease.times else {
        return false;
    };
    let second = u128::from(SECOND);
    lease.address == ADDRESS
        && lease.server == server
        && times.renew_at / second == seconds[0]
        && times.rebind_at / second == seconds[1]
        && times.expires_at / second == seconds[2]
}
