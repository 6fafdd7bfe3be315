//! The endpoints between which datagrams and segments are sent.

use ip_wire::IpAddress;
use std::fmt;

/// An endpoint: an address and a port.
#[derive(Clone, Copy, Debug, PartialEq, Eq)]
pub struct IpEndpoint {
    pub addr: IpAddress,
    pub port: u16,
}

/// The endpoint at which a socket listens: a port, of one address or of any.
#[derive(Clone, Copy, Debug, PartialEq, Eq)]
pub struct IpListenEndpoint {
    /// The address; `None` for any.
    pub addr: Option<IpAddress>,
    pub port: u16,
}

impl From<(IpAddress, u16)> for IpEndpoint {
    ghost use Rattle.std.specs.Prelude.{◌≡◌};

    ghost from_gives = { λ end r. r ≡ record { addr = end.0; port = end.1 } };

    fn from((addr, port): (IpAddress, u16)) -> IpEndpoint {
        IpEndpoint { addr, port }
    }
}

/// A port of any address.
impl From<u16> for IpListenEndpoint {
    ghost use Rattle.std.specs.Prelude.{◌≡◌, None};

    ghost from_gives = { λ port r. r ≡ record { addr = None; port = port } };

    fn from(port: u16) -> IpListenEndpoint {
        IpListenEndpoint { addr: None, port }
    }
}

/// A port of one address.
impl From<IpEndpoint> for IpListenEndpoint {
    ghost use Rattle.std.specs.Prelude.{◌≡◌, Some};

    ghost from_gives = { λ end r. r ≡ record { addr = Some end.addr; port = end.port } };

    fn from(end: IpEndpoint) -> IpListenEndpoint {
        IpListenEndpoint {
            addr: Some(end.addr),
            port: end.port,
        }
    }
}

impl fmt::Display for IpEndpoint {
    /// The address, a colon and the port: 192.168.69.1:7.
    fn fmt<W: fmt::Write>(&self, f: &mut fmt::Formatter<W>) -> fmt::Result {
        write!(f, "{}:{}", self.addr, self.port)
    }
}

impl fmt::Display for IpListenEndpoint {
    /// The address, or a star for any, a colon and the port: *:7.
    fn fmt<W: fmt::Write>(&self, f: &mut fmt::Formatter<W>) -> fmt::Result {
        match &self.addr {
            Some(addr) => write!(f, "{addr}:{}", self.port),
            None => write!(f, "*:{}", self.port),
        }
    }
}
