//! What is set of a host while it runs, and what is read of it.
ghost use Rattle.std.specs.Prelude.{◌≡◌, OnOk, OnErr};
ghost use Rattle.std.specs.Result.{result_err};
ghost use Rattle.iface_host.specs.Properties as spec;
ghost use Rattle.iface_host.specs.Properties.{SetsAnyIp, SetsHardware, SetsTimeout, any_ip_of, hardware_of};
ghost use Rattle.iface_host.specs.Properties.{hardware_refusal, is_in, timeout_of};
ghost use Rattle.iface_host.specs.Stands.{Follows, Stays};
ghost use Rattle.iface_host.specs.TableRefusals.{timeout_refusal};

use crate::host::{IfaceHost, let_fragments_wait};
use crate::refusal::Refusal;
use host_machine::HardwareError;
use ip_wire::{EthernetAddress, HardwareAddress, IpAddress};
use net_base::time::{Duration, Instant};

impl IfaceHost {
    /// Sets whether unicast addresses count as own that are routed to an own address (AnyIP). It can't fail.
    pub fn set_any_ip(&mut self, on: bool)
        ensures { Follows (SetsAnyIp on) self.old self.new }
    {
        self.interface.set_any_ip(on);
    }

    /// Whether unicast addresses count as own that are routed to an own address.
    pub fn any_ip(&self) -> bool
        ensures { result ≡ any_ip_of self.now }
    {
        self.interface.any_ip()
    }

    /// Lets fragments of a packet wait so long for the others, from the next packet on. `BadTimeout` if that is no
    /// time, or longer than a day.
    pub fn set_reassembly_timeout(&mut self, timeout: Duration) -> Result<(), Refusal>
        ensures set { OnOk result (Follows (SetsTimeout timeout) self.old self.new) }
        ensures why { result_err result ≡ timeout_refusal timeout }
        ensures refused { OnErr result (self.new ≡ self.old) }
    {
        let_fragments_wait(&mut self.interface, timeout)
    }

    /// How long fragments of a packet wait for the others.
    pub fn reassembly_timeout(&self) -> Duration
        ensures { result ≡ timeout_of self.now }
    {
        self.interface.reassembly_timeout()
    }

    /// Gives the host another address on Ethernet. `NotThere` if its medium has no hardware addresses, else `NotUnicast`
    /// if the address isn't unicast.
    pub fn set_hardware_address(&mut self, address: EthernetAddress) -> Result<(), Refusal>
        ensures set { OnOk result (Follows (SetsHardware address) self.old self.new) }
        ensures why { result_err result ≡ hardware_refusal self.old address }
        ensures refused { OnErr result (Stays self.old self.new) }
    {
        self.interface.stands_for_a_host();
        match self
            .interface
            .set_hardware_addr(HardwareAddress::Ethernet(address))
        {
            Ok(()) => Ok(()),
            Err(HardwareError::WrongMedium) => Err(Refusal::NotThere),
            Err(HardwareError::NotUnicast) => Err(Refusal::NotUnicast),
        }
    }

    /// Its address on Ethernet, unless its medium has no hardware addresses.
    pub fn hardware_address(&self) -> Option<EthernetAddress>
        ensures { result ≡ hardware_of self.now }
    {
        match self.interface.hardware_addr() {
            Some(HardwareAddress::Ethernet(address)) => Some(address),
            Some(HardwareAddress::Ip) => None,
            None => None,
        }
    }

    /// The moment at which its addresses and routes were last made those that routers advertise, 0 before the first
    /// time.
    pub fn slaac_updated_at(&self) -> Instant
        ensures { result ≡ spec.slaac_updated_at self.now }
    {
        self.interface.slaac_updated_at()
    }

    /// Whether the host is in a group: one that it joined, or one that it is in without that, as all nodes of IPv6 and
    /// the solicited-node groups of its own addresses (RFC 1112, RFC 4291, 2.8).
    pub fn has_group(&self, group: IpAddress) -> bool
        ensures { result ≡ is_in self.now group }
    {
        self.interface.has_multicast_group(&group)
    }
}
