//! DHCP messages (RFC 2131 2), with an Ethernet address as the client's.
ghost use Rattle.std.specs.Prelude.{◌≡◌, ◌+◌, ◌<◌, ◌≤◌, ◌++◌, ◌||◌, ◌==◌, ◌&&◌, not, length};
ghost use Rattle.std.specs.Option.{SomeIff};
ghost use Rattle.dhcp_client.specs.Options as options;
ghost use Rattle.dhcp_client.specs.Details.Routes as routes;
ghost use Rattle.dhcp_client.specs.Details.Message as spec;

use crate::options::{
    DhcpOptions, OptionData, address_in, append_address, append_identifier, append_list,
    append_option, append_seconds, append_size, are_whole, hardware_address_at, identifier_in,
    join, listed_at, octet_in, seconds_in, size_in,
};
use crate::routes::{DhcpRoutes, are_routes, default_router_in, routes_of};
use ip_address::{EthernetAddress, Ipv4Address};
use ip_wire::emit::FrameBuffer;
use ip_wire::octets::{u16_at, u32_at};

/// The port of servers, over UDP (RFC 2131 4.1).
pub const SERVER_PORT: u16 = 67;

/// The port of clients, over UDP (RFC 2131 4.1).
pub const CLIENT_PORT: u16 = 68;

/// The octets before a message's options, with the four that say that these are DHCP's.
pub const HEADER_LEN: usize = 240;

/// The four octets before the options: 99, 130, 83, 99 (RFC 2131 3).
const MAGIC_COOKIE: u32 = 0x6382_5363;

/// The type of a message (RFC 2132 9.6).
#[derive(Clone, Copy, Debug, PartialEq, Eq)]
pub enum DhcpMessageType {
    Discover,
    Offer,
    Request,
    Decline,
    Ack,
    Nak,
    Release,
    Inform,
}

impl DhcpMessageType {
    /// The number of a type.
    const fn number(self) -> u8
        ensures { result ≡ spec.number_of self }
    {
        match self {
            DhcpMessageType::Discover => 1,
            DhcpMessageType::Offer => 2,
            DhcpMessageType::Request => 3,
            DhcpMessageType::Decline => 4,
            DhcpMessageType::Ack => 5,
            DhcpMessageType::Nak => 6,
            DhcpMessageType::Release => 7,
            DhcpMessageType::Inform => 8,
        }
    }

    /// The operation of a type's messages: 2, BOOTREPLY, of those that servers send, otherwise 1, BOOTREQUEST.
    const fn operation(self) -> u8
        ensures { result ≡ spec.operation_of (spec.number_of self) }
    {
        match self {
            DhcpMessageType::Offer | DhcpMessageType::Ack | DhcpMessageType::Nak => 2,
            _ => 1,
        }
    }

    /// The type of a number, if there is one.
    const fn from_number(number: u8) -> Option<DhcpMessageType>
        ensures { SomeIff result (spec.IsTypeNumber number) (spec.type_of number) }
    {
        match number {
            1 => Some(DhcpMessageType::Discover),
            2 => Some(DhcpMessageType::Offer),
            3 => Some(DhcpMessageType::Request),
            4 => Some(DhcpMessageType::Decline),
            5 => Some(DhcpMessageType::Ack),
            6 => Some(DhcpMessageType::Nak),
            7 => Some(DhcpMessageType::Release),
            8 => Some(DhcpMessageType::Inform),
            _ => None,
        }
    }
}

/// The values of a message.
#[derive(Clone, Copy, Debug, PartialEq, Eq)]
pub struct DhcpRepr {
    pub message_type: DhcpMessageType,
    /// The number that a client chooses, and by which it knows the answers (xid).
    pub transaction_id: u32,
    /// For how many seconds the client has tried (secs).
    pub secs: u16,
    /// Whether the answer is to be broadcast, since the client has no address yet (flags).
    pub broadcast: bool,
    /// The address of a client that has one (ciaddr); otherwise 0.0.0.0.
    pub client_ip: Ipv4Address,
    /// The client's address, as the server gives it (yiaddr).
    pub your_ip: Ipv4Address,
    /// The server to boot from (siaddr).
    pub server_ip: Ipv4Address,
    /// By which relay agent the message came (giaddr).
    pub relay_agent_ip: Ipv4Address,
    /// The client's Ethernet address (chaddr).
    pub client_hardware_address: EthernetAddress,
    pub options: DhcpOptions,
}

impl DhcpRepr {
    /// Parses a message into its values.
    ///
    /// Options stand behind the header, and where option 52 says so in the fields for the boot file's name and the
    /// server's name too (RFC 2132 9.3), in this order (RFC 2131 4.1). The data of the options of one code are put together
    /// (RFC 3396); of more than 256 octets the first ones count. Codes that aren't known, and data of another length than the
    /// code's, count as absent.
    ///
    /// `None` exactly in these cases:
    ///
    /// - there are fewer than 240 octets, or the four before the options aren't DHCP's;
    /// - the hardware type isn't Ethernet's, 1, or the length of its addresses isn't 6;
    /// - an option's length runs out of the field that it stands in;
    /// - there is no message type of RFC 2132 9.6, or the operation isn't that type's.
    pub fn parse(message: &[u8]) -> Option<DhcpRepr>
        ensures { SomeIff result (spec.IsDhcp message.now) (spec.dhcp_in message.now) }
    {
        if message.len() < HEADER_LEN || !is_for_ethernet(message) || !has_whole_options(message) {
            return None;
        }
        let message_type = DhcpMessageType::from_number(octet_of(message, 53))?;
        if message[0] != message_type.operation() {
            return None;
        }
        Some(values_in(message, message_type))
    }

    /// The list of parameters that a message of at least 240 octets asks for (RFC 2132 9.8), at most 256. It is empty if there
    /// is none.
    pub fn parameters_in(message: &[u8]) -> OptionData
        requires { 240 ≤ length message.now }
        ensures { result.items ≡ spec.data_in 55 message.now }
    {
        data_in(message, 55)
    }

    /// The data of a message's options of a code, put together (RFC 3396); of more than 256 octets the first ones. They are
    /// empty if there is no such option. The message has at least 240 octets.
    pub fn option_in(message: &[u8], code: u8) -> OptionData
        requires { 240 ≤ length message.now }
        ensures { result.items ≡ spec.data_in code message.now }
    {
        data_in(message, code)
    }

    /// The routes that a message of at least 240 octets tells a host with an address: the first eight of option 121 that it can
    /// use (RFC 3442). None if that option isn't there, or malformed.
    pub fn routes_in(message: &[u8], own: &Ipv4Address) -> DhcpRoutes
        requires { 240 ≤ length message.now }
        ensures { result.items ≡ routes.routes_in own.now (spec.data_in 121 message.now) }
    {
        routes_of(data_in(message, 121).as_slice(), own)
    }

    /// Appends a message with these values, a list of parameters that it asks for, and the name of a host, of at most 255 octets
    /// each; an empty one isn't written. The message has at most 321 octets beside the two.
    pub fn emit(&self, parameters: &[u8], host_name: &[u8], out: &mut FrameBuffer)
        requires short { length parameters.now ≤ 255 }
        requires name { length host_name.now ≤ 255 }
        requires room { length out.old + 321 + length parameters.now + length host_name.now ≤ 1514 }
        ensures items { out.new ≡ out.old ++ spec.text self.now parameters.now host_name.now }
        ensures len { length out.new ≤ length out.old + 321 + length parameters.now + length host_name.now }
    {
        emit_header(self, out);
        append_option(53, &[self.message_type.number()], out);
        append_identifier(61, self.options.client_identifier, out);
        append_address(50, self.options.requested_ip, out);
        append_address(54, self.options.server_identifier, out);
        append_size(57, self.options.max_size, out);
        append_seconds(51, self.options.lease_duration, out);
        append_seconds(58, self.options.renew_duration, out);
        append_seconds(59, self.options.rebind_duration, out);
        append_address(1, self.options.subnet_mask, out);
        append_address(3, self.options.router, out);
        append_list(6, &self.options.dns_servers, out);
        append_size(26, self.options.mtu, out);
        append_option(12, host_name, out);
        append_option(55, parameters, out);
        out.append(&[255]);
    }
}

/// Whether a message is DHCP's, with Ethernet addresses.
fn is_for_ethernet(message: &[u8]) -> bool
    requires { 240 ≤ length message.now }
    ensures { result ≡ spec.is_for_ethernet message.now }
{
    message[1] == 1 && message[2] == 6 && u32_at(message, 236) == MAGIC_COOKIE
}

/// In which fields a message has options beside the one for them: 1 in that of the file's name, 2 in that of the server's, 3 in
/// both.
fn overload_in(message: &[u8]) -> u8
    requires { 240 ≤ length message.now }
    ensures { result ≡ spec.overload_in message.now }
{
    let mut data = OptionData::new();
    join(&message[HEADER_LEN..], 52, &mut data);
    octet_in(data.as_slice())
}

/// Whether the options of a message are whole, in each field that has some.
fn has_whole_options(message: &[u8]) -> bool
    requires { 240 ≤ length message.now }
    ensures { result ≡ spec.has_whole_options message.now }
{
    let overload = overload_in(message);
    let own = are_whole(&message[HEADER_LEN..]);
    let file = are_whole_too(own, is_in_file(overload), &message[108..236]);
    are_whole_too(file, is_in_name(overload), &message[44..108])
}

/// Whether options before a field are whole, and those of the field too, if it has some.
fn are_whole_too(before: bool, has_options: bool, field: &[u8]) -> bool
    ensures { result ≡ (before && (not has_options || options.are_whole 0 field.now)) }
{
    before && (!has_options || are_whole(field))
}

/// Whether options stand in the field of the file's name.
const fn is_in_file(overload: u8) -> bool
    ensures { result ≡ spec.is_in_file overload }
{
    overload == 1 || overload == 3
}

/// Whether options stand in the field of the server's name.
const fn is_in_name(overload: u8) -> bool
    ensures { result ≡ spec.is_in_name overload }
{
    overload == 2 || overload == 3
}

/// The data of a message's options of a code.
fn data_in(message: &[u8], code: u8) -> OptionData
    requires { 240 ≤ length message.now }
    ensures { result.items ≡ spec.data_in code message.now }
{
    let overload = overload_in(message);
    let mut data = OptionData::new();
    join(&message[HEADER_LEN..], code, &mut data);
    join_if(is_in_file(overload), &message[108..236], code, &mut data);
    join_if(is_in_name(overload), &message[44..108], code, &mut data);
    data
}

/// Appends the data of a field's options of a code, if there are options in the field.
fn join_if(has_options: bool, field: &[u8], code: u8, data: &mut OptionData)
    requires { length data.old.items ≤ 256 }
    ensures items { data.new.items ≡ options.in_room (data.old.items ++ spec.joined_if has_options code field.now) }
    ensures len { length data.new.items ≤ 256 }
{
    if has_options {
        join(field, code, data);
    }
}

/// The number of one octet that a message's options of a code are; 0 for other data.
#[inline(never)]
fn octet_of(message: &[u8], code: u8) -> u8
    requires { 240 ≤ length message.now }
    ensures { result ≡ options.octet_in (spec.data_in code message.now) }
{
    octet_in(data_in(message, code).as_slice())
}

/// The address that a message's options of a code are.
#[inline(never)]
fn address_of(message: &[u8], code: u8) -> Option<Ipv4Address>
    requires { 240 ≤ length message.now }
    ensures { result ≡ options.address_in (spec.data_in code message.now) }
{
    address_in(data_in(message, code).as_slice())
}

/// The number of seconds that a message's options of a code are.
#[inline(never)]
fn seconds_of(message: &[u8], code: u8) -> Option<u32>
    requires { 240 ≤ length message.now }
    ensures { result ≡ options.seconds_in (spec.data_in code message.now) }
{
    seconds_in(data_in(message, code).as_slice())
}

/// The number of octets that a message's options of a code are.
#[inline(never)]
fn size_of(message: &[u8], code: u8) -> Option<u16>
    requires { 240 ≤ length message.now }
    ensures { result ≡ options.size_in (spec.data_in code message.now) }
{
    size_in(data_in(message, code).as_slice())
}

/// The router of a message: that of its default route where it tells routes, else the first one of its list.
#[inline(never)]
fn router_of(message: &[u8]) -> Option<Ipv4Address>
    requires { 240 ≤ length message.now }
    ensures { result ≡ spec.router_in message.now }
{
    let routes = data_in(message, 121);
    if are_routes(routes.as_slice()) {
        return default_router_in(routes.as_slice());
    }
    listed_at(data_in(message, 3).as_slice(), 0)
}

/// The Ethernet address by which a message's sender is known.
#[inline(never)]
fn identifier_of(message: &[u8]) -> Option<EthernetAddress>
    requires { 240 ≤ length message.now }
    ensures { result ≡ options.identifier_in (spec.data_in 61 message.now) }
{
    identifier_in(data_in(message, 61).as_slice())
}

/// The first three addresses of the list that a message's options of a code are.
#[inline(never)]
fn list_of(message: &[u8], code: u8) -> [Option<Ipv4Address>; 3]
    requires { 240 ≤ length message.now }
    ensures { result ≡ options.list_in (spec.data_in code message.now) }
{
    servers_in(data_in(message, code).as_slice())
}

/// The values of a message of a type.
fn values_in(message: &[u8], message_type: DhcpMessageType) -> DhcpRepr
    requires { 240 ≤ length message.now }
    ensures { result ≡ spec.values_in message.now message_type }
{
    DhcpRepr {
        message_type,
        transaction_id: u32_at(message, 4),
        secs: u16_at(message, 8),
        broadcast: message[10] >= 0x80,
        client_ip: ip_at(message, 12),
        your_ip: ip_at(message, 16),
        server_ip: ip_at(message, 20),
        relay_agent_ip: ip_at(message, 24),
        client_hardware_address: hardware_address_at(message, 28),
        options: options_in(message),
    }
}

/// The values of a message's options.
fn options_in(message: &[u8]) -> DhcpOptions
    requires { 240 ≤ length message.now }
    ensures { result ≡ spec.options_in message.now }
{
    DhcpOptions {
        subnet_mask: address_of(message, 1),
        router: router_of(message),
        dns_servers: list_of(message, 6),
        requested_ip: address_of(message, 50),
        lease_duration: seconds_of(message, 51),
        server_identifier: address_of(message, 54),
        max_size: size_of(message, 57),
        mtu: size_of(message, 26),
        renew_duration: seconds_of(message, 58),
        rebind_duration: seconds_of(message, 59),
        client_identifier: identifier_of(message),
    }
}

/// The first three addresses of a list.
#[inline(always)]
fn servers_in(octets: &[u8]) -> [Option<Ipv4Address>; 3]
    ensures { result ≡ options.list_in octets.now }
{
    [
        listed_at(octets, 0),
        listed_at(octets, 4),
        listed_at(octets, 8),
    ]
}

/// The IP address at an offset.
#[inline(always)]
fn ip_at(message: &[u8], at: usize) -> Ipv4Address
    requires { at + 4 ≤ length message.now }
    ensures { result ≡ spec.ip_at message.now at }
{
    Ipv4Address {
        bits: u32_at(message, at),
    }
}

/// The first octet of the flags, whose first bit is the broadcast flag; the second one is 0.
#[inline(always)]
const fn flags_of(broadcast: bool) -> u8
    ensures { result ≡ spec.flags_of broadcast }
{
    if broadcast { 0x80 } else { 0 }
}

/// Appends what stands before the options.
fn emit_header(repr: &DhcpRepr, out: &mut FrameBuffer)
    requires { length out.old + 240 ≤ 1514 }
    ensures items { out.new ≡ out.old ++ spec.header_text repr.now }
    ensures len { length out.new ≡ length out.old + 240 }
{
    out.append(&fields_of(repr));
    out.append(&repr.client_hardware_address.0);
    out.append(&[0; 202]);
    out.append(&[99, 130, 83, 99]);
}

/// The fields before the client's hardware address.
#[inline(always)]
#[tactic(auto, unfolding(crate::specs::Details::Message::fields_text))]
fn fields_of(repr: &DhcpRepr) -> [u8; 28]
    ensures { result ≡ spec.fields_text repr.now }
{
    let operation = repr.message_type.operation();
    let [x0, x1, x2, x3] = repr.transaction_id.to_be_bytes();
    let [s0, s1] = repr.secs.to_be_bytes();
    let flags = flags_of(repr.broadcast);
    let [c0, c1, c2, c3] = repr.client_ip.octets();
    let [y0, y1, y2, y3] = repr.your_ip.octets();
    let [i0, i1, i2, i3] = repr.server_ip.octets();
    let [r0, r1, r2, r3] = repr.relay_agent_ip.octets();
    [
        operation, 1, 6, 0, x0, x1, x2, x3, s0, s1, flags, 0, c0, c1, c2, c3, y0, y1, y2, y3, i0,
        i1, i2, i3, r0, r1, r2, r3,
    ]
}

/// A message that is emitted is parsed back as its values, and its list of parameters and the host's name stand there.
pub fn read_again()
    ensures { spec.ReadAgain }
{}
