//! The hop-by-hop options of IPv6 (RFC 8200 4.2, 4.3), and the Router Alert option (RFC 2711).
ghost use Rattle.std.specs.Prelude.{◌≡◌, ◌+◌, ◌%◌, ◌≤◌, ◌∷◌, ◌++◌, length, replicate};
ghost use Rattle.std.specs.Option.{SomeIff, option_map};
ghost use Rattle.ip_wire.specs.HopByHop as spec;

use crate::emit::FrameBuffer;
use crate::octets::u16_at;
use arrayvec::ArrayVec;
use ip_address::IpProtocol;

/// How many options of a header are parsed. Those after them are ignored.
pub const MAX_OPTIONS: usize = 4;

/// How a packet with an unrecognized option is treated, by the two highest bits of the option's type (RFC 8200 4.2).
#[derive(Clone, Copy, Debug, PartialEq, Eq)]
pub enum Ipv6OptionFailureType {
    /// The option is skipped: 00.
    Skip,
    /// The packet is discarded: 01.
    Discard,
    /// The packet is discarded, and an error sent to its source: 10.
    DiscardSendAll,
    /// The packet is discarded, and an error sent to its source unless its destination is multicast: 11.
    DiscardSendUnicast,
}

/// The values of an option.
#[derive(Clone, Copy, Debug, Default, PartialEq, Eq)]
pub enum Ipv6OptionRepr {
    /// A single octet of padding.
    #[default]
    Pad1,
    /// Padding, with this many octets after its length.
    PadN(u8),
    /// Asks routers on the way to examine the packet; the value says why (RFC 2711 2.1).
    RouterAlert(u16),
    /// Another option, whose data isn't kept.
    Unknown {
        option_type: u8,
        /// The length of its data, in octets.
        length: u8,
    },
}

impl Ipv6OptionRepr {
    /// Parses the option that the octets begin with. Returns it and the octets after it. A Router Alert of a length
    /// other than 2 is an unknown option.
    ///
    /// `None` exactly if the option is cut off: there are no octets, or its length or its data exceeds them.
    fn parse(octets: &[u8]) -> Option<(Ipv6OptionRepr, &[u8])>
        ensures { SomeIff (option_map spec.option_parts result)
            (spec.IsOption octets.now) (spec.first_option octets.now) }
    {
        let option_type = *octets.first()?;
        if option_type == 0 {
            return Some((Ipv6OptionRepr::Pad1, &octets[1..]));
        }
        let length = *octets.get(1)?;
        let end = 2 + usize::from(length);
        if octets.len() < end {
            return None;
        }
        let option = match (option_type, length) {
            (1, _) => Ipv6OptionRepr::PadN(length),
            (5, 2) => Ipv6OptionRepr::RouterAlert(u16_at(octets, 2)),
            _ => Ipv6OptionRepr::Unknown {
                option_type,
                length,
            },
        };
        Some((option, &octets[end..]))
    }

    /// How a packet with this option is treated: known options are skipped.
    pub const fn failure_type(&self) -> Ipv6OptionFailureType
        ensures { result ≡ spec.failure_of self.now }
    {
        match self {
            Ipv6OptionRepr::Unknown { option_type, .. } => match *option_type / 64 {
                0 => Ipv6OptionFailureType::Skip,
                1 => Ipv6OptionFailureType::Discard,
                2 => Ipv6OptionFailureType::DiscardSendAll,
                _ => Ipv6OptionFailureType::DiscardSendUnicast,
            },
            _ => Ipv6OptionFailureType::Skip,
        }
    }

    /// The length of the option, in octets.
    #[tactic(auto, unfolding(crate::specs::HopByHop::option_text))]
    const fn len(&self) -> usize
        ensures value { result ≡ length (spec.option_text self.now) }
        ensures small { result ≤ 257 }
    {
        match self {
            Ipv6OptionRepr::Pad1 => 1,
            Ipv6OptionRepr::RouterAlert(_) => 4,
            Ipv6OptionRepr::PadN(length) | Ipv6OptionRepr::Unknown { length, .. } => {
                2 + *length as usize
            }
        }
    }

    /// Appends the option. Data that wasn't kept is emitted as zeros.
    #[tactic(auto, unfolding(crate::specs::HopByHop::option_text))]
    fn emit(&self, out: &mut FrameBuffer)
        requires { length out.old + length (spec.option_text self.now) ≤ 1514 }
        ensures { out.new ≡ out.old ++ spec.option_text self.now }
    {
        match self {
            Ipv6OptionRepr::Pad1 => out.append(&[0]),
            Ipv6OptionRepr::PadN(length) => emit_zeros(1, *length, out),
            Ipv6OptionRepr::RouterAlert(value) => {
                let [v0, v1] = value.to_be_bytes();
                out.append(&[5, 2, v0, v1]);
            }
            Ipv6OptionRepr::Unknown {
                option_type,
                length,
            } => emit_zeros(*option_type, *length, out),
        }
    }
}

/// Appends an option whose data is zeros.
fn emit_zeros(option_type: u8, len: u8, out: &mut FrameBuffer)
    requires { length out.old + 2 + len ≤ 1514 }
    ensures { out.new ≡ out.old ++ option_type ∷ len ∷ replicate len 0 }
{
    out.append(&[option_type, len]);
    out.append(&[0; 255][..usize::from(len)]);
}

/// The values of a header.
#[derive(Debug, Drop, PartialEq, Eq)]
pub struct Ipv6HopByHopRepr {
    /// The protocol of what follows the header.
    pub next_header: IpProtocol,
    /// The first options, at most four.
    pub options: ArrayVec<Ipv6OptionRepr, MAX_OPTIONS>,
}

impl Ipv6HopByHopRepr {
    /// Parses the header that the octets begin with. Returns it and the octets after it. Only its first four options
    /// are parsed; those after them are never a reason to fail.
    ///
    /// `None` exactly if there are fewer than 8 octets, the header exceeds them, or one of its first four options
    /// exceeds the header.
    pub fn parse(octets: &[u8]) -> Option<(Ipv6HopByHopRepr, &[u8])>
        ensures { SomeIff (option_map spec.parts result) (spec.IsHopByHop octets.now) (spec.hop_by_hop_in octets.now) }
    {
        if octets.len() < 8 {
            return None;
        }
        let header_len = 8 * usize::from(octets[1]) + 8;
        if octets.len() < header_len {
            return None;
        }
        let header = Ipv6HopByHopRepr {
            next_header: IpProtocol::from_number(octets[0]),
            options: options_of(&octets[2..header_len])?,
        };
        Some((header, &octets[header_len..]))
    }

    /// How the packet is treated: as its first option asks that isn't skipped.
    pub fn failure_type(&self) -> Ipv6OptionFailureType
        ensures { result ≡ spec.first_failure self.now.options.items }
    {
        for option in self.options.as_slice() {
            match option.failure_type() {
                Ipv6OptionFailureType::Skip => {}
                failure_type => return failure_type,
            }
        }
        Ipv6OptionFailureType::Skip
    }

    /// The length of the header, in octets.
    pub fn header_len(&self) -> usize
        ensures { result ≡ spec.text_len self.now }
    {
        let mut len = 2;
        for option in self.options.as_slice() {
            len += option.len();
        }
        len
    }

    /// Appends the header. Its length must be a multiple of eight octets: whoever makes it pads the options. The data
    /// of an unknown option is emitted as zeros.
    pub fn emit(&self, out: &mut FrameBuffer)
        requires padded { spec.text_len self.now % 8 ≡ 0 }
        requires room { length out.old + spec.text_len self.now ≤ 1514 }
        ensures items { out.new ≡ out.old ++ spec.text self.now }
        ensures len { length out.new ≡ length out.old + spec.text_len self.now }
    {
        let eights = self.header_len() / 8;
        out.append(&[self.next_header.number(), (eights - 1) as u8]);
        for option in self.options.as_slice() {
            option.emit(out);
        }
    }
}

/// Parses the first options of a header, at most four. `None` exactly if one of them is cut off.
fn options_of(octets: &[u8]) -> Option<ArrayVec<Ipv6OptionRepr, MAX_OPTIONS>>
    ensures { SomeIff result (spec.AreOptions 4 octets.now) (record { items = spec.options_in 4 octets.now }) }
{
    let mut options = ArrayVec::new();
    let mut left = octets;
    while !left.is_empty() && !options.is_full() {
        let (option, after) = Ipv6OptionRepr::parse(left)?;
        options.push(option);
        left = after;
    }
    Some(options)
}

/// A header that is emitted is parsed back, whatever follows it.
pub fn read_again()
    ensures { spec.ReadAgain }
{}
