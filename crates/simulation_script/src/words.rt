//! The words of a line, and what they mean.

use anyhow::{Result, bail};
use arrayvec::ArrayVec;
use ip_wire::{EthernetAddress, IpAddress, IpCidr, Ipv4Address, Ipv4Cidr, Ipv6Address, Ipv6Cidr};
use std::net::{Ipv4Addr, Ipv6Addr};

/// The maximum number of words in a line.
const MAX_WORDS: usize = 16;

/// The words of a line, of which some were read.
#[derive(Drop)]
pub struct Words<'a> {
    words: ArrayVec<&'a str, MAX_WORDS>,
    read: usize,
}

impl<'a> Words<'a> {
    /// The words of a line, separated by blanks. Fails if there are more than sixteen.
    pub fn of(line: &'a str) -> Result<Words<'a>> {
        let mut words = ArrayVec::new();
        for word in line.split_whitespace() {
            if words.try_push(word).is_err() {
                bail!("too many words");
            }
        }
        Ok(Words { words, read: 0 })
    }

    /// Whether all words were read.
    pub fn is_empty(&self) -> bool {
        self.read >= self.words.len()
    }

    /// The next word.
    pub fn word(&mut self) -> Result<&'a str> {
        match self.words.get(self.read) {
            Some(word) => {
                self.read = self.read.saturating_add(1);
                Ok(*word)
            }
            None => bail!("a word is missing"),
        }
    }

    /// The next word as a number up to `most`.
    pub fn number(&mut self, most: u64) -> Result<u64> {
        let word = self.word()?;
        match word.parse::<u64>() {
            Ok(number) if number <= most => Ok(number),
            _ => bail!("{word} is no number up to {most}"),
        }
    }

    /// The next word as an address of either family.
    pub fn address(&mut self) -> Result<IpAddress> {
        let word = self.word()?;
        match address_in(word) {
            Some(address) => Ok(address),
            None => bail!("{word} is no address"),
        }
    }

    /// The next word as an address with the length of its prefix.
    pub fn network(&mut self) -> Result<IpCidr> {
        let word = self.word()?;
        match network_in(word) {
            Some(network) => Ok(network),
            None => bail!("{word} is no address with a prefix"),
        }
    }

    /// The next word as an Ethernet address.
    pub fn ethernet(&mut self) -> Result<EthernetAddress> {
        let word = self.word()?;
        match ethernet_in(word) {
            Some(address) => Ok(address),
            None => bail!("{word} is no Ethernet address"),
        }
    }

    /// Fails unless all words were read.
    pub fn end(&self) -> Result<()> {
        if !self.is_empty() {
            bail!("too many words");
        }
        Ok(())
    }
}

/// An address as text.
fn address_in(word: &str) -> Option<IpAddress> {
    if let Ok(address) = word.parse::<Ipv4Addr>() {
        let [a, b, c, d] = address.octets();
        return Some(IpAddress::Ipv4(Ipv4Address::new(a, b, c, d)));
    }
    let [a, b, c, d, e, f, g, h] = word.parse::<Ipv6Addr>().ok()?.segments();
    Some(IpAddress::Ipv6(Ipv6Address::new(a, b, c, d, e, f, g, h)))
}

/// An address, `/`, and a length of a prefix.
fn network_in(word: &str) -> Option<IpCidr> {
    let (address, prefix_len) = word.split_once('/')?;
    let prefix_len = prefix_len.parse::<u8>().ok()?;
    match address_in(address)? {
        IpAddress::Ipv4(address) if prefix_len <= 32 => {
            Some(IpCidr::Ipv4(Ipv4Cidr::new(address, prefix_len)))
        }
        IpAddress::Ipv6(address) if prefix_len <= 128 => {
            Some(IpCidr::Ipv6(Ipv6Cidr::new(address, prefix_len)))
        }
        _ => None,
    }
}

/// Six pairs of hex digits, separated by colons.
fn ethernet_in(word: &str) -> Option<EthernetAddress> {
    let mut octets = [0_u8; 6];
    let mut count = 0_usize;
    for pair in word.split(':') {
        let place = octets.get_mut(count)?;
        *place = u8::from_str_radix(pair, 16).ok()?;
        count = count.saturating_add(1);
    }
    if count != 6 {
        return None;
    }
    Some(EthernetAddress(octets))
}
