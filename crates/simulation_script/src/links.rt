//! Lines about links, and about routers between them.

use crate::line::host_in;
use crate::script::{Script, Way};
use crate::words::Words;
use anyhow::{Result, bail};

/// The most links.
const MAX_LINKS: u64 = 8;

/// The most words of a line that name hosts.
const MAX_NAMES: usize = 16;

/// Reads which hosts are on a link, or which are the interfaces of a router, by the word before it.
pub(crate) fn read_link_or_router(
    script: &mut Script,
    word: &str,
    words: &mut Words<'_>,
) -> Result<()> {
    match word {
        "link" => read_link(script, words),
        _ => read_forward(script, words),
    }
}

/// Reads which hosts are on a link. After `to` stands the last of several that follow one another in the script.
fn read_link(script: &mut Script, words: &mut Words<'_>) -> Result<()> {
    let link = link_in(words)?;
    let mut host = host_in(script, words)?;
    put_on_link(script, host, host, link)?;
    for _ in 0..MAX_NAMES {
        if words.is_empty() {
            break;
        }
        host = read_next_host(script, host, link, words)?;
    }
    Ok(())
}

/// The number of a link.
fn link_in(words: &mut Words<'_>) -> Result<usize> {
    match words.number(MAX_LINKS)? {
        0 => bail!("0 is no link"),
        link => Ok(link as usize),
    }
}

/// Reads a host that is on a link too, behind another one, or the last host of those from that one on. Returns its number.
fn read_next_host(
    script: &mut Script,
    before: usize,
    link: usize,
    words: &mut Words<'_>,
) -> Result<usize> {
    let (first, last) = next_hosts_in(script, before, words)?;
    put_on_link(script, first, last, link)?;
    Ok(last)
}

/// The first and the last one of the hosts that are named next: a host, or behind `to` the last of those from one on.
fn next_hosts_in(script: &Script, before: usize, words: &mut Words<'_>) -> Result<(usize, usize)> {
    let word = words.word()?;
    if word == "to" {
        return Ok((before, host_in(script, words)?));
    }
    match script.host_named(word) {
        Some(host) => Ok((host, host)),
        None => bail!("{word} is no host"),
    }
}

/// Puts hosts that follow one another on a link. Fails if the last one isn't behind the first, or if one is a router's.
fn put_on_link(script: &mut Script, first: usize, last: usize, link: usize) -> Result<()> {
    if last < first {
        bail!(
            "{} stands before {}",
            script.name_of(last),
            script.name_of(first)
        );
    }
    for host in first..=last {
        expect_no_router(script, host)?;
        script.set_link(host, link);
    }
    Ok(())
}

/// Fails if a host is an interface of a router already.
fn expect_no_router(script: &Script, host: usize) -> Result<()> {
    if script.way_from(host).is_some() {
        bail!("{} is of a router already", script.name_of(host));
    }
    Ok(())
}

/// Reads the two hosts of a router.
fn read_forward(script: &mut Script, words: &mut Words<'_>) -> Result<()> {
    let way = way_in(script, words)?;
    script.add_way(way)?;
    script.add_way(Way {
        from: way.to,
        to: way.from,
    })
}

/// The way from one host to another one, which are on different links and of no router yet.
fn way_in(script: &Script, words: &mut Words<'_>) -> Result<Way> {
    let from = host_in(script, words)?;
    let to = host_in(script, words)?;
    expect_no_router(script, from)?;
    expect_no_router(script, to)?;
    expect_different_links(script, from, to)?;
    Ok(Way { from, to })
}

/// Fails if two hosts are on one link.
fn expect_different_links(script: &Script, one: usize, other: usize) -> Result<()> {
    if script.link_of(Some(one)) == script.link_of(Some(other)) {
        bail!(
            "{} and {} are on one link",
            script.name_of(one),
            script.name_of(other)
        );
    }
    Ok(())
}
