//! Places of queries.
ghost use Rattle.std.specs.Prelude.{◌≡◌, ◌<◌, IfSome, IfNone, length, slice_set, slice_index_or, None};
ghost use Rattle.dns_client.specs.DnsResolver.Resolver as spec;

use crate::dns_resolver::resolver::NamedQuery;

/// The first place without a query, if there is one.
pub(crate) fn free_place(places: &[Option<NamedQuery>]) -> Option<usize>
    ensures { result ≡ spec.free_in places.now }
{
    places.iter().position(|place| place.is_none())
}

/// The query at a place, if there is one.
pub(crate) fn query_at(places: &[Option<NamedQuery>], place: usize) -> Option<&NamedQuery>
    ensures { spec.lent result ≡ slice_index_or places.now place None }
{
    match places.get(place) {
        Some(Some(named)) => Some(named),
        _ => None,
    }
}

/// Puts a query, or none, at a place.
pub(crate) fn set_place(places: &mut [Option<NamedQuery>], place: usize, named: Option<NamedQuery>)
    ensures { places.new ≡ slice_set places.old place named }
{
    if place < places.len() {
        places[place] = named;
    }
}

/// The earliest instant at which something is due for one of these queries to so many servers.
pub(crate) fn earliest(places: &[Option<NamedQuery>], servers: usize) -> Option<u64>
    ensures { result ≡ spec.earliest servers None places.now }
{
    let mut least = None;
    for place in places {
        least = earlier(least, due(place, servers));
    }
    least
}

/// When something is due at a place.
fn due(place: &Option<NamedQuery>, servers: usize) -> Option<u64>
    ensures { result ≡ spec.due servers place.now }
{
    match place {
        Some(named) => named.query().poll_at(servers),
        None => None,
    }
}

/// The earlier of two instants; `None` is never.
fn earlier(one: Option<u64>, other: Option<u64>) -> Option<u64>
    ensures { result ≡ spec.earlier one other }
{
    match (one, other) {
        (Some(one), Some(other)) => Some(one.min(other)),
        (None, other) => other,
        (one, None) => one,
    }
}
