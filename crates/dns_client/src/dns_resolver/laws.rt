//! What a resolver promises, whatever happens to it, each law as the contract of an empty function.
ghost use Rattle.dns_client.specs.DnsResolver.Laws.{EachGoesAlone};

/// Whatever happens to the others, a query that isn't cancelled, nor given a result, goes as if it were alone, by what comes
/// for it and by its owner's calls. So the laws of one query (`crate::laws`) are those of each.
pub fn each_goes_alone()
    ensures { EachGoesAlone }
{}
