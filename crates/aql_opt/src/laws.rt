//! A law of the driver, as a function without a body.

ghost use Rattle.aql_opt.specs.Theorems.{NoneWithoutServers};

/// Without servers the rules of a cluster leave each plan as it is, and none is told of.
pub fn none_without_servers()
    ensures { NoneWithoutServers }
{}
