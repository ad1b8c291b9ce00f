//! The law of the ports, as the contract of a function that does nothing.
ghost use Rattle.generated_tree.specs.Ports.{PortsAreKnown};

/// In every generated file, each process has the two ports that its text says.
pub fn ports_are_known()
    ensures { PortsAreKnown }
{}
