// The names of a netlist.
ghost use Rattle.std.specs.Prelude.{◌≡◌, IfOk};
ghost use Rattle.cs_share.specs.Names.{names_of};

use crate::types::Names;
use cs_base::{Sequence, Text};
use cs_net::{Netlist, Port};
use std::alloc::{AllocError, Global};

/// Another port of the same name, direction and bits.
pub(crate) fn copy_port(alloc: Global, port: &Port) -> Result<Port, AllocError>
    ensures { IfOk result (λ copy. copy ≡ port.now) }
{
    let bits = Vec::from_slice(alloc, port.bits.as_slice())?;
    Ok(Port {
        name: port.name.copy(alloc)?,
        direction: port.direction,
        bits: Sequence::from_vec(bits),
    })
}

/// Other ports of the same names, directions and bits.
pub(crate) fn copy_ports(alloc: Global, ports: &[Port]) -> Result<Sequence<Port>, AllocError>
    ensures { IfOk result (λ copies. copies ≡ ports.now) }
{
    let mut copies = Sequence::new(alloc);
    for port in ports {
        copies.push(copy_port(alloc, port)?)?;
    }
    Ok(copies)
}

/// Other texts of the same bytes.
pub(crate) fn copy_texts(alloc: Global, texts: &[Text]) -> Result<Sequence<Text>, AllocError>
    ensures { IfOk result (λ copies. copies ≡ texts.now) }
{
    let mut copies = Sequence::new(alloc);
    for text in texts {
        copies.push(text.copy(alloc)?)?;
    }
    Ok(copies)
}

/// The module's name, ports and clock of a netlist, and these names of the gate cells that vertices are, the first of
/// which is that of vertex 0. It errs only where memory runs out.
pub fn names(alloc: Global, net: &Netlist, origins: &[Text]) -> Result<Names, AllocError>
    ensures { IfOk result (λ made. made ≡ names_of net.now origins.now) }
{
    Ok(Names {
        module: net.module_name().copy(alloc)?,
        ports: copy_ports(alloc, net.ports())?,
        clock: net.clock(),
        origins: copy_texts(alloc, origins)?,
    })
}
