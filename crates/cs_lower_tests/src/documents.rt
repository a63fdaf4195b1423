// Documents of netlists, from short texts.
use std::alloc::{AllocError, Global};

// The members of a module, as JSON.
#[derive(Drop)]
struct Members {
    ports: String,
    cells: String,
    nets: String,
}

// Puts a member behind the others.
fn push_member(members: &mut String, member: &str) -> Result<(), AllocError> {
    if !members.is_empty() {
        members.push_str(",")?;
    }
    members.push_str(member)
}

// The parameters and the connections of a cell.
fn pins_of(alloc: Global, words: &str) -> Result<(String, String), AllocError> {
    let mut parameters = String::new(alloc);
    let mut connections = String::new(alloc);
    for word in words.split(' ') {
        if let Some((name, bits)) = word.split_once(':') {
            let pin = format!(in alloc; "\"{name}\":[{bits}]")?;
            push_member(&mut connections, pin.as_str())?;
        } else if let Some((name, value)) = word.split_once('=') {
            let parameter = format!(in alloc; "\"{name}\":{value}")?;
            push_member(&mut parameters, parameter.as_str())?;
        }
    }
    Ok((parameters, connections))
}

fn cell(alloc: Global, name: &str, words: &str) -> Result<String, AllocError> {
    let (parameters, connections) = pins_of(alloc, words)?;
    let kind = match words.split_once(' ') {
        Some((kind, _)) => kind,
        None => words,
    };
    format!(in alloc;
        "\"{name}\":{{\"type\":\"{kind}\",\"parameters\":{{{}}},\"connections\":{{{}}}}}",
        parameters.as_str(),
        connections.as_str()
    )
}

fn port(alloc: Global, direction: &str, words: &str) -> Result<String, AllocError> {
    let (name, bits) = match words.split_once(' ') {
        Some(both) => both,
        None => (words, ""),
    };
    format!(in alloc; "\"{name}\":{{\"direction\":\"{direction}put\",\"bits\":[{bits}]}}")
}

// A net of one bit with a start.
fn net(alloc: Global, words: &str) -> Result<String, AllocError> {
    let (bit, start) = match words.split_once(' ') {
        Some(both) => both,
        None => (words, "x"),
    };
    format!(in alloc; "\"{bit}\":{{\"bits\":[{bit}],\"attributes\":{{\"init\":\"{start}\"}}}}")
}

fn push_item(alloc: Global, members: &mut Members, item: &str) -> Result<(), AllocError> {
    let Some((first, words)) = item.split_once(' ') else {
        return Ok(());
    };
    if first == "in" || first == "out" {
        let port = port(alloc, first, words)?;
        push_member(&mut members.ports, port.as_str())
    } else if first == "init" {
        let net = net(alloc, words)?;
        push_member(&mut members.nets, net.as_str())
    } else {
        let cell = cell(alloc, first, words)?;
        push_member(&mut members.cells, cell.as_str())
    }
}

// The members that items tell.
fn members_of(alloc: Global, items: &str) -> Result<Members, AllocError> {
    let mut members = Members {
        ports: String::new(alloc),
        cells: String::new(alloc),
        nets: String::new(alloc),
    };
    for item in items.split(';') {
        push_item(alloc, &mut members, item.trim())?;
    }
    Ok(members)
}

/// The document of a module `top`, from items that `;` parts: a port is `in NAME BITS` or `out NAME BITS`, the start of
/// a bit is `init BIT DIGIT`, and every other item is a cell, `NAME TYPE` and its words: a pin is `PIN:BITS`, a parameter
/// `PARAMETER=VALUE`. Bits and values stand as JSON writes them, and commas part bits.
pub(crate) fn document(alloc: Global, items: &str) -> Result<String, AllocError> {
    let members = members_of(alloc, items)?;
    format!(in alloc;
        "{{\"modules\":{{\"top\":{{\"ports\":{{{}}},\"cells\":{{{}}},\"netnames\":{{{}}}}}}}}}",
        members.ports.as_str(),
        members.cells.as_str(),
        members.nets.as_str()
    )
}
