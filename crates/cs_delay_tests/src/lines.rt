// What is read and assigned, as a line.
use cs_delay::{DelayEntry, DelayError, DelayTable, PinDelays};
use cs_graph::Delays;
use std::alloc::{AllocError, Global};

/// Why there are no delays.
pub fn refusal(alloc: Global, error: &DelayError) -> Result<String, AllocError> {
    match error {
        DelayError::NotJson => String::from_str(alloc, "not json"),
        DelayError::BadShape { at } => format!(in alloc; "bad shape at {}", at.path.as_str()),
        DelayError::TooLarge { kind } => format!(in alloc; "too large: {}", kind.as_str()),
        DelayError::NoDelay { kind } => format!(in alloc; "none for {}", kind.as_str()),
        DelayError::NoMemory => String::from_str(alloc, "no memory"),
    }
}

fn push_entry(line: &mut String, alloc: Global, entry: &DelayEntry) -> Result<(), AllocError> {
    line.push_str(" ")?;
    line.push_str(entry.kind.as_str())?;
    match &entry.delay {
        PinDelays::One(delay) => {
            let one = format!(in alloc; " {delay}")?;
            line.push_str(one.as_str())?;
        }
        PinDelays::Pins(pins) => {
            for pin in pins.as_slice() {
                let name = pin.pin.as_str();
                let delay = pin.delay;
                let one = format!(in alloc; " {name}={delay}")?;
                line.push_str(one.as_str())?;
            }
        }
    }
    Ok(())
}

/// The version, the fallback or a dash, and the types with their delays.
pub fn table_line(alloc: Global, table: &DelayTable) -> Result<String, AllocError> {
    let version = table.version;
    let mut line = match table.fallback {
        Some(delay) => format!(in alloc; "{version} {delay}")?,
        None => format!(in alloc; "{version} -")?,
    };
    for entry in table.entries.as_slice() {
        push_entry(&mut line, alloc, entry)?;
    }
    Ok(line)
}

/// The delay of each vertex, and behind it those of its pins.
pub fn delays_line(alloc: Global, delays: &Delays) -> Result<String, AllocError> {
    let mut line = String::new(alloc);
    let pins = delays.per_pin.as_slice();
    for (vertex, pins) in delays.per_vertex.as_slice().iter().zip(pins) {
        let one = format!(in alloc; "{vertex}:")?;
        line.push_str(one.as_str())?;
        for pin in pins.as_slice() {
            let one = format!(in alloc; "{pin},")?;
            line.push_str(one.as_str())?;
        }
        line.push_str(" ")?;
    }
    Ok(line)
}
