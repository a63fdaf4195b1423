// Why a run is refused, and the line that says so.
ghost use Rattle.std.specs.Prelude.{◌≡◌, IfOk};
ghost use Rattle.cs_report.specs.FaultLines.{fault_line, fault_words, images_count, too_long, line_width, line_column, uneven};
ghost use Rattle.cs_report.specs.Limits.{counted_words, limit_words};

use crate::refused::refused_text;
use crate::words::{quoted, quoted_after, text_after};
use cs_base::{Counted, LimitFault, Text};
use cs_conditions::NetError;
use cs_json::Place;
use std::alloc::{AllocError, Global};

/// What a refused run tells.
#[derive(Drop)]
pub enum Fault {
    /// There was no memory.
    NoMemory,
    /// The first word names no command, or there is none.
    NoCommand,
    /// The words are not those of this command.
    WordsOf(Text),
    /// The word of this name is no number, or none that is wanted there.
    NumberOf(Text),
    /// Two files that are to be written have one name.
    SameName,
    /// The file of this name can't be read.
    CannotRead(Text),
    /// The file of this name can't be written.
    CannotWrite(Text),
    /// A document's bytes are no JSON.
    DocumentNotJson,
    /// A document is refused at this place.
    DocumentShape(Place),
    /// A document is no netlist.
    Refused(NetError),
    /// A count is above its limit.
    Limit(LimitFault),
    /// The file of this name has more than 67,108,864 bytes.
    FileTooLong(Text),
    /// This line of a stimulus, from 1, has another length than the lines of its file or its netlist.
    StimulusWidth { line: u64 },
    /// This line of a stimulus holds at this column a byte other than `0` and `1`; both count from 1.
    StimulusCharacter { line: u64, column: u64 },
    /// This stream of those that are mixed, from 0, has another number of lines than its place asks for.
    StimulusUneven(u32),
    /// A paper's bytes are no JSON.
    CertificateNotJson,
    /// A paper is refused at this place.
    CertificateShape(Place),
    /// An images file's bytes are no JSON.
    ImagesNotJson,
    /// An images file is refused at this place.
    ImagesShape(Place),
    /// An images file names no memory by this name.
    ImagesName(Text),
    /// An images file has another number of images of this memory than there are contexts.
    ImagesCount { name: Text, found: u64 },
}

fn counted_words(what: Counted) -> &'static str
    ensures { result.now ≡ counted_words what }
{
    match what {
        Counted::Cells => "cells",
        Counted::AddressBits => "address bits",
        Counted::MemoryBits => "memory bits",
        Counted::ReadBits => "read bits",
        Counted::Vertices => "vertices",
        Counted::Edges => "edges",
        Counted::Weight => "weight",
        Counted::Variables => "variables",
        Counted::Instances => "instances",
        Counted::Bits => "bits",
    }
}

/// A count above its limit, in words.
pub(crate) fn limit_text(alloc: Global, fault: LimitFault) -> Result<Text, AllocError>
    ensures { IfOk result (λ text. text ≡ limit_words fault) }
{
    let words = counted_words(fault.what);
    let LimitFault { found, most, .. } = fault;
    Ok(Text::from_string(format!(in alloc; "limit: {words} {found} above {most}")?))
}

fn too_long(alloc: Global, name: &str) -> Result<Text, AllocError>
    ensures { IfOk result (λ text. text ≡ too_long name.now) }
{
    Ok(Text::from_string(format!(in alloc; "limit: {name} is longer than 67108864 bytes")?))
}

fn line_width(alloc: Global, line: u64) -> Result<Text, AllocError>
    ensures { IfOk result (λ text. text ≡ line_width line) }
{
    Ok(Text::from_string(format!(in alloc; "stimulus: line {line} has another length")?))
}

fn line_column(alloc: Global, line: u64, column: u64) -> Result<Text, AllocError>
    ensures { IfOk result (λ text. text ≡ line_column line column) }
{
    Ok(Text::from_string(format!(in alloc; "stimulus: line {line} column {column}")?))
}

fn uneven(alloc: Global, stream: u32) -> Result<Text, AllocError>
    ensures { IfOk result (λ text. text ≡ uneven stream) }
{
    Ok(Text::from_string(format!(in alloc;
        "stimulus: stream {stream} has another count of lines"
    )?))
}

fn images_count(alloc: Global, name: &str, found: u64) -> Result<Text, AllocError>
    ensures { IfOk result (λ text. text ≡ images_count name.now found) }
{
    let name = quoted(alloc, name)?;
    let name = name.as_str();
    Ok(Text::from_string(format!(in alloc; "images: {name} has {found} images")?))
}

fn fault_words(alloc: Global, fault: &Fault) -> Result<Text, AllocError>
    ensures { IfOk result (λ text. text ≡ fault_words fault.now) }
{
    match fault {
        Fault::NoMemory => Text::from_str(alloc, "out of memory"),
        Fault::NoCommand => Text::from_str(alloc, "usage: no such command"),
        Fault::WordsOf(command) => text_after(alloc, "usage: words of ", command.as_str()),
        Fault::NumberOf(name) => text_after(alloc, "usage: number of ", name.as_str()),
        Fault::SameName => Text::from_str(alloc, "usage: OUT and CERT are one name"),
        Fault::CannotRead(name) => text_after(alloc, "cannot read ", name.as_str()),
        Fault::CannotWrite(name) => text_after(alloc, "cannot write ", name.as_str()),
        Fault::DocumentNotJson => Text::from_str(alloc, "document: not json"),
        Fault::DocumentShape(place) => {
            text_after(alloc, "document: bad shape at ", place.path.as_str())
        }
        Fault::Refused(error) => refused_text(alloc, error),
        Fault::Limit(fault) => limit_text(alloc, *fault),
        Fault::FileTooLong(name) => too_long(alloc, name.as_str()),
        Fault::StimulusWidth { line } => line_width(alloc, *line),
        Fault::StimulusCharacter { line, column } => line_column(alloc, *line, *column),
        Fault::StimulusUneven(stream) => uneven(alloc, *stream),
        Fault::CertificateNotJson => Text::from_str(alloc, "certificate: not json"),
        Fault::CertificateShape(place) => {
            text_after(alloc, "certificate: bad shape at ", place.path.as_str())
        }
        Fault::ImagesNotJson => Text::from_str(alloc, "images: not json"),
        Fault::ImagesShape(place) => {
            text_after(alloc, "images: bad shape at ", place.path.as_str())
        }
        Fault::ImagesName(name) => quoted_after(alloc, "images: no memory ", name.as_str()),
        Fault::ImagesCount { name, found } => images_count(alloc, name.as_str(), *found),
    }
}

/// The line of a fault, with its newline. A name in quotes is in its JSON spelling.
pub fn fault_text(alloc: Global, fault: &Fault) -> Result<Vec<u8>, AllocError>
    ensures { IfOk result (λ text. text.items ≡ fault_line fault.now) }
{
    let words = fault_words(alloc, fault)?;
    let mut text = Vec::new(alloc);
    text.extend_from_slice(words.as_str().as_bytes())?;
    text.push(b'\n')?;
    Ok(text)
}
