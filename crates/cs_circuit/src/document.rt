// The document of a circuit.
ghost use Rattle.std.specs.Prelude.{◌≡◌, ◌++◌, ◌<◌, ◌^◌, All, IfOk, OnOk, length, map};
ghost use Rattle.std.specs.List.{enumerate_from};
ghost use Rattle.cs_json.specs.declared.document.CellDecl.{CellDecl};
ghost use Rattle.cs_json.specs.declared.document.NetDecl.{NetDecl};
ghost use Rattle.cs_circuit.specs.declared.circuit.GatePart.{GatePart};
ghost use Rattle.cs_circuit.specs.Cells.{clock_keeper, gate_cell, numbered_register, register_bit, register_net};
ghost use Rattle.cs_circuit.specs.Documents.{IsCircuitDocument, circuit_cells, circuit_nets};
ghost use Rattle.cs_circuit.specs.MemoryCells.{memory_cell};
ghost use Rattle.cs_circuit.specs.Order.{AreDistinct, IsInNameOrder};
ghost use Rattle.cs_circuit.specs.Sizes.{AreNumbersRising, HasSmallMemories, HasSmallRegisters};

use crate::cells::{gate_cell, numbered, one_signal, one_text, register_cell};
use crate::circuit::{Circuit, RegisterPart};
use crate::memories::memory_cell;
use cs_base::{BitId, Sequence, Signal, Text};
use cs_json::{CellDecl, Document, Module, NetDecl};
use std::alloc::{AllocError, Global};

const TOP_MARK: &str = "00000000000000000000000000000001";

fn register_bit(circuit: &Circuit, n: usize) -> BitId
    requires { register_bit circuit.now n < 2 ^ 32 }
    ensures { result ≡ register_bit circuit.now n }
{
    BitId::new((circuit.first_register + n) as u32)
}

fn gate_cells(alloc: Global, circuit: &Circuit) -> Result<Vec<CellDecl>, AllocError>
    ensures cells { IfOk result (λ cells. cells.items ≡ map gate_cell circuit.now.gates) }
    ensures numbers { OnOk result (All (λ (gate : GatePart). gate.number < 2 ^ 64) circuit.now.gates) }
{
    let mut cells = Vec::new(alloc);
    for gate in circuit.gates.as_slice() {
        cells.push(gate_cell(alloc, gate)?)?;
    }
    Ok(cells)
}

fn add_memory_cells(
    alloc: Global,
    cells: &mut Vec<CellDecl>,
    circuit: &Circuit,
) -> Result<(), AllocError>
    requires { HasSmallMemories circuit.now }
    ensures cells { OnOk result (cells.new.items ≡ cells.old.items
        ++ map (λ e. memory_cell circuit.now.clock e.0 e.1) (enumerate_from 0 circuit.now.memories)) }
    ensures count { OnOk result (length circuit.now.memories < 2 ^ 64) }
{
    cells.reserve(circuit.memories.len())?;
    for (i, memory) in circuit.memories.as_slice().iter().enumerate() {
        cells.push(memory_cell(alloc, circuit.clock, i, memory)?)?;
    }
    Ok(())
}

fn add_register_cells(
    alloc: Global,
    cells: &mut Vec<CellDecl>,
    circuit: &Circuit,
) -> Result<(), AllocError>
    requires { HasSmallRegisters circuit.now }
    ensures { OnOk result (cells.new.items ≡ cells.old.items
        ++ map (λ e. numbered_register circuit.now e.0 e.1) (enumerate_from 0 circuit.now.registers)) }
{
    for (n, register) in circuit.registers.as_slice().iter().enumerate() {
        let name = numbered(alloc, "$cs$r", n)?;
        let q = register_bit(circuit, n);
        cells.push(register_cell(alloc, circuit.clock, name, register.source, q)?)?;
    }
    Ok(())
}

fn add_keeper(alloc: Global, cells: &mut Vec<CellDecl>, circuit: &Circuit) -> Result<(), AllocError>
    requires { HasSmallRegisters circuit.now }
    ensures { OnOk result (cells.new.items ≡ cells.old.items
        ++ clock_keeper circuit.now (register_bit circuit.now (length circuit.now.registers))) }
{
    if circuit.keeps_clock {
        let name = Text::from_str(alloc, "$cs$k")?;
        let q = register_bit(circuit, circuit.registers.len());
        cells.push(register_cell(alloc, circuit.clock, name, Signal::Zero, q)?)?;
    }
    Ok(())
}

fn circuit_cells(alloc: Global, circuit: &Circuit) -> Result<Vec<CellDecl>, AllocError>
    requires registers { HasSmallRegisters circuit.now }
    requires memories { HasSmallMemories circuit.now }
    ensures cells { IfOk result (λ cells. cells.items ≡ circuit_cells circuit.now) }
    ensures numbers { OnOk result (All (λ (gate : GatePart). gate.number < 2 ^ 64) circuit.now.gates) }
    ensures count { OnOk result (length circuit.now.memories < 2 ^ 64) }
{
    let mut cells = gate_cells(alloc, circuit)?;
    add_memory_cells(alloc, &mut cells, circuit)?;
    add_register_cells(alloc, &mut cells, circuit)?;
    add_keeper(alloc, &mut cells, circuit)?;
    Ok(cells)
}

fn register_net(
    alloc: Global,
    circuit: &Circuit,
    n: usize,
    register: RegisterPart,
) -> Result<NetDecl, AllocError>
    requires { register_bit circuit.now n < 2 ^ 32 }
    ensures { IfOk result (λ net. net ≡ register_net circuit.now n register) }
{
    Ok(NetDecl {
        name: numbered(alloc, "$cs$q", n)?,
        bits: one_signal(alloc, Signal::Bit(register_bit(circuit, n)))?,
        attributes: one_text(alloc, "init", if register.start { "1" } else { "0" })?,
    })
}

fn circuit_nets(alloc: Global, circuit: &Circuit) -> Result<Vec<NetDecl>, AllocError>
    requires { HasSmallRegisters circuit.now }
    ensures { IfOk result (λ nets. nets.items ≡ circuit_nets circuit.now) }
{
    let mut nets = Vec::new(alloc);
    for (n, register) in circuit.registers.as_slice().iter().enumerate() {
        nets.push(register_net(alloc, circuit, n, *register)?)?;
    }
    Ok(nets)
}

fn cells_by_name(mut cells: Vec<CellDecl>) -> Sequence<CellDecl>
    requires { AreDistinct (λ (cell : CellDecl). cell.name) cells.items }
    ensures { IsInNameOrder (λ (cell : CellDecl). cell.name) cells.items result }
{
    cells.sort_unstable_by(|a, b| a.name.as_str().cmp(b.name.as_str()));
    Sequence::from_vec(cells)
}

fn nets_by_name(mut nets: Vec<NetDecl>) -> Sequence<NetDecl>
    requires { AreDistinct (λ (net : NetDecl). net.name) nets.items }
    ensures { IsInNameOrder (λ (net : NetDecl). net.name) nets.items result }
{
    nets.sort_unstable_by(|a, b| a.name.as_str().cmp(b.name.as_str()));
    Sequence::from_vec(nets)
}

fn sorted_cells(alloc: Global, circuit: &Circuit) -> Result<Sequence<CellDecl>, AllocError>
    requires numbers { AreNumbersRising circuit.now.gates }
    requires registers { HasSmallRegisters circuit.now }
    requires memories { HasSmallMemories circuit.now }
    ensures { IfOk result (IsInNameOrder (λ (cell : CellDecl). cell.name) (circuit_cells circuit.now)) }
{
    let cells = circuit_cells(alloc, circuit)?;
    Ok(cells_by_name(cells))
}

fn sorted_nets(alloc: Global, circuit: &Circuit) -> Result<Sequence<NetDecl>, AllocError>
    requires { HasSmallRegisters circuit.now }
    ensures { IfOk result (IsInNameOrder (λ (net : NetDecl). net.name) (circuit_nets circuit.now)) }
{
    let nets = circuit_nets(alloc, circuit)?;
    Ok(nets_by_name(nets))
}

/// The document of a circuit, in time in proportion to its size but for one sort of the cells by name.
///
/// It errs where memory runs out.
pub fn circuit_document(alloc: Global, circuit: Circuit) -> Result<Document, AllocError>
    requires numbers { AreNumbersRising circuit.gates }
    requires registers { HasSmallRegisters circuit }
    requires memories { HasSmallMemories circuit }
    ensures { IfOk result (IsCircuitDocument circuit) }
{
    let cells = sorted_cells(alloc, &circuit)?;
    let nets = sorted_nets(alloc, &circuit)?;
    let module = Module {
        name: circuit.name,
        attributes: one_text(alloc, "top", TOP_MARK)?,
        ports: circuit.ports,
        cells,
        nets,
    };
    let mut modules = Sequence::new(alloc);
    modules.push(module)?;
    Ok(Document { modules })
}
