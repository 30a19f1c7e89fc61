//! A script that is generated, and done on the calling thread.

ghost use Rattle.std.specs.Prelude.{◌≡◌, ◌≤◌, ◌++◌, IfOk, All, codes, decimal};
ghost use Rattle.ps_gen.specs.Texts.{circuit_text, mirror_text};
ghost use Rattle.ps_journal.specs.History.{IsLegal};
ghost use Rattle.ps_reply.specs.Lines.{IsOfSession};
ghost use Rattle.pathsum.specs.Generated.{GenerationEnds, IsGeneratedScript, empty_circuit};
ghost use Rattle.pathsum.specs.GeneratedRuns.{IsGeneratedRun, PrintsGenerated, closing_line, generated_text};

use super::answer::Answer;
use super::ended::Ended;
use super::generation::Generation;
use super::print::{print, write};
use super::scripts::status_of;
use ps_gen::{circuit, mirror};
use ps_io::{OpenGate, Sink};
use ps_reply::text;
use ps_script::{Command, Line, Lines, Name, Place, Script, Text};
use ps_sessions::{Ending, Run, run_alone};
use std::alloc::{AllocError, Global};
use std::sync::Arc;

/// Opens a circuit without items, puts so many items into it that are drawn from the seed, puts those that undo them
/// behind them, and asks whether the first version and the last are one map; all as session 0. Writes the words, the
/// replies, and how many entries the journal has.
///
/// Condition: 2 to 16 qubits, 1 to 32,768 items.
pub fn gen_run<W: Sink>(alloc: Global, seed: u32, qubits: u32, items: u32, sink: &mut W) -> Ended
    requires qubits { (2 ≤ qubits) × (qubits ≤ 16) }
    requires items { (1 ≤ items) × (items ≤ 32768) }
    ensures ends { GenerationEnds seed qubits items
        (W.held sink.old) (W.held sink.new) (W.faults sink.old) (W.faults sink.new) result.journal result.status }
    ensures legal { IsLegal result.journal }
{
    let generation = Generation {
        seed,
        qubits,
        items,
    };
    match serve(alloc, &generation) {
        Ok(run) => print_run(alloc, sink, &generation, run),
        Err(AllocError) => print(alloc, sink, &Answer::Memory),
    }
}

// Does the generated commands.
fn serve(alloc: Global, generation: &Generation) -> Result<Run, AllocError>
    requires qubits { (2 ≤ generation.now.qubits) × (generation.now.qubits ≤ 16) }
    requires items { (1 ≤ generation.now.items) × (generation.now.items ≤ 32768) }
    ensures { IfOk result (λ r. IsGeneratedRun generation.now.seed generation.now.qubits generation.now.items r) }
{
    let script = script(alloc, generation)?;
    run_alone(alloc, script, &OpenGate)
}

// The name of the generated circuit.
fn name() -> Name
    ensures { result ≡ codes "g" }
{
    match Name::of(b"g") {
        Some(name) => name,
        None => unreachable!(),
    }
}

// A version of the generated circuit.
fn version(version: u32) -> Place
    ensures { (result.name ≡ codes "g") × (result.version ≡ version) }
{
    Place {
        name: name(),
        version,
    }
}

// The text of a circuit without items.
#[tactic(auto, using(crate::proofs::GenerationLemmas::empty_short))]
fn empty_circuit(alloc: Global, qubits: u32) -> Result<Arc<Text>, AllocError>
    ensures { IfOk result (λ t. t.value ≡ empty_circuit qubits) }
{
    let text = format!(in alloc; "OPENQASM 2.0;\ninclude \"qelib1.inc\";\nqreg q[{qubits}];\n")?;
    Ok(Arc::new(alloc, Text::from_vec(text.into_bytes()))?)
}

// The block of the items that are drawn.
fn drawn(alloc: Global, generation: &Generation) -> Result<Arc<Text>, AllocError>
    requires qubits { (2 ≤ generation.now.qubits) × (generation.now.qubits ≤ 16) }
    requires items { (1 ≤ generation.now.items) × (generation.now.items ≤ 32768) }
    ensures { IfOk result (λ t. t.value ≡ circuit_text generation.now.seed generation.now.qubits generation.now.items) }
{
    let block = circuit(alloc, generation.seed, generation.qubits, generation.items)?;
    Ok(Arc::new(alloc, Text::from_vec(block))?)
}

// The block of the items that undo them.
fn undone(alloc: Global, generation: &Generation) -> Result<Arc<Text>, AllocError>
    requires qubits { (2 ≤ generation.now.qubits) × (generation.now.qubits ≤ 16) }
    requires items { (1 ≤ generation.now.items) × (generation.now.items ≤ 32768) }
    ensures { IfOk result (λ t. t.value ≡ mirror_text generation.now.seed generation.now.qubits generation.now.items) }
{
    let block = mirror(alloc, generation.seed, generation.qubits, generation.items)?;
    Ok(Arc::new(alloc, Text::from_vec(block))?)
}

// A line of session 0.
fn line(command: Command) -> Line
    ensures { (result.session ≡ 0) × (result.command ≡ command) }
{
    Line {
        session: 0,
        command,
    }
}

// The generated script.
fn script(alloc: Global, generation: &Generation) -> Result<Script, AllocError>
    requires qubits { (2 ≤ generation.now.qubits) × (generation.now.qubits ≤ 16) }
    requires items { (1 ≤ generation.now.items) × (generation.now.items ≤ 32768) }
    ensures { IfOk result (λ s. IsGeneratedScript generation.now.seed generation.now.qubits generation.now.items s.lines) }
{
    let items = generation.items;
    let opened = Command::Open {
        name: name(),
        text: empty_circuit(alloc, generation.qubits)?,
    };
    let extended = Command::Splice {
        place: version(1),
        from: 0,
        to: 0,
        block: drawn(alloc, generation)?,
    };
    let undone = Command::Splice {
        place: version(2),
        from: items,
        to: items,
        block: undone(alloc, generation)?,
    };
    let asked = Command::Ask {
        first: version(1),
        second: version(3),
    };
    let lines = vec![in alloc; line(opened), line(extended), line(undone), line(asked)]?;
    Ok(Script {
        lines: Lines::from_vec(lines),
    })
}

// Writes what a run of the generated script comes to.
fn print_run<W: Sink>(alloc: Global, sink: &mut W, generation: &Generation, run: Run) -> Ended
    requires { All IsOfSession run.journal }
    ensures written { PrintsGenerated generation.now.seed generation.now.qubits generation.now.items run
        (W.held sink.old) (W.held sink.new) (W.faults sink.old) (W.faults sink.new) result.status }
    ensures journal { result.journal ≡ run.journal }
{
    let status = print_replies(alloc, sink, generation, &run);
    Ended {
        status,
        journal: run.journal,
    }
}

// The same, with the status alone.
fn print_replies<W: Sink>(alloc: Global, sink: &mut W, generation: &Generation, run: &Run) -> u8
    requires { All IsOfSession run.now.journal }
    ensures { PrintsGenerated generation.now.seed generation.now.qubits generation.now.items run.now
        (W.held sink.old) (W.held sink.new) (W.faults sink.old) (W.faults sink.new) result }
{
    match replies(alloc, generation, run) {
        Ok(text) => write(sink, &text, status_of(run.ending)),
        Err(AllocError) => write(sink, b"memory\n", Answer::Memory.status()),
    }
}

// The words, the replies, and the last line.
fn replies(alloc: Global, generation: &Generation, run: &Run) -> Result<Vec<u8>, AllocError>
    requires { All IsOfSession run.now.journal }
    ensures { IfOk result (λ v. v.items ≡ generated_text generation.now.seed generation.now.qubits generation.now.items run.now) }
{
    let Generation {
        seed,
        qubits,
        items,
    } = *generation;
    let mut bytes = format!(in alloc; "gen {seed} {qubits} {items}\n")?.into_bytes();
    bytes.extend_from_slice(&text(alloc, run.journal.as_slice())?)?;
    bytes.extend_from_slice(&closing_line(alloc, run)?)?;
    Ok(bytes)
}

// How many entries the journal has, or that it is full.
fn closing_line(alloc: Global, run: &Run) -> Result<Vec<u8>, AllocError>
    ensures { IfOk result (λ v. v.items ≡ closing_line run.now.ending run.now.journal) }
{
    let count = run.journal.as_slice().len();
    let line = match run.ending {
        Ending::Done => format!(in alloc; "entries {count}\n")?,
        Ending::Full { .. } => String::from_str(alloc, "full\n")?,
    };
    Ok(line.into_bytes())
}
