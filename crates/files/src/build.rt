// Building the wiring of a file in a lent graph: its blocks are added in file order, then its wires linked, until one is refused.
ghost use Rattle.std.specs.Prelude.{◌≡◌, map, MatchResult, Err};
ghost use Rattle.multiportgraph.specs.WellFormed.{MultiWf};
ghost use Rattle.files.specs.Layout.{block_of, unbytes};
ghost use Rattle.files.specs.Loading.{add_of, link_of, first_refusal};
ghost use Rattle.files.specs.Forms.{said};
ghost use Rattle.files.specs.LoadForms.{StepIs, StepStops, Built};
ghost use Rattle.files.specs.declared.load.LoadError.TheVariants.{Refused};

use crate::bytes::Fields;
use crate::file::File;
use crate::ports::Ports;
use multi_tables::answers::Refusal;
use multiportgraph::multiportgraph::MultiPortGraph;

// Adds the block of a record.
fn add_block(graph: &mut MultiPortGraph, block: Fields) -> Result<(), Refusal>
    requires { MultiWf graph.old }
    ensures { MatchResult result (λ _. StepIs graph.old (add_of (block_of (said block))) graph.new) (λ e. StepStops graph.old (add_of (block_of (said block))) (Refused e)) }
{
    graph.add_lent(block.a as usize, block.b as usize)?;
    Ok(())
}

// Adds the blocks of a file.
pub(crate) fn add_blocks(graph: &mut MultiPortGraph, file: File) -> Result<(), Refusal>
    requires { MultiWf graph.old }
    ensures { MatchResult result (λ _. Built graph.old (map add_of (unbytes file.entry.bytes.now).blocks) graph.new) (λ e. first_refusal graph.old (map add_of (unbytes file.entry.bytes.now).blocks) ≡ Err (Refused e)) }
{
    for i in 0..file.shape.blocks {
        add_block(graph, file.block(i))?;
    }
    Ok(())
}

// Links the wires of a file.
pub(crate) fn link_wires(graph: &mut MultiPortGraph, ports: Ports) -> Result<(), Refusal>
    requires { MultiWf graph.old }
    ensures { MatchResult result (λ _. Built graph.old (map (link_of (unbytes ports.entry.file.bytes.now).blocks) (unbytes ports.entry.file.bytes.now).wires) graph.new) (λ e. first_refusal graph.old (map (link_of (unbytes ports.entry.file.bytes.now).blocks) (unbytes ports.entry.file.bytes.now).wires) ≡ Err (Refused e)) }
{
    for i in 0..ports.file.shape.wires {
        let (output, input) = ports.ends(i);
        graph.link_lent(output, input)?;
    }
    Ok(())
}
