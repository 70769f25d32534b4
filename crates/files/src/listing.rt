// The adds and links that build the wiring of a file, listed as numbers.
ghost use Rattle.std.specs.Prelude.{◌≡◌, ◌+◌, ◌*◌, ◌≤◌, length};
ghost use mathlib.Core.List.{[], ◌∷◌, flat_map};
ghost use Rattle.std.proofs.lemmas.List.Edits.{sets};
ghost use Rattle.port_tables.specs.Limits.{node_slots};
ghost use Rattle.multiportgraph.specs.Listed.{list_after};
ghost use Rattle.files.specs.Layout.{unbytes};
ghost use Rattle.files.specs.BuildList.{add_pair, link_pair, build_numbers, list_build, build_after};

use crate::check::Shape;
use crate::file::File;
use crate::load::{LoadError, build_answer, laid};
use crate::ports::{Ports, fill_firsts};
use port_tables::index::{MOST_WIRES, NODE_SLOTS};
use port_tables::release::Release;

// So many numbers are enough for every file that is accepted.
pub const BUILD_NUMBERS: usize = 2 * (NODE_SLOTS + MOST_WIRES);

// Lays two numbers.
#[tactic(auto, using(multiportgraph::specs::ListSteps::laid))]
fn put_pair(numbers: &mut [u32], at: usize, a: u32, b: u32)
    requires { at + 2 ≤ length numbers.old }
    ensures { numbers.new ≡ sets numbers.old at (a ∷ b ∷ []) }
{
    numbers[at..at + 2].copy_from_slice(&[a, b]);
}

// Lists the adds. Laid by place, as the links are below: of chunks that are lent to be written, a proof keeps the length alone.
#[tactic(auto, using(crate::specs::ListingSteps::pairs_end))]
fn list_adds(numbers: &mut [u32], file: File)
    requires { 2 * file.shape.blocks ≤ length numbers.old }
    ensures { numbers.new ≡ sets numbers.old 0 (flat_map add_pair (unbytes file.entry.bytes.now).blocks) }
{
    for i in 0..file.shape.blocks {
        let block = file.block(i);
        put_pair(numbers, 2 * i, block.a as u32, block.b as u32);
    }
}

// Lists the links, from a place on.
#[tactic(auto, using(crate::specs::ListingSteps::pairs_end))]
fn list_links(numbers: &mut [u32], from: usize, ports: Ports)
    requires { from + 2 * ports.file.shape.wires ≤ length numbers.old }
    ensures { numbers.new ≡ sets numbers.old from (flat_map (link_pair (unbytes ports.entry.file.bytes.now).blocks) (unbytes ports.entry.file.bytes.now).wires) }
{
    for i in 0..ports.file.shape.wires {
        let (output, input) = ports.ends(i);
        put_pair(numbers, from + 2 * i, output.0, input.0);
    }
}

// Lists the build of a file; a list that is too short stays as it was.
#[tactic(auto, using(crate::specs::ListingSteps::listed_short))]
fn list_laid(numbers: &mut [u32], file: File)
    requires { file.shape.blocks ≤ node_slots }
    ensures { numbers.new ≡ list_after (build_numbers (unbytes file.entry.bytes.now)) numbers.old }
{
    if numbers.len() < 2 * (file.shape.blocks + file.shape.wires) {
        return;
    }
    let mut firsts = [0u32; NODE_SLOTS];
    fill_firsts(&mut firsts, file);
    list_adds(numbers, file);
    let ports = Ports {
        file,
        firsts: &firsts,
    };
    list_links(numbers, 2 * file.shape.blocks, ports);
}

// Lists the adds and links that build the wiring of a file for a release: two numbers for each block, incoming and outgoing, then two for each wire, the output
// and the input. A list that is too short stays as it was, and so it does where the load is refused. The answer is how many blocks
// and wires are built.
pub fn list_build(release: Release, file: &[u8], numbers: &mut [u32]) -> Result<Shape, LoadError>
    ensures { (result ≡ list_build release file.now) × (numbers.new ≡ build_after release file.now numbers.old) }
{
    let laid = laid(file)?;
    build_answer(release, laid)?;
    list_laid(numbers, laid);
    Ok(laid.shape)
}
