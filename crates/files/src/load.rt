// Loading a file: sums and layout are held against the whole file, then its blocks are added and its wires linked.
ghost use Rattle.std.specs.Prelude.{◌≡◌, MatchResult, Err};
ghost use Rattle.multiportgraph.specs.Graph.{empty_graph};
ghost use Rattle.multiportgraph.specs.WellFormed.{MultiWf};
ghost use Rattle.files.specs.Layout.{unbytes};
ghost use Rattle.files.specs.Loading.{build_of, first_refusal, load_answer, load_graph};
ghost use Rattle.files.specs.Merging.{layout_answer};
ghost use Rattle.files.specs.declared.load.LoadError.TheVariants.{Refused};
ghost use Rattle.files.specs.LoadForms.{Built};

use crate::build::{add_blocks, link_wires};
use crate::check::{is_whole, shape_of};
use crate::file::File;
use crate::ports::{Ports, fill_firsts};
use crate::wires::wires_right;
use multi_tables::answers::Refusal;
use multiportgraph::multiportgraph::MultiPortGraph;
use port_tables::index::NODE_SLOTS;
use port_tables::release::Release;

// Why a load is refused.
#[derive(Clone, Copy)]
pub enum LoadError {
    // Refusal 16: the length is not a multiple of 512, or a unit's sum is wrong.
    BadSums,
    // Refusal 17: kinds, counts, zeros, order, ranks or positions break the layout.
    BadLayout,
    // 3, 10 or 18: what the first add or link that is refused gives.
    Refused(Refusal),
}

impl From<Refusal> for LoadError {
    ghost from_gives = { λ refusal told. told ≡ Refused refusal };

    fn from(refusal: Refusal) -> LoadError {
        LoadError::Refused(refusal)
    }
}

// The graph of its own that a load gives, the empty one of the release where it is refused, and the answer. Stays a struct: a refused load gives
// a graph too.
#[derive(Clone, Copy)]
pub struct FileLoaded {
    pub graph: MultiPortGraph,
    pub answer: Result<(), LoadError>,
}

// A refused load: the empty graph.
fn refused(release: Release, error: LoadError) -> FileLoaded
    ensures { result ≡ record { graph = empty_graph release; answer = Err error } }
{
    FileLoaded {
        graph: MultiPortGraph::new(release),
        answer: Err(error),
    }
}

// Holds bytes against the layout of a file, sums first.
#[tactic(auto, unfolding(crate::specs::Merging::layout_answer), using(crate::specs::WireSteps::blocks_read, crate::specs::WireSteps::wires_read, crate::specs::BuildSteps::err_says, crate::specs::BuildSteps::sums_wrong, crate::specs::BuildSteps::shape_found, crate::specs::BuildSteps::shape_missing, crate::specs::BuildSteps::view_wrong, crate::specs::BuildSteps::laid_is, crate::specs::BuildSteps::whole_length))]
pub(crate) fn laid(bytes: &[u8]) -> Result<File, LoadError>
    ensures { MatchResult result (λ file. file.bytes.now ≡ bytes.now) (λ e. layout_answer bytes.now ≡ Err e) }
{
    if !is_whole(bytes) {
        return Err(LoadError::BadSums);
    }
    let shape = shape_of(bytes).ok_or(LoadError::BadLayout)?;
    if !wires_right(bytes, shape) {
        return Err(LoadError::BadLayout);
    }
    Ok(File::new(bytes, shape))
}

// Builds the wiring of a laid file for a release in a graph of its own, as far as the first add or link that is refused.
// The table of first ports is filled here and in `list_laid`: a function that filled it and gave `Ports` would lend from what it was lent to change.
#[tactic(auto, using(crate::specs::BuildSteps::err_says, crate::specs::BuildSteps::built_blocks))]
fn build_over(graph: &mut MultiPortGraph, release: Release, file: File) -> Result<(), LoadError>
    requires { graph.old ≡ empty_graph release }
    ensures { MatchResult result (λ _. Built (empty_graph release) (build_of (unbytes file.entry.bytes.now)) graph.new) (λ e. first_refusal (empty_graph release) (build_of (unbytes file.entry.bytes.now)) ≡ Err e) }
{
    add_blocks(graph, file)?;
    let mut firsts = [0u32; NODE_SLOTS];
    fill_firsts(&mut firsts, file);
    let ports = Ports {
        file,
        firsts: &firsts,
    };
    link_wires(graph, ports)?;
    Ok(())
}

// What loading a laid file for a release answers. Stays beside `build`: the answer alone needs no graph by value.
pub(crate) fn build_answer(release: Release, file: File) -> Result<(), LoadError>
    ensures { result ≡ load_answer release file.entry.bytes.now }
{
    let mut graph = MultiPortGraph::new(release);
    build_over(&mut graph, release, file)
}

// Builds the wiring of a laid file for a release.
#[tactic(auto, using(crate::specs::BuildSteps::load_done))]
fn build(release: Release, file: File) -> FileLoaded
    ensures { (result ≡ record { graph = load_graph release file.entry.bytes.now; answer = load_answer release file.entry.bytes.now }) × MultiWf result.graph }
{
    let mut graph = MultiPortGraph::new(release);
    match build_over(&mut graph, release, file) {
        Ok(_) => FileLoaded {
            graph,
            answer: Ok(()),
        },
        Err(error) => refused(release, error),
    }
}

// Loads a file for a release: a graph of its own and the answer. Sums are held first, over all units; then the layout, over the whole file; then
// the blocks are added and the wires linked, as far as the first that is refused.
pub fn load(release: Release, file: &[u8]) -> FileLoaded
    ensures { (result ≡ record { graph = load_graph release file.now; answer = load_answer release file.now }) × MultiWf result.graph }
{
    match laid(file) {
        Ok(laid) => build(release, laid),
        Err(error) => refused(release, error),
    }
}
