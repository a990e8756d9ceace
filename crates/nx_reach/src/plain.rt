// Nodes found in a tree, plainly.
ghost use Rattle.std.specs.Prelude.{◌≡◌, ◌≤◌, ◌++◌, [], ◌∷◌, List, ℕ, if◌then◌else◌, length, IfOk, OnOk};
ghost use Rattle.nx_tree.specs.Forest.{nodes, forest_of};
ghost use Rattle.nx_tree.specs.Document.{IsDocument, most_nodes};
ghost use Rattle.nx_reach.specs.Reach.{Found};
ghost use Rattle.nx_reach.specs.Fit.{found_in};
ghost use Rattle.nx_reach.specs.Stand.{IsStateAt};

use crate::{Paths, State, Steps};
use nx_lists::NoMemory;
use nx_tree::{Path, Tree};
use std::alloc::Global;

/// The paths of the tree's nodes that the steps match, in document order, each once.
///
/// Errors: `NoMemory`.
pub fn find_in(alloc: Global, tree: &Tree, steps: &Steps) -> Result<Paths, NoMemory>
    requires { IsDocument tree.now }
    ensures { IfOk result (λ paths. Found tree.now steps.now paths) }
{
    let mut state = State::new(alloc, steps);
    let mut path = Path::new(alloc);
    let mut found = Paths::new(alloc);
    let below = tree.children.as_slice();
    walk(&mut state, &mut path, &mut found, below)?;
    Ok(found)
}

// Adds the paths of the nodes in these trees that the steps match. They stand below the node at the
// path, where the state stands for the labels along it.
fn walk(
    state: &mut State<'_>,
    path: &mut Path,
    found: &mut Paths,
    trees: &[Tree],
) -> Result<(), NoMemory>
    requires small { nodes (forest_of trees.now) ≤ most_nodes }
    ensures path { OnOk result (path.new ≡ path.old) }
    ensures state { OnOk result (state.new ≡ state.old) }
    ensures found { OnOk result ((labels : List (List ℕ)) → IsStateAt state.old labels →
        found.new ≡ found.old ++ found_in state.old.steps.now labels path.old 0 (forest_of trees.now)) }
{
    let depth = path.len();
    for (position, tree) in trees.iter().enumerate() {
        path.push(position as u32)?;
        let matches = state.open(tree.node.kind, tree.node.name.as_slice())?;
        add_match(found, path.as_slice(), matches)?;
        let below = tree.children.as_slice();
        walk(state, path, found, below)?;
        state.close();
        path.truncate(depth);
    }
    Ok(())
}

// Adds the path, if it matches.
pub(crate) fn add_match(found: &mut Paths, path: &[u32], matches: bool) -> Result<(), NoMemory>
    ensures { OnOk result (found.new ≡ found.old ++ (if matches then path.now ∷ [] else [])) }
{
    if matches {
        found.push(path)?;
    }
    Ok(())
}
