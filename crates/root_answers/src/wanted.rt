//! The plan that is wanted for a vector of a root's front.
ghost use Rattle.std.specs.Prelude.{◌≡◌};

use plan_finder::Wanted;
use root_workers::Question;
use win_vectors::WinVector;

/// The plan for a vector of the front of what is asked, by searches as the options say.
pub fn plan_wanted<'a>(question: &'a Question<'a>, vector: &'a WinVector) -> Wanted<'a>
    ensures { result ≡ record {
      node = question.now.node;
      target = vector.entry;
      moves = question.now.moves;
      nodes = question.now.options.now.nodes;
      cuts = question.now.options.now.cuts;
    } }
{
    Wanted {
        node: question.node,
        target: vector,
        moves: question.moves,
        nodes: question.options.nodes,
        cuts: question.options.cuts,
    }
}
