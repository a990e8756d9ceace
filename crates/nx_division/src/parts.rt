// The list of a sketch's nodes, taken apart.
ghost use Rattle.std.specs.Prelude.{◌≡◌, ◌+◌, [], length, MatchOption, IfSome};
ghost use Rattle.nx_sketch.specs.Sketch.{Sketch, spots_of};
ghost use Rattle.nx_sketch.specs.Sketch.{IsFlat};
ghost use Rattle.nx_division.specs.Parts.{IsParted};

use nx_sketch::Spot;

// The first node of a sketch, the nodes below it, and those beside it.
pub(crate) fn parts(spots: &[Spot]) -> Option<(&Spot, &[Spot], &[Spot])>
    requires { IsFlat spots.now }
    ensures cases { MatchOption result (spots.now ≡ []) (λ p. (s : Sketch) → spots.now ≡ spots_of s → IsParted p.0.now p.1.now p.2.now s) }
    ensures shorter { IfSome result (λ p. length spots.now ≡ 1 + length p.1.now + length p.2.now) }
    ensures below { IfSome result (λ p. p.0.now.below ≡ length p.1.now) }
{
    let (spot, rest) = spots.split_first()?;
    let (below, beside) = rest.split_at(spot.below as usize);
    Some((spot, below, beside))
}
