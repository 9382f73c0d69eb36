// The search at a radius of an accepted map.
ghost use Rattle.std.specs.Prelude.{◌≡◌};
ghost use Rattle.search_rules.specs.Search.{search};
ghost use Rattle.levels.specs.State.{summed_lent};
ghost use Rattle.search_rules.specs.Requires.{TwoBuffers};
ghost use Rattle.search_rules.specs.State.{SameLengths};

use crate::descend;
use grid::RadiusKm;
use levels::SummedMap;
use search_rules::{LevelBuffers, MostPopulous};
use spacing::Spacing;

// The search of a map whose questions are answered and whose sums are filled. The level buffers keep their lengths; their words are
// left as they come.
pub fn search_at(
    map: &SummedMap<'_>,
    buffers: &mut LevelBuffers<'_>,
    km: RadiusKm,
    spacing: Spacing,
) -> MostPopulous
    requires { TwoBuffers map.now.globe.grid buffers.old.current.now buffers.old.following.now }
    ensures lengths { SameLengths buffers.old buffers.new }
    ensures found { result ≡ search (summed_lent map.now) spacing km.0 }
{
    if km.0 == 0 {
        let none = search_rules::nothing();
        return search_rules::answer_of(none, km);
    }
    let radius = f64::from(km.0);
    let side = spacing::spacing_of(map.globe.grid, radius, spacing);
    let found = descend::searched(map, radius, side, buffers.current, buffers.following);
    search_rules::answer_of(found, km)
}
