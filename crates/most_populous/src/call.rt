// The search call: its questions first, and then the sums and the search.
ghost use Rattle.std.specs.Prelude.{◌≡◌};
ghost use Rattle.grid.specs.Answer.{first_no, decide};
ghost use Rattle.grid.specs.Map.{map_lent};
ghost use Rattle.grid.specs.Refusal.{answer_of};
ghost use Rattle.most_populous.specs.Call.{buffers, buffers_fit, search_questions, search_call, search_gave};

use grid::{Grid, Map, RadiusKm, Refusal};
use levels::SummedMap;
use search_rules::{LevelBuffers, MostPopulous};
use spacing::Spacing;

// Question 7: room for the sums, and a word for each cell in both level buffers. The three stand apart here and in the calls, as C lends them:
// a struct of all three would be taken apart at once, the sums to be filled and the level buffers to be lent on.
#[tactic(auto, unfolding(crate::specs::Call::buffers_fit))]
pub fn buffers_fit(grid: Grid, sums: &[u64], current: &[u64], following: &[u64]) -> bool
    ensures { result ≡ buffers_fit grid (buffers sums.now current.now following.now) }
{
    let cells = grid::cells(grid);
    sums_fill::sums_fit(grid, sums) && cells <= current.len() && cells <= following.len()
}

// What the call's questions leave: its radius, or the first that is answered no. Question 8 is the radius's
// constructor. Beside `circle_rules::circle_asked`, whose buffers and last question are others.
#[tactic(auto, using(grid::proofs::Answers::refused_stands), unfolding(crate::specs::Call::search_questions))]
fn search_asked(
    map: &Map<'_>,
    km: u32,
    spacing: Spacing,
    sums: &[u64],
    current: &[u64],
    following: &[u64],
) -> Result<RadiusKm, Refusal>
    ensures { answer_of result ≡ decide (first_no (search_questions
        (map_lent map.now) spacing km
        (buffers sums.now current.now following.now))) (record { 0 = km }) }
{
    map_questions::map_asked(map)?;
    let grid = map.globe.grid;
    if !buffers_fit(grid, sums, current, following) {
        return Err(Refusal::Buffers);
    }
    let Some(radius) = RadiusKm::new(grid, km) else {
        return Err(Refusal::Circle);
    };
    if !spacing::spacing_given(spacing) {
        return Err(Refusal::Spacing);
    }
    Ok(radius)
}

// The search call: its questions first, in their order; a refusal changes nothing that was lent. Otherwise the sums are filled, also at
// radius 0, and the search is made.
pub fn most_populous(
    map: &Map<'_>,
    km: u32,
    spacing: Spacing,
    sums: &mut [u64],
    current: &mut [u64],
    following: &mut [u64],
) -> Result<MostPopulous, Refusal>
    ensures { search_gave result sums.new current.new following.new ≡ search_call
        (map_lent map.now) spacing km
        (buffers sums.old current.old following.old) }
{
    let radius = search_asked(map, km, spacing, sums, current, following)?;
    let globe = map.globe;
    sums_fill::fill_sums(globe.grid, map.counts, sums);
    let summed = SummedMap { globe, sums };
    let mut buffers = LevelBuffers { current, following };
    Ok(search::search_at(&summed, &mut buffers, radius, spacing))
}
