// The rules of the single-circle call: its questions, and what it gives. `circle` has the code that fills the sums and counts.
#![tactic(auto)]

ghost use Rattle.std.specs.Prelude.{◌≡◌};
ghost use Rattle.grid.specs.Map.{map_lent};
ghost use Rattle.grid.specs.Answer.{first_no, decide};
ghost use Rattle.grid.specs.Refusal.{answer_of};
ghost use Rattle.circle_rules.specs.Call.{circle_questions};

use grid::{Cell, Map, RadiusKm, Refusal};

// What the call's questions leave: its radius, or the first that is answered no. Question 8 of the radius is its
// constructor. Beside `most_populous`' `search_asked`: each asks for buffers of its own and ends with a question of its own.
#[tactic(auto, using(grid::proofs::Answers::refused_stands), unfolding(crate::specs::Call::circle_questions))]
pub fn circle_asked(map: &Map<'_>, sums: &[u64], km: u32, centre: Cell) -> Result<RadiusKm, Refusal>
    ensures { answer_of result ≡ decide (first_no (circle_questions (map_lent map.now) sums.now km centre)) (record { 0 = km }) }
{
    map_questions::map_asked(map)?;
    let grid = map.globe.grid;
    if !sums_fill::sums_fit(grid, sums) {
        return Err(Refusal::Buffers);
    }
    let Some(radius) = RadiusKm::new(grid, km) else {
        return Err(Refusal::Circle);
    };
    if !grid::on_grid(grid, centre) {
        return Err(Refusal::Circle);
    }
    Ok(radius)
}
