// The first refusal of a sheet and of a map.
ghost use Rattle.std.specs.Prelude.{◌≡◌};
ghost use Rattle.grid.specs.Answer.{first_no, decide};
ghost use Rattle.grid.specs.Refusal.{answer_of};
ghost use Rattle.grid.specs.Map.{globe_lent, map_lent};
ghost use Rattle.grid.specs.Questions.{sheet_questions, map_questions};

use grid::{Globe, Map, Refusal};

// The first of the questions 5 and 6 that is answered no.
#[tactic(auto, unfolding(grid::specs::Questions::sheet_questions, grid::specs::Answer::first_no, grid::specs::Answer::decide))]
pub fn sheet_asked(globe: &Globe<'_>) -> Result<(), Refusal>
    ensures { answer_of result ≡ decide (first_no (sheet_questions (globe_lent globe.now))) tt }
{
    if !crate::sheet_complete(globe) {
        return Err(Refusal::SheetSizes);
    }
    if !crate::sheet_in_order(globe) {
        return Err(Refusal::SheetOrder);
    }
    Ok(())
}

// The first of the questions 1 to 6 that is answered no.
pub fn map_asked(map: &Map<'_>) -> Result<(), Refusal>
    ensures { answer_of result ≡ decide (first_no (map_questions (map_lent map.now))) tt }
{
    grid_questions::grid_asked(map.globe.grid)?;
    if !crate::counts_complete(map.globe.grid, map.counts) {
        return Err(Refusal::Counts);
    }
    sheet_asked(&map.globe)
}
