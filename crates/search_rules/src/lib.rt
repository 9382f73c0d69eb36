// What a search is: its definitions with their laws, its answer, and what the levels come to. `search` goes through the levels.
#![tactic(auto)]

ghost use Rattle.std.specs.Prelude.{◌≡◌, ◌+◌, ◌≤◌, ◌^◌, None, unwrap_or};
ghost use Rattle.candidates.specs.Candidate.{north_west};
ghost use Rattle.tally.specs.Counts.{no_tally};
ghost use Rattle.tally.specs.State.{weight};
ghost use Rattle.search_rules.specs.Search.{most_populous};
ghost use Rattle.search_rules.specs.State.{with_level};

use candidates::Candidate;
use grid::{Cell, Col, RadiusKm, Row};
use levels::ChunkResult;
use tally::{SearchStats, Tally};

// What the levels have come to.
#[derive(Clone, Copy)]
pub struct SearchResult {
    pub held: Option<Candidate>,
    pub tally: Tally,
}

// The best circle of a radius, and the counts of the search. The tolerance is 0 persons: counts are whole numbers, and a block is pruned
// only where its bound is below the circle held.
#[derive(Clone, Copy)]
pub struct MostPopulous {
    pub centre: Candidate,
    pub radius: RadiusKm,
    pub tolerance_persons: f64,
    pub tally: Tally,
}

// The two buffers of a search's levels: one has the words of a level, in probe order, and into the other go their children's.
#[derive(Drop)]
pub struct LevelBuffers<'a> {
    pub current: &'a mut [u64],
    pub following: &'a mut [u64],
}

// Nothing held and nothing counted.
#[tactic(auto, unfolding(tally::specs::Counts::no_tally, tally::specs::Counts::no_stats))]
pub fn nothing() -> SearchResult
    ensures { result ≡ record { held = None; tally = no_tally } }
{
    let stats = SearchStats::of(0, 0, 0, 0, 0);
    SearchResult {
        held: None,
        tally: Tally::of(stats, 0, 0),
    }
}

// What a level holds, and its counts added.
#[tactic(auto, unfolding(crate::specs::State::with_level))]
pub fn with_level(found: SearchResult, level: ChunkResult) -> SearchResult
    requires { weight found.tally + weight level.tally ≤ 2 ^ 31 }
    ensures { result ≡ with_level found level }
{
    SearchResult {
        held: level.held,
        tally: found.tally + level.tally,
    }
}

// What the levels found, with its radius: the cell (0, 0) with nobody where nothing is held.
#[tactic(auto, using(floats::proofs::Literals::literal_0), unfolding(candidates::specs::Candidate::north_west))]
pub fn answer_of(found: SearchResult, km: RadiusKm) -> MostPopulous
    ensures { result ≡ most_populous km.0 (unwrap_or found.held (north_west 0)) found.tally }
{
    let corner = Cell {
        row: Row(0),
        col: Col(0),
    };
    MostPopulous {
        centre: found.held.unwrap_or(Candidate::at(corner, 0)),
        radius: km,
        tolerance_persons: 0.0,
        tally: found.tally,
    }
}
