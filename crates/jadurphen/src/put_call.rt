// The put call over a ledger of words.
ghost use Rattle.std.specs.Prelude.{◌≡◌};
ghost use Rattle.grid.specs.Grid.{cell};
ghost use Rattle.candidates.specs.Candidate.{candidate_of};
ghost use Rattle.ledger.specs.Ledger.{entry};
ghost use Rattle.crossings.specs.Crossing.{grid_from};
ghost use Rattle.crossings.specs.Calls.{put_returned, put_crossing};

use candidates::Candidate;
use grid::{Cell, Col, Grid, RadiusKm, Row};
use ledger::Entry;

// Exported to C by crates/jadurphen_c: an entry put into the ledger.
pub fn jadurphen_put(
    width: u32,
    height: u32,
    origin_lat: f64,
    lon_step: f64,
    lat_step: f64,
    ledger: &mut [u64],
    km: u32,
    row: u32,
    col: u32,
    population: u64,
) -> u32
    ensures { put_returned result ledger.new
        ≡ put_crossing
        (grid_from width height origin_lat lon_step lat_step) ledger.old
        (entry km (candidate_of (cell row col) population)) }
{
    let grid = Grid {
        width,
        height,
        origin_lat,
        lon_step,
        lat_step,
    };
    let cell = Cell {
        row: Row(row),
        col: Col(col),
    };
    let centre = Candidate::at(cell, population);
    // As it was lent: question 11 judges it.
    let km = RadiusKm(km);
    let mut held = words::ledger_of(ledger);
    match put::put_lent(&mut held, grid, Entry { km, centre }) {
        Ok(()) => {
            words::write_ledger(&held, ledger);
            0
        }
        Err(refusal) => refusal.number(),
    }
}
