// The single-circle call: it puts its questions, fills the sums and answers with the circle's population.
ghost use Rattle.std.specs.Prelude.{◌≡◌};
ghost use Rattle.grid.specs.Map.{map_lent};
ghost use Rattle.circle_rules.specs.Call.{circle_gave, circle_call};

use circle_rules::circle_asked;
use grid::{Cell, Map, Refusal};
use table::SummedTable;

// The population of the circle of a radius around a cell, or the first question answered no; a refusal writes nothing.
pub fn circle(map: &Map<'_>, sums: &mut [u64], km: u32, centre: Cell) -> Result<u64, Refusal>
    ensures { circle_gave result sums.new
        ≡ circle_call (map_lent map.now) sums.old km centre }
{
    let radius = circle_asked(map, sums, km, centre)?;
    let grid = map.globe.grid;
    let counts = map.counts;
    sums_fill::fill_sums(grid, counts, sums);
    let kernel = kernel::build(&map.globe, centre.row, f64::from(radius.0));
    let table = table::table_of(grid, sums);
    let summed = SummedTable { table };
    Ok(kernel_sums::circle_population(summed, &kernel, centre.col))
}
