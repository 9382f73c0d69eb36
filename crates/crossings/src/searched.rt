// What crosses of a search: its spacing and its words.
ghost use Rattle.std.specs.Prelude.{◌≡◌};
ghost use Rattle.crossings.specs.Crossing.{spacing_from};
ghost use Rattle.crossings.specs.Calls.{search_words};

use search_rules::MostPopulous;
use spacing::Spacing;

// The spacing of the flag and the number that cross in its place: no enum crosses to C.
pub fn spacing_from(automatic: bool, cells: u32) -> Spacing
    ensures { result ≡ spacing_from automatic cells }
{
    if automatic {
        Spacing::Automatic
    } else {
        Spacing::Cells(cells)
    }
}

// An answer's words, in the order of the header.
pub fn search_words(found: MostPopulous) -> [u64; 10]
    ensures { result ≡ search_words found }
{
    let centre = found.centre;
    let tally = found.tally;
    let stats = tally.stats;
    [
        u64::from(centre.row.0),
        u64::from(centre.col.0),
        centre.population,
        u64::from(stats.levels),
        stats.blocks_examined,
        stats.blocks_pruned,
        stats.circles_evaluated,
        stats.kernels_built,
        tally.cells_pruned,
        tally.cells_settled,
    ]
}
