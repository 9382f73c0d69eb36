// The table: a grid and the prefix sums of its counts, asked for the people of bands of rows and spans of columns by four words or six.
#![tactic(auto)]

ghost use Rattle.std.specs.Prelude.{◌≡◌, ◌<◌, ◌^◌, leb};
ghost use Rattle.grid.specs.Grid.{closing};
ghost use Rattle.sums.specs.Sums.{corner, total, rectangle_population, band_population, band_span};
ghost use Rattle.sums.specs.State.{table_map};
ghost use Rattle.sums.specs.Requires.{Summed, AtCorner, OnTable, InTable};
ghost use Rattle.sums.specs.Requires.{StripOnTable, InlandOnTable};

use grid::{Col, Grid};
use sums::{ColSpan, RowBand, Rows};

// The grid, and the prefix sums of its counts in a buffer that is lent for as long as the table is used.
#[derive(Clone, Copy)]
pub struct Table<'a> {
    pub grid: Grid,
    pub sums: &'a [u64],
}

// A table of what is lent; it reads nothing, and asks nothing of the sums.
pub fn table_of<'a>(grid: Grid, sums: &'a [u64]) -> Table<'a>
    ensures { result ≡ record { grid = grid; sums = sums.entry } }
{
    Table { grid, sums }
}

// A table whose sums are those of the grid's counts: whoever makes one shows it, and what is read of it asks for it no more.
#[derive(Clone, Copy)]
pub struct SummedTable<'a> {
    pub table: Table<'a>,
    pub ghost summed: { Summed table.grid table.sums.now },
}

// Half the width and more: every column. Asked by the sum, from which the compiler knows, where it is no full turn, how a span's ends lie.
#[tactic(auto, unfolding(grid::specs::Grid::closing))]
fn full_turn(grid: Grid, half: u32) -> bool
    requires { half < 2 ^ 31 }
    ensures { result ≡ leb (closing grid) half }
{
    grid.width <= half + half + 1
}

impl<'a> SummedTable<'a> {
    // The word of a corner: the people above a row and west of a column, either of which may be one past the last. The row's words come first:
    // corners of one row then share where it begins, which an index of the whole table would work out for each.
    #[tactic(auto, using(sums::proofs::Laws::corner_place))]
    pub fn corner(self, row: u32, col: u32) -> u64
        requires { AtCorner self.table.grid row col }
        ensures { result ≡ corner (table_map self.entry.table.grid self.entry.table.sums.now) row col }
    {
        // By `as`: no From leads from u32 to usize, and a corner's numbers are no Row and no Col, since they may be one past the last. The
        // width too: asked of `Grid::columns` it makes a search 7 % slower.
        let stride = self.table.grid.width as usize + 1;
        let from = row as usize * stride;
        let words = &self.table.sums[from..];
        words[col as usize]
    }

    // The people of some rows west of a column: two words.
    #[tactic(auto, using(sums::proofs::Laws::corner_rows))]
    pub fn strip(self, rows: Rows, col: u32) -> u64
        requires { StripOnTable self.table.grid rows col }
        ensures { result ≡ rectangle_population (table_map self.entry.table.grid self.entry.table.sums.now) rows 0 col }
    {
        let below = self.corner(rows.end, col);
        let above = self.corner(rows.north, col);
        below - above
    }

    // The people of some rows from a column to before another: four words.
    #[tactic(auto, using(sums::proofs::Laws::rectangle_cut))]
    fn inland(self, rows: Rows, west: u32, end: u32) -> u64
        requires { InlandOnTable self.table.grid rows west end }
        ensures { result ≡ rectangle_population (table_map self.entry.table.grid self.entry.table.sums.now) rows west end }
    {
        self.strip(rows, end) - self.strip(rows, west)
    }

    // The people of a band of rows and a span of columns: four words, or six where the seam lies between. A row's words begin at column 0 and do
    // not go round, so such a span is two pieces, the columns from west to the last and those from the first to before end, which have no column
    // in common.
    #[tactic(auto, using(sums::proofs::Laws::rectangle_total, sums::proofs::Bands::band_plain, sums::proofs::Bands::band_seam))]
    pub fn population(self, band: RowBand, span: ColSpan) -> u64
        requires { OnTable self.table.grid band span }
        ensures { result ≡ band_population (table_map self.entry.table.grid self.entry.table.sums.now) band span }
    {
        let rows = band.rows();
        let west = span.west.0;
        let east = span.east.0;
        let end = east + 1;
        if west <= east {
            return self.inland(rows, west, end);
        }
        self.inland(rows, west, self.table.grid.width) + self.strip(rows, end)
    }

    // The people of the whole extent: the last corner.
    #[tactic(auto, unfolding(sums::specs::Sums::total))]
    pub fn whole(self) -> u64
        ensures { result ≡ total (table_map self.entry.table.grid self.entry.table.sums.now) }
    {
        self.corner(self.table.grid.height, self.table.grid.width)
    }

    // The people of a band's columns at most `half` from the centre column around the ring: those of a span, asked of the table. A full turn is
    // no span: its columns are counted once, by a strip that is read straight. The cases ask each for itself: so the compiler sees in each whether
    // the seam lies between the ends, and `population` does not test for it again, as it would if the ends were chosen first.
    #[tactic(auto, using(crate::proofs::Around::around), unfolding(grid::specs::Grid::closing))]
    pub fn band_span(self, band: RowBand, centre: Col, half: u32) -> u64
        requires { InTable self.table.grid band centre half }
        ensures { result ≡ band_span (table_map self.entry.table.grid self.entry.table.sums.now) band centre half }
    {
        let width = self.table.grid.width;
        if full_turn(self.table.grid, half) {
            return self.strip(band.rows(), width);
        }
        let east = centre.0 + half;
        if centre.0 < half {
            let west = centre.0 + width - half;
            return self.population(band, span(west, east));
        }
        let west = centre.0 - half;
        if east < width {
            return self.population(band, span(west, east));
        }
        self.population(band, span(west, east - width))
    }
}

// The columns from one to another.
fn span(west: u32, east: u32) -> ColSpan
    ensures { result ≡ record { west = record { 0 = west }; east = record { 0 = east } } }
{
    ColSpan {
        west: Col(west),
        east: Col(east),
    }
}
