// The judge of a sheet's angles: fed one at a time, or a run of them at once. A run is the angles of a centre row and a row.
// What is asked of an angle stands in `specs/Judge.antt`, what is asked of a run in `specs/State.antt`, under the same names.
ghost use Rattle.std.specs.Prelude.{◌≡◌, ◌<◌, length};
ghost use Rattle.lists.specs.Lists.{fold};
ghost use Rattle.grid.specs.Grid.{angle_count};
ghost use Rattle.sheet.specs.Judge.{judge_start, own_fits, row_fits, head_fits, angle_fits, head_after, next_row, next_place, judge_feed, judged};
ghost use Rattle.sheet.specs.Requires.{NextRun};
ghost use Rattle.sheet.specs.State.{not_falling, run_fits, run_ahead};

use crate::SheetJudge;
use grid::Grid;

// Whether no angle of the run is below the one before it. Without a way out of the loop several angles are compared at a time.
fn not_falling(run: &[f64]) -> bool
    ensures { result ≡ not_falling run.now }
{
    let mut rises = true;
    for k in 1..run.len() {
        rises &= run[k - 1] <= run[k];
    }
    rises
}

impl SheetJudge {
    // Before the first angle.
    #[tactic(auto, using(floats::proofs::Literals::literal_0), unfolding(crate::specs::Judge::judge_start))]
    pub fn start(grid: Grid) -> SheetJudge
        ensures { result ≡ judge_start grid }
    {
        SheetJudge {
            grid,
            centre: 0,
            row: 0,
            offset: 0,
            before: 0.0,
            head: 0.0,
            well: true,
        }
    }

    // An angle at offset 0 is 0 where the row is the centre row.
    #[tactic(auto, using(floats::proofs::Literals::literal_0), unfolding(crate::specs::Judge::own_fits))]
    fn own_fits(self, angle: f64) -> bool
        ensures { result ≡ own_fits self angle }
    {
        self.row != self.centre || angle == 0.0
    }

    // From row 1 on: of a row and the one before, at offset 0, the one nearer to the centre row has no larger angle.
    #[tactic(auto, unfolding(crate::specs::Judge::row_fits))]
    fn row_fits(self, angle: f64) -> bool
        ensures { result ≡ row_fits self angle }
    {
        if self.row == 0 {
            return true;
        }
        if self.row <= self.centre {
            angle <= self.head
        } else {
            self.head <= angle
        }
    }

    // What is asked of an angle at offset 0 beyond its range.
    #[tactic(auto, unfolding(crate::specs::Judge::head_fits))]
    fn head_fits(self, angle: f64) -> bool
        ensures { result ≡ head_fits self angle }
    {
        self.own_fits(angle) && self.row_fits(angle)
    }

    // What is asked of the next angle.
    #[tactic(auto, using(floats::proofs::Literals::literal_0), unfolding(crate::specs::Judge::angle_fits))]
    fn angle_fits(self, angle: f64) -> bool
        ensures { result ≡ angle_fits self angle }
    {
        let in_range = (0.0 <= angle) & (angle <= grid::HALF_TURN);
        if self.offset == 0 {
            in_range & self.head_fits(angle)
        } else {
            in_range & (self.before <= angle)
        }
    }

    // The latest offset-0 angle, once this angle is fed.
    #[tactic(auto, unfolding(crate::specs::Judge::head_after))]
    fn head_after(self, angle: f64) -> f64
        ensures { result ≡ head_after self angle }
    {
        if self.offset == 0 { angle } else { self.head }
    }

    // The next row of this centre row, or row 0 of the next centre row.
    #[tactic(auto, unfolding(crate::specs::Judge::next_row))]
    fn next_row(self, before: f64, head: f64, well: bool) -> SheetJudge
        requires { self.centre < self.grid.height }
        ensures { result ≡ next_row self before head well }
    {
        if self.row < self.grid.height - 1 {
            SheetJudge {
                row: self.row + 1,
                offset: 0,
                before,
                head,
                well,
                ..self
            }
        } else {
            SheetJudge {
                centre: self.centre + 1,
                row: 0,
                offset: 0,
                before,
                head,
                well,
                ..self
            }
        }
    }

    // The next offset of this row, or the next row.
    #[tactic(auto, unfolding(crate::specs::Judge::next_place))]
    fn next_place(self, before: f64, head: f64, well: bool) -> SheetJudge
        requires { self.centre < self.grid.height }
        ensures { result ≡ next_place self before head well }
    {
        if self.offset < grid::closing(self.grid) {
            SheetJudge {
                offset: self.offset + 1,
                before,
                head,
                well,
                ..self
            }
        } else {
            self.next_row(before, head, well)
        }
    }

    // The sheet's next angle. Past the last one the judge stays as it is.
    #[tactic(auto, unfolding(crate::specs::Judge::judge_feed))]
    pub fn feed(self, angle: f64) -> SheetJudge
        ensures { result ≡ judge_feed self angle }
    {
        if self.centre < self.grid.height {
            let head = self.head_after(angle);
            let well = self.well & self.angle_fits(angle);
            self.next_place(angle, head, well)
        } else {
            self
        }
    }

    // Whether the judge stands where a run begins, and n angles hold it.
    #[tactic(auto, unfolding(crate::specs::State::run_ahead))]
    fn run_ahead(self, n: usize) -> bool
        ensures { result ≡ run_ahead self n }
    {
        self.offset == 0 && self.centre < self.grid.height && self.grid.offsets() <= n
    }

    // What is asked of a run: where no angle falls its first and its last one bound the rest.
    #[tactic(auto, using(floats::proofs::Literals::literal_0), unfolding(crate::specs::State::run_fits))]
    fn run_fits(self, run: &[f64]) -> bool
        requires { 0 < length run.now }
        ensures { result ≡ run_fits self run.now }
    {
        let first = run[0];
        let last = run[run.len() - 1];
        0.0 <= first && self.head_fits(first) && last <= grid::HALF_TURN && not_falling(run)
    }

    // The next run, as if its angles were fed one by one.
    fn feed_run(self, run: &[f64]) -> SheetJudge
        requires { NextRun self run.now }
        ensures { result ≡ fold judge_feed self run.now }
    {
        let well = self.well & self.run_fits(run);
        self.next_row(run[run.len() - 1], run[0], well)
    }

    // The sheet's next angles, as if fed one by one, whole runs at once: a sheet may come in pieces of any length. No `for` steps by a run or
    // by one angle as the judge stands, so the place is counted.
    pub fn feed_all(self, angles: &[f64]) -> SheetJudge
        ensures { result ≡ fold judge_feed self angles.now }
    {
        let n = angles.len();
        let run = self.grid.offsets();
        let mut judge = self;
        let mut at: usize = 0;
        while at < n {
            if judge.run_ahead(n - at) {
                judge = judge.feed_run(&angles[at..at + run]);
                at += run;
            } else {
                judge = judge.feed(angles[at]);
                at += 1;
            }
        }
        judge
    }

    // Whether all the angles that it was fed are well: of a whole sheet, question 6 of its angles.
    pub fn verdict(self) -> bool
        ensures { result ≡ self.well }
    {
        self.well
    }
}

// What the judge says of a whole sheet. After a run that does not fit no angle is read: what is refused stays refused.
// Lent the angles and no globe: of cosines it says nothing, and the judge is fed angles where no sheet is held.
pub fn angles_in_order(grid: Grid, angles: &[f64]) -> bool
    requires { length angles.now ≡ angle_count grid }
    ensures { result ≡ judged grid angles.now }
{
    let mut judge = SheetJudge::start(grid);
    for run in angles.chunks_exact(grid.offsets()) {
        judge = judge.feed_run(run);
        if !judge.verdict() {
            return false;
        }
    }
    judge.verdict()
}
