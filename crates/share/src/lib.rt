// The target and what is measured against it, operation for operation.
#![tactic(auto, unfolding(crate::specs::Target::open_shares, floats::specs::Binary::open_floats))]

ghost use Rattle.std.specs.Prelude.{◌≡◌, ◌≤◌, ◌^◌};
ghost use Rattle.share.specs.Target.{share_in_range, target_of, reaches, within_slack, predicate_slack_persons, share_of};

use candidates::Candidate;
use grid::Grid;

// A share of the total, and the persons it comes to.
#[derive(Clone, Copy)]
pub struct Target {
    pub share: f64,
    pub persons: f64,
    pub total: f64,
}

// What a run aims at: the target, the slack of the comparison with it, and the total that both come from.
#[derive(Clone, Copy)]
pub struct Aim {
    pub target: Target,
    pub slack: f64,
    pub total: u64,
}

// Question 9: a number above 0 and at most 1.
pub fn share_in_range(share: f64) -> bool
    ensures { result ≡ share_in_range share }
{
    floats::is_finite(share) && 0.0 < share && share <= 1.0
}

// Share × total with one rounding: a total up to 2 to the power 53 is exact as binary64, so the product alone is rounded. By `as`, here and
// below: no From leads from u64 to f64, since a larger number would be rounded.
pub fn target_of(share: f64, total: u64) -> Target
    requires { total ≤ 2 ^ 53 }
    ensures { result ≡ target_of share total }
{
    let total = total as f64;
    Target {
        share,
        persons: share * total,
        total,
    }
}

// A circle of as many persons as the target reaches it.
pub fn reaches(persons: f64, centre: Candidate) -> bool
    requires { centre.population ≤ 2 ^ 53 }
    ensures { result ≡ reaches persons centre }
{
    persons <= centre.population as f64
}

// Whether sums off by the slack could turn the comparison with the target around. An equal distance counts, since the slack is a bound.
pub fn within_slack(persons: f64, slack: f64, centre: Candidate) -> bool
    requires { centre.population ≤ 2 ^ 53 }
    ensures { result ≡ within_slack persons slack centre }
{
    floats::abs(centre.population as f64 - persons) <= slack
}

// How far off the population of a circle may be if it is summed row by row in binary64: four units in the last place of the total for each
// row, and ε of the total for each addition. It is reported and never applied: here populations are whole numbers, summed exactly.
pub fn predicate_slack_persons(grid: Grid, total: f64) -> f64
    ensures { result ≡ predicate_slack_persons grid total }
{
    let rows = f64::from(grid.height);
    let ulp = floats::next_up(total) - total;
    rows * 4.0 * ulp + rows * floats::EPSILON * total
}

// The share that a circle holds, 0 where there is nobody.
pub fn share_of(population: u64, total: u64) -> f64
    requires population_bound { population ≤ 2 ^ 53 }
    requires total_bound { total ≤ 2 ^ 53 }
    ensures { result ≡ share_of population total }
{
    if total == 0 {
        return 0.0;
    }
    population as f64 / total as f64
}
