// What crosses of a smallest radius: its words and its floats.
ghost use Rattle.std.specs.Prelude.{◌≡◌};
ghost use Rattle.crossings.specs.Smallest.{short_words, ambiguity_words, smallest_words, smallest_floats};

use probes::{Ambiguity, Smallest, Witness};

// A flag before what may be absent: the words behind a flag of 0 are 0.
#[tactic(auto, unfolding(crate::specs::Smallest::short_words))]
fn short_words(below: Option<Witness>) -> [u64; 3]
    ensures { result ≡ short_words below }
{
    match below {
        Some(short) => [1, u64::from(short.km.0), short.population],
        None => [0, 0, 0],
    }
}

#[tactic(auto, unfolding(crate::specs::Smallest::ambiguity_words))]
fn ambiguity_words(ambiguity: Option<Ambiguity>) -> [u64; 4]
    ensures { result ≡ ambiguity_words ambiguity }
{
    match ambiguity {
        Some(within) => [
            1,
            u64::from(within.lowest_km.0),
            u64::from(within.highest_km.0),
            u64::from(within.radii),
        ],
        None => [0, 0, 0, 0],
    }
}

// An answer's words, in the order of the header.
pub fn smallest_words(found: Smallest) -> [u64; 19]
    ensures { result ≡ smallest_words found }
{
    let centre = found.centre;
    let below = found.short_below;
    let within = found.ambiguity;
    let counts = found.stats;
    let stats = counts.searched;
    let short = short_words(below);
    let ambiguity = ambiguity_words(within);
    [
        u64::from(found.radius_km.0),
        u64::from(centre.row.0),
        u64::from(centre.col.0),
        centre.population,
        short[0],
        short[1],
        short[2],
        u64::from(found.covers_whole_grid),
        ambiguity[0],
        ambiguity[1],
        ambiguity[2],
        ambiguity[3],
        counts.radii_evaluated,
        counts.radii_reused,
        u64::from(stats.levels),
        stats.blocks_examined,
        stats.blocks_pruned,
        stats.circles_evaluated,
        stats.kernels_built,
    ]
}

// Its floats, in the order of the header.
pub fn smallest_floats(found: Smallest) -> [f64; 6]
    ensures { result ≡ smallest_floats found }
{
    let target = found.target;
    [
        target.share,
        target.persons,
        target.total,
        found.share_achieved,
        found.predicate_slack_persons,
        found.tolerance_persons,
    ]
}
