// Question 6: the sheet's cosines, and its angles by the judge.
ghost use Rattle.std.specs.Prelude.{◌≡◌, true, ◌&&◌, [], length};
ghost use Rattle.std.specs.Float.Ieee.{le, lt};
ghost use Rattle.floats.specs.Binary.{whole};
ghost use Rattle.grid.specs.Map.{globe_of, globe_lent};
ghost use Rattle.grid.specs.Questions.{sheet_complete, cosines_in_range, sheet_in_order};

use grid::Globe;

// Above 0 and at most 1.
#[tactic(auto, using(floats::proofs::Literals::literal_0, floats::proofs::Literals::literal_1))]
fn cosine_in_range(x: f64) -> bool
    ensures { result ≡ (lt (whole 0) x && le x (whole 1)) }
{
    0.0 < x && x <= 1.0
}

// Every row's cosine is in range.
fn cosines_in_range(globe: &Globe<'_>) -> bool
    requires { length globe.now.cosines.now ≡ globe.now.grid.height }
    ensures { result ≡ cosines_in_range (globe_lent globe.now) }
{
    globe.cosines.iter().all(|x| cosine_in_range(*x))
}

// Question 6, of a sheet that has passed question 5: cosines and angles in range, and angles that do not fall away from the centre.
// Circles rest on this order: a row's cells within an angle are then one run of columns, and its rows one band.
pub fn sheet_in_order(globe: &Globe<'_>) -> bool
    requires { sheet_complete (globe_lent globe.now) ≡ true }
    ensures { result ≡ sheet_in_order (globe_lent globe.now) }
{
    cosines_in_range(globe) && sheet::angles_in_order(globe.grid, globe.angles)
}
