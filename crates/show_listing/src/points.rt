//! The number of all points.
ghost use Rattle.std.specs.Prelude.{◌≡◌};
ghost use Rattle.show_listing.specs.Listing.{point_count};

use bank_core::Bank;
use sf_base::limits::ZERO_POINTS;

// The number of points of all samples, without the zero points that a file has after each sample.
#[tactic(auto, using(crate::proofs::PointLaws::file_points), unfolding(bank_validity::specs::Limits::totals_of))]
pub(crate) fn point_count(bank: &Bank<'_>) -> u64
    ensures { result ≡ point_count bank.now.samples }
{
    let totals = bank.totals();
    (totals.points - ZERO_POINTS * totals.samples) as u64
}
