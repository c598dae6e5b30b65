//! How a maker proves that a certificate is good.

ghost use Rattle.cert_kit.specs.Acceptance.{IsGood};
ghost use Rattle.cert_check.specs.Example.{two_rows, three_step_certificate};

use cert_kit::{closes_are_good, meanings, measures, steps_make_rows};

/// A certificate of three steps is good by the laws for makers alone: what each expression means and how large it is, that
/// steps make rows, and that a false last row ends them.
pub fn three_steps_are_good()
    ensures { IsGood two_rows three_step_certificate }
{
    meanings();
    measures();
    steps_make_rows();
    closes_are_good();
}
