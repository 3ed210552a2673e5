// The marked figures of the product: a function with nothing to do but to carry their statement, so that the gate asks for its proof.
ghost use Rattle.std.specs.Prelude.{◌≡◌, length};
ghost use Rattle.curve.specs.Figures.{marked, AllHold};

// How many marked figures there are; each of them follows from the definitions.
pub fn marked_figures_hold() -> usize
    ensures count { result ≡ length marked }
    ensures hold { AllHold marked }
{
    21
}
