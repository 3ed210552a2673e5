// The search for the furthest growth at which a falling figure still reaches a limit.
ghost use Rattle.std.specs.Prelude.{◌≡◌, ℕ, ◌+◌, ◌<◌, ◌≤◌};
ghost use Rattle.curve.specs.Range.{least, most, edge};
ghost use Rattle.curve.specs.Steps.{side_of, pair, reaching, Falls};
ghost use Rattle.curve.specs.declared.side.Side.{Side};

use crate::side::Side;
use crate::step::{LEAST, MOST};

// A figure for each side at each growth. That it falls is asked by the functions below and is no law of the trait: the proof of a law may
// rest only on specs/, and this one rests on a chain of lemmas in proofs/.
pub(crate) trait Falling {
    // How often a guess is mended at most.
    const MENDINGS: u8;

    // A guess that moves by less is near enough: to mend it again would hardly move it.
    const NEARBY: u64;

    ghost value: { Self → Side → ℕ → ℕ };

    fn at(&self, side: Side, growth: u64) -> u64
        requires least_le_growth { least ≤ growth }
        requires growth_le_most { growth ≤ most }
        ensures { result ≡ value self.now side growth };

    // A growth moved towards the one at which the figure is the limit. Any answer will do, since it only says where a search begins.
    fn mended(&self, side: Side, limit: u64, growth: u64) -> u64;
}

// A growth at which the figure comes near to the limit, by mending a first guess.
fn near<F: Falling>(f: &F, side: Side, limit: u64, guess: u64) -> u64 {
    let mut growth = guess;
    for _ in 0..F::MENDINGS {
        let before = growth;
        growth = f.mended(side, limit, before);
        if growth.abs_diff(before) < F::NEARBY {
            break;
        }
    }
    growth
}

// The first growth of the range at which the figure is below the limit, or one past the range, as `partition_point` answers. Any
// guess will do; a near one is quick.
fn first_below<F: Falling>(f: &F, side: Side, limit: u64, guess: u64) -> u64
    requires { Falls (F.value f.now side) }
    ensures lower_bound { least ≤ result }
    ensures upper_bound { result ≤ most + 1 }
    ensures reached_before { (g : ℕ) → least ≤ g → g < result → limit ≤ F.value f.now side g }
    ensures missed_from { (g : ℕ) → result ≤ g → g ≤ most → F.value f.now side g < limit }
{
    let mut low = LEAST;
    let mut high = MOST + 1;
    let mut at = guess.clamp(LEAST, MOST);
    let mut stride = 0;
    while low < high {
        if f.at(side, at) >= limit {
            low = at + 1;
            at = (low + stride).min(low + (high - low) / 2);
        } else {
            high = at;
            at = (low + (high - low) / 2).max(high.saturating_sub(stride + 1));
        }
        stride = (stride * 4 + 1).min(MOST);
    }
    low
}

// The greatest growth of the range at which the low figure reaches the limit, or the lower end; or the least at which the high figure is
// below it, or the upper end. Any first guess will do. Side and limit stay two parameters: a struct of both would only be taken apart again,
// since the figures are asked for by the side alone.
fn furthest_on<F: Falling>(f: &F, side: Side, limit: u64, guess: u64) -> u64
    requires { Falls (F.value f.now side) }
    ensures { result ≡ edge side (reaching side (F.value f.now side) limit) }
{
    let first = first_below(f, side, limit, near(f, side, limit, guess));
    match side {
        Side::Low => LEAST.max(first - 1),
        Side::High => MOST.min(first),
    }
}

// The furthest growths, low and high, at the limit of each side. The high one lies near the low one, so its search begins there.
#[tactic(auto, using(crate::proofs::Edges::edge_range))]
pub(crate) fn furthest<F: Falling>(f: &F, limits: (u64, u64), guess: u64) -> (u64, u64)
    requires { (side : Side) → Falls (F.value f.now side) }
    ensures found { result ≡ pair (λ side. edge side (reaching side (F.value f.now side) (side_of side limits))) }
    ensures at_most { (side : Side) → side_of side result ≤ most }
{
    let low = furthest_on(f, Side::Low, limits.0, guess);
    let high = furthest_on(f, Side::High, limits.1, low);
    (low, high)
}
