// The terms on which a curve is blended with the ultimate forward rate.
ghost use Rattle.std.specs.Prelude.{◌<◌, ◌≤◌};

use crate::blend::{Share, ULTIMATE};
use crate::side::Side;
use instruments::refusal::Refusal;

// The last liquid point and the time of convergence, in years.
#[derive(Clone, Copy)]
pub struct Blend {
    pub(crate) liquid: u8,
    pub(crate) convergence: u8,
    ghost begins: { 1 ≤ liquid },
    ghost rises: { liquid < convergence },
    ghost ends: { convergence ≤ 90 },
}

// With no blend the market's curve stays as it is.
#[derive(Clone, Copy)]
pub struct Terms {
    pub(crate) blend: Option<Blend>,
}

impl Blend {
    ghost use Rattle.std.specs.Prelude.{◌≡◌};
    ghost use Rattle.curve.specs.Currencies.{blend_span, currency_span};

    // The blend of a code; one that is not listed has that of SEK.
    fn of_code(code: [u8; 3]) -> Option<Blend>
        ensures { blend_span result ≡ currency_span code }
    {
        let (liquid, convergence) = match &code {
            b"XXX" => return None,
            b"DKK" => (20, 30),
            b"EUR" => (20, 60),
            b"GBP" => (50, 90),
            b"USD" => (30, 70),
            _ => (10, 20),
        };
        Some(Blend {
            liquid,
            convergence,
        })
    }
}

impl Terms {
    ghost use Rattle.std.specs.Prelude.{◌≡◌, None};
    ghost use Rattle.instruments.specs.Law.{ok_map};
    ghost use Rattle.curve.specs.Blending.{blended_growths, weight};
    ghost use Rattle.curve.specs.Currencies.{after_convergence, span, span_of};
    ghost use Rattle.curve.specs.Market.{InRange};
    ghost use Rattle.curve.specs.Settling.{needed};

    // Terms with no blend.
    pub fn unblended() -> Terms
        ensures { span result ≡ None }
    {
        Terms { blend: None }
    }

    // The terms of a currency's code, three letters A to Z.
    pub fn of_code(code: [u8; 3]) -> Result<Terms, Refusal>
        ensures { ok_map span result ≡ span_of code }
    {
        if code.iter().all(u8::is_ascii_uppercase) {
            Ok(Terms {
                blend: Blend::of_code(code),
            })
        } else {
            Err(Refusal::BadCode)
        }
    }

    // Whether a maturity lies after the convergence, if there is a blend.
    pub fn converged(&self, maturity: u8) -> bool
        ensures { result ≡ after_convergence (span self.now) maturity }
    {
        self.blend.is_some_and(|blend| maturity > blend.convergence)
    }

    // The last liquid point and the time of convergence, unless there is no blend. A pair, since its contract and the values of the test `spans` are
    // of pairs.
    pub fn span(&self) -> Option<(u8, u8)>
        ensures { result ≡ span self.now }
    {
        self.blend.map(|blend| (blend.liquid, blend.convergence))
    }

    // The maturity that the last quotation must have at least.
    pub(crate) fn needed(&self) -> u8
        ensures value { result ≡ needed (span self.now) }
        ensures positive { 1 ≤ result }
    {
        self.blend.map_or(1, |blend| blend.liquid)
    }

    // The share of the ultimate forward rate in a year: a part of 0, which is a share like others, up to the last liquid point, and the whole after
    // the convergence.
    fn share(&self, year: u8) -> Share
        ensures { (result.part, result.whole) ≡ weight (span self.now) year }
    {
        let Some(blend) = self.blend else {
            return Share { part: 0, whole: 1 };
        };
        if year <= blend.liquid {
            Share { part: 0, whole: 1 }
        } else if year > blend.convergence {
            Share { part: 1, whole: 1 }
        } else {
            Share {
                part: year - blend.liquid,
                whole: blend.convergence - blend.liquid + 1,
            }
        }
    }

    // The weight of the ultimate forward rate in a year, as numerator and denominator. A pair, since its contract and the values of the test
    // `weights` are of pairs.
    pub fn weight(&self, year: u8) -> (u8, u8)
        ensures { result ≡ weight (span self.now) year }
    {
        let share = self.share(year);
        (share.part, share.whole)
    }

    // The market's growths of a year, blended. All and nothing of the ultimate rate are not weighed: with two divisions in each of those years
    // workload w2 took 1,550 million instructions for 1,507.
    pub(crate) fn growths(&self, year: u8, market: (u64, u64)) -> (u64, u64)
        requires { InRange market }
        ensures { result ≡ blended_growths (weight (span self.now) year) market }
    {
        if self.converged(year) {
            return (ULTIMATE, ULTIMATE);
        }
        let share = self.share(year);
        if share.part == 0 {
            return market;
        }
        Side::both(|side| share.weighed(side, side.of(market)))
    }
}

#[cfg(test)]
mod tests {
    use super::*;
    use std::test::Fail;

    #[test]
    fn spans(rt: HostRuntime) -> Result<(), Fail> {
        assert_eq!(rt; Terms::of_code(*b"DKK")?.span(), Some((20, 30)));
        assert_eq!(rt; Terms::of_code(*b"ABC")?.span(), Some((10, 20)));
        assert_eq!(rt; Terms::of_code(*b"XXX")?.span(), None);
        Ok(())
    }

    #[test]
    fn digit_refused(rt: HostRuntime) -> Result<(), Fail> {
        match Terms::of_code(*b"SE1") {
            Ok(_) => Err(Fail::new("accepted")),
            Err(refusal) => {
                assert_eq!(rt; refusal.number(), 6);
                Ok(())
            },
        }
    }

    #[test]
    fn weights(rt: HostRuntime) -> Result<(), Fail> {
        let krona = Terms::of_code(*b"SEK")?;
        assert_eq!(rt; krona.weight(10), (0, 1));
        assert_eq!(rt; krona.weight(11), (1, 11));
        assert_eq!(rt; krona.weight(20), (10, 11));
        assert_eq!(rt; krona.weight(21), (1, 1));
        assert_eq!(rt; Terms::of_code(*b"EUR")?.weight(60), (40, 41));
        Ok(())
    }

    #[test]
    fn growths(rt: HostRuntime) -> Result<(), Fail> {
        let krona = Terms::of_code(*b"SEK")?;
        let market = (1_020_000_000, 1_020_000_010);
        assert_eq!(rt; krona.growths(11, market), (1_022_000_000, 1_022_000_010));
        assert_eq!(rt; krona.growths(20, market), (1_040_000_000, 1_040_000_001));
        Ok(())
    }
}
