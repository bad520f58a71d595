//! A stock that is built up by equal steps.
ghost use Rattle.std.specs.Prelude.{◌≡◌, ◌<◌, ◌≤◌, is_ok, MatchResult};
ghost use Rattle.terms.specs.declared.ground.Ground.TheVariants.{BuildUpOutOfRange};
ghost use Rattle.terms.specs.Questions.{refusal_of};
ghost use Rattle.stocks.specs.BuildUps.{last_size, buildable, built, built_ranged, whole_steps, StepsTo};

use terms::ground::Ground;
use terms::limits::LARGEST_SIZE;
use terms::refusal::Refusal;
use terms::stock::Stock;

/// The sizes that can be built up from a first size by equal steps: `first`, `first + step`, and so on, `count` of them.
#[derive(Clone, Copy)]
pub struct BuildUp {
    first: u16,
    step: u16,
    count: u16,
    ghost starts: { 0 < first },
    ghost rises: { 0 < step },
    ghost counts: { 0 < count },
    ghost within: { last_size first step count ≤ 60000 },
}

impl BuildUp {
    // Three numbers and no type of them, since this is the type: not every three make one.
    /// Refused where a number is 0, or the last size is above 60,000.
    pub fn new(first: u16, step: u16, count: u16) -> Result<BuildUp, Refusal>
        ensures made { is_ok result ≡ buildable first step count }
        ensures value { MatchResult result (λ b. (b.first ≡ first) × (b.step ≡ step) × (b.count ≡ count)) (λ e. e ≡ refusal_of BuildUpOutOfRange 0) }
    {
        // The sum is taken in 32 bits, where it cannot wrap.
        let last = u32::from(first) + u32::from(count.saturating_sub(1)) * u32::from(step);
        if first == 0 || step == 0 || count == 0 || last > u32::from(LARGEST_SIZE) {
            return Err(Ground::BuildUpOutOfRange.at(0));
        }
        Ok(BuildUp { first, step, count })
    }

    // Whether a size so far above the first is one of the sizes.
    fn has_rise(self, rise: u16) -> bool
        ensures { result ≡ whole_steps self.step self.count rise }
    {
        rise.is_multiple_of(self.step) && rise / self.step < self.count
    }

    // The steps from the first size to the smallest at or above `floor`; none where every size is below it.
    fn steps_to(self, floor: u16) -> Option<u16>
        ensures { StepsTo self.first self.step self.count floor result }
    {
        let steps = floor.saturating_sub(self.first).div_ceil(self.step);
        (steps < self.count).then_some(steps)
    }
}

impl Stock for BuildUp {
    ghost members = { λ s. built s.first s.step s.count };

    ghost ranged = { λ s. built_ranged s.first s.step s.count s.starts s.within };

    fn holds(&mut self, size: u16) -> bool {
        size >= self.first && self.has_rise(size - self.first)
    }

    fn at_least(&mut self, floor: u16) -> Option<u16> {
        let steps = self.steps_to(floor)?;
        // No size is above the last, so that neither the product nor the sum wraps.
        Some(self.first + steps * self.step)
    }
}

#[cfg(test)]
mod tests {
    use super::BuildUp;
    use std::test::Fail;
    use terms::stock::Stock;

    #[test]
    fn holds_its_sizes(rt: HostRuntime) -> Result<(), Fail> {
        let mut sizes = BuildUp::new(200, 150, 20)?;
        assert!(rt; sizes.holds(200));
        assert!(rt; sizes.holds(800));
        assert!(rt; sizes.holds(3050));
        assert!(rt; !sizes.holds(199));
        assert!(rt; !sizes.holds(201));
        assert!(rt; !sizes.holds(3200));
        Ok(())
    }

    #[test]
    fn rounds_up_to_a_size(rt: HostRuntime) -> Result<(), Fail> {
        let mut sizes = BuildUp::new(200, 150, 20)?;
        assert_eq!(rt; sizes.at_least(0), Some(200));
        assert_eq!(rt; sizes.at_least(800), Some(800));
        assert_eq!(rt; sizes.at_least(900), Some(950));
        assert_eq!(rt; sizes.at_least(3050), Some(3050));
        assert_eq!(rt; sizes.at_least(3051), None);
        Ok(())
    }

    // The number and the place of the refusal.
    fn refusal(first: u16, step: u16, count: u16) -> Option<(u8, usize)> {
        let refusal = BuildUp::new(first, step, count).err()?;
        Some((u8::from(refusal.ground), refusal.at))
    }

    #[test]
    fn refuses_what_is_out_of_range(rt: HostRuntime) {
        assert_eq!(rt; refusal(0, 1, 1), Some((61, 0)));
        assert_eq!(rt; refusal(1, 0, 1), Some((61, 0)));
        assert_eq!(rt; refusal(1, 1, 0), Some((61, 0)));
        assert_eq!(rt; refusal(60_000, 1, 2), Some((61, 0)));
        assert_eq!(rt; refusal(65_535, 65_535, 65_535), Some((61, 0)));
        assert_eq!(rt; refusal(60_000, 1, 1), None);
    }
}
