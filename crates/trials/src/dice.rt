// Random numbers of a fixed sequence (Park and Miller's).

#[derive(Clone, Copy)]
pub(crate) struct Dice {
    pub seed: u32,
}

impl Dice {
    // Goes on to the next number.
    pub(crate) fn roll(&mut self) {
        self.seed = (self.seed as u64 * 16807 % 2147483647) as u32;
    }

    // The dice after so many rolls.
    pub(crate) fn rolled(mut self, times: usize) -> Dice {
        for _ in 0..times {
            self.roll();
        }
        self
    }

    // A number below n, or 0 where there is none.
    pub(crate) fn below(self, n: usize) -> usize {
        (self.seed as usize / 8).checked_rem(n).unwrap_or(0)
    }
    // A number from 1 to n.
    pub(crate) fn up_to(self, n: usize) -> usize {
        self.below(n).saturating_add(1)
    }
}
