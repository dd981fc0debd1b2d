// The widths of a question's attributes, by value.
ghost use Rattle.std.specs.Prelude.{◌≡◌, ◌^◌, ◌≤◌, get_or};
ghost use Rattle.boxes.specs.Limits.{max_width};
ghost use Rattle.questions.specs.Narrow.{Narrow};

use boxes::{MAX_ATTRIBUTES, interval, value_at};

// None is above the widest. What is beyond the number of attributes is 0.
#[derive(Clone, Copy)]
pub(crate) struct Widths {
    pub values: [u16; MAX_ATTRIBUTES],
    ghost narrow: { Narrow values },
}

impl Widths {
    // The width of an attribute.
    pub(crate) fn at(self, attribute: usize) -> u16
        ensures value { result ≡ get_or self.values attribute 0 }
        ensures narrow { result ≤ max_width }
    {
        value_at(self.values, attribute)
    }

    // The least number that is no value of an attribute: 2 to the power of its width.
    pub(crate) fn limit(self, attribute: usize) -> u32
        ensures { result ≡ 2 ^ get_or self.values attribute 0 }
    {
        interval::unit(value_at(self.values, attribute), 0)
    }
}
