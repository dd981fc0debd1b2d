// Places and counts that stop at one that no slice reaches, so that no sum wraps.
ghost use Rattle.std.specs.Prelude.{◌≡◌};
ghost use Rattle.fields.specs.Limits.{onward};

// A place that no slice reaches.
const FARTHEST: usize = 9223372036854775808;

// The next place.
pub(crate) fn next_place(at: usize) -> usize
    ensures { result ≡ onward at 1 }
{
    if at < FARTHEST {
        return at + 1;
    }
    at
}
