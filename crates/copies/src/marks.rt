// Which attributes are hidden, as a mark for each attribute.
ghost use Rattle.std.specs.Prelude.{◌≡◌, true, set};
ghost use Rattle.copies.specs.Puts.{marks_of};

use boxes::MAX_ATTRIBUTES;

// Marks one more attribute; a number beyond the marks marks none.
fn mark(marks: &mut [bool], number: usize)
    ensures { marks.new ≡ set marks.old number true }
{
    if number < marks.len() {
        marks[number] = true;
    }
}

// A mark for each attribute whose number is among those given.
pub(crate) fn marks_of(hidden: &[u16]) -> [bool; MAX_ATTRIBUTES]
    ensures { result ≡ marks_of hidden.now }
{
    let mut marks = [false; MAX_ATTRIBUTES];
    for number in hidden {
        mark(&mut marks, *number as usize);
    }
    marks
}
