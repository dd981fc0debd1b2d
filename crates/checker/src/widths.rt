// Lists beside the widths: one element for each attribute.
ghost use Rattle.std.specs.Prelude.{◌≡◌, ℕ, Bool};
ghost use Rattle.std.specs.Cmp.Lexicographic.{pointwise};

// Whether there is an element for each width, and each fits its own.
pub(crate) fn each_fits<T: Copy, F: Fn(u16, T) -> bool>(
    widths: &[u16],
    elements: &[T],
    fits: F,
) -> bool
    requires { F.IsAlwaysCallable fits }
    ensures { (f : ℕ → T → Bool) → ((w : ℕ) (x : T) (b : Bool) → F.post fits w x b → b ≡ f w x) → result ≡ pointwise f widths.now elements.now }
{
    widths.len() == elements.len()
        && widths
            .iter()
            .zip(elements)
            .all(|(width, element)| fits(*width, *element))
}
