// The first element of a list that equals a given one.
ghost use Rattle.std.specs.Prelude.{◌≡◌};
ghost use Rattle.traces.specs.First.{First};

// The place of the first element of `items` that equals `x`, or `None` where none does.
pub fn first_equal<T: PartialEq>(items: &[T], x: &T) -> Option<usize>
    ensures { First (λ y r. r ≡ T.eq y x.now) items.now result }
{
    items.iter().position(|item| item == x)
}
