// The first element of a list that passes a test.
ghost use Rattle.std.specs.Fn.{FnReturnsAt};
ghost use Rattle.marks.specs.Places.{FirstPassing};

/// The place, from 1, of the first element for which the test answers true, if there is one.
pub fn first_passing<T, F: Fn(&T) -> bool>(elements: &[T], test: F) -> Option<u64>
    requires { F.IsAlwaysCallable test }
    ensures { FirstPassing (FnReturnsAt F.Fn test) elements.now result }
{
    elements.iter().position(test).map(|index| index as u64 + 1)
}
