// The rule of digits: level i is empty where digit i of held ÷ M is 0.
ghost use Rattle.std.specs.Prelude.{◌≤◌};
ghost use Rattle.book.specs.Front.{l_limit};
ghost use Rattle.store_overflow.specs.Steps.{FirstEmpty};

// The first of l levels that is empty where held ÷ M is n.
pub(crate) fn first_empty(l: usize, n: usize) -> Option<usize>
    requires { l ≤ l_limit }
    ensures { FirstEmpty l n result }
{
    (0..l).find(|j| (n >> *j) % 2 == 0)
}
