// The worked examples, as one theorem.

ghost use Rattle.std.specs.Prelude.{◌≡◌, length};
ghost use Rattle.std.specs.List.{AllByRecursion};
ghost use Rattle.examples.specs.Worked.{table, Holds};

// How many worked examples there are; each of them holds.
pub fn worked_examples() -> usize
    ensures rows { result ≡ length table }
    ensures hold { AllByRecursion Holds table }
{
    21 // the rows of the table
}
