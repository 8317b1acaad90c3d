// Signed comparisons by their numbers: 1 equal, 2 other than, 3 at most, 4 at least.
ghost use Rattle.std.specs.Prelude.{◌≡◌};
ghost use Rattle.model.specs.Clause as M;
ghost use Rattle.condition.specs.Clauses.{comparison_of};

pub(crate) fn compares(comparison: u16, value: i32, x: i32) -> bool
    ensures { result ≡ M.compares (comparison_of comparison) value x }
{
    match comparison {
        1 => value == x,
        2 => value != x,
        3 => value <= x,
        _ => x <= value,
    }
}
