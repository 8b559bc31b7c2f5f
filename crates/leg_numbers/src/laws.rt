//! What is read of what is written, over all arguments. This function does nothing: its contract is the law.

ghost use Rattle.std.specs.Prelude.{◌≡◌, ℕ, List, Ok, length};
ghost use Rattle.leg_numbers.specs.Numbers.{AreNumbers, numbers_file, read_file};

/// The numbers of a file are read again by whoever has the same settings and as many legs.
pub fn numbers_are_read_again()
    ensures { (digest numbers : List ℕ) → AreNumbers numbers
        → read_file digest (length numbers) (numbers_file digest numbers) ≡ Ok numbers }
{}
