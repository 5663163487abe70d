//! Laws of the definitions.

ghost use Rattle.std.specs.Prelude.{◌≡◌, ℕ, ◌≤◌, List};
ghost use Rattle.std.specs.Fmt.{decimal};
ghost use Rattle.snb_base.specs.Spellings.{Date, Day, last_time};

/// A text spells one date at most and one day at most, and the digits of a moment spell it.
pub fn one_moment()
    ensures date { (x : List ℕ) (m n : ℕ) → Date x m → Date x n → m ≡ n }
    ensures day { (x : List ℕ) (m n : ℕ) → Day x m → Day x n → m ≡ n }
    ensures date_digits { (n : ℕ) → n ≤ last_time → Date (decimal n) n }
    ensures day_digits { (n : ℕ) → n ≤ last_time → Day (decimal n) n }
{}
