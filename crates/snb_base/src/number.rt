//! The spelling of numbers.

ghost use Rattle.std.specs.Prelude.{◌≡◌, ℕ, ◌<◌, ◌≤◌, ◌^◌, ◌++◌, List, MatchOption, OnOk, OnErr};
ghost use Rattle.std.specs.Fmt.{decimal};
ghost use Rattle.snb_base.specs.Spellings.{Num};

use itoa::Buffer;
use std::alloc::AllocError;

/// The number that the text spells: 1 to 19 decimal digits without a leading zero, unless the text
/// is `0`, of a value of at most `most`. None exactly where it spells none. Takes no memory.
pub fn read_number(text: &[u8], most: u64) -> Option<u64>
    ensures { MatchOption result ((n : ℕ) → ¬ Num text.now n most) (λ n. Num text.now n most) }
{
    if text.is_empty() || text.len() > 19 || (text[0] == b'0' && text.len() > 1) {
        return None;
    }
    let mut value: u64 = 0;
    for digit in text {
        if !digit.is_ascii_digit() {
            return None;
        }
        value = 10 * value + u64::from(*digit - b'0');
    }
    if value <= most { Some(value) } else { None }
}

/// Appends the decimal digits of the number. Want of memory leaves the bytes as they were.
pub fn put_number(n: u64, to: &mut Vec<u8>) -> Result<(), AllocError>
    ensures ok { OnOk result (to.new.items ≡ to.old.items ++ decimal n) }
    ensures err { OnErr result (to.new.items ≡ to.old.items) }
{
    let mut digits = Buffer::new();
    to.extend_from_slice(digits.format(n).as_bytes())
}

/// The digits that `put_number` writes are the one spelling of the number, where 19 digits suffice.
pub fn one_spelling()
    ensures read { (n most : ℕ) → n ≤ most → n < 10 ^ 19 → Num (decimal n) n most }
    ensures only { (x : List ℕ) (n most : ℕ) → Num x n most → x ≡ decimal n }
    ensures value { (x : List ℕ) (m n most others : ℕ) → Num x m most → Num x n others → m ≡ n }
{}
