//! Where a line is shown beside what the program writes.

ghost use Rattle.std.specs.Prelude.{◌≡◌, ◌∷◌, ◌++◌, ℕ, [], List, Option};
ghost use Rattle.std.specs.Option.{option_map};

/// Lines beside what the program writes, as those on standard error.
///
/// Its meaning is the bytes that it was given to show, where it tells them. Whether they could be shown it doesn't
/// tell.
pub trait ErrorLines {
    /// The bytes that it was given, where they are told.
    ghost given: { Self → Option (List ℕ) };

    /// Shows a line, which comes without its end, as far as it can be shown.
    fn show(&mut self, line: &str)
        ensures { given self.new ≡ option_map (λ text. text ++ (line.now ++ 10 ∷ [])) (given self.old) };
}
