ghost use Rattle.std.specs.Prelude.{◌≡◌, ℕ, ◌+◌, count_by};
ghost use Rattle.sample.specs.Lines.{adds, removes, sample_lines, sample_size};

/// A law of samples: the rows that a sample counts are those that its lines add without those that they remove, one each.
pub fn rows_are_added_and_removed()
    ensures { (number edits : ℕ) → sample_size number edits + count_by removes (sample_lines number edits) ≡ count_by adds (sample_lines number edits) }
{}
