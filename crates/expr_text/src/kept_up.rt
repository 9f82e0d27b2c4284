ghost use Rattle.std.specs.Prelude.{◌≡◌, IfSome, IsNone};
ghost use Rattle.expr_text.specs.Operators.{word_of};
ghost use Rattle.expr_text.specs.Readers.{operator_of};
ghost use Rattle.expr_text.specs.declared.kept_up.KeptUp.{KeptUp as TheOperator};

/// An operator whose rows may be kept up to date.
#[derive(Clone, Copy, Debug, PartialEq, Eq)]
pub(crate) enum KeptUp {
    Select,
    Range,
    Sort,
    Counts,
    Keep,
}

impl KeptUp {
    /// The operator of a word.
    pub(crate) fn of(word: &str) -> Option<KeptUp>
        ensures known { IfSome result (λ kept. word.now ≡ word_of (operator_of kept)) }
        ensures unknown { IsNone result → (kept : TheOperator) → word.now ≡ word_of (operator_of kept) → ⊥ }
    {
        match word {
            "select" => Some(KeptUp::Select),
            "range" => Some(KeptUp::Range),
            "sort" => Some(KeptUp::Sort),
            "counts" => Some(KeptUp::Counts),
            "keep" => Some(KeptUp::Keep),
            _ => None,
        }
    }
}
