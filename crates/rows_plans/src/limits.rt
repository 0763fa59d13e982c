// Vectors that the check computes: what passes a limit of the log, and what stands where memory runs out.
ghost use Rattle.std.specs.Prelude.{◌≡◌, [], ◌∷◌, Some, true, false};
ghost use Rattle.spec_log.specs.Limits.{passes_limit};
ghost use Rattle.spec_log.specs.declared.item.Record.TheVariants.{Start};
ghost use Rattle.spec_script.specs.declared.reply.Reply.TheVariants.{Rows};
ghost use Rattle.spec_words.specs.Views.{View, Gives};
ghost use Rattle.spec_run.specs.Begun.{begun_by, by_end};

/// A limit is passed by one more: 8,192 changes of a transaction, 1,048,576 changes and Undos in all, 268,435,456 bytes.
/// Each log has one Start, which announces so many changes of so many bytes, and a statement of transaction 1 makes one
/// change of 22 bytes, or none.
pub fn limit_vectors()
    ensures transaction { passes_limit (Start 1 1 (record { 0 = 1 }) 0 8191 0 [] ∷ []) 1 1 22 ≡ false }
    ensures transaction_passed { passes_limit (Start 1 1 (record { 0 = 1 }) 0 8192 0 [] ∷ []) 1 1 22 ≡ true }
    ensures all { passes_limit (Start 1 1 (record { 0 = 2 }) 0 524287 0 [] ∷ []) 1 1 22 ≡ false }
    ensures all_passed { passes_limit (Start 1 1 (record { 0 = 2 }) 0 524288 0 [] ∷ []) 1 1 22 ≡ true }
    ensures bytes { passes_limit (Start 1 1 (record { 0 = 2 }) 0 0 268435417 [] ∷ []) 1 1 22 ≡ false }
    ensures bytes_passed { passes_limit (Start 1 1 (record { 0 = 2 }) 0 0 268435418 [] ∷ []) 1 1 22 ≡ true }
    ensures none { passes_limit (Start 1 1 (record { 0 = 1 }) 0 8192 0 [] ∷ Start 1 1 (record { 0 = 2 }) 0 524288 268435456 [] ∷ []) 1 0 0 ≡ false }
{}

/// Where memory runs out at a COUNT of session 1 that has no transaction open, a refusal 701 stands for all of it: it
/// belongs to no transaction, and changes and takes nothing.
pub fn want_vectors()
    ensures { (view : View) → view.taken ≡ [] → (begun_by 1 1 0 (by_end [] 0 (Gives (Rows 7 []) view))).want ≡ Some (Start 1 1 (record { 0 = 0 }) 701 0 0 []) }
{}
