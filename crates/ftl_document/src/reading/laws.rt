//! A law on the answers of the reader.

ghost use Rattle.std.specs.Prelude.{◌≡◌, ◌≢◌, ◌≤◌, length, Result, Err};
ghost use Rattle.ftl_tokens.specs.scanner.Tokenized.{WideTokenized, symbols_of};
ghost use Rattle.ftl_tokens.specs.reading.Reader.{AreAtMost};
ghost use Rattle.ftl_meaning.specs.faults.Checked.{CheckedGrammar};
ghost use Rattle.ftl_document.specs.declared.faults.fault.DocFault.{DocFault};
ghost use Rattle.ftl_document.specs.declared.faults.fault.DocFault.TheVariants as fault;
ghost use Rattle.ftl_tree.specs.trees.CheckedTree.{CheckedTree};
ghost use Rattle.ftl_document.specs.reading.ReadTree.{ReadsTree};

/// A law: each text has one answer by a grammar, want of memory aside. Its tokens are as many as 32
/// bits count, and no number of theirs is above its greatest, as in each text that was scanned.
pub fn one_tree()
    ensures some { (c : CheckedGrammar) (s : WideTokenized)
        → length s.tokenized.tokens ≤ 4294967295 → AreAtMost s.greatest (symbols_of s.tokenized)
        → (answer : Result CheckedTree DocFault)
        × (answer ≢ Err fault.OutOfMemory) × ReadsTree c s answer }
    ensures any_two { (c : CheckedGrammar) (s : WideTokenized)
        (answer other : Result CheckedTree DocFault)
        → answer ≢ Err fault.OutOfMemory → other ≢ Err fault.OutOfMemory
        → ReadsTree c s answer → ReadsTree c s other → answer ≡ other }
{}
