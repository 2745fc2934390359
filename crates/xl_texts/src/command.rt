ghost use Rattle.std.specs.Prelude.{◌≡◌, ℕ, List, [], IfOk};
ghost use Rattle.xl_lines.specs.Soon.{silence};
ghost use Rattle.xl_texts.specs.Promises.{Promise, ReadsSo, ShowsSo};

use std::alloc::Global;
use xl_base::OutOfMemory;
use xl_lines::Teller;

/// A command that reads an input and writes a text about it.
pub trait TextCommand {
    /// What tells the text.
    type By: Teller;

    /// What it promises of the text.
    ghost promise: { Promise };

    /// What tells the text, before the first byte.
    fn open(alloc: Global) -> Result<Self::By, OutOfMemory>
        ensures told { IfOk result (λ by. (bytes : List ℕ) → Self.By.tells by bytes ≡ (promise).told bytes) }
        ensures soon { IfOk result (λ by. (bytes : List ℕ) → Self.By.soon by bytes ≡ (promise).soon bytes) }
        ensures reads { IfOk result (λ _. ReadsSo (promise).reads Self.By.tells) }
        ensures shows { IfOk result (λ _. ShowsSo (promise).shows Self.By.tells) }
        // Nothing is told before the first byte.
        ensures quiet { (promise).soon [] ≡ silence };
}
