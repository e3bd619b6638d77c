//! What follows from the definitions.
ghost use Rattle.std.specs.Prelude.{◌≡◌, ℕ, List, map, true};
ghost use Rattle.mn_files.specs.Prelude.{all_differ, Network, IsLawful, OutputFile, file_name, files_of};
ghost use Rattle.mn_files.specs.Numbers.{IsNumber};

/// No two files of a topology that meets the rules have the same name.
pub fn names_differ()
    ensures { (folder : List ℕ) (topology : Network) → IsLawful topology →
        all_differ (map (file_name folder topology) (files_of topology)) ≡ true }
{}

/// No file has two numbers.
pub fn one_number()
    ensures { (topology : Network) (i j : ℕ) (out : OutputFile) →
        IsNumber topology i out → IsNumber topology j out → i ≡ j }
{}
