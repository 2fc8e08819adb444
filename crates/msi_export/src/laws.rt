//! Names of files are apart, and stay in their folder.
ghost use Rattle.std.specs.Prelude.{◌≡◌, ◌⊎◌, ◌<◌, ◌^◌, ◌==◌, ℕ, List, slice_index, false, true};
ghost use Rattle.std.specs.List.{AllPass};
ghost use Rattle.hex.specs.Hex.{IsBytes};
ghost use Rattle.msi_export.specs.FileNames.{file_name, is_safe, numbered_name};

/// Different names have different files.
pub fn different_names_have_different_files()
    ensures { (one other : List ℕ) → IsBytes one → IsBytes other
        → file_name true one ≡ file_name true other → one ≡ other }
{}

/// Names of different numbers have different files, also where they are cut.
pub fn numbered_names_have_different_files()
    ensures { (i j : ℕ) (one other : List ℕ) → i < 2 ^ 64 → j < 2 ^ 64 → IsBytes one
        → IsBytes other → numbered_name i one ≡ numbered_name j other
        → (one ≡ other) ⊎ (i ≡ j) }
{}

/// Letters, digits, `_`, `-`, `%` and dots alone stand in a name of a file, and no dot stands first. So it leads out of no folder.
pub fn files_stay_in_their_folder()
    ensures safe { (name : List ℕ) → IsBytes name → AllPass is_safe (file_name true name) }
    ensures first { (name : List ℕ) → (slice_index (file_name true name) 0 == 46) ≡ false }
{}
