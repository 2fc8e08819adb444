//! Laws of mini sectors, each of a function that does nothing.
ghost use Rattle.cfb_mini.specs.Minis.{mini_joined, AreInside};
ghost use Rattle.std.specs.List.{flat_map};
ghost use Rattle.std.specs.Prelude.{length, slice_range, List, ℕ, ◌*◌, ◌+◌, ◌≡◌};

/// Mini sectors that a mini stream has are parts of it, of 64 bytes each ([MS-CFB] 2.4).
pub fn mini_sectors_are_parts()
    ensures { (stream minis : List ℕ) → AreInside (length stream) minis → mini_joined stream minis
        ≡ flat_map (λ n. slice_range stream (64 * n) (64 * n + 64)) minis }
{}
