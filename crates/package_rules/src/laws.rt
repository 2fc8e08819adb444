//! What the lists of places say, in the words of the rules.
ghost use Rattle.std.specs.Prelude.{◌≡◌, ◌↔◌, ◌⊎◌, [], Contains};
ghost use Rattle.msi_listing.specs.Content.{ListingContent};
ghost use Rattle.package_rules.specs.Rules.{key_found, nullable_found};
ghost use Rattle.package_rules.specs.Sentences.{IsNullKey, IsUnbacked, IsUntakenNull, LeadsNowhere, RepeatsKey};
ghost use Rattle.package_rules.specs.Foreign.{foreign_found};
ghost use Rattle.package_rules.specs.Streams.{stream_found};
ghost use Rattle.package_rules.specs.declared.place.Place.{Place};

/// A place is told just where the cell there holds nothing, and its column takes no null.
pub fn nullable_is_told()
    ensures { (L : ListingContent) (at : Place) → Contains (nullable_found L) at ↔ IsUntakenNull L at }
{}

/// None is told just where there is no such cell.
pub fn nullable_is_kept()
    ensures { (L : ListingContent) → (nullable_found L ≡ []) ↔ ((at : Place) → ¬ (IsUntakenNull L at)) }
{}

/// A place is told just where the cell there is a null in a column of the key that takes none, or where its row, by the first column of the key, has the key of a row before it.
pub fn key_is_told()
    ensures { (L : ListingContent) (at : Place) → Contains (key_found L) at
        ↔ (IsNullKey L at ⊎ RepeatsKey L at) }
{}

/// None is told just where no key has a null in a column that takes none, and no row the key of a row before it.
pub fn key_is_kept()
    ensures { (L : ListingContent) → (key_found L ≡ [])
        ↔ ((at : Place) → ¬ (IsNullKey L at ⊎ RepeatsKey L at)) }
{}

/// A place is told just where the cell there is bytes, in a column of bytes, and no stream has their name.
pub fn stream_is_told()
    ensures { (L : ListingContent) (at : Place) → Contains (stream_found L) at ↔ IsUnbacked L at }
{}

/// None is told just where all such bytes have their stream.
pub fn stream_is_kept()
    ensures { (L : ListingContent) → (stream_found L ≡ []) ↔ ((at : Place) → ¬ (IsUnbacked L at)) }
{}

/// A place is told just where the cell there holds something that stands in none of the tables that `_Validation` names for its column.
pub fn foreign_is_told()
    ensures { (L : ListingContent) (at : Place) → Contains (foreign_found L) at ↔ LeadsNowhere L at }
{}

/// None is told just where each such cell stands in one of them.
pub fn foreign_is_kept()
    ensures { (L : ListingContent) → (foreign_found L ≡ []) ↔ ((at : Place) → ¬ (LeadsNowhere L at)) }
{}
