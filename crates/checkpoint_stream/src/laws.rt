//! Laws of reading.

ghost use Rattle.std.specs.Prelude.{◌≡◌, ◌≢◌, ◌<◌, ◌≤◌, ℕ, true, List, [], ◌∷◌, ◌++◌, All, length, take, count_ones};
ghost use Rattle.guest_rules.specs.declared.shapes.Shape.{Shape};
ghost use Rattle.epoch_snapshot.specs.declared.changes.PageChange.{PageChange};
ghost use Rattle.epoch_snapshot.specs.Checkpoints.{Change, IsCanonical};
ghost use Rattle.checkpoint_stream.specs.declared.place.Place.TheVariants.{Whole, Failed};
ghost use Rattle.checkpoint_stream.specs.declared.rules.Width.TheVariants.{Four, Eight};
ghost use Rattle.checkpoint_stream.specs.Bounds.{most_text};
ghost use Rattle.checkpoint_stream.specs.HeadTable.{bytes_of, head_table};
ghost use Rattle.checkpoint_stream.specs.Readings.{Reading, begun, fed, taken, is_closed};
ghost use Rattle.checkpoint_stream.specs.Sound.{change_in};
ghost use Rattle.checkpoint_stream.specs.Text.{head_numbers, number_units, page_units, sector_units, frame_units, joined, text};
ghost use Rattle.checkpoint_stream.specs.Units.{judged_all, AreUnits};
ghost use Rattle.checkpoint_stream.specs.Widths.{HasWidths};
ghost use Rattle.checkpoint_stream.specs.ReadBack.{ReadsBack};

/// Bytes in two pieces are read as in one.
pub fn any_pieces()
    ensures { (r : Reading) (xs ys : List ℕ) → fed r (xs ++ ys) ≡ fed (fed r xs) ys }
{}

/// Where a whole checkpoint stands, or a unit broke its rule, no more bytes are taken, and none change what stands.
pub fn closed_takes_nothing()
    ensures { (r : Reading) (bytes : List ℕ) → is_closed r.place ≡ true → (fed r bytes ≡ r) × (taken r bytes ≡ 0) }
{}

/// Whatever bytes come: where a whole checkpoint is read of them, it is canonical.
pub fn read_is_canonical()
    ensures { (shape : Shape) (offset : ℕ) (bytes : List ℕ) → (fed (begun shape offset) bytes).place ≡ Whole
        → IsCanonical (change_in (fed (begun shape offset) bytes)) }
{}

/// Bytes that are whole units, one after another, are read as these units.
pub fn units_are_read()
    ensures { (r : Reading) (units : List (List ℕ)) → AreUnits r units → fed r (joined units) ≡ judged_all r units }
{}

/// The text of a checkpoint of version 2 is its parts, one after another: the numbers of its head, and the records of its pages, of its
/// sectors and of its frames, each behind their count. It is no longer than the format allows.
pub fn texts_are_their_parts()
    ensures parts { (c : Change) → c.version ≡ 2 → text c ≡ joined (number_units head_table (head_numbers c))
        ++ ((bytes_of Four (length c.pages) ++ joined (page_units c.pages c.blocks))
        ++ ((bytes_of Four (length c.sectors) ++ joined (sector_units c.sectors))
        ++ (bytes_of Four (length c.frames) ++ joined (frame_units c.frames)))) }
    ensures page { (p : PageChange) (ps : List PageChange) (own later : List (List ℕ)) → length own ≡ count_ones p.mask
        → joined (page_units (p ∷ ps) (own ++ later))
        ≡ (bytes_of Four p.page ++ bytes_of Eight p.mask ++ joined own) ++ joined (page_units ps later) }
    ensures joined { (us vs : List (List ℕ)) → joined (us ++ vs) ≡ joined us ++ joined vs }
    ensures short { (c : Change) → c.version ≡ 2 → IsCanonical c → HasWidths c → length (text c) ≤ most_text c.shape }
{}

/// A checkpoint's text is taken whole, and read as this checkpoint.
pub fn text_is_read_back()
    ensures { (c : Change) → IsCanonical c → HasWidths c → ReadsBack c (text c) }
{}

/// Each byte of a text was needed: at no earlier one does a checkpoint stand whole, or a unit break its rule.
pub fn each_byte_is_needed()
    ensures { (c : Change) (offset : ℕ) (front rest : List ℕ) → IsCanonical c → HasWidths c → text c ≡ front ++ rest
        → is_closed (fed (begun c.shape offset) front).place ≡ true → rest ≡ [] }
{}

/// Where a unit broke its rule, no bytes that come after make a text.
pub fn malformed_begins_no_text()
    ensures { (c : Change) (offset at : ℕ) (bytes more : List ℕ) → IsCanonical c → HasWidths c
        → (fed (begun c.shape offset) bytes).place ≡ Failed at → text c ≢ bytes ++ more }
{}

/// No text begins another: each has one checkpoint, and ends where that ends.
pub fn no_text_begins_another()
    ensures { (c d : Change) (more : List ℕ) → IsCanonical c → HasWidths c → IsCanonical d → HasWidths d → c.shape ≡ d.shape
        → text c ++ more ≡ text d → (c ≡ d) × (more ≡ []) }
{}

/// What is read whole is the text of what it gives: the bytes that were taken are this checkpoint's one spelling.
pub fn read_is_its_text()
    ensures { (shape : Shape) (offset : ℕ) (bytes : List ℕ) → All (λ b. b < 256) bytes → (fed (begun shape offset) bytes).place ≡ Whole
        → take (taken (begun shape offset) bytes) bytes ≡ text (change_in (fed (begun shape offset) bytes)) }
{}
