//! Laws of the definitions that the contracts name.

ghost use Rattle.std.specs.Prelude.{◌≡◌, ◌∷◌, ◌++◌, ℕ, All, Bool, List, Some, map, true, false};
ghost use Rattle.std.specs.List.{list_any};
ghost use Rattle.hip_trace.specs.Entries.{entry_of};
ghost use Rattle.hip_trace.specs.Fits.{IsSpelled, ValuesFit};
ghost use Rattle.hip_trace.specs.Laws.{CanonicalTextsSpell, CanonicalTextsAreShortest, ReadersEnd};
ghost use Rattle.hip_trace.specs.Pieces.{is_separator, spelled};
ghost use Rattle.hip_trace.specs.Texts.{lines_of};
ghost use Rattle.hip_trace.specs.declared.entry.Entry.{Entry};

/// If some text spells an entry, its canonical text spells it.
pub fn canonical_texts_spell()
    ensures { CanonicalTextsSpell }
{}

/// No text that spells an entry is shorter than its canonical text.
pub fn canonical_texts_are_shortest()
    ensures { CanonicalTextsAreShortest }
{}

/// The entries that some text spells are those whose values fit the fields of a text, and each is spelled by its
/// canonical text.
pub fn entries_that_fit_are_spelled()
    ensures spelled { (e : Entry) → ValuesFit e → IsSpelled e }
    ensures fits { (text : List ℕ) → (e : Entry) → entry_of text ≡ Some e → ValuesFit e }
{}

/// Entries whose values fit are read back from their text, which has a line for each entry.
pub fn written_entries_are_read_back()
    ensures { (es : List Entry) → All ValuesFit es → spelled true (lines_of es) ≡ map (λ e. Some e) es }
{}

/// The first piece of a file, or of the front of a file, is what comes before its first separator.
pub fn pieces_are_stated_one_by_one()
    ensures { (whole : Bool) → (piece : List ℕ) → (separator : ℕ) → (rest : List ℕ) →
        list_any is_separator piece ≡ false → is_separator separator ≡ true →
        spelled whole (piece ++ separator ∷ rest) ≡ entry_of piece ∷ spelled whole rest }
{}

/// At the file's end there is no entry and nothing is malformed.
pub fn readers_end()
    ensures { ReadersEnd }
{}
