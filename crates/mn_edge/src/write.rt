// Files, written in pieces.
ghost use Rattle.std.specs.Prelude.{◌≡◌, ◌++◌, [], List, ℕ, None, Some, IfErr, OnOk, OnErr, IsTrue, take};
ghost use Rattle.std.specs.Option.{ForSome};
ghost use Rattle.mn_edge.specs.Faults.{Counted, CountedUnless};
ghost use Rattle.mn_edge.specs.Files.{Files};
ghost use Rattle.mn_edge.specs.Kept.{Lacking};
ghost use Rattle.mn_edge.specs.Memory.{names_of};
ghost use Rattle.mn_edge.specs.Written.{PartWritten, Stands, all_known, laid, pairs, texts, written};

use crate::{DeviceBad, Shelf};

/// Begins the files of these names in order. It ends at the first refusal, when the first few stand, empty.
pub fn begin_all<S: Shelf>(shelf: &mut S, names: &[String]) -> Result<(), DeviceBad>
    ensures begun { OnOk result (ForSome (S.files shelf.old) (λ m.
        Stands (texts names.now) [] m (S.files shelf.new))) }
    ensures part { OnErr result (ForSome (S.files shelf.old) (λ m.
        (n : ℕ) × Stands (take n (texts names.now)) [] m (S.files shelf.new))) }
    ensures silent { S.files shelf.old ≡ None → S.files shelf.new ≡ None }
    ensures writes { Counted (S.write_faults shelf.old) (S.write_faults shelf.new) result }
    ensures reads { S.read_faults shelf.new ≡ S.read_faults shelf.old }
    ensures ends { IfErr result (λ e. S.refusal shelf.new ≡ Some e) }
{
    for name in names {
        shelf.begin(name.as_str())?;
    }
    Ok(())
}

/// Begins the files of these names in order, and then appends the pieces in order, each to the file that it
/// names. It ends at the first refusal.
pub fn write_all<S: Shelf>(
    shelf: &mut S,
    names: &[String],
    pieces: &[(String, Vec<u8>)],
) -> Result<(), DeviceBad>
    requires { IsTrue (all_known (texts names.now) (pairs pieces.now)) }
    ensures whole { OnOk result (ForSome (S.files shelf.old) (λ m.
        S.files shelf.new ≡ Some (laid (written (texts names.now) (pairs pieces.now)) m))) }
    ensures part { OnErr result (ForSome (S.files shelf.old) (λ m.
        PartWritten (written (texts names.now) (pairs pieces.now)) m (S.files shelf.new))) }
    ensures writes { Counted (S.write_faults shelf.old) (S.write_faults shelf.new) result }
    ensures reads { S.read_faults shelf.new ≡ S.read_faults shelf.old }
    ensures ends { IfErr result (λ e. S.refusal shelf.new ≡ Some e) }
{
    begin_all(shelf, names)?;
    append_all(shelf, pieces)
}

/// Appends the pieces in order, each to the file that it names. It ends at the first refusal.
///
/// The contract holds for every way to see the shelf's files as a base with some names laid over it, each
/// with its pieces `done` so far. So one call goes on where the last one ended.
pub fn append_all<S: Shelf>(shelf: &mut S, pieces: &[(String, Vec<u8>)]) -> Result<(), DeviceBad>
    ensures whole { OnOk result (
        (base : Files) (names : List (List ℕ)) (done : List (List ℕ × List ℕ)) →
        Stands names done base (S.files shelf.old) → IsTrue (all_known names (pairs pieces.now)) →
        Stands names (done ++ pairs pieces.now) base (S.files shelf.new)) }
    ensures part { OnErr result (
        (base : Files) (names : List (List ℕ)) (done : List (List ℕ × List ℕ)) →
        Stands names done base (S.files shelf.old) → IsTrue (all_known names (pairs pieces.now)) →
        PartWritten (written names (done ++ pairs pieces.now)) base (S.files shelf.new)) }
    ensures writes { CountedUnless (Lacking (names_of pieces.now) (S.files shelf.old))
        (S.write_faults shelf.old) (S.write_faults shelf.new) result }
    ensures reads { S.read_faults shelf.new ≡ S.read_faults shelf.old }
    ensures ends { IfErr result (λ e. S.refusal shelf.new ≡ Some e) }
{
    for piece in pieces {
        shelf.append(piece.0.as_str(), &piece.1)?;
    }
    Ok(())
}
